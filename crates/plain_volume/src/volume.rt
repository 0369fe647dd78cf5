// A volume over maps.
ghost use Rattle.std.specs.Prelude.{◌≡◌, ◌↔◌, true, false, IfOk, IsTrue, OnOk, OnErr};
ghost use Rattle.std.specs.FinMap as map;
ghost use Rattle.volume_terms.specs.Sizes.{IsSizes};
ghost use Rattle.volume_terms.specs.VolumeSizes.{sizes_of};
ghost use Rattle.posix_profile.specs.Names.{settle};
ghost use Rattle.posix_profile.specs.Runs.{is_no_memory, is_stop, takes_no_memory};
ghost use Rattle.posix_profile.specs.Steps.{step};
ghost use Rattle.posix_profile.specs.laws.Fresh.{fresh};
ghost use Rattle.posix_profile.specs.laws.Sound.{IsSound};
ghost use Rattle.object_commands.specs.Running.{OfFirst};
ghost use Rattle.object_commands.specs.Volumes.{store_of, handles_of, is_read_only, is_stopped};
ghost use Rattle.plain_volume.specs.Runs.{RunsPlain};

use crate::objects::PlainObjects;
use object_commands::Volume;
use object_store::ObjectStore;
use posix_profile::{Errno, Reply, Stamped};
use std::alloc::{AllocError, Global};
use std::marker::Model;
use volume_terms::VolumeSizes;

/// A volume in memory. A command that would change a read-only one is refused.
#[derive(Drop)]
pub struct PlainVolume {
    alloc: Global,
    volume: Volume<PlainObjects>,
}

impl Model for PlainVolume {
    ghost use Rattle.plain_volume.specs.Views.{PlainView};
    ghost use Rattle.plain_volume.specs.Codes.{plain_code};

    ghost Value = { PlainView };

    ghost coded = { plain_code };

    ghost use Rattle.plain_volume.specs.Representing.{view_of, IsPlain};

    ghost view = { λ v. view_of v.volume };

    ghost invariant = { λ v. IsPlain v.volume };
}

/// A volume over these maps, with no descriptor open.
fn volume_over(
    alloc: Global,
    objects: PlainObjects,
    read_only: bool,
) -> Result<Volume<PlainObjects>, AllocError>
    ensures store { IfOk result (λ volume. store_of volume ≡ objects) }
    ensures handles { IfOk result (λ volume. handles_of volume ≡ map.empty) }
    ensures read_only { IfOk result (λ volume. is_read_only volume ≡ read_only) }
    ensures goes_on { IfOk result (λ volume. is_stopped volume ≡ false) }
{
    match Volume::new(alloc, objects, read_only) {
        Ok(volume) => Ok(volume),
        Err((_objects, error)) => Err(error),
    }
}

impl PlainVolume {
    /// An empty root, at moment 0.
    pub fn new(
        alloc: Global,
        sizes: VolumeSizes,
        read_only: bool,
    ) -> Result<PlainVolume, AllocError>
        requires { IsSizes (sizes_of sizes) }
        ensures { IfOk result (λ volume. volume ≡ record { sizes = sizes_of sizes; read_only = read_only; state = fresh }) }
    {
        let objects = PlainObjects::new(alloc, sizes)?;
        let volume = volume_over(alloc, objects, read_only)?;
        Ok(PlainVolume { alloc, volume })
    }

    /// The numbers of the volume.
    pub fn sizes(&self) -> VolumeSizes
        ensures { sizes_of result ≡ self.now.sizes }
    {
        self.volume.store().sizes()
    }

    /// Whether commands that would change it are refused.
    pub fn read_only(&self) -> bool
        ensures { result ≡ self.now.read_only }
    {
        self.volume.read_only()
    }

    /// Does a command and replies to it: as the step does, or by ENOMEM, and then nothing is done.
    pub fn call(&mut self, stamped: &Stamped) -> Reply
        ensures sizes { self.new.sizes ≡ self.old.sizes }
        ensures read_only { self.new.read_only ≡ self.old.read_only }
        ensures reply { is_no_memory result ≡ false → result ≡ (step self.old.sizes self.old.read_only self.old.state stamped.now).reply }
        ensures state { is_no_memory result ≡ false → self.new.state ≡ (step self.old.sizes self.old.read_only self.old.state stamped.now).state }
        ensures memory { is_no_memory result ≡ true → (self.new.state ≡ self.old.state) × (takes_no_memory stamped.now.command ≡ false) }
        ensures goes_on { is_stop result ≡ false }
        ensures sound { IsSound self.new.sizes self.new.state }
    {
        self.volume.call(stamped)
    }

    /// Answers a command. An `Err` leaves the volume.
    pub fn step(&mut self, stamped: &Stamped) -> Result<Reply, AllocError>
        ensures sizes { self.new.sizes ≡ self.old.sizes }
        ensures read_only { self.new.read_only ≡ self.old.read_only }
        ensures reply { IfOk result (λ reply. reply ≡ (step self.old.sizes self.old.read_only self.old.state stamped.now).reply) }
        ensures state { OnOk result (self.new.state ≡ (step self.old.sizes self.old.read_only self.old.state stamped.now).state) }
        ensures memory { OnErr result ((self.new.state ≡ self.old.state) × (takes_no_memory stamped.now.command ≡ false)) }
    {
        match self.call(stamped) {
            Reply::Error(Errno::ENOMEM) => Err(AllocError),
            reply => Ok(reply),
        }
    }

    /// Does the commands in turn and adds their replies at the end of the vector. Where a reply finds no room its command
    /// is not begun, nor is any after it.
    pub fn run(&mut self, commands: &[Stamped], replies: &mut Vec<Reply>) -> Result<(), AllocError>
        ensures sizes { self.new.sizes ≡ self.old.sizes }
        ensures read_only { self.new.read_only ≡ self.old.read_only }
        ensures runs { OfFirst commands.now result (λ n. RunsPlain self.old self.new commands.now n replies.old.items replies.new.items) }
    {
        self.volume.run(commands, replies)
    }

    /// A volume of the same state.
    pub fn copy(&self) -> Result<PlainVolume, AllocError>
        ensures { IfOk result (λ copy. copy ≡ self.now) }
    {
        let objects = self.volume.store().copy()?;
        match self.volume.copy_over(objects) {
            Ok(volume) => Ok(PlainVolume {
                alloc: self.alloc,
                volume,
            }),
            Err((_objects, error)) => Err(error),
        }
    }

    /// The volume that a mount makes of what this one would show: no descriptors, and the objects that names keep.
    pub fn settled(&self, read_only: bool) -> Result<PlainVolume, AllocError>
        ensures settles { IfOk result (λ volume. volume ≡ record { sizes = self.now.sizes; read_only = read_only; state = settle self.now.state }) }
        ensures sound { IfOk result (λ volume. IsSound volume.sizes volume.state) }
    {
        let objects = self.volume.store().settled()?;
        let volume = volume_over(self.alloc, objects, read_only)?;
        Ok(PlainVolume {
            alloc: self.alloc,
            volume,
        })
    }

    /// Whether both have the same objects at the same numbers. Descriptors are not looked at.
    pub fn same_objects(&self, other: &PlainVolume) -> bool
        ensures { IsTrue result ↔ (self.now.state.objects ≡ other.now.state.objects) }
    {
        self.volume.store().same(other.volume.store())
    }

    /// What a mount shows, in place of the state. An `Err` leaves the volume.
    pub fn settle(&mut self) -> Result<(), AllocError>
        ensures settles { OnOk result (self.new ≡ record self.old { state = settle self.old.state }) }
        ensures memory { OnErr result (self.new ≡ self.old) }
    {
        let settled = self.settled(self.read_only())?;
        *self = settled;
        Ok(())
    }
}
