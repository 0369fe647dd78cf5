// A volume over pages.
ghost use Rattle.std.specs.Prelude.{◌≡◌, ◌⊎◌, ◌≤◌, ℕ, true, false, length, Err, OnOk};
ghost use Rattle.std.specs.FinMap as map;
ghost use Rattle.volume_terms.specs.Sizes.{Sizes, most_written};
ghost use Rattle.lives.specs.Lives.{at_mount};
ghost use Rattle.posix_profile.specs.Requests.{stamped_of};
ghost use Rattle.posix_profile.specs.State.{Objects, State};
ghost use Rattle.posix_profile.specs.declared.reply.Errno.TheVariants as errors;
ghost use Rattle.posix_profile.specs.declared.reply.Reply.TheVariants as replies;
ghost use Rattle.object_store.specs.Stores.{settled};
ghost use Rattle.object_store.specs.Reported.{table_sizes};
ghost use Rattle.pages.specs.Stores.{GoesOn};
ghost use Rattle.paged_objects.specs.Ending.{HasEnded};
ghost use Rattle.paged_objects.specs.Representing.{Shown};

use command_plans::table::DescriptorTable;
use object_commands::Volume;
use object_store::ObjectStore;
use paged_objects::PagedObjects;
use pages::PageStore;
use posix_profile::{Errno, Info, Reply, Stamped, StampedRequest};
use std::alloc::{AllocError, Global};

/// A volume whose objects lie in pages. One that is stopped answers EIO to each command.
#[derive(Drop)]
pub struct PageVolume<P: PageStore> {
    volume: Volume<PagedObjects<P>>,
}

impl<P: PageStore> PageVolume<P> {
    ghost use Rattle.posix_calls.specs.PageVolumes.{pages_of, table_of, is_read_only, is_stopped, IsStoredAs, IsVolumeOf};
    ghost use Rattle.command_plans.specs.Tables.{handles_in};
    ghost use Rattle.paged_objects.specs.Parts as parts;
    ghost use Rattle.object_commands.specs.Describing.{Describes};
    ghost use Rattle.object_commands.specs.Reads.{LeavesRest, asked_of, read_reply, reading};
    ghost use Rattle.posix_calls.specs.Calls.{IsCalled};
    ghost use Rattle.posix_calls.specs.Refreshing.{IsRefreshed};
    ghost use Rattle.posix_calls.specs.Closing.{CanWrite, KeepsOnly, ShowsOldOrNew};
    ghost use Rattle.posix_calls.specs.Running.{RunsPages};

    /// A volume of objects in pages, with a table of descriptors of which none is open.
    pub fn new(
        alloc: Global,
        objects: PagedObjects<P>,
        descriptors: DescriptorTable,
        read_only: bool,
    ) -> PageVolume<P>
        requires { handles_in descriptors ≡ map.empty }
        ensures pages { pages_of result ≡ parts.pages_of objects }
        ensures table { table_of result ≡ parts.table_of objects }
        ensures read_only { is_read_only result ≡ read_only }
        ensures goes_on { is_stopped result ≡ false }
        ensures at { (tree : Objects) → IsStoredAs P.state objects read_only tree → IsVolumeOf P.state (table_sizes (parts.table_of objects)) (at_mount tree) result }
    {
        PageVolume {
            volume: Volume::over(alloc, objects, descriptors, read_only),
        }
    }

    /// Does a command and replies to it.
    pub fn ask(&mut self, issued: &StampedRequest<'_>) -> Reply
        ensures { IsCalled P.state self.old (stamped_of issued.now) result self.new }
    {
        self.volume.ask(issued)
    }

    /// Reads at a descriptor's offset into a buffer, as the command of as many bytes as it has room for, and returns how many were
    /// read. What lies past them in the buffer stays; after EIO and ENOMEM it may hold anything.
    pub fn read_into(&mut self, fd: u32, buffer: &mut [u8]) -> Result<usize, Errno>
        ensures size { length buffer.new ≡ length buffer.old }
        ensures rest { LeavesRest buffer.old buffer.new result }
        ensures called { IsCalled P.state self.old (reading fd (asked_of buffer.old)) (read_reply buffer.new result) self.new }
    {
        self.volume.read_into(fd, buffer)
    }

    /// Moves what is committed in a block of the device into another, so that the old pages are not needed any more; all else stays.
    /// A volume that is stopped returns EIO, and a read-only one EROFS. Another one is stopped by EIO, where the device failed or nothing
    /// is left to write with.
    pub fn refresh(&mut self, block: u32) -> Result<(), Errno>
        ensures { IsRefreshed P.state block self.old result self.new }
    {
        if self.volume.stopped() {
            return Err(Errno::EIO);
        }
        if self.volume.read_only() {
            return Err(Errno::EROFS);
        }
        let refreshed = self.volume.store_mut().refresh(block);
        match refreshed {
            Ok(()) => Ok(()),
            Err(_) => {
                self.volume.stop();
                Err(Errno::EIO)
            }
        }
    }

    /// Does the commands in turn and adds their replies at the end of the vector. Where a reply finds no room its command
    /// is not begun, nor is any after it.
    pub fn run(&mut self, commands: &[Stamped], replies: &mut Vec<Reply>) -> Result<(), AllocError>
        ensures goes_on { GoesOn (P.state (pages_of self.old)) (P.state (pages_of self.new)) }
        ensures keeps { (is_read_only self.new ≡ is_read_only self.old) × (table_sizes (table_of self.new) ≡ table_sizes (table_of self.old)) }
        ensures runs { (n : ℕ) × (n ≤ length commands.now) × OnOk result (n ≡ length commands.now)
            × RunsPages P.state commands.now n replies.old.items replies.new.items self.old self.new }
    {
        self.volume.run(commands, replies)
    }

    /// Closes all descriptors, commits what was accepted and gives the pages back, with the reply Done or EIO. A read-only
    /// volume makes no call.
    pub fn finish(mut self) -> (P, Reply)
        ensures goes_on { GoesOn (P.state (pages_of self)) (P.state result.0) }
        ensures stopped { is_stopped self ≡ true → (result.1 ≡ replies.Error errors.EIO) × (P.state result.0 ≡ P.state (pages_of self)) }
        ensures read_only { is_read_only self ≡ true → P.state result.0 ≡ P.state (pages_of self) }
        ensures replies { is_stopped self ≡ false → (result.1 ≡ replies.Done) ⊎ (result.1 ≡ replies.Error errors.EIO) }
        // Done is answered by a device that has not lost its power at the end.
        ensures power { result.1 ≡ replies.Done → (P.state (pages_of self)).device.gone ≡ false → (P.state result.0).device.gone ≡ false }
        // There is nothing to fail at the end of a read-only volume.
        ensures read_only_done { is_stopped self ≡ false → is_read_only self ≡ true → result.1 ≡ replies.Done }
        ensures done { is_stopped self ≡ false → (z : Sizes) (s : State) → IsVolumeOf P.state z s self → result.1 ≡ replies.Done
            → Shown z (P.state result.0) (settled s.objects) }
        ensures tree { is_stopped self ≡ false → (z : Sizes) (s : State) → IsVolumeOf P.state z s self
            → ShowsOldOrNew z (P.state (pages_of self)) (P.state result.0) (settled s.objects) }
        ensures cause { is_stopped self ≡ false → (z : Sizes) (s : State) → IsVolumeOf P.state z s self → result.1 ≡ replies.Error errors.EIO
            → HasEnded (P.state (pages_of self)) (P.state result.0) }
        // After Done the committed pages are those of the tree, and no others.
        ensures exact { (z : Sizes) (s : State) → CanWrite P.state z s self → result.1 ≡ replies.Done → KeepsOnly z (P.state result.0) (settled s.objects) }
    {
        if self.stopped() {
            return (self.into_pages(), Reply::Error(Errno::EIO));
        }
        if self.read_only() {
            return (self.into_pages(), Reply::Done);
        }
        if !self.close_all() {
            return (self.into_pages(), Reply::Error(Errno::EIO));
        }
        let mut objects = self.volume.into_store();
        let reply = match objects.commit() {
            Ok(()) => Reply::Done,
            Err(_) => Reply::Error(Errno::EIO),
        };
        (objects.into_pages(), reply)
    }

    /// Gives the pages back as they are, as if power were lost between two calls.
    pub fn into_pages(self) -> P
        ensures { result ≡ pages_of self }
    {
        self.volume.into_store().into_pages()
    }

    /// What Stat reports of the object that a descriptor refers to, which need not have a name. It makes no call of the device.
    pub fn describe(&self, fd: u32) -> Result<Info, Errno>
        ensures stopped { is_stopped self.now ≡ true → result ≡ Err errors.EIO }
        ensures describes { is_stopped self.now ≡ false → (z : Sizes) (s : State) → IsVolumeOf P.state z s self.now → Describes s fd result }
    {
        self.volume.describe(fd)
    }

    /// The most bytes that one Write writes.
    pub fn most_written(&self) -> u64
        ensures { result ≡ most_written (table_sizes (table_of self.now)) }
    {
        self.volume.store().sizes().most_written()
    }

    /// Whether commands that would change it are refused.
    pub fn read_only(&self) -> bool
        ensures { result ≡ is_read_only self.now }
    {
        self.volume.read_only()
    }

    /// Whether it answers EIO to each command.
    pub fn stopped(&self) -> bool
        ensures { result ≡ is_stopped self.now }
    {
        self.volume.stopped()
    }
}
