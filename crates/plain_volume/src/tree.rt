// A tree for tests.
ghost use Rattle.std.specs.Prelude.{◌≡◌, ◌↔◌, false, IfOk, IsTrue, OnOk, OnErr};
ghost use Rattle.volume_terms.specs.Sizes.{IsSizes};
ghost use Rattle.volume_terms.specs.VolumeSizes.{sizes_of};
ghost use Rattle.posix_profile.specs.Names.{settle};
ghost use Rattle.posix_profile.specs.Runs.{takes_no_memory};
ghost use Rattle.posix_profile.specs.Steps.{step};
ghost use Rattle.posix_profile.specs.laws.Fresh.{fresh};
ghost use Rattle.plain_volume.specs.Lists.{IsMadeOf, Lists, ShowsTree, shown_of};
ghost use Rattle.plain_volume.specs.Sameness.{ReportsObjects, ReportsSame};

use crate::PlainVolume;
use crate::building::build;
use crate::fault::TreeFault;
use crate::list::TreeList;
use crate::reading::{read_tree, same_tree};
use posix_profile::{Answers, Reply, Stamped};
use std::alloc::{AllocError, Global};
use std::marker::Model;
use volume_terms::VolumeSizes;

/// A tree in memory, with descriptors, that is never read-only.
#[derive(Drop)]
pub struct PlainTree {
    alloc: Global,
    plain: PlainVolume,
}

impl Model for PlainTree {
    ghost use Rattle.plain_volume.specs.Views.{PlainView};
    ghost use Rattle.plain_volume.specs.Codes.{plain_code};

    ghost Value = { PlainView };

    ghost coded = { plain_code };

    ghost view = { λ t. t.plain };
}

impl PlainTree {
    /// The tree of a volume that was just formatted.
    pub fn new(alloc: Global, sizes: VolumeSizes) -> Result<PlainTree, AllocError>
        requires { IsSizes (sizes_of sizes) }
        ensures { IfOk result (λ tree. tree ≡ record { sizes = sizes_of sizes; read_only = false; state = fresh }) }
    {
        let plain = PlainVolume::new(alloc, sizes, false)?;
        Ok(PlainTree { alloc, plain })
    }

    /// The tree that a list reports, made by commands in a volume of these sizes: the same names, numbers, moments and bytes. Where
    /// objects were removed, room is needed for as many as the greatest number. `Unlike` where what is made is not what is listed.
    pub fn made_of(
        alloc: Global,
        sizes: VolumeSizes,
        list: &TreeList,
    ) -> Result<PlainTree, TreeFault>
        requires { IsSizes (sizes_of sizes) }
        ensures { IfOk result (λ tree. IsMadeOf list.now tree) }
    {
        let mut plain = PlainVolume::new(alloc, sizes, false)?;
        build(alloc, &mut plain, &list.entries)?;
        let tree = PlainTree { alloc, plain };
        if tree.has(list)? {
            Ok(tree)
        } else {
            Err(TreeFault::Unlike)
        }
    }

    /// The tree of a volume of these sizes, read by its commands and made again by them. The volume needs a descriptor that is
    /// free.
    pub fn read_from<V: Answers>(
        alloc: Global,
        sizes: VolumeSizes,
        volume: &mut V,
    ) -> Result<PlainTree, TreeFault>
        requires { IsSizes (sizes_of sizes) }
        ensures { IfOk result (λ tree. ReportsObjects V.shows volume.old volume.new (settle tree.state).objects) }
    {
        let list = TreeList::read(alloc, volume)?;
        PlainTree::made_of(alloc, sizes, &list)
    }

    /// Whether the list is what is read of what a mount shows of the tree.
    pub fn has(&self, list: &TreeList) -> Result<bool, TreeFault>
        ensures shows { IfOk result (λ same. ShowsTree self.now) }
        ensures listed { IfOk result (λ same. IsTrue same ↔ Lists list.now (shown_of self.now)) }
    {
        let mut plain = self.plain.settled(false)?;
        let made = read_tree(self.alloc, &mut plain)?;
        Ok(same_tree(&made, &list.entries))
    }

    /// The same tree once more, with the same descriptors.
    pub fn copy(&self) -> Result<PlainTree, AllocError>
        ensures { IfOk result (λ copy. copy ≡ self.now) }
    {
        Ok(PlainTree {
            alloc: self.alloc,
            plain: self.plain.copy()?,
        })
    }

    /// Answers a command. An `Err` leaves the tree.
    pub fn step(&mut self, stamped: &Stamped) -> Result<Reply, AllocError>
        ensures sizes { self.new.sizes ≡ self.old.sizes }
        ensures read_only { self.new.read_only ≡ self.old.read_only }
        ensures reply { IfOk result (λ reply. reply ≡ (step self.old.sizes self.old.read_only self.old.state stamped.now).reply) }
        ensures state { OnOk result (self.new.state ≡ (step self.old.sizes self.old.read_only self.old.state stamped.now).state) }
        ensures memory { OnErr result ((self.new.state ≡ self.old.state) × (takes_no_memory stamped.now.command ≡ false)) }
    {
        self.plain.step(stamped)
    }

    /// What a mount shows, in place of the tree. An `Err` leaves it.
    pub fn settle(&mut self) -> Result<(), AllocError>
        ensures settles { OnOk result (self.new ≡ record self.old { state = settle self.old.state }) }
        ensures memory { OnErr result (self.new ≡ self.old) }
    {
        self.plain.settle()
    }

    /// Whether the volume has the same tree: equal names, and under each the same number, kind, links, length, moment and
    /// bytes. Objects that descriptors alone keep are not looked at. The volume needs a descriptor that is free.
    pub fn same<V: Answers>(&self, volume: &mut V) -> Result<bool, TreeFault>
        ensures { IfOk result (ReportsSame V.shows volume.old volume.new (settle self.now.state).objects) }
    {
        let list = TreeList::read(self.alloc, volume)?;
        self.has(&list)
    }
}
