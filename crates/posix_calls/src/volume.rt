// A volume on a device.
ghost use Rattle.std.specs.Prelude.{◌≡◌, ◌≤◌, ℕ, false, length, OnOk};
ghost use Rattle.volume_terms.specs.Sizes.{most_written};
ghost use Rattle.object_store.specs.Reported.{table_sizes};
ghost use Rattle.posix_profile.specs.Requests.{stamped_of};
ghost use Rattle.posix_profile.specs.declared.reply.Reply.TheVariants as replies;
ghost use Rattle.page_store.specs.PagesOf.{mounted_pages};

use crate::PageVolume;
use crate::ending::end_with;
use nand_model::{Nand, TrustedNand};
use page_store::FlashPages;
use posix_profile::{Errno, Info, Reply, Stamped, StampedRequest};
use std::alloc::AllocError;

/// A mounted volume. One that is stopped answers EIO to each command until the next mount.
///
/// What was accepted lies in memory until a sync, an unmount, or until it is more than the buffer takes; after a loss of power
/// the next mount shows the tree after some of the commands, at least all up to the last sync that was done.
#[derive(Drop)]
pub struct Volume<N: Nand>
where
    TrustedNand<N>: Nand,
{
    pub(crate) volume: PageVolume<FlashPages<TrustedNand<N>>>,
}

impl<N: Nand> Volume<N> {
    ghost use Rattle.object_commands.specs.Reads.{LeavesRest, asked_of, read_reply, reading};
    ghost use Rattle.posix_calls.specs.Running.{RunsPages};
    ghost use Rattle.posix_calls.specs.PageVolumes.{pages_of, table_of, is_read_only, is_stopped};
    ghost use Rattle.page_store.specs.FlashSealing.{IsDueOf, check_pages_of};
    ghost use Rattle.posix_calls.specs.Calls.{IsCalled, VolumeGoesOn};
    ghost use Rattle.posix_calls.specs.Describing.{IsDescribed};
    ghost use Rattle.posix_calls.specs.Refreshing.{IsRefreshed};
    ghost use Rattle.posix_calls.specs.Endings.{IsUnmounted, LeavesCheckpoint, LiesOn};
    ghost use Rattle.posix_calls.specs.Volumes.{over_pages};

    /// Does a command and replies to it.
    pub fn ask(&mut self, issued: &StampedRequest<'_>) -> Reply
        ensures { IsCalled mounted_pages (over_pages self.old) (stamped_of issued.now) result (over_pages self.new) }
    {
        self.volume.ask(issued)
    }

    /// Reads at a descriptor's offset into a buffer, as the command of as many bytes as it has room for, and returns how many were
    /// read. What lies past them in the buffer stays; after EIO and ENOMEM it may hold anything.
    pub fn read_into(&mut self, fd: u32, buffer: &mut [u8]) -> Result<usize, Errno>
        ensures size { length buffer.new ≡ length buffer.old }
        ensures rest { LeavesRest buffer.old buffer.new result }
        ensures called { IsCalled mounted_pages (over_pages self.old) (reading fd (asked_of buffer.old)) (read_reply buffer.new result) (over_pages self.new) }
    {
        self.volume.read_into(fd, buffer)
    }

    /// Does a command that is a value, and replies to it.
    pub fn call(&mut self, stamped: &Stamped) -> Reply
        ensures { IsCalled mounted_pages (over_pages self.old) stamped.now result (over_pages self.new) }
    {
        self.ask(&stamped.as_request())
    }

    /// Moves what is committed in a block of the device into another, so that the old pages are not needed any more; all else stays. It
    /// is for a block whose pages are read with many errors, between any two calls, as when nothing else is to be done.
    ///
    /// A volume that is stopped returns EIO, and a read-only one EROFS. Another one is stopped by EIO, where the device failed or nothing
    /// is left to write with.
    pub fn refresh(&mut self, block: u32) -> Result<(), Errno>
        ensures { IsRefreshed mounted_pages block (over_pages self.old) result (over_pages self.new) }
    {
        self.volume.refresh(block)
    }

    /// Does the commands in turn and adds their replies at the end of the vector. Where a reply finds no room its command
    /// is not begun, nor is any after it.
    pub fn run(&mut self, commands: &[Stamped], replies: &mut Vec<Reply>) -> Result<(), AllocError>
        ensures goes_on { VolumeGoesOn mounted_pages (over_pages self.old) (over_pages self.new) }
        ensures runs { (n : ℕ) × (n ≤ length commands.now) × OnOk result (n ≡ length commands.now)
            × RunsPages mounted_pages commands.now n replies.old.items replies.new.items (over_pages self.old) (over_pages self.new) }
    {
        self.volume.run(commands, replies)
    }

    /// Closes all descriptors, commits what was accepted, writes a checkpoint where one is due, and gives the device back, with the
    /// reply Done, or Error of EIO where that could not be done. A read-only volume makes no call.
    pub fn unmount(self) -> (N, Reply)
        ensures ends { IsUnmounted mounted_pages (over_pages self) (N.state result.0) result.1 }
        ensures leaves { is_read_only (over_pages self) ≡ false → result.1 ≡ replies.Done
            → LeavesCheckpoint mounted_pages IsDueOf check_pages_of (over_pages self) (N.state result.0) }
    {
        let read_only = self.volume.read_only();
        let (pages, reply) = self.volume.finish();
        if read_only {
            return (pages.into_device().into_inner(), reply);
        }
        let (device, reply) = end_with(pages, reply);
        (device.into_inner(), reply)
    }

    /// Gives the device back as it is, as if power were lost between two calls.
    pub fn abandon(self) -> N
        ensures { LiesOn (mounted_pages (pages_of (over_pages self))) (N.state result) }
    {
        self.volume.into_pages().into_device().into_inner()
    }

    /// What Stat reports of the object that a descriptor refers to, which need not have a name. It makes no call of the device.
    pub fn describe(&self, fd: u32) -> Result<Info, Errno>
        ensures { IsDescribed mounted_pages (over_pages self.now) fd result }
    {
        self.volume.describe(fd)
    }

    /// The most bytes that one Write writes, of however many.
    pub fn most_written(&self) -> u64
        ensures { result ≡ most_written (table_sizes (table_of (over_pages self.now))) }
    {
        self.volume.most_written()
    }

    /// Whether commands that would change it are refused.
    pub fn read_only(&self) -> bool
        ensures { result ≡ is_read_only (over_pages self.now) }
    {
        self.volume.read_only()
    }

    /// Whether it answers EIO to each command.
    pub fn stopped(&self) -> bool
        ensures { result ≡ is_stopped (over_pages self.now) }
    {
        self.volume.stopped()
    }
}
