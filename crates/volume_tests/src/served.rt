// A volume that a shell serves.

use line_shell::shell;
use nand_model::MemNand;
use plain_volume::Answers;
use posix_calls::{Errno, MountFault, Reply, Stamped, Volume};
use std::alloc::{AllocError, Global};
use std::process::Abort;

/// A volume on a device in memory.
#[derive(Drop)]
pub(crate) struct Served {
    volume: Volume<MemNand>,
}

impl Answers for Served {
    ghost serves = { λ old command reply new. Unit {0} };

    ghost shows = { λ _ _ _ _. ⊥ };

    fn answer(&mut self, stamped: &Stamped) -> Reply {
        self.volume.call(stamped)
    }

    ghost sound = { λ v z read_only s shown. absurd shown };
}

/// Mounts a device as it is, with a cache of so many pages.
pub(crate) fn try_mount(
    alloc: Global,
    nand: MemNand,
    capacity: usize,
) -> Result<Served, (MemNand, MountFault)> {
    match Volume::mount_with(alloc, nand, capacity) {
        Ok(volume) => Ok(Served { volume }),
        Err(failed) => Err(failed),
    }
}

/// Mounts a device as it is, and fails where it is no volume.
pub(crate) fn mount(rt: &impl Abort, alloc: Global, nand: MemNand, capacity: usize) -> Served {
    match try_mount(alloc, nand, capacity) {
        Ok(served) => served,
        Err((_nand, fault)) => panic!(rt; "{fault:?}"),
    }
}

/// Mounts a device as it is, with the cache that a mount has by itself, and fails where it is no volume.
pub(crate) fn mount_by_itself(rt: &impl Abort, alloc: Global, nand: MemNand) -> Served {
    match Volume::mount(alloc, nand) {
        Ok(volume) => Served { volume },
        Err((_nand, fault)) => panic!(rt; "{fault:?}"),
    }
}

/// What the shell answers to these lines.
pub(crate) fn answers<S: Answers>(
    rt: &impl Abort,
    alloc: Global,
    served: &mut S,
    lines: &[u8],
) -> Vec<u8> {
    let mut reader = lines;
    let mut answers = Vec::new(alloc);
    shell(alloc, &mut reader, &mut answers, served).expect(rt, "a shell");
    answers
}

impl Served {
    /// Does commands in a run.
    pub(crate) fn run(
        &mut self,
        commands: &[Stamped],
        replies: &mut Vec<Reply>,
    ) -> Result<(), AllocError> {
        self.volume.run(commands, replies)
    }

    /// Refreshes a block.
    pub(crate) fn refresh(&mut self, block: u32) -> Result<(), Errno> {
        self.volume.refresh(block)
    }

    /// Gives the device back without a call.
    pub(crate) fn abandon(self) -> MemNand {
        self.volume.abandon()
    }

    /// Gives the device back once all is written, and returns whether it is.
    pub(crate) fn unmount(self) -> (MemNand, bool) {
        let (nand, reply) = self.volume.unmount();
        (nand, matches!(reply, Reply::Done))
    }
}
