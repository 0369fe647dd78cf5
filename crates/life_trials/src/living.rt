// One session at a time. What these calls promise is not said again, so that what calls them is checked fast.
use anyhow::{Result, anyhow};
use exerciser::committed;
use nand_model::MemNand;
use plain_volume::PlainTree;
use posix_calls::Volume;
use powercut::{Session, SessionEnd, live};
use std::alloc::Global;

/// Lives through sessions.
fn live_all(
    alloc: Global,
    device: MemNand,
    sessions: &[Session],
) -> Result<(MemNand, Vec<SessionEnd>)> {
    match live(alloc, device, sessions) {
        Ok(lived) => Ok(lived),
        Err(fault) => Err(anyhow!("a life was not lived: {fault:?}")),
    }
}

/// Lives through one session, and returns its end.
pub(crate) fn live_through(
    alloc: Global,
    device: MemNand,
    session: &Session,
) -> Result<(MemNand, SessionEnd)> {
    let (device, mut ends) = live_all(alloc, device, std::slice::from_ref(session))?;
    match ends.pop() {
        Some(end) => Ok((device, end)),
        None => Err(anyhow!("a session has no end")),
    }
}

/// The volume of a device, after a power-up.
pub(crate) fn mounted(alloc: Global, mut device: MemNand) -> Result<Volume<MemNand>> {
    device.power_up();
    match Volume::mount(alloc, device) {
        Ok(volume) => Ok(volume),
        Err((_device, fault)) => Err(anyhow!("the next mount fails: {fault:?}")),
    }
}

/// Whether the volume has the tree.
pub(crate) fn has_tree(tree: &PlainTree, volume: &mut Volume<MemNand>) -> Result<bool> {
    match tree.same(volume) {
        Ok(is_same) => Ok(is_same),
        Err(fault) => Err(anyhow!("a tree is not read: {fault:?}")),
    }
}

/// How many commands of a session the volume shows, if it shows the tree after a prefix that the syncs cover.
pub(crate) fn shown(
    alloc: Global,
    before: &PlainTree,
    session: &Session,
    end: &SessionEnd,
    volume: &mut Volume<MemNand>,
) -> Result<Option<u64>> {
    match committed(alloc, before, &session.commands, end, volume) {
        Ok(found) => Ok(found),
        Err(fault) => Err(anyhow!("a tree is not read: {fault:?}")),
    }
}

/// The device of a volume that was read.
pub(crate) fn device_of(volume: Volume<MemNand>) -> MemNand {
    volume.abandon()
}
