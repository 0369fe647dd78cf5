// The sessions and the mounts of an exercise that no fuse cuts.
ghost use Rattle.std.specs.Prelude.{◌≡◌, ◌≢◌, false, None, is_some, IfOk, IfErr, IfSome};
ghost use Rattle.volume_terms.specs.Sizes.{IsSizes};
ghost use Rattle.volume_terms.specs.VolumeSizes.{sizes_of};
ghost use Rattle.nand_model.specs.MemoryState.{device, plan};
ghost use Rattle.powercut.specs.Planning.{calls_since};
ghost use Rattle.mounting.specs.declared.fault.MountFault.{MountFault};
ghost use Rattle.mounting.specs.declared.fault.MountFault.TheVariants as mounts;
ghost use Rattle.plain_volume.specs.Lists.{IsMadeOf, Lists, ListsShown};
ghost use Rattle.powercut.specs.Living.{IsTrueOn};
ghost use Rattle.powercut.specs.Sessions.{IsEnded};
ghost use Rattle.exerciser.specs.Faults.{IsOfReading};
ghost use Rattle.page_store.specs.Checked.{HasTrueFlash};
ghost use Rattle.exerciser.specs.Causes.{IsAnswered, CountsCalls, IsTreeOn, MountsAs, ShowsFlash, WhyNotBegun, WhyUncounted, WhyUnseen};
ghost use Rattle.exerciser.specs.Draws.{IsCountOf};
ghost use Rattle.exerciser.specs.Keeping.{IsDurable, IsLeast, IsTreeShown};
ghost use Rattle.exerciser.specs.Seen.{IsSeen, tree_in};
ghost use Rattle.exerciser.specs.declared.fault.CutFault.TheVariants as faults;
ghost use Rattle.exerciser.specs.declared.seen.Seen.TheVariants as seens;

use crate::fault::CutFault;
use crate::keeping::least_committed;
use crate::seen::Seen;
use crate::sizes::sizes_with;
use nand_model::{Geometry, MemNand, Nand};
use plain_volume::{Answers, PlainTree, TreeFault, TreeList};
use posix_calls::{MountFault, Volume};
use posix_profile::{Command, Reply, Stamped};
use powercut::{Session, SessionEnd, live_one};
use std::alloc::Global;
use volume_terms::VolumeSizes;

/// A device and the tree that a mount of it shows.
#[derive(Drop)]
pub(crate) struct KnownDevice {
    pub(crate) device: MemNand,
    pub(crate) tree: PlainTree,
}

/// What commands report on a volume: its sizes, and its tree.
#[derive(Drop)]
struct Reported {
    sizes: VolumeSizes,
    list: TreeList,
}

/// Reads what a mounted volume on a device of these sizes reports.
#[tactic(auto, using(crate::proofs::Sessions::of_tree_is_reading))]
fn read<V: Answers>(alloc: Global, geometry: Geometry, volume: &mut V) -> Result<Reported, CutFault>
    ensures sizes { IfOk result (λ reported. IsSizes (sizes_of reported.sizes)) }
    ensures list { IfOk result (λ reported. ListsShown V.shows volume.old reported.list) }
    ensures fault { IfErr result IsOfReading }
{
    let list = TreeList::read(alloc, volume)?;
    let issued = Stamped {
        moment: 0,
        command: Command::Space,
    };
    let Reply::SpaceInfo(space) = volume.answer(&issued) else {
        return Err(CutFault::Unread);
    };
    match sizes_with(geometry, space.total) {
        Some(sizes) => Ok(Reported { sizes, list }),
        None => Err(CutFault::Unread),
    }
}

/// The tree that is reported; none where it cannot be made again.
fn made_of(alloc: Global, reported: &Reported) -> Result<Option<PlainTree>, CutFault>
    requires { IsSizes (sizes_of reported.now.sizes) }
    ensures made { IfOk result (λ made. IfSome made (IsMadeOf reported.now.list)) }
    ensures fault { IfErr result IsOfReading }
{
    match PlainTree::made_of(alloc, reported.sizes, &reported.list) {
        Ok(tree) => Ok(Some(tree)),
        Err(TreeFault::NoMemory) => Err(CutFault::NoMemory),
        Err(_) => Ok(None),
    }
}

/// Mounts a device from a power-up on.
fn mount(alloc: Global, mut nand: MemNand) -> Result<Volume<MemNand>, (MemNand, MountFault)>
    ensures shows { IfOk result (λ volume. HasTrueFlash (device nand) → ShowsFlash ⟦<Volume<MemNand> as Answers>⟧.shows (device nand) volume) }
    ensures fault { IfErr result (λ failed. IsAnswered (device nand) failed.1) }
{
    nand.power_up();
    match Volume::mount(alloc, nand) {
        Ok(volume) => Ok(volume),
        Err(failed) => Err(failed),
    }
}

/// The device with the tree that it shows. A copy of it is mounted.
pub(crate) fn begin(alloc: Global, nand: MemNand) -> Result<KnownDevice, CutFault>
    ensures device { IfOk result (λ known_device. device known_device.device ≡ device nand) }
    ensures tree { IfOk result (λ known_device. IsTreeOn (device nand) known_device.tree) }
    ensures fault { IfErr result (WhyNotBegun (device nand)) }
{
    let copy = nand.copy()?;
    match mount(alloc, copy) {
        Ok(mut volume) => {
            let reported = read(alloc, nand.geometry(), &mut volume)?;
            match made_of(alloc, &reported)? {
                Some(tree) => Ok(KnownDevice { device: nand, tree }),
                None => Err(CutFault::Unread),
            }
        }
        Err((_copy, fault)) => Err(CutFault::from(fault)),
    }
}

/// Does a session on the device, and returns how it ended.
pub(crate) fn live_once(
    alloc: Global,
    nand: MemNand,
    session: &Session,
) -> Result<(MemNand, SessionEnd), CutFault>
    ensures ended { IfOk result (λ lived. IsEnded session.now lived.1 (device nand) (device lived.0)) }
    ensures truth { IfOk result (λ lived. IsTrueOn (device nand) → IsTrueOn (device lived.0)) }
    ensures calls { IfOk result (λ lived. (device lived.0).gone ≡ false → (plan lived.0).calls ≡ calls_since (device nand) (device lived.0)) }
    ensures fault { IfErr result (λ e. e ≡ faults.NoMemory) }
{
    let (last, end) = live_one(alloc, nand, session)?;
    Ok((last, end))
}

/// So many calls, where the session was mounted and unmounted, and else why it was not.
fn calls_of(end: &SessionEnd, calls: u64) -> Result<u64, CutFault>
    ensures { CountsCalls end.now calls result }
{
    match (end.mounted, &end.unmounted) {
        (Ok(()), Some(Reply::Done)) => Ok(calls),
        (Err(MountFault::NoMemory), _) => Err(CutFault::NoMemory),
        (_, _) => Err(CutFault::Unmount),
    }
}

/// How many calls of a device a session makes that is not cut, up to the end of its unmount.
pub(crate) fn count_calls(alloc: Global, nand: &MemNand, session: &Session) -> Result<u64, CutFault>
    requires { is_some session.now.fuse ≡ false }
    ensures totaled { IfOk result (IsCountOf (device nand.now) session.now) }
    ensures fault { IfErr result (WhyUncounted (device nand.now) session.now) }
{
    let (last, end) = live_once(alloc, nand.copy()?, session)?;
    calls_of(&end, last.calls())
}

/// What is seen of a session that left what this list reports, of which this tree was made, or none.
#[tactic(auto, using(crate::proofs::Sessions::of_tree_is_reading))]
fn judge(
    before: &PlainTree,
    script: &[Stamped],
    replies: &[Reply],
    list: &TreeList,
    made: Option<PlainTree>,
) -> Result<Seen, CutFault>
    requires { IfSome made (IsMadeOf list.now) }
    ensures seen { IfOk result (IsSeen before.now script.now replies.now) }
    ensures tree { IfOk result (λ seen. IfSome (tree_in seen) (IsMadeOf list.now)) }
    ensures torn { IfOk result (λ seen. seen ≡ seens.Torn None → IsLeast before.now script.now replies.now (Lists list.now) None) }
    ensures mounted { IfOk result (λ seen. (fault : MountFault) → seen ≡ seens.Mount fault → ⊥) }
    ensures fault { IfErr result IsOfReading }
{
    let found = least_committed(before, script, replies, list)?;
    match (found, made) {
        (Some(count), Some(tree)) => Ok(Seen::Committed(count, tree)),
        (Some(_), None) => Err(CutFault::Unread),
        (None, made) => Ok(Seen::Torn(made)),
    }
}

/// Compares what a volume shows with the trees that a session may leave that began with the tree `before`, and ended so. The
/// volume, which needs a free descriptor, is read by its commands and not changed.
pub fn compare<V: Answers>(
    alloc: Global,
    geometry: Geometry,
    before: &PlainTree,
    script: &[Stamped],
    end: &SessionEnd,
    volume: &mut V,
) -> Result<Seen, CutFault>
    ensures seen { IfOk result (IsSeen before.now script.now end.now.replies.items) }
    ensures tree { IfOk result (λ seen. IfSome (tree_in seen) (IsTreeShown V.shows volume.old)) }
    ensures torn { IfOk result (λ seen. seen ≡ seens.Torn None → IsDurable V.shows volume.old before.now script.now end.now.replies.items None) }
    ensures mounted { IfOk result (λ seen. (fault : MountFault) → seen ≡ seens.Mount fault → ⊥) }
    ensures fault { IfErr result IsOfReading }
{
    let reported = read(alloc, geometry, volume)?;
    let made = made_of(alloc, &reported)?;
    judge(before, script, &end.replies, &reported.list, made)
}

/// What is seen where a mount has this fault.
fn seen_of(fault: MountFault) -> Result<Seen, CutFault>
    ensures seen { IfOk result (λ seen. (seen ≡ seens.Mount fault) × (fault ≢ mounts.NoMemory)) }
    ensures fault { IfErr result (λ e. e ≡ faults.NoMemory) }
{
    match fault {
        MountFault::NoMemory => Err(CutFault::NoMemory),
        _ => Ok(Seen::Mount(fault)),
    }
}

/// What a mount of a copy of the device shows after a session from this tree on.
pub(crate) fn look(
    alloc: Global,
    nand: &MemNand,
    tree: &PlainTree,
    script: &[Stamped],
    end: &SessionEnd,
) -> Result<Seen, CutFault>
    ensures seen { IfOk result (IsSeen tree.now script.now end.now.replies.items) }
    ensures mounts { IfOk result (MountsAs (device nand.now) tree.now script.now end.now.replies.items) }
    ensures fault { IfErr result (WhyUnseen (device nand.now)) }
{
    let copy = nand.copy()?;
    match mount(alloc, copy) {
        Ok(mut volume) => compare(alloc, nand.geometry(), tree, script, end, &mut volume),
        Err((_copy, fault)) => seen_of(fault),
    }
}
