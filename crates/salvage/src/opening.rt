// The opening of a device whose tree may be damaged.
ghost use Rattle.std.specs.Prelude.{◌≡◌, true, false, IfOk, IfErr};
ghost use Rattle.nand_model.specs.Changes.{OnlyReads};
ghost use Rattle.mounting.specs.NewestMaps.{IsNewestMap};
ghost use Rattle.volume_check.specs.Verdicts.{ShowsVolume};
ghost use Rattle.salvage.specs.Opened.{AnswersTree, CanBeRead, FindsNewest, FindsSurvivors, GoesBy, WhyNotOpened, is_whole, whole_by};
ghost use Rattle.salvage.specs.StateOf.{device_in, lost_in, state};

use crate::fault::SalvageFault;
use crate::salvage::Salvage;
use flash_tree::a_flash_has_one_answer_at_most;
use nand_model::{Nand, reads_change_nothing};
use page_store::{OpenFault, open, the_opened_pages_are_the_newest};
use std::alloc::Global;
use surviving_pages::{Survivors, open_surviving, the_surviving_pages_have_data};
use volume_check::{CheckFault, Diagnosis, Verdict, diagnose};

/// Whether a verdict is that of a whole tree.
fn is_whole(verdict: Verdict) -> bool
    ensures { result ≡ is_whole verdict }
{
    match verdict {
        Verdict::Whole => true,
        Verdict::NotAVolume => false,
        Verdict::Newer(_) => false,
        Verdict::Damaged => false,
    }
}

/// Whether a check found a whole tree. A device that does not return what was written has none.
fn whole_by(found: Result<Diagnosis, CheckFault>) -> Result<bool, SalvageFault>
    ensures { result ≡ whole_by found }
{
    match found {
        Ok(found) => Ok(is_whole(found.verdict)),
        Err(CheckFault::Lost) => Ok(false),
        Err(CheckFault::NoMemory) => Err(SalvageFault::NoMemory),
        Err(CheckFault::Gone) => Err(SalvageFault::Gone),
    }
}

/// Whether a mount would find a whole tree on a device, which is only read and given back.
fn has_whole_tree<N: Nand>(alloc: Global, device: N) -> (N, Result<bool, SalvageFault>)
    ensures reads { OnlyReads (N.state device) (N.state result.0) }
    ensures tree { AnswersTree (N.state device) → IfOk result.1 (λ whole. whole ≡ true) }
    ensures shows { (N.state device).honest ≡ true → IfOk result.1 (λ whole. whole ≡ true → ShowsVolume (N.state device).geometry (N.state device).flash) }
    ensures fault { IfErr result.1 (WhyNotOpened (N.state result.0)) }
{
    a_flash_has_one_answer_at_most();
    let (device, found) = diagnose(alloc, device);
    (device, whole_by(found))
}

/// The pages of completed groups that survive on a device, and the places of those that are lost.
fn find_survivors<N: Nand>(alloc: Global, device: &mut N) -> Result<Survivors, SalvageFault>
    ensures reads { OnlyReads (N.state device.old) (N.state device.new) }
    ensures can { IfOk result (λ found. CanBeRead (N.state device.new) found.index) }
    ensures pages { (N.state device.new).honest ≡ true → IfOk result (FindsSurvivors (N.state device.new).flash) }
    ensures fault { IfErr result (WhyNotOpened (N.state device.new)) }
{
    the_surviving_pages_have_data();
    match open_surviving(alloc, device) {
        Ok(found) => Ok(found),
        Err(OpenFault::Gone) => Err(SalvageFault::Gone),
        Err(_) => Err(SalvageFault::NoMemory),
    }
}

/// The newest pages of a device, as a mount goes by them, and no lost ones.
fn find_newest<N: Nand>(alloc: Global, device: &mut N) -> Result<Survivors, SalvageFault>
    ensures reads { OnlyReads (N.state device.old) (N.state device.new) }
    ensures can { IfOk result (λ found. CanBeRead (N.state device.new) found.index) }
    ensures pages { (N.state device.new).honest ≡ true → IfOk result (FindsNewest (N.state device.new).flash) }
    ensures fault { IfErr result (WhyNotOpened (N.state device.new)) }
{
    the_opened_pages_are_the_newest();
    reads_change_nothing();
    match open(alloc, device) {
        Ok(opened) => Ok(Survivors {
            index: opened.index,
            lost: Vec::new(alloc),
        }),
        Err(OpenFault::Lost) => find_survivors(alloc, device),
        Err(OpenFault::Gone) => Err(SalvageFault::Gone),
        Err(OpenFault::NoMemory) => Err(SalvageFault::NoMemory),
    }
}

/// The pages that a salvage goes by: the newest ones where a mount would find a whole tree, and else those that survive.
fn find_pages<N: Nand>(
    alloc: Global,
    device: &mut N,
    whole: bool,
) -> Result<Survivors, SalvageFault>
    ensures reads { OnlyReads (N.state device.old) (N.state device.new) }
    ensures can { IfOk result (λ found. CanBeRead (N.state device.new) found.index) }
    ensures whole { (N.state device.new).honest ≡ true → whole ≡ true → IfOk result (FindsNewest (N.state device.new).flash) }
    ensures damaged { (N.state device.new).honest ≡ true → whole ≡ false → IfOk result (FindsSurvivors (N.state device.new).flash) }
    ensures fault { IfErr result (WhyNotOpened (N.state device.new)) }
{
    if whole {
        find_newest(alloc, device)
    } else {
        find_survivors(alloc, device)
    }
}

impl<N: Nand> Salvage<N> {
    /// Opens what is left on a device, which is only read: each tag of a good block, and again for the pages that it goes by, and what a
    /// check of the tree reads. Where a mount would find a whole tree, it is that tree. Else of a completed group only the pages are lost
    /// that do not read; older pages are shown where the newest of their keys are lost, and the places of the lost pages are listed. Where
    /// memory is refused or power is lost the device is given back.
    pub fn open(alloc: Global, device: N) -> Result<Salvage<N>, (N, SalvageFault)>
        ensures reads { IfOk result (λ s. OnlyReads (N.state device) (N.state (device_in s))) }
        ensures back { IfErr result (λ back. OnlyReads (N.state device) (N.state back.0)) }
        ensures tree { AnswersTree (N.state device) → IfOk result (λ s. IsNewestMap (N.state device).flash (state s).present) }
        ensures pages { (N.state device).honest ≡ true
            → IfOk result (λ s. GoesBy (N.state device).geometry (N.state device).flash (state s).present (lost_in s)) }
        ensures fault { IfErr result (λ back. WhyNotOpened (N.state back.0) back.1) }
    {
        reads_change_nothing();
        let (device, whole) = has_whole_tree(alloc, device);
        let mut device = device;
        let whole = match whole {
            Ok(whole) => whole,
            Err(fault) => return Err((device, fault)),
        };
        let found = match find_pages(alloc, &mut device, whole) {
            Ok(found) => found,
            Err(fault) => return Err((device, fault)),
        };
        match Salvage::new(alloc, device, found) {
            Ok(left) => Ok(left),
            Err((device, _)) => Err((device, SalvageFault::NoMemory)),
        }
    }
}
