// The check of a device.
ghost use Rattle.std.specs.Prelude.{◌≡◌, ◌<◌, ◌^◌, true, IfErr, IfOk, IfSome};
ghost use Rattle.flash_tree.specs.Mount.{sizes_of};
ghost use Rattle.nand_model.specs.Changes.{OnlyReads};
ghost use Rattle.pages.specs.Maps.{has};
ghost use Rattle.pages.specs.State.{OnlyFinds};
ghost use Rattle.tree_walk.specs.Visits.{IsSeen};
ghost use Rattle.volume_check.specs.Faults.{WhyNoVerdict, WhyNotChecked};
ghost use Rattle.volume_check.specs.Found.{FindsFault, IsFoundFirst, LiesAt, LiesWhereLow, broken_in};
ghost use Rattle.volume_check.specs.Verdicts.{SaysOfFlash, ReportsVerdict, verdict_of};

use crate::fault::CheckFault;
use crate::finding::{Diagnosis, Finding, Place};
use crate::path::path_of;
use crate::search::find_broken;
use crate::verdict::verdict_of;
use flash_tree::Key;
use mounting::{a_map_of_the_newest_pages_answers, a_whole_list_shows_a_tree};
use nand_model::{Geometry, Nand};
use page_store::{NewestPages, open, the_opened_pages_are_the_newest};
use pages::Pages;
use std::alloc::Global;

/// Finds the first rule that is broken in the tree of a volume on a device of these sizes, and the path of the object that breaks it.
fn find<P: Pages>(
    alloc: Global,
    pages: &mut P,
    geometry: Geometry,
) -> Result<Option<Finding>, CheckFault>
    ensures lookups { OnlyFinds (P.state pages.old) (P.state pages.new) }
    ensures verdict { IsSeen (sizes_of geometry 0) (P.state pages.old)
        → IfOk result (λ found. ReportsVerdict geometry (has (P.state pages.old).present) (verdict_of (broken_in found))) }
    ensures first { IsSeen (sizes_of geometry 0) (P.state pages.old)
        → IfOk result (λ found. IfSome (broken_in found) (IsFoundFirst geometry (has (P.state pages.old).present))) }
    ensures fault { IfErr result (WhyNoVerdict (P.state pages.new)) }
{
    let Some(broken) = find_broken(alloc, pages, geometry)? else {
        return Ok(None);
    };
    let path = path_of(alloc, pages, broken.key.object)?;
    Ok(Some(Finding { broken, path }))
}

/// The place of the newest page of a key, which the tags are read for.
fn place_of<N: Nand>(alloc: Global, device: &mut N, key: Key) -> Result<Option<Place>, CheckFault>
    ensures reads { OnlyReads (N.state device.old) (N.state device.new) }
    ensures fault { IfErr result (WhyNotChecked (N.state device.new)) }
    ensures place { (N.state device.old).honest ≡ true → key.chunk < 2 ^ 32 → IfOk result (LiesAt (N.state device.old).flash key) }
{
    the_opened_pages_are_the_newest();
    let opened = open(alloc, device)?;
    let Some(page) = opened.index.committed(key) else {
        return Ok(None);
    };
    Ok(Some(Place {
        block: page.block,
        page: page.page,
    }))
}

/// What was found, with the place of the page that breaks a rule.
fn diagnosis<N: Nand>(
    alloc: Global,
    device: &mut N,
    finding: Option<Finding>,
) -> Result<Diagnosis, CheckFault>
    ensures reads { OnlyReads (N.state device.old) (N.state device.new) }
    ensures fault { IfErr result (WhyNotChecked (N.state device.new)) }
    ensures verdict { IfOk result (λ found. found.verdict ≡ verdict_of (broken_in finding)) }
    ensures finding { IfOk result (λ found. found.finding ≡ finding) }
    ensures place { (N.state device.old).honest ≡ true → IfOk result (λ found. IfSome (broken_in finding) (LiesWhereLow (N.state device.old).flash found.place)) }
{
    let Some(finding) = finding else {
        return Ok(Diagnosis {
            verdict: verdict_of(None),
            finding: None,
            place: None,
        });
    };
    let place = place_of(alloc, device, finding.broken.key)?;
    Ok(Diagnosis {
        verdict: verdict_of(Some(finding.broken)),
        finding: Some(finding),
        place,
    })
}

/// Scans a device, goes through the tree of its newest pages, and finds the first rule that is broken in it. The device is only
/// read, and is given back. Where a rule is broken the tags are read once more, for the place of the page.
///
/// A mount also refuses a whole tree that charges more than there is room for, and then no rule here is broken.
pub fn diagnose<N: Nand>(alloc: Global, device: N) -> (N, Result<Diagnosis, CheckFault>)
    ensures reads { OnlyReads (N.state device) (N.state result.0) }
    ensures fault { IfErr result.1 (WhyNotChecked (N.state result.0)) }
    ensures verdict { (N.state device).honest ≡ true
        → IfOk result.1 (λ found. SaysOfFlash (N.state device).geometry (N.state device).flash found.verdict) }
    // A rule is named exactly where the tree is not whole, and it is the first that a mount meets; and where its page lies.
    ensures found { (N.state device).honest ≡ true → IfOk result.1 (FindsFault (N.state device).geometry (N.state device).flash) }
{
    the_opened_pages_are_the_newest();
    a_map_of_the_newest_pages_answers();
    a_whole_list_shows_a_tree();
    let mut device = device;
    let opened = match open(alloc, &mut device) {
        Ok(opened) => opened,
        Err(fault) => return (device, Err(CheckFault::from(fault))),
    };
    let geometry = device.geometry();
    let mut pages = match NewestPages::new(alloc, device, opened.index) {
        Ok(pages) => pages,
        Err((device, _)) => return (device, Err(CheckFault::NoMemory)),
    };
    let found = find(alloc, &mut pages, geometry);
    let (mut device, _) = pages.into_parts();
    match found {
        Ok(finding) => {
            let diagnosis = diagnosis(alloc, &mut device, finding);
            (device, diagnosis)
        }
        Err(fault) => (device, Err(fault)),
    }
}
