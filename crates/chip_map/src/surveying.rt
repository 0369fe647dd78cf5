// A survey of a chip.
ghost use Rattle.std.specs.Prelude.{◌≡◌, true, IfOk};
ghost use Rattle.nand_model.specs.Changes.{OnlyReads};
ghost use Rattle.flash_tree.specs.Newest.{AreGreatest};
ghost use Rattle.flash_tree.specs.Places.{numbers_of};
ghost use Rattle.mount_scan.specs.Scanned.{ScanReportsGone};
ghost use Rattle.chip_map.specs.States.{AreSurveyed};
ghost use Rattle.chip_map.specs.Surveys.{pages_of, geometry_of, greatest_of};

use crate::marking::note_valid;
use crate::reading::read_all;
use crate::surveyed::Survey;
use mount_scan::{ScanFault, scan};
use nand_model::Nand;
use std::alloc::Global;

/// Finds what each page of a chip is. Each tag of a good block is read twice, and no page's data.
pub fn survey<N: Nand>(alloc: Global, device: &mut N) -> Result<Survey, ScanFault>
    ensures reads { OnlyReads (N.state device.old) (N.state device.new) }
    ensures gone { ScanReportsGone (N.state device.old) (N.state device.new) result }
    ensures geometry { IfOk result (λ survey. geometry_of survey ≡ (N.state device.old).geometry) }
    ensures pages { (N.state device.old).honest ≡ true
        → IfOk result (λ survey. AreSurveyed (N.state device.old).flash (N.state device.old).geometry.pages (pages_of survey)) }
    ensures numbers { (N.state device.old).honest ≡ true
        → IfOk result (λ survey. AreGreatest (N.state device.old).flash (numbers_of (greatest_of survey))) }
{
    let found = scan(alloc, device)?;
    let mut pages = read_all(alloc, device)?;
    let geometry = device.geometry();
    note_valid(
        &mut pages,
        geometry.pages(),
        &found.valid_pages,
        &found.newest,
    );
    Ok(Survey::new(geometry, pages, found.numbers))
}
