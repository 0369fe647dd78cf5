// The tables of a device, by a scan.
ghost use Rattle.std.specs.Prelude.{◌≡◌, ◌↔◌, ◌≤◌, ◌+◌, false, IsTrue, OnOk, IfOk, IfErr};
ghost use Rattle.nand_model.specs.Changes.{OnlyReads};
ghost use Rattle.flash_tree.specs.Places.{numbers_of};
ghost use Rattle.block_state.specs.TableOf.{table};
ghost use Rattle.mount_scan.specs.Scanned.{good_pages};
ghost use Rattle.page_store.specs.KnownFirsts.{AreUnwritten};
ghost use Rattle.page_store.specs.Opened.{IsOpened, AreLeft, IsTableOf, WhyNotOpened};

use crate::page_names::have_names;
use block_state::Blocks;
use chunk_index::Index;
use flash_tree::TagNumbers;
use mount_scan::{NewestScan, ScanFault, scan_newest};
use nand_model::Nand;
use std::alloc::{AllocError, Global};
use transactions::marked_table;
use volume_terms::NUMBER_END;

/// Why a device was not opened.
#[derive(Clone, Copy, Debug, PartialEq, Eq)]
pub enum OpenFault {
    NoMemory,
    /// The device did not return what was written.
    Lost,
    Gone,
}

impl From<ScanFault> for OpenFault {
    ghost use Rattle.page_store.specs.Opened.{of_scan};

    ghost from_gives = { λ fault e. e ≡ of_scan fault };

    fn from(fault: ScanFault) -> OpenFault {
        match fault {
            ScanFault::NoMemory => OpenFault::NoMemory,
            ScanFault::Gone => OpenFault::Gone,
        }
    }
}

impl From<AllocError> for OpenFault {
    ghost use Rattle.page_store.specs.declared.opening.OpenFault.TheVariants as faults;

    ghost from_gives = { λ _ e. e ≡ faults.NoMemory };

    fn from(_e: AllocError) -> OpenFault {
        OpenFault::NoMemory
    }
}

/// What was found of a device: the table of blocks, the index of the newest pages, and the greatest numbers.
#[derive(Drop)]
pub struct Opened {
    pub blocks: Blocks,
    pub index: Index,
    pub numbers: TagNumbers,
}

/// Whether there are numbers left above these.
pub(crate) fn are_left(numbers: TagNumbers) -> bool
    ensures { IsTrue result ↔ AreLeft (numbers_of numbers) }
{
    numbers.group < NUMBER_END && numbers.seq < NUMBER_END
}

/// A table of the device, whose next numbers are one above these. With no numbers left nothing can be written, and the table
/// is one without marks.
pub(crate) fn table_above<N: Nand>(
    alloc: Global,
    device: &N,
    numbers: TagNumbers,
) -> Result<Blocks, AllocError>
    ensures table { IfOk result (λ blocks. IsTableOf (N.state device.now) (numbers_of numbers) (table blocks)) }
    ensures unwritten { IfOk result (λ blocks. AreUnwritten (table blocks)) }
{
    if !are_left(numbers) {
        return Blocks::new(alloc, device.geometry());
    }
    marked_table(alloc, device, numbers)
}

/// Scans a device, which is only read: the newest page of each key is committed. Each tag of a good block is read once at most. No number of a
/// block is noted.
pub fn open<N: Nand>(alloc: Global, device: &mut N) -> Result<Opened, OpenFault>
    ensures reads { OnlyReads (N.state device.old) (N.state device.new) }
    ensures issued { (N.state device.new).reads ≤ (N.state device.old).reads + good_pages (N.state device.old).flash (N.state device.old).geometry.pages (N.state device.old).geometry.blocks }
    ensures power { (N.state device.old).gone ≡ false → OnOk result ((N.state device.new).gone ≡ false) }
    ensures opened { IfOk result (λ opened. IsOpened (N.state device.new) (table opened.blocks) opened.index (numbers_of opened.numbers)) }
    ensures unwritten { IfOk result (λ opened. AreUnwritten (table opened.blocks)) }
    ensures fault { IfErr result (WhyNotOpened (N.state device.new)) }
{
    let NewestScan { newest, numbers } = scan_newest(alloc, device)?;
    if !have_names(&newest, numbers.group) {
        return Err(OpenFault::Lost);
    }
    let blocks = table_above(alloc, device, numbers)?;
    let (index, blocks) = Index::from_newest(alloc, newest, blocks)?;
    Ok(Opened {
        blocks,
        index,
        numbers,
    })
}
