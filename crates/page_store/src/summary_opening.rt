// The tables of a device, by the summaries of its blocks.
ghost use Rattle.std.specs.Prelude.{◌≡◌, true, false, None, OnOk, IfOk, IfErr};
ghost use Rattle.nand_model.specs.Changes.{OnlyReads};
ghost use Rattle.nand_model.specs.Trusting.{trusted_as};
ghost use Rattle.flash_tree.specs.Places.{numbers_of};
ghost use Rattle.block_state.specs.TableOf.{table};
ghost use Rattle.mount_scan.specs.FewReads.{ReadsByNeed};
ghost use Rattle.mount_scan.specs.FirstPages.{AreFirstsOf};
ghost use Rattle.page_store.specs.Checked.{HasTrueFlash};
ghost use Rattle.page_store.specs.FoundTables.{FindsItsTree, KnowsItsFirsts, WhyNotFound};
ghost use Rattle.page_store.specs.Opened.{IsOpenedBy};

use crate::first_pages::note_firsts;
use crate::opening::{OpenFault, Opened, table_above};
use crate::page_names::have_names;
use chunk_index::Index;
use mount_scan::{FirstPages, NewestScan, scan_summaries};
use nand_model::Nand;
use std::alloc::Global;

/// The tables of a device, which is only read, by the summaries of its blocks; what was read of first pages before is noted. Of a block that
/// has a summary its tags are not read, nor of those that begin with an erased page but of the first of them.
///
/// On a flash that is not true pages may be missing, and of an honest device too any keys be committed at places that lost their pages.
pub fn open_summarized<N: Nand>(
    alloc: Global,
    device: &mut N,
    firsts: &FirstPages,
) -> Result<Opened, OpenFault>
    requires { AreFirstsOf (N.state device.old) firsts.now }
    ensures reads { OnlyReads (N.state device.old) (N.state device.new) }
    ensures within_limit { ReadsByNeed (N.state device.old) (N.state device.new) }
    ensures power { (N.state device.old).gone ≡ false → OnOk result ((N.state device.new).gone ≡ false) }
    ensures opened { IfOk result (λ opened. IsOpenedBy None (trusted_as false (N.state device.new)) (table opened.blocks) opened.index (numbers_of opened.numbers)) }
    ensures tree { HasTrueFlash (N.state device.new) → IfOk result (FindsItsTree (N.state device.new)) }
    ensures knows { (N.state device.new).honest ≡ true → IfOk result (KnowsItsFirsts (N.state device.new)) }
    ensures fault { IfErr result (WhyNotFound (N.state device.new)) }
{
    let NewestScan { newest, numbers } = scan_summaries(alloc, device, firsts)?;
    if !have_names(&newest, numbers.group) {
        return Err(OpenFault::Lost);
    }
    let mut blocks = table_above(alloc, device, numbers)?;
    note_firsts(&firsts.pages, &mut blocks);
    let (index, blocks) = Index::from_newest(alloc, newest, blocks)?;
    Ok(Opened {
        blocks,
        index,
        numbers,
    })
}
