// The formatting of a device as a volume.
ghost use Rattle.std.specs.Prelude.{◌≡◌, ◌↔◌, ◌⊎◌, ◌<◌, ◌≤◌, ◌+◌, ◌-◌, true, false, length, IfOk, IfErr, IsErrAnd, OnOk};
ghost use Rattle.flash_tree.specs.Mount.{bad_blocks};
ghost use Rattle.formatting.specs.Formatting.{Keeps, EachFailureMarks, HoldsOnly, IsFormatted, Explains, given_back};

use crate::clear::clear_all;
use crate::fault::FormatFault;
use crate::root::{Attempt, write_first};
use directories::{DirectoryHead, head_page};
use flash_tree::{FreshPage, count_bad};
use nand_model::Nand;
use std::alloc::Global;
use volume_terms::ROOT;

/// Erases the device and writes the page of the root.
fn lay_out<N: Nand>(device: &mut N, page: &FreshPage, spare: u32) -> Result<(), FormatFault>
    requires size { length page.now.bytes.items ≡ (N.state device.old).geometry.bytes }
    requires room { spare + 4 ≤ (N.state device.old).geometry.blocks }
    ensures keeps { Keeps (N.state device.old) (N.state device.new) }
    ensures each_failure_marks { (IsErrAnd result (λ fault. fault ≡ FormatFault.Gone) → ⊥) → EachFailureMarks (N.state device.old) (N.state device.new) }
    ensures few_bad { OnOk result (bad_blocks (N.state device.new).geometry (N.state device.new).flash ≤ spare) }
    ensures written { OnOk result (HoldsOnly (N.state device.new) page.now) }
    ensures fault { IfErr result (Explains spare (N.state device.new)) }
{
    clear_all(device)?;
    match write_first(device, page)? {
        Attempt::Written => {}
        Attempt::Failed => return Err(FormatFault::Worn),
    }
    if count_bad(device) > spare {
        return Err(FormatFault::Worn);
    }
    Ok(())
}

/// Makes the device a volume with so many spare blocks, whose root is an empty directory of moment 0. All that stands
/// in good blocks is erased; a block that fails is marked bad. What `Spare` and `NoMemory` refuse is left as it is.
pub fn format<N: Nand>(alloc: Global, device: N, spare: u32) -> Result<N, (N, FormatFault)>
    ensures keeps { Keeps (N.state device) (N.state (given_back result)) }
    ensures formatted { (N.state device).honest ≡ true → IfOk result (λ d. IsFormatted spare (N.state d)) }
    ensures few_bad { IfOk result (λ d. bad_blocks (N.state d).geometry (N.state d).flash ≤ spare) }
    ensures has_power { IfOk result (λ d. (N.state d).gone ≡ false) }
    ensures spare { IsErrAnd result (λ back. back.1 ≡ FormatFault.Spare) ↔ ((N.state device).geometry.blocks < spare + 4) }
    ensures unchanged { IfErr result (λ back. (back.1 ≡ FormatFault.Spare) ⊎ (back.1 ≡ FormatFault.NoMemory) → N.state back.0 ≡ N.state device) }
    ensures gone { IfErr result (λ back. back.1 ≡ FormatFault.Gone → (N.state back.0).gone ≡ true) }
    ensures worn { IfErr result (λ back. back.1 ≡ FormatFault.Worn → spare < bad_blocks (N.state back.0).geometry (N.state back.0).flash) }
    ensures each_failure_marks { (IsErrAnd result (λ back. back.1 ≡ FormatFault.Gone) → ⊥) → EachFailureMarks (N.state device) (N.state (given_back result)) }
{
    let geometry = device.geometry();
    if spare > geometry.blocks() - 4 {
        return Err((device, FormatFault::Spare));
    }
    let head = DirectoryHead {
        spare: spare as u16,
        length: 0,
        moment: 0,
    };
    let Ok(frame) = vec![in alloc; 0u8; geometry.bytes() as usize] else {
        return Err((device, FormatFault::NoMemory));
    };
    let page = head_page(frame, ROOT, head);
    let mut device = device;
    match lay_out(&mut device, &page, spare) {
        Ok(()) => Ok(device),
        Err(fault) => Err((device, fault)),
    }
}
