// A new image.
ghost use Rattle.std.specs.Prelude.{◌≡◌, ◌⊎◌, ◌*◌, false, length, replicate, IfOk, IfErr, OnOk};
ghost use Rattle.std.specs.Io.KnownBytes.{Appends};
ghost use Rattle.nand_model.specs.Changes.{IsBlank, CountsNothing};
ghost use Rattle.nand_image.specs.ImageState.{device};
ghost use Rattle.nand_image.specs.Creation.{head_bytes, new_image};

use crate::device::ImageNand;
use crate::fault::ImageFault;
use crate::layout::MAGIC;
use byteorder::{ByteOrder, LittleEndian};
use nand_model::{Geometry, MemNand};
use std::alloc::Global;
use std::io::{Read, Seek, Write};

/// The head of an image with these sizes.
#[tactic(auto, unfolding(crate::specs::Creation::head_bytes))]
fn head_of(geometry: Geometry) -> [u8; 32]
    ensures { result ≡ head_bytes geometry }
{
    let mut head = [0; 32];
    head[..8].copy_from_slice(&MAGIC);
    LittleEndian::write_u32(&mut head[8..], geometry.bytes());
    LittleEndian::write_u32(&mut head[12..], geometry.pages());
    LittleEndian::write_u32(&mut head[16..], geometry.blocks());
    head
}

fn write_bytes<F: Write>(file: &mut F, bytes: &[u8]) -> Result<(), ImageFault>
    ensures bytes { OnOk result (Appends (F.contents file.old) (F.contents file.new) bytes.now) }
    ensures fault { IfErr result (λ e. e ≡ ImageFault.Write) }
{
    match file.write_all(bytes) {
        Ok(()) => Ok(()),
        Err(_) => Err(ImageFault::Write),
    }
}

/// Writes a page of zeros so many times.
fn write_slots<F: Write>(file: &mut F, slot: &[u8], count: u32) -> Result<(), ImageFault>
    requires { slot.now ≡ replicate (length slot.now) 0 }
    ensures bytes { OnOk result (Appends (F.contents file.old) (F.contents file.new) (replicate (count * length slot.now) 0)) }
    ensures fault { IfErr result (λ e. e ≡ ImageFault.Write) }
{
    for _place in 0..count {
        write_bytes(file, slot)?;
    }
    Ok(())
}

/// Writes a new image with erased pages and no bad block to the file, which is at its start and is empty, and
/// makes a device of it. The file is not moved before.
pub fn create_image<F: Read + Write + Seek + Drop>(
    alloc: Global,
    file: F,
    geometry: Geometry,
) -> Result<ImageNand<F>, ImageFault>
    ensures geometry { IfOk result (λ d. (device d).geometry ≡ geometry) }
    ensures blank { IfOk result (λ d. IsBlank (device d).flash) }
    ensures gone { IfOk result (λ d. (device d).gone ≡ false) }
    ensures counts { IfOk result (λ d. CountsNothing (device d)) }
    ensures bytes { IfOk result (λ d. Appends (F.contents file) (F.contents d.file) (new_image geometry)) }
    ensures fault { IfErr result (λ e. (e ≡ ImageFault.Write) ⊎ (e ≡ ImageFault.NoMemory)) }
{
    let mut file = file;
    let memory = MemNand::new(alloc, geometry)?;
    let marks = vec![in alloc; 0u8; geometry.blocks() as usize]?;
    let slot = vec![in alloc; 0u8; 49 + geometry.bytes() as usize]?;
    write_bytes(&mut file, &head_of(geometry))?;
    write_bytes(&mut file, &marks)?;
    write_slots(&mut file, &slot, geometry.blocks() * geometry.pages())?;
    Ok(ImageNand { memory, file })
}
