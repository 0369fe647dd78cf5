// How an image is read: its head, its marks, its pages, and that nothing follows.
ghost use Rattle.std.specs.Prelude.{◌≡◌, ◌≤◌, ◌<◌, ◌+◌, ◌*◌, ℕ, false, None, length, drop, IfOk, IfErr, OnOk};
ghost use Rattle.byteorder.specs.Endian.{little_number};
ghost use Rattle.nand_model.specs.Changes.{CountsNothing};
ghost use Rattle.nand_model.specs.MemoryState.{device, plan};
ghost use Rattle.nand_model.specs.Putting.{PutsPage};
ghost use Rattle.nand_image.specs.ImageState as image;
ghost use Rattle.nand_image.specs.Images.{HasSizes, ReportsSize, page_in};
ghost use Rattle.nand_image.specs.Opening.{OpensAs, Explains};
ghost use Rattle.nand_image.specs.Quiet.{IsQuiet};
ghost use Rattle.nand_image.specs.Readings.{FillsFront, FillsWhole, IsShort, TakesHead, IsNoHead, PutsMarks, PutsPages, TakesPages, IsEnded, IsLong, TakesBody, body_size, IsOfOtherSize};
ghost use Rattle.nand_image.specs.Layout.{slot_size};

use crate::device::ImageNand;
use crate::fault::ImageFault;
use crate::layout::MAGIC;
use byteorder::{ByteOrder, LittleEndian};
use nand_model::{Geometry, MemNand, Nand, PageKind};
use std::alloc::Global;
use std::io::{ErrorKind, Read};

/// Reads until the buffer is full or the file is at its end, and returns how many bytes it read. An interrupted read is
/// tried again.
fn fill<F: Read>(file: &mut F, buffer: &mut [u8]) -> Result<usize, ImageFault>
    ensures within { IfOk result (λ n. n ≤ length buffer.new) }
    ensures front { IfOk result (FillsFront (F.remaining file.old) (F.remaining file.new) buffer.new) }
    ensures fault { IfErr result (λ e. e ≡ ImageFault.Read) }
{
    let mut at = 0;
    for _turn in 0..u64::MAX {
        if at >= buffer.len() {
            return Ok(at);
        }
        match file.read(&mut buffer[at..]) {
            Ok(0) => return Ok(at),
            Ok(n) => at += n,
            Err(e) => {
                if e.kind() != ErrorKind::Interrupted {
                    return Err(ImageFault::Read);
                }
            }
        }
    }
    Err(ImageFault::Read)
}

/// Reads as many bytes as the buffer has room for.
fn fill_whole<F: Read>(file: &mut F, buffer: &mut [u8]) -> Result<(), ImageFault>
    ensures whole { OnOk result (FillsWhole (F.remaining file.old) (F.remaining file.new) buffer.new) }
    ensures fault { IfErr result (IsShort (F.remaining file.old) (length buffer.old)) }
{
    if fill(file, buffer)? < buffer.len() {
        return Err(ImageFault::Size);
    }
    Ok(())
}

/// Reads the head, which is not looked at past its first bytes.
fn read_head<F: Read>(file: &mut F) -> Result<[u8; 32], ImageFault>
    ensures head { IfOk result (TakesHead (F.remaining file.old) (F.remaining file.new)) }
    ensures fault { IfErr result (IsNoHead (F.remaining file.old)) }
{
    let mut head = [0; 32];
    let count = fill(file, &mut head)?;
    if count < head.len() || head[..8] != MAGIC[..] {
        return Err(ImageFault::Magic);
    }
    Ok(head)
}

/// The number at a place, its lowest byte first.
fn number_at(bytes: &[u8], place: usize) -> u32
    requires { place + 4 ≤ length bytes.now }
    ensures { result ≡ little_number 4 (drop place bytes.now) }
{
    LittleEndian::read_u32(&bytes[place..])
}

/// The sizes that a head names.
fn geometry_in(head: &[u8; 32]) -> Result<Geometry, ImageFault>
    ensures sizes { IfOk result (λ g. HasSizes g head.now × ReportsSize head.now) }
    ensures fault { IfErr result (λ e. (e ≡ ImageFault.BadGeometry) × (¬ ReportsSize head.now)) }
{
    let bytes = number_at(head, 8);
    let pages = number_at(head, 12);
    let blocks = number_at(head, 16);
    match Geometry::new(bytes, pages, blocks) {
        Ok(geometry) => Ok(geometry),
        Err(_) => Err(ImageFault::BadGeometry),
    }
}

/// Sets the marks, one byte a block.
fn put_marks(memory: &mut MemNand, marks: &[u8])
    requires { length marks.now ≡ (device memory.old).geometry.blocks }
    ensures puts { PutsMarks marks.now (length marks.now) (device memory.old) (device memory.new) }
    ensures plan { plan memory.new ≡ plan memory.old }
{
    for block in 0..memory.geometry().blocks() {
        if marks[block as usize] != 0 {
            memory.put_mark(block);
        }
    }
}

/// Sets a page from its kind, its tag and its data.
fn put_slot(memory: &mut MemNand, block: u32, page: u32, slot: &[u8])
    requires block { block < (device memory.old).geometry.blocks }
    requires page { page < (device memory.old).geometry.pages }
    requires size { length slot.now ≡ slot_size (device memory.old).geometry }
    ensures puts { PutsPage block page (page_in (device memory.old).geometry.bytes slot.now) (device memory.old) (device memory.new) }
    ensures plan { plan memory.new ≡ plan memory.old }
{
    let kind = match slot[0] {
        0 => PageKind::Erased,
        1 => PageKind::Written,
        _ => PageKind::Uncorrectable,
    };
    let mut tag = [0; 48];
    tag.copy_from_slice(&slot[1..49]);
    memory.put_page(block, page, kind, &slot[49..], &tag);
}

/// Reads the marks, one byte a block.
fn read_marks<F: Read>(
    file: &mut F,
    memory: &mut MemNand,
    marks: &mut [u8],
) -> Result<(), ImageFault>
    requires { length marks.old ≡ (device memory.old).geometry.blocks }
    ensures puts { OnOk result (PutsMarks marks.new (length marks.new) (device memory.old) (device memory.new)) }
    ensures plan { OnOk result (plan memory.new ≡ plan memory.old) }
    ensures whole { OnOk result (FillsWhole (F.remaining file.old) (F.remaining file.new) marks.new) }
    ensures fault { IfErr result (IsShort (F.remaining file.old) (length marks.old)) }
{
    fill_whole(file, marks)?;
    put_marks(memory, marks);
    Ok(())
}

/// Reads a page.
fn read_slot<F: Read>(
    file: &mut F,
    memory: &mut MemNand,
    block: u32,
    page: u32,
    slot: &mut [u8],
) -> Result<(), ImageFault>
    requires block { block < (device memory.old).geometry.blocks }
    requires page { page < (device memory.old).geometry.pages }
    requires size { length slot.old ≡ slot_size (device memory.old).geometry }
    ensures puts { OnOk result (PutsPage block page (page_in (device memory.old).geometry.bytes slot.new) (device memory.old) (device memory.new)) }
    ensures plan { OnOk result (plan memory.new ≡ plan memory.old) }
    ensures whole { OnOk result (FillsWhole (F.remaining file.old) (F.remaining file.new) slot.new) }
    ensures fault { IfErr result (IsShort (F.remaining file.old) (length slot.old)) }
{
    fill_whole(file, slot)?;
    put_slot(memory, block, page, slot);
    Ok(())
}

/// Reads all pages, block by block.
fn read_pages<F: Read>(
    file: &mut F,
    memory: &mut MemNand,
    slot: &mut [u8],
) -> Result<(), ImageFault>
    requires { length slot.old ≡ slot_size (device memory.old).geometry }
    ensures puts { OnOk result (PutsPages (device memory.old) (device memory.new)) }
    ensures plan { OnOk result (plan memory.new ≡ plan memory.old) }
    ensures pages { let g = (device memory.old).geometry in
        OnOk result (TakesPages (F.remaining file.old) (F.remaining file.new) g.bytes g.pages (g.blocks * g.pages) (device memory.new).flash.page) }
    ensures fault { let g = (device memory.old).geometry in IfErr result (IsShort (F.remaining file.old) (g.blocks * g.pages * slot_size g)) }
{
    let geometry = memory.geometry();
    let pages = geometry.pages();
    for place in 0..geometry.blocks() * pages {
        read_slot(file, memory, place / pages, place % pages, slot)?;
    }
    Ok(())
}

/// Reads that nothing is left.
fn read_end<F: Read>(file: &mut F) -> Result<(), ImageFault>
    ensures ended { OnOk result (IsEnded (F.remaining file.old)) }
    ensures fault { IfErr result (IsLong (F.remaining file.old)) }
{
    if fill(file, &mut [0])? > 0 {
        return Err(ImageFault::Size);
    }
    Ok(())
}

/// Reads what follows the head into a device in memory.
fn read_flash<F: Read>(
    alloc: Global,
    file: &mut F,
    geometry: Geometry,
) -> Result<MemNand, ImageFault>
    ensures geometry { IfOk result (λ d. (device d).geometry ≡ geometry) }
    ensures gone { IfOk result (λ d. (device d).gone ≡ false) }
    ensures counts { IfOk result (λ d. CountsNothing (device d)) }
    ensures nexts { IfOk result (λ d. (b : ℕ) → (device d).flash.next b ≡ None) }
    ensures quiet { IfOk result (λ d. IsQuiet (plan d)) }
    ensures body { IfOk result (TakesBody geometry (F.remaining file.old)) }
    ensures fault { IfErr result (IsOfOtherSize (F.remaining file.old) (body_size geometry)) }
{
    let mut memory = MemNand::new(alloc, geometry)?;
    let mut marks = vec![in alloc; 0u8; geometry.blocks() as usize]?;
    let mut slot = vec![in alloc; 0u8; 49 + geometry.bytes() as usize]?;
    read_marks(file, &mut memory, &mut marks)?;
    read_pages(file, &mut memory, &mut slot)?;
    read_end(file)?;
    Ok(memory)
}

/// The device in a file that holds an image and is at its start. The file is not moved before, and not written: its
/// type has no means to.
pub fn open_image<F: Read + Drop>(alloc: Global, file: F) -> Result<ImageNand<F>, ImageFault>
    ensures gone { IfOk result (λ d. (image.device d).gone ≡ false) }
    ensures counts { IfOk result (λ d. CountsNothing (image.device d)) }
    ensures nexts { IfOk result (λ d. (b : ℕ) → (image.device d).flash.next b ≡ None) }
    ensures opens { IfOk result (OpensAs (F.remaining file)) }
    ensures fault { IfErr result (Explains (F.remaining file)) }
{
    let mut file = file;
    let head = read_head(&mut file)?;
    let geometry = geometry_in(&head)?;
    let memory = read_flash(alloc, &mut file, geometry)?;
    Ok(ImageNand { memory, file })
}
