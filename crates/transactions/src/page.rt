// The writing of one page of a group.
ghost use Rattle.std.specs.Prelude.{◌≡◌, ◌<◌, ◌≤◌, ◌+◌, ◌-◌, length, true, false, Some, IfOk, OnErr, IsTrue, ◌↔◌, ℕ};
ghost use Rattle.nand_model.specs.Flash.{Written};
ghost use Rattle.nand_model.specs.Changes.{OnlyReads};
ghost use Rattle.page_tags.specs.Tags.{IsTag};
ghost use Rattle.transactions.specs.Sources.{IsPageName};
ghost use Rattle.transactions.specs.Written.{group_at, tag_in, WritesOne, WritesLast, FirstEnds, WritesAll, MayWrite, IsWrittenPage};

use crate::group::GroupFault;
use crate::place::GroupPlace;
use crate::source::{PageName, PageSource, SourceFault};
use nand_model::{Gone, Nand, PageKind, ProgramFault};
use page_tags::Tag;

/// How the last page of a group was written.
#[derive(Clone, Copy, Debug, PartialEq, Eq)]
pub(crate) enum LastPage {
    Done,
    /// The device said that it failed, and it reads whole.
    Suspect,
}

impl LastPage {
    ghost use Rattle.transactions.specs.Written.{is_suspect};

    /// Whether the device said that it failed.
    pub(crate) fn is_suspect(self) -> bool
        ensures { result ≡ is_suspect self }
    {
        match self {
            LastPage::Done => false,
            LastPage::Suspect => true,
        }
    }
}

/// The tag of page `i` of the group.
fn tag_of(place: &GroupPlace, name: PageName, i: u32) -> Tag
    ensures { result ≡ tag_in (group_at place.now) (λ k. name) i }
{
    Tag {
        index: i,
        count: place.count,
        object: name.key.object,
        chunk: name.key.chunk,
        version: name.version,
        group: place.group,
        seq: place.seq,
    }
}

/// Programs page `i` of the group, which has this name.
#[tactic(auto, using(nand_model::specs::laws::Calls::lasts_on))]
fn program_page<N: Nand>(
    device: &mut N,
    place: &GroupPlace,
    i: u32,
    name: PageName,
    bytes: &[u8],
) -> Result<(), GroupFault>
    requires at { i < place.now.count }
    requires may { MayWrite (N.state device.old) place.now i }
    requires name { IsPageName place.now.group name }
    requires size { length bytes.now ≡ (N.state device.old).geometry.bytes }
    ensures quiet { (N.state device.new).reads ≡ (N.state device.old).reads }
    ensures writes { WritesOne (N.state device.old) (N.state device.new) (group_at place.now) (λ _. name) (λ _. bytes.now) i result }
{
    let tag = tag_of(place, name, i);
    match device.program(place.block, place.first + i, bytes, &tag.encode()) {
        Ok(()) => Ok(()),
        Err(ProgramFault::Failed) => Err(GroupFault::Failed),
        Err(ProgramFault::Gone) => Err(GroupFault::Gone),
    }
}

/// Writes page `i` of the group: from where it lies in memory, or by way of the scratch page.
#[tactic(auto, using(nand_model::specs::laws::Calls::lasts_on))]
fn write_page<N: Nand, S: PageSource>(
    device: &mut N,
    source: &S,
    scratch: &mut [u8],
    place: &GroupPlace,
    i: u32,
) -> Result<(), GroupFault>
    requires at { i < place.now.count }
    requires may { MayWrite (N.state device.old) place.now i }
    requires count { place.now.count ≡ S.count source.now }
    requires source { S.can_write source.now (N.state device.old).geometry place.now.group }
    requires has { (N.state device.old).honest ≡ true → S.has source.now (N.state device.old).flash i }
    requires size { length scratch.old ≡ (N.state device.old).geometry.bytes }
    ensures size { length scratch.new ≡ length scratch.old }
    ensures quiet { S.quiet source.now → (N.state device.new).reads ≡ (N.state device.old).reads }
    ensures writes { WritesOne (N.state device.old) (N.state device.new) (group_at place.now)
        (S.name source.now place.now.group) (S.bytes source.now (N.state device.old).flash) i result }
{
    if let Some(lent) = source.lent(i, place.group) {
        return program_page(device, place, i, lent.name, lent.bytes);
    }
    match source.page(device, i, place.group, scratch) {
        Ok(name) => program_page(device, place, i, name, scratch),
        Err(SourceFault::Lost) => Err(GroupFault::Lost),
        Err(SourceFault::Gone) => Err(GroupFault::Gone),
    }
}

/// Writes all pages of the group but the last.
fn write_first<N: Nand, S: PageSource>(
    device: &mut N,
    source: &S,
    scratch: &mut [u8],
    place: &GroupPlace,
) -> Result<(), GroupFault>
    requires not_empty { 1 ≤ place.now.count }
    requires may { MayWrite (N.state device.old) place.now 0 }
    requires count { place.now.count ≡ S.count source.now }
    requires source { S.can_write source.now (N.state device.old).geometry place.now.group }
    requires has { (N.state device.old).honest ≡ true → (i : ℕ) → i < S.count source.now → S.has source.now (N.state device.old).flash i }
    requires size { length scratch.old ≡ (N.state device.old).geometry.bytes }
    ensures size { length scratch.new ≡ length scratch.old }
    ensures quiet { S.quiet source.now → (N.state device.new).reads ≡ (N.state device.old).reads }
    ensures writes { FirstEnds (N.state device.old) (N.state device.new) (group_at place.now)
        (S.name source.now place.now.group) (S.bytes source.now (N.state device.old).flash) result }
{
    for i in 0..place.count - 1 {
        write_page(device, source, scratch, place, i)?;
    }
    Ok(())
}

/// Whether a page reads as written.
fn reads_whole<N: Nand>(
    device: &mut N,
    block: u32,
    page: u32,
    scratch: &mut [u8],
) -> Result<bool, Gone>
    requires block { block < (N.state device.old).geometry.blocks }
    requires page { page < (N.state device.old).geometry.pages }
    requires size { length scratch.old ≡ (N.state device.old).geometry.bytes }
    ensures reads { OnlyReads (N.state device.old) (N.state device.new) }
    ensures issued { (N.state device.new).reads ≤ (N.state device.old).reads + 1 }
    ensures gone { OnErr result ((N.state device.new).gone ≡ true) }
    ensures there { (N.state device.old).gone ≡ false → IfOk result (λ _. (N.state device.new).gone ≡ false) }
    ensures whole { (N.state device.old).honest ≡ true → IfOk result (λ whole. IsTrue whole ↔ IsWrittenPage ((N.state device.old).flash.page block page)) }
{
    let mut tag = [0; 48];
    let kind = device.read_page(block, page, scratch, &mut tag)?;
    Ok(kind == PageKind::Written)
}

/// Writes the last page of the group. Where the device says that this failed, the page is read back, and it is suspect
/// where it stands all the same.
fn write_last<N: Nand, S: PageSource>(
    device: &mut N,
    source: &S,
    scratch: &mut [u8],
    place: &GroupPlace,
) -> Result<LastPage, GroupFault>
    requires not_empty { 1 ≤ place.now.count }
    requires may { MayWrite (N.state device.old) place.now (place.now.count - 1) }
    requires count { place.now.count ≡ S.count source.now }
    requires source { S.can_write source.now (N.state device.old).geometry place.now.group }
    requires has { (N.state device.old).honest ≡ true → S.has source.now (N.state device.old).flash (place.now.count - 1) }
    requires size { length scratch.old ≡ (N.state device.old).geometry.bytes }
    // A page that is said to fail is read back.
    ensures quiet { S.quiet source.now → (N.state device.new).reads + (N.state device.old).failures ≤ (N.state device.old).reads + (N.state device.new).failures }
    ensures writes { WritesLast (N.state device.old) (N.state device.new) (group_at place.now)
        (S.name source.now place.now.group) (S.bytes source.now (N.state device.old).flash) (place.now.count - 1) result }
{
    let last = place.count - 1;
    match write_page(device, source, scratch, place, last) {
        Ok(()) => Ok(LastPage::Done),
        Err(GroupFault::Failed) => match reads_whole(
            device,
            place.block,
            place.first + last,
            scratch,
        ) {
            Ok(true) => Ok(LastPage::Suspect),
            Ok(false) => Err(GroupFault::Failed),
            Err(_) => Err(GroupFault::Gone),
        },
        Err(fault) => Err(fault),
    }
}

/// Writes the pages of the group, and reports on the last one.
pub(crate) fn write_pages<N: Nand, S: PageSource>(
    device: &mut N,
    source: &S,
    scratch: &mut [u8],
    place: &GroupPlace,
) -> Result<LastPage, GroupFault>
    requires not_empty { 1 ≤ place.now.count }
    requires may { MayWrite (N.state device.old) place.now 0 }
    requires count { place.now.count ≡ S.count source.now }
    requires source { S.can_write source.now (N.state device.old).geometry place.now.group }
    requires has { (N.state device.old).honest ≡ true → (i : ℕ) → i < S.count source.now → S.has source.now (N.state device.old).flash i }
    requires size { length scratch.old ≡ (N.state device.old).geometry.bytes }
    ensures quiet { S.quiet source.now → (N.state device.new).reads + (N.state device.old).failures ≤ (N.state device.old).reads + (N.state device.new).failures }
    ensures writes { WritesAll (N.state device.old) (N.state device.new) (group_at place.now)
        (S.name source.now place.now.group) (S.bytes source.now (N.state device.old).flash) result }
{
    write_first(device, source, scratch, place)?;
    write_last(device, source, scratch, place)
}
