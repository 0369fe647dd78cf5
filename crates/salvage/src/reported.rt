// What a salvage returns of one object.

use page_tags::ObjectKind;

/// What the header of an object says. `length` counts the bytes of a file or the entries of a directory; `moment` is when it last
/// changed.
#[derive(Clone, Copy, Debug, PartialEq, Eq)]
pub struct ObjectInfo {
    pub kind: ObjectKind,
    pub length: u64,
    pub moment: u64,
}

/// A name of a directory, and the object that it leads to.
#[derive(Drop)]
pub struct SalvagedName {
    pub name: Vec<u8>,
    pub object: u64,
}

/// The names of a directory whose slots read, in the order of the slots, and how many of its slots are lost.
#[derive(Drop)]
pub struct Listing {
    pub names: Vec<SalvagedName>,
    pub lost: u64,
}

/// A chunk of a file that is lost, and how many bytes of it follow from where it was read on.
#[derive(Clone, Copy, Debug, PartialEq, Eq)]
pub struct LostPart {
    pub chunk: u64,
    pub bytes: u64,
}

/// What is read of a file at an offset: so many bytes, of one chunk; or that the chunk is lost. No bytes are the end of the file,
/// or a buffer with no room.
#[derive(Clone, Copy, Debug, PartialEq, Eq)]
pub enum Part {
    Bytes(usize),
    Lost(LostPart),
}
