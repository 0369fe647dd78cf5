// Folders, written as rows.
use image_tools::{Folder, FolderEntry, Node};
use posix_profile::Bytes;
use std::alloc::Global;
use std::process::Abort;

/// What a row has: the names in a directory, the bytes of a file, or the earlier path of its file.
#[derive(Clone, Copy)]
pub(crate) enum Sample {
    Directory(&'static [&'static str]),
    File(u32),
    Link(&'static str),
}

/// A path, its moment, and what it leads to.
pub(crate) type Row = (&'static str, u64, Sample);

/// So many bytes, of which no 250 that follow one another are all the same.
fn sample_bytes(rt: &impl Abort, alloc: Global, length: u32) -> Vec<u8> {
    let mut bytes = Vec::new(alloc);
    for place in 0..length {
        bytes.push((place % 251) as u8).expect(rt, "memory");
    }
    bytes
}

fn names_of(rt: &impl Abort, alloc: Global, names: &[&str]) -> Vec<Bytes> {
    let mut all = Vec::new(alloc);
    for name in names {
        all.push(Bytes::new(name.as_bytes().to_vec(alloc).expect(rt, "memory")))
            .expect(rt, "memory");
    }
    all
}

fn node_of(rt: &impl Abort, alloc: Global, sample: Sample) -> Node {
    match sample {
        Sample::Directory(names) => Node::Directory(names_of(rt, alloc, names)),
        Sample::File(length) => Node::File(sample_bytes(rt, alloc, length)),
        Sample::Link(path) => Node::Link(path.as_bytes().to_vec(alloc).expect(rt, "memory")),
    }
}

/// The folder of rows.
pub(crate) fn folder_of(rt: &impl Abort, alloc: Global, rows: &[Row]) -> Folder {
    let mut entries = Vec::new(alloc);
    for (path, moment, sample) in rows {
        entries
            .push(FolderEntry {
                path: path.as_bytes().to_vec(alloc).expect(rt, "memory"),
                moment: *moment,
                node: node_of(rt, alloc, *sample),
            })
            .expect(rt, "memory");
    }
    Folder { entries }
}
