// Names that are made to mislead who lists them.
use image_tools::{Folder, FolderEntry, Node, pack};
use nandfs_program::{Listing, list, list_as_json, show_tree};
use plain_volume::PlainVolume;
use posix_profile::Bytes;
use std::alloc::Global;
use std::process::Abort;
use std::str;
use volume_terms::VolumeSizes;

/// Names in the order of their bytes, and what is shown of them: control bytes, one of them in two bytes of UTF-8; escapes of a
/// terminal, and a name that is what another one's escapes are; dots; and what is no UTF-8.
const NAMES: [(&[u8], &str); 11] = [
    (b"\x01", "\\x01"),
    (b"\n", "\\x0a"),
    (b"\x1b[31m", "\\x1b[31m"),
    (b".. ", ".. "),
    (b"...", "..."),
    (b"\\", "\\x5c"),
    (b"\\x1b[31m", "\\x5cx1b[31m"),
    (b"a\x7f", "a\\x7f"),
    (b"\xc2\x9b31m", "\\xc2\\x9b31m"),
    (b"\xc3\xbc", "\u{fc}"),
    (b"\xff\xfe", "\\xff\\xfe"),
];

/// How many directories are in one another.
const DEPTH: usize = 40;

/// Eight blocks of 32 pages of 512 bytes, one of them spare: room for 144 pages.
fn new_volume(rt: &impl Abort, alloc: Global) -> PlainVolume {
    PlainVolume::new(alloc, VolumeSizes::new(512, 32, 8, 1), false).expect(rt, "memory")
}

/// An entry at the moment 1.
fn entry_of(rt: &impl Abort, alloc: Global, path: &[u8], node: Node) -> FolderEntry {
    let path = path.to_vec(alloc).expect(rt, "memory");
    FolderEntry {
        path,
        moment: 1,
        node,
    }
}

/// A root with empty files of these names, and at last one of 255 bytes that are no UTF-8.
fn folder_of_names(rt: &impl Abort, alloc: Global) -> Folder {
    let longest = vec![in alloc; 0xffu8; 255].expect(rt, "memory");
    let mut names = Vec::new(alloc);
    let mut files = Vec::new(alloc);
    for name in NAMES.iter().map(|row| row.0).chain([longest.as_slice()]) {
        let mut path = b"/".to_vec(alloc).expect(rt, "memory");
        path.extend_from_slice(name).expect(rt, "memory");
        files
            .push(entry_of(rt, alloc, &path, Node::File(Vec::new(alloc))))
            .expect(rt, "memory");
        names
            .push(Bytes::new(name.to_vec(alloc).expect(rt, "memory")))
            .expect(rt, "memory");
    }
    let mut entries = Vec::new(alloc);
    entries
        .push(entry_of(rt, alloc, b"/", Node::Directory(names)))
        .expect(rt, "memory");
    entries.append(&mut files).expect(rt, "memory");
    Folder { entries }
}

/// Directories in one another, of one name that is no text and has an escape.
fn deep_folder(rt: &impl Abort, alloc: Global) -> Folder {
    let mut entries = Vec::new(alloc);
    let mut path = b"/".to_vec(alloc).expect(rt, "memory");
    for _above in 0..DEPTH {
        let mut names = Vec::new(alloc);
        names
            .push(Bytes::new(b"\x1b\xff".to_vec(alloc).expect(rt, "memory")))
            .expect(rt, "memory");
        entries
            .push(entry_of(rt, alloc, &path, Node::Directory(names)))
            .expect(rt, "memory");
        if !path.ends_with(b"/") {
            path.push(b'/').expect(rt, "memory");
        }
        path.extend_from_slice(b"\x1b\xff").expect(rt, "memory");
    }
    entries
        .push(entry_of(rt, alloc, &path, Node::Directory(Vec::new(alloc))))
        .expect(rt, "memory");
    Folder { entries }
}

/// All that is listed of a volume with the folder.
fn listed(rt: &impl Abort, alloc: Global, folder: &Folder) -> Vec<u8> {
    let mut volume = new_volume(rt, alloc);
    pack(alloc, folder, &mut volume).expect(rt, "a packed folder");
    let mut out = Vec::new(alloc);
    let listing = Listing {
        long: true,
        all_below: true,
    };
    list(alloc, &mut volume, &mut out, b"/", listing).expect(rt, "a list");
    show_tree(alloc, &mut volume, &mut out).expect(rt, "a tree");
    list_as_json(alloc, &mut volume, &mut out, b"/", true).expect(rt, "a list");
    out
}

#[test]
fn no_control_character_is_listed(rt: HostRuntime) {
    let alloc = rt.alloc();
    for folder in [folder_of_names(&rt, alloc), deep_folder(&rt, alloc)] {
        let out = listed(&rt, alloc, &folder);
        let text = str::from_utf8(&out).expect(&rt, "a text");
        assert!(&rt; text.chars().all(|c| c == '\n' || !c.is_control()));
    }
}

#[test]
fn each_name_is_listed_as_another_line(rt: HostRuntime) {
    let alloc = rt.alloc();
    let mut volume = new_volume(&rt, alloc);
    pack(alloc, &folder_of_names(&rt, alloc), &mut volume).expect(&rt, "a packed folder");
    let mut out = Vec::new(alloc);
    let listing = Listing {
        long: false,
        all_below: false,
    };
    list(alloc, &mut volume, &mut out, b"/", listing).expect(&rt, "a list");
    let text = str::from_utf8(&out).expect(&rt, "a text");
    let wanted = NAMES.iter().map(|row| row.1);
    assert!(&rt; text.lines().zip(wanted).all(|(line, shown)| line == shown));
    assert_eq!(&rt; text.lines().count(), NAMES.len() + 1);
}
