// Folders that are packed and unpacked.
use crate::rows::{Row, Sample, folder_of};
use image_tools::{Refusal, RefusalCause, TreeFault, pack, refusals, unpack};
use plain_volume::PlainVolume;
use posix_profile::Errno;
use std::alloc::Global;
use std::process::Abort;
use volume_terms::VolumeSizes;

/// Files of no byte, of one, of a page less one, of a page and of one more, and of three writes; directories in directories, one
/// of them without names; and a second and a third name of a file. Each moment differs.
const WHOLE: &[Row] = &[
    (
        "/",
        90,
        Sample::Directory(&["a", "b", "empty", "more", "one"]),
    ),
    ("/a", 80, Sample::Directory(&["b", "less", "page"])),
    ("/b", 3, Sample::File(0)),
    ("/empty", 5, Sample::Directory(&[])),
    ("/more", 6, Sample::File(513)),
    ("/one", 7, Sample::File(1)),
    ("/a/b", 60, Sample::Directory(&["long", "other"])),
    ("/a/less", 8, Sample::File(511)),
    ("/a/page", 9, Sample::File(512)),
    ("/a/b/long", 10, Sample::File(4097)),
    ("/a/b/other", 6, Sample::Link("/more")),
];

const NOTHING: &[Row] = &[("/", 7, Sample::Directory(&[]))];

const TOO_MUCH: &[Row] = &[
    ("/", 1, Sample::Directory(&["a"])),
    ("/a", 2, Sample::File(80000)),
];

const ONE: &[Row] = &[
    ("/", 1, Sample::Directory(&["one"])),
    ("/one", 2, Sample::File(1)),
];

const OTHER: &[Row] = &[
    ("/", 1, Sample::Directory(&["other"])),
    ("/other", 2, Sample::File(1)),
];

/// Eight blocks of 32 pages of 512 bytes, one of them spare: room for 144 pages.
fn new_volume(rt: &impl Abort, alloc: Global) -> PlainVolume {
    PlainVolume::new(alloc, VolumeSizes::new(512, 32, 8, 1), false).expect(rt, "memory")
}

#[test]
fn a_folder_that_was_packed_is_unpacked(rt: HostRuntime) {
    let alloc = rt.alloc();
    for rows in [WHOLE, NOTHING] {
        let folder = folder_of(&rt, alloc, rows);
        let mut volume = new_volume(&rt, alloc);
        pack(alloc, &folder, &mut volume).expect(&rt, "a packed folder");
        let found = unpack(alloc, &mut volume).expect(&rt, "a folder");
        let answers = format!(in alloc; "{found:?}").expect(&rt, "memory");
        let wanted = format!(in alloc; "{folder:?}").expect(&rt, "memory");
        assert_eq!(&rt; answers, wanted);
    }
}

#[test]
fn a_volume_without_room_or_with_names_refuses(rt: HostRuntime) {
    let alloc = rt.alloc();
    let much = folder_of(&rt, alloc, TOO_MUCH);
    let mut volume = new_volume(&rt, alloc);
    assert_eq!(&rt;
        pack(alloc, &much, &mut volume),
        Err(TreeFault::Refused(Errno::ENOSPC))
    );
    let one = folder_of(&rt, alloc, ONE);
    let other = folder_of(&rt, alloc, OTHER);
    let mut volume = new_volume(&rt, alloc);
    assert_eq!(&rt; pack(alloc, &one, &mut volume), Ok(()));
    assert_eq!(&rt;
        pack(alloc, &one, &mut volume),
        Err(TreeFault::Refused(Errno::EEXIST))
    );
    assert_eq!(&rt; pack(alloc, &other, &mut volume), Err(TreeFault::Unlike));
}

/// The cause and the path of each refusal, in lines.
fn lines_of(rt: &impl Abort, alloc: Global, refused: &[Refusal]) -> String {
    let mut text = String::new(alloc);
    for refusal in refused {
        let cause = match refusal.cause {
            RefusalCause::LongPath => "path ",
            RefusalCause::BadName => "name ",
            RefusalCause::LongFile => "file ",
        };
        text.push_str(cause).expect(rt, "memory");
        let path = String::from_utf8_lossy(alloc, &refusal.path).expect(rt, "memory");
        text.push_str(path.as_str()).expect(rt, "memory");
        text.push('\n').expect(rt, "memory");
    }
    text
}

const REFUSED: &[Row] = &[
    ("/", 1, Sample::Directory(&["a", "b", "c", "d"])),
    ("/a", 1, Sample::Directory(&["."])),
    ("/b", 1, Sample::Directory(&["x", ".."])),
    ("/c", 1, Sample::Directory(&["a/b"])),
    ("/d", 1, Sample::Directory(&["a\0"])),
    ("/e", 1, Sample::Directory(&[""])),
    ("/f", 1, Sample::File(101)),
    ("/g", 1, Sample::File(100)),
];

#[test]
fn what_no_volume_can_have_is_listed(rt: HostRuntime) {
    let alloc = rt.alloc();
    let mut folder = folder_of(&rt, alloc, REFUSED);
    for entry in folder.entries.iter_mut().skip(7) {
        entry.path.resize(4096, b'h').expect(&rt, "memory");
    }
    let refused = refusals(alloc, &folder, 100).expect(&rt, "memory");
    assert_eq!(&rt; refused.len(), 7);
    let answers = lines_of(&rt, alloc, &refused[..6]);
    assert_eq!(&rt;
        answers.as_str(),
        "name /a\nname /b\nname /c\nname /d\nname /e\nfile /f\n"
    );
    assert_eq!(&rt; refused[6].cause, RefusalCause::LongPath);
    let whole = folder_of(&rt, alloc, WHOLE);
    let refused = refusals(alloc, &whole, 4097).expect(&rt, "memory");
    assert!(&rt; refused.is_empty());
}
