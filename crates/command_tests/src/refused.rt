// Commands whose calls of the store are refused memory in turn.
use crate::cuts::no_objects;
use crate::lines::{command_of, reply_text};
use crate::refusing::RefusingStore;
use object_commands::Volume;
use object_store::ObjectStore;
use plain_volume::PlainObjects;
use posix_profile::{Command, Errno, Kind, NameList, Reply, Stamped};
use std::alloc::Global;
use std::process::Abort;

/// A volume over maps that may refuse memory.
type RefusingVolume = Volume<RefusingStore<PlainObjects>>;

/// More calls than a command makes here.
const MOST_CALLS: u64 = 20;

/// More than the number of each object here.
const NUMBERS: u64 = 80;

/// A volume over these maps, which refuse nothing, with no descriptor open.
fn volume_over(
    rt: &impl Abort,
    alloc: Global,
    inner: PlainObjects,
    read_only: bool,
) -> RefusingVolume {
    match Volume::new(alloc, RefusingStore { inner, calls: None }, read_only) {
        Ok(volume) => volume,
        Err((_store, error)) => panic!(rt; "{error:?}"),
    }
}

/// The same volume over a copy of its maps, which refuses memory after so many calls.
fn refusing(rt: &impl Abort, volume: &RefusingVolume, calls: Option<u64>) -> RefusingVolume {
    let inner = volume.store().inner.copy().expect(rt, "memory");
    match volume.copy_over(RefusingStore { inner, calls }) {
        Ok(copy) => copy,
        Err((_store, error)) => panic!(rt; "{error:?}"),
    }
}

/// Whether a command may be answered by ENOMEM.
fn takes_memory(command: &Command) -> bool {
    !matches!(
        command,
        Command::Close { .. }
            | Command::Seek { .. }
            | Command::Fsync { .. }
            | Command::Sync
            | Command::Space
    )
}

fn is_no_memory(reply: &Reply) -> bool {
    matches!(reply, Reply::Error(Errno::ENOMEM))
}

/// The names of a directory.
fn names_of(
    rt: &impl Abort,
    alloc: Global,
    objects: &mut PlainObjects,
    directory: u64,
) -> NameList {
    objects.names(alloc, directory).expect(rt, "names")
}

/// The object that a directory has under a name.
fn found_in(
    rt: &impl Abort,
    objects: &mut PlainObjects,
    directory: u64,
    name: &[u8],
) -> Option<u64> {
    objects.find(directory, name).expect(rt, "a name")
}

/// Looks whether a directory has the same names, which lead to the same objects.
fn expect_same_names(
    rt: &impl Abort,
    alloc: Global,
    left: &mut PlainObjects,
    right: &mut PlainObjects,
    directory: u64,
) {
    let names = names_of(rt, alloc, left, directory);
    let others = names_of(rt, alloc, right, directory);
    assert_eq!(rt; names.as_slice().len(), others.as_slice().len());
    for (name, other) in names.as_slice().iter().zip(others.as_slice()) {
        assert_eq!(rt; name.as_slice(), other.as_slice());
        let there = found_in(rt, left, directory, name.as_slice());
        assert_eq!(rt; there, found_in(rt, right, directory, name.as_slice()));
    }
}

/// The bytes of a file of this size.
fn bytes_of(
    rt: &impl Abort,
    alloc: Global,
    objects: &mut PlainObjects,
    number: u64,
    size: u64,
) -> Vec<u8> {
    let mut bytes = vec![in alloc; 0; size as usize].expect(rt, "memory");
    let read = objects
        .read_into(number, 0, &mut bytes)
        .expect(rt, "a read");
    bytes.truncate(read);
    bytes
}

/// Looks whether an object is the same.
fn expect_same_object(
    rt: &impl Abort,
    alloc: Global,
    left: &mut PlainObjects,
    right: &mut PlainObjects,
    number: u64,
) {
    let info = left.info(number);
    assert_eq!(rt; info, right.info(number));
    match info {
        Some(info) => match info.kind {
            Kind::File => {
                let bytes = bytes_of(rt, alloc, left, number, info.size);
                let others = bytes_of(rt, alloc, right, number, info.size);
                assert!(rt; bytes.as_slice() == others.as_slice());
            }
            Kind::Directory => expect_same_names(rt, alloc, left, right, number),
        },
        None => {}
    }
}

/// Looks whether two volumes have the same objects.
fn expect_same_objects(
    rt: &impl Abort,
    alloc: Global,
    left: &RefusingVolume,
    right: &RefusingVolume,
) {
    let mut left = left.store().inner.copy().expect(rt, "memory");
    let mut right = right.store().inner.copy().expect(rt, "memory");
    assert!(rt; left.new_number() < NUMBERS);
    for number in 0..NUMBERS {
        expect_same_object(rt, alloc, &mut left, &mut right, number);
    }
}

/// What a volume answers to a command, which is sent again where memory was refused.
fn answer_again(
    rt: &impl Abort,
    alloc: Global,
    volume: &mut RefusingVolume,
    stamped: &Stamped,
) -> String {
    let mut reply = volume.call(stamped);
    if is_no_memory(&reply) {
        reply = volume.call(stamped);
    }
    reply_text(rt, alloc, &reply)
}

/// Does a command, and returns whether one of its calls was refused: it is answered by ENOMEM then, as it may be.
fn is_refused(rt: &impl Abort, volume: &mut RefusingVolume, stamped: &Stamped) -> bool {
    let reply = volume.call(stamped);
    if volume.store().calls.is_some() {
        return false;
    }
    assert!(rt; is_no_memory(&reply));
    assert!(rt; takes_memory(&stamped.command));
    true
}

/// What becomes of a volume whose command is refused this call, and then the command is sent again: it was as before, and is as after.
/// `None` where the command makes no such call.
fn refused_at(
    rt: &impl Abort,
    alloc: Global,
    before: &RefusingVolume,
    after: &RefusingVolume,
    stamped: &Stamped,
    answers: &str,
    calls: u64,
) -> Option<RefusingVolume> {
    let mut volume = refusing(rt, before, Some(calls));
    if !is_refused(rt, &mut volume, stamped) {
        return None;
    }
    expect_same_objects(rt, alloc, &volume, before);
    assert_eq!(rt;
        answer_again(rt, alloc, &mut volume, stamped).as_str(),
        answers
    );
    expect_same_objects(rt, alloc, &volume, after);
    Some(volume)
}

/// Does a command with each of its calls refused in turn, and asks for it again after each. The volume becomes the one that
/// was refused last. The result is how many calls were refused.
fn refuse_each(
    rt: &impl Abort,
    alloc: Global,
    volume: &mut RefusingVolume,
    stamped: &Stamped,
    answers: &str,
) -> u64 {
    let mut after = refusing(rt, volume, None);
    assert_eq!(rt;
        answer_again(rt, alloc, &mut after, stamped).as_str(),
        answers
    );
    for calls in 0..MOST_CALLS {
        match refused_at(rt, alloc, volume, &after, stamped, answers, calls) {
            Some(again) => after = again,
            None => {
                *volume = after;
                return calls;
            }
        }
    }
    assert!(rt; false, "more than {MOST_CALLS} calls");
    MOST_CALLS
}

/// The request, the reply, and how many calls of the store may be refused.
const COSTS: [(&str, &str, u64); 18] = [
    ("mkdir /d", "ok", 2),
    ("open /d/f rwc", "fd 0", 3),
    ("write 0 hello", "wrote 5", 1),
    ("seek 0 0 set", "at 0", 0),
    ("read 0 10", "data 5 hello", 1),
    ("stat /d/f", "info file 3 1 5 0", 2),
    ("list /d", "names 1 f", 2),
    ("link /d/f /g", "ok", 4),
    ("rename /g /h", "ok", 3),
    ("truncate 0 3", "ok", 1),
    ("fsync 0", "ok", 0),
    ("unlink /h", "ok", 2),
    ("unlink /d/f", "ok", 3),
    ("sync", "ok", 0),
    ("space", "space 512 144 139", 0),
    ("close 0", "ok", 0),
    ("rmdir /d", "ok", 2),
    ("stat /d", "error ENOENT", 1),
];

#[test]
fn each_call_may_be_refused(rt: HostRuntime) {
    let alloc = rt.alloc();
    let mut volume = volume_over(&rt, alloc, no_objects(&rt, alloc), false);
    for (line, answers, calls) in COSTS {
        let stamped = command_of(&rt, alloc, line);
        let refused = refuse_each(&rt, alloc, &mut volume, &stamped, answers);
        assert_eq!(&rt; refused, calls, "{line}");
    }
}

/// What a volume that can only be read answers, over a file of five bytes and an empty directory.
const READ_ONLY: [(&str, &str); 24] = [
    ("open /a rw", "error EROFS"),
    ("open /a wt", "error EROFS"),
    ("open /b rc", "error EROFS"),
    ("open /b r", "error ENOENT"),
    ("open /a r", "fd 0"),
    ("read 0 10", "data 5 hello"),
    ("write 0 x", "error EBADF"),
    ("truncate 0 1", "error EINVAL"),
    ("fsync 0", "ok"),
    ("sync", "ok"),
    ("mkdir /e", "error EROFS"),
    ("mkdir /d", "error EEXIST"),
    ("rmdir /d", "error EROFS"),
    ("rmdir /a", "error ENOTDIR"),
    ("unlink /a", "error EROFS"),
    ("unlink /d", "error EPERM"),
    ("link /a /b", "error EROFS"),
    ("link /a /b/", "error ENOENT"),
    ("rename /a /b", "error EROFS"),
    ("rename /a /a", "ok"),
    ("rename /a /b/", "error ENOTDIR"),
    ("list /", "names 2 a d"),
    ("stat /a", "info file 2 1 5 0"),
    ("close 0", "ok"),
];

/// The maps of a file of five bytes and an empty directory.
fn file_and_directory(rt: &impl Abort, alloc: Global) -> PlainObjects {
    let mut volume = volume_over(rt, alloc, no_objects(rt, alloc), false);
    for line in ["open /a rwc", "write 0 hello", "close 0", "mkdir /d"] {
        let _reply = volume.call(&command_of(rt, alloc, line));
    }
    volume.store().inner.settled().expect(rt, "memory")
}

#[test]
fn what_may_only_be_read_stays(rt: HostRuntime) {
    let alloc = rt.alloc();
    let mut volume = volume_over(&rt, alloc, file_and_directory(&rt, alloc), true);
    for (line, answers) in READ_ONLY {
        let stamped = command_of(&rt, alloc, line);
        let _calls = refuse_each(&rt, alloc, &mut volume, &stamped, answers);
    }
}
