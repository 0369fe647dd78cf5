// What sessions are answered on a device that was just formatted.

use crate::devices::formatted;
use crate::expected::new_tree;
use crate::scenarios::Part::{Lost, LostAfter, Rows, Turns, Unmounted};
use crate::scenarios::{Part, ask_part, served_after};
use plain_volume::{Answers, PlainTree};
use posix_calls::{Errno, Reply, Stamped};
use std::process::Abort;

/// A file that is written and read.
pub(crate) const HELLO: &str = "open /a rwc -> fd 0
write 0 hello -> wrote 5
seek 0 0 set -> at 0
read 0 10 -> data 5 hello
space -> space 512 144 140";

/// A gap reads as zeros.
const GAP: &str = "space -> space 512 144 143
open /h rwc -> fd 0
seek 0 1000 set -> at 1000
write 0 x -> wrote 1
stat /h -> info file 2 1 1001 0
seek 0 998 set -> at 998
read 0 5 -> data 3 \\x00\\x00x
space -> space 512 144 139";

/// What was cut off does not come back.
const CUT_OFF: &str = "open /a rwc -> fd 0
write 0 [x*1000] -> wrote 1000
fsync 0 -> ok
truncate 0 100 -> ok
truncate 0 600 -> ok
seek 0 100 set -> at 100
read 0 500 -> data 500 [\\x00*500]
read 0 500 -> data 0 \\e
space -> space 512 144 139";

const OPEN: Part = Rows("open /a rwc -> fd 0");

const FILL: Part = Turns(28, "write 0 [x*2560] -> wrote 2560");

/// One file takes all room.
const FULL: &str = "write 0 [x*2560] -> wrote 512
write 0 [x*2560] -> error ENOSPC
stat /a -> info file 2 1 72192 0
space -> space 512 144 0";

/// In a full volume there is room for old bytes alone.
const NO_ROOM: &str = "seek 0 0 set -> at 0
write 0 [y*2560] -> wrote 2560
mkdir /d -> error ENOSPC
list / -> names 1 a
unlink /a -> ok
space -> space 512 144 1
close 0 -> ok
space -> space 512 144 143";

/// A file whose name is gone lives while it is open.
const NAMELESS: &str = "fsync 0 -> ok
unlink /a -> ok
seek 0 0 set -> at 0
read 0 10 -> data 5 hello
sync -> ok";

/// Which names can take the place of which.
const NAMES: &str = "mkdir /d -> ok
open /f wc -> fd 0
link /f /g -> ok
rename /d /d/e -> error EINVAL
rename /f /d -> error EISDIR
rename /d /f -> error ENOTDIR
rename /f /g -> ok
list / -> names 3 d f g
stat /g -> info file 3 2 0 0";

/// Where paths lead.
const PATHS: &str = "open /f wc -> fd 0
stat \\e -> error ENOENT
stat /f/ -> error ENOTDIR
stat /f/x -> error ENOTDIR
stat /.. -> info dir 1 2 0 0
stat /\\x00 -> error EINVAL
open /n/ wc -> error ENOENT
mkdir //d// -> ok
stat d -> info dir 3 2 0 0
stat / -> info dir 1 3 0 0
mkdir /[n*255] -> ok
mkdir /[n*256] -> error ENAMETOOLONG
stat [/*4095] -> info dir 1 4 0 0
stat [/*4096] -> error ENAMETOOLONG";

/// Each command of a path takes 4,095 bytes, in names of 255, and no more.
const LONG_PATHS: &str = "mkdir /d -> ok
open [/*4093]/f rwc -> fd 0
open [/*4094]/f rwc -> error ENAMETOOLONG
open /x/[n*256] r -> error ENAMETOOLONG
stat [/*4093]/f -> info file 3 1 0 0
stat /f/[n*256] -> error ENAMETOOLONG
mkdir [/*4093]/e -> ok
mkdir [/*4094]/g -> error ENAMETOOLONG
rmdir [/*4094]/e -> error ENAMETOOLONG
rmdir /x/[n*256] -> error ENAMETOOLONG
rmdir [/*4093]/e -> ok
link [/*4093]/f [/*4093]/g -> ok
link [/*4094]/f /h -> error ENAMETOOLONG
link /f [/*4094]/h -> error ENAMETOOLONG
link /f /x/[n*256] -> error ENAMETOOLONG
unlink [/*4094]/g -> error ENAMETOOLONG
unlink /x/[n*256] -> error ENAMETOOLONG
unlink [/*4093]/g -> ok
rename [/*4093]/f /d[/*4091]/f -> ok
rename /d[/*4092]/f /f -> error ENAMETOOLONG
rename /d/f [/*4094]/f -> error ENAMETOOLONG
rename /d/f /x/[n*256] -> error ENAMETOOLONG
rename /x/[n*256] /f -> error ENAMETOOLONG
rename /d/f /d/[n*255] -> ok
list /d[/*4093] -> names 1 [n*255]
list /d[/*4094] -> error ENAMETOOLONG
list /f/[n*256] -> error ENAMETOOLONG
list / -> names 1 d";

/// There are 64 descriptors.
const DESCRIPTORS: &str = "open / r -> error EMFILE
close 7 -> ok
open / r -> fd 7
read 7 1 -> error EISDIR
seek 7 0 set -> error EINVAL
fsync 64 -> error EBADF";

/// Flags are tested in their order.
const FLAGS: &str = "open /a rwcx -> fd 0
open /a rwcx -> error EEXIST
open /a rt -> error EINVAL
open / w -> error EISDIR
open / rc -> error EISDIR
open /z rx -> error ENOENT
write 0 \\e -> wrote 0";

/// How far offsets and lengths go.
const LIMITS: &str = "open /a rwc -> fd 0
seek 0 1966080 set -> at 1966080
write 0 x -> error EFBIG
seek 0 1966079 set -> at 1966079
write 0 x -> error ENOSPC
truncate 0 1966081 -> error EFBIG
truncate 0 1966080 -> error ENOSPC
truncate 0 -1 -> error EINVAL
seek 0 -1 set -> error EINVAL
seek 0 9223372036854775807 set -> at 9223372036854775807
seek 0 1 cur -> error EOVERFLOW";

/// With the flag for it each write is at the end.
const APPENDS: &str = "open /a rwca -> fd 0
write 0 ab -> wrote 2
seek 0 0 set -> at 0
write 0 cd -> wrote 2
seek 0 0 set -> at 0
read 0 10 -> data 4 abcd";

/// What is refused to directories.
const DIRECTORIES: &str = "mkdir /d -> ok
mkdir /d/e -> ok
rmdir /d -> error ENOTEMPTY
rmdir /d/. -> error EINVAL
rmdir /d/.. -> error ENOTEMPTY
rmdir / -> error EBUSY
unlink /d -> error EPERM
link /d /k -> error EPERM
rename /d/e /d -> error ENOTEMPTY
rename / /q -> error EBUSY
rmdir /d/e -> ok
stat /d -> info dir 2 2 0 0";

/// Other lines are bad, and an empty one is answered by nothing. Names come in their order.
const LINES: &str = "nope -> bad line
read 0 -> bad line

space x -> bad line
now 9223372036854775808 -> bad line
mkdir /x\\x20y -> ok
mkdir /a -> ok
mkdir /a -> error EEXIST
list / -> names 2 a x\\x20y";

/// Directories in directories are moved and removed.
pub(crate) const MOVES: &str = "mkdir /a -> ok
mkdir /b -> ok
mkdir /a/c -> ok
stat /a -> info dir 2 3 0 0
rename /a/c /b/c -> ok
stat /a -> info dir 2 2 0 0
stat /b/c/.. -> info dir 3 3 0 0
rename /b /b/c/x -> error EINVAL
mkdir /d -> ok
rename /b/c /d -> ok
stat /d -> info dir 4 2 0 0
open /d r -> fd 0
rmdir /d -> ok
mkdir /d/x -> error ENOENT
mkdir /e -> ok
stat /e -> info dir 5 2 0 0
close 0 -> ok
mkdir /f -> ok
stat /f -> info dir 4 2 0 0";

const MOVED: &str = "list / -> names 4 a b e f
stat /e -> info dir 5 2 0 0
stat /f -> info dir 4 2 0 0
list /b -> names 0
space -> space 512 144 135";

/// Changes set the moments of what they change.
const MOMENTS: &str = "now 7 -> ok
mkdir /d -> ok
stat / -> info dir 1 3 0 7
now 9 -> ok
open /d/f wc -> fd 0
stat /d -> info dir 2 2 0 9
now 12 -> ok
write 0 \\e -> wrote 0
stat /d/f -> info file 3 1 0 9
write 0 a -> wrote 1
stat /d/f -> info file 3 1 1 12
now 3 -> ok
truncate 0 1 -> ok
link /d/f /g -> ok
stat /g -> info file 3 2 1 3
stat / -> info dir 1 3 0 3
now 20 -> ok
rename /d/f /g -> ok
stat /d -> info dir 2 2 0 9";

const KEPT_MOMENTS: &str = "stat / -> info dir 1 3 0 3
stat /d -> info dir 2 2 0 9
stat /g -> info file 3 2 1 3
now 9223372036854775807 -> ok
unlink /g -> ok
stat / -> info dir 1 3 0 9223372036854775807";

const NONE: Part = Rows("list / -> names 0\nspace -> space 512 144 143");

const SYNC: Part = Rows("sync -> ok");

const THREE: Part = Turns(3, "mkdir /# -> ok");

const SCENARIOS: [&[Part]; 23] = [
    &[Rows(GAP)],
    &[Rows(HELLO), LostAfter(0), NONE],
    &[Rows(CUT_OFF)],
    &[OPEN, FILL, Rows(FULL), Rows(NO_ROOM)],
    &[Rows(HELLO), Rows(NAMELESS), Lost, NONE],
    &[Rows(NAMES)],
    &[Rows(PATHS)],
    &[Rows(LONG_PATHS)],
    &[Turns(64, "open / r -> fd #"), Rows(DESCRIPTORS)],
    &[Rows(FLAGS)],
    &[Rows(LIMITS)],
    &[Rows(APPENDS)],
    &[THREE, LostAfter(0), NONE],
    // A full buffer is written by an erase and seven programs, before what has no room in it.
    &[
        THREE,
        Rows("mkdir /d -> ok"),
        LostAfter(8),
        Rows("list / -> names 3 0 1 2"),
    ],
    &[Rows(DIRECTORIES)],
    &[Rows(LINES)],
    &[Rows(MOVES), SYNC, Lost, Rows(MOVED)],
    &[Rows(MOVES), Unmounted, Rows(MOVED)],
    &[Rows(MOMENTS), SYNC, Lost, Rows(KEPT_MOMENTS)],
    &[Rows(MOMENTS), Unmounted, Rows(KEPT_MOMENTS)],
    // Directories take all room.
    &[
        Turns(71, "mkdir /# -> ok"),
        Rows("mkdir /m -> error ENOSPC\nspace -> space 512 144 1"),
        Rows("rmdir /70 -> ok\nspace -> space 512 144 3"),
    ],
    // A full volume is written again and again.
    &[
        OPEN,
        FILL,
        Rows(FULL),
        Turns(
            500,
            "seek 0 0 set -> at 0\nwrite 0 [z*512] -> wrote 512\nfsync 0 -> ok",
        ),
        Lost,
        Rows("space -> space 512 144 0"),
    ],
    // After a clean end nothing is left to be written.
    &[
        Rows(HELLO),
        Unmounted,
        LostAfter(0),
        Rows("list / -> names 1 a"),
    ],
];

#[test]
fn sessions_are_reported_their_replies(rt: HostRuntime) {
    let alloc = rt.alloc();
    for scenario in SCENARIOS {
        for capacity in [1usize, 2, 16] {
            let _ = served_after(&rt, alloc, formatted(&rt, alloc), capacity, scenario);
        }
    }
}

/// A plain tree that a shell serves.
#[derive(Drop)]
struct Plain {
    tree: PlainTree,
}

impl Answers for Plain {
    ghost serves = { λ old command reply new. Unit {0} };

    ghost shows = { λ _ _ _ _. ⊥ };

    fn answer(&mut self, command: &Stamped) -> Reply {
        match self.tree.step(command) {
            Ok(reply) => reply,
            Err(_) => Reply::Error(Errno::ENOMEM),
        }
    }

    ghost sound = { λ v z read_only s shown. absurd shown };
}

/// A plain tree answers the same, up to the first loss or unmount of a scenario.
#[test]
fn a_plain_tree_is_reported_the_same(rt: HostRuntime) {
    let alloc = rt.alloc();
    for scenario in SCENARIOS {
        let mut plain = Plain {
            tree: new_tree(&rt, alloc),
        };
        for part in scenario {
            if !ask_part(&rt, alloc, &mut plain, *part) {
                break;
            }
        }
    }
}
