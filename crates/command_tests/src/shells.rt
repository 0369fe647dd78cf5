// Worked lines: requests and replies.
use line_shell::{Line, ScriptFault, ShellFault, parse, read_script, shell, write_reply};
use posix_profile::{
    Access, Answers, Bytes, Command, Errno, FilePath, Info, Kind, NameList, OpenFlags, Reply,
    SpaceInfo, Stamped, Whence,
};
use std::alloc::{AllocError, Global};
use std::io::{self, BufReader, ErrorKind, Read, Write};
use std::process::Abort;

fn path(rt: &impl Abort, alloc: Global, text: &[u8]) -> FilePath {
    FilePath::new(text.to_vec(alloc).expect(rt, "memory"))
}

fn text(alloc: Global, text: &[u8]) -> Result<Bytes, AllocError> {
    Ok(Bytes::new(text.to_vec(alloc)?))
}

/// What the text of a reply is.
fn reply_of(rt: &impl Abort, alloc: Global, reply: &Reply) -> Vec<u8> {
    let mut answers = Vec::new(alloc);
    write_reply(&mut answers, reply).expect(rt, "a reply");
    answers
}

/// What a line is.
fn line_of(rt: &impl Abort, alloc: Global, line: &[u8]) -> Line {
    parse(alloc, line).expect(rt, "memory")
}

/// Asserts that the line asks for the command.
fn asks(rt: &impl Abort, alloc: Global, line: &str, command: Command) {
    let found = line_of(rt, alloc, line.as_bytes());
    let found = format!(in alloc; "{found:?}").expect(rt, "memory");
    let wanted = Line::Do(command);
    let wanted = format!(in alloc; "{wanted:?}").expect(rt, "memory");
    assert_eq!(rt; found.as_str(), wanted.as_str(), "{line}");
}

const APPEND: OpenFlags = OpenFlags {
    access: Access::Both,
    create: true,
    excl: true,
    trunc: true,
    append: true,
};

const READ: OpenFlags = OpenFlags {
    access: Access::Read,
    create: false,
    excl: false,
    trunc: false,
    append: false,
};

const CREATE: OpenFlags = OpenFlags {
    access: Access::Write,
    create: true,
    excl: false,
    trunc: false,
    append: false,
};

/// The lines that open a file.
fn ask_to_open(rt: &impl Abort, alloc: Global) {
    for (line, flags) in [
        ("open /a r", READ),
        ("open /a cw", CREATE),
        ("open /a atxcwr", APPEND),
    ] {
        let path = path(rt, alloc, b"/a");
        asks(rt, alloc, line, Command::Open { path, flags });
    }
}

/// The lines that write bytes.
fn ask_to_write(rt: &impl Abort, alloc: Global) {
    for (line, wanted) in [
        ("write 2 a\\x20b\\\\", b"a b\\".as_slice()),
        ("write 2 \\e", b"".as_slice()),
    ] {
        let bytes = text(alloc, wanted).expect(rt, "memory");
        asks(rt, alloc, line, Command::Write { fd: 2, bytes });
    }
}

/// The lines that seek.
fn ask_to_seek(rt: &impl Abort, alloc: Global) {
    for (line, offset, whence) in [
        ("seek 1 -0 set", 0, Whence::Set),
        ("seek 1 9223372036854775807 cur", i64::MAX, Whence::Cur),
        ("seek 1 -9223372036854775808 end", i64::MIN, Whence::End),
    ] {
        let command = Command::Seek {
            fd: 1,
            offset,
            whence,
        };
        asks(rt, alloc, line, command);
    }
}

/// The lines that cut a file.
fn ask_to_truncate(rt: &impl Abort, alloc: Global) {
    for (line, length) in [
        ("truncate 7 00000000000000000000000005", 5),
        ("truncate 7 -5", -5),
    ] {
        asks(rt, alloc, line, Command::Truncate { fd: 7, length });
    }
}

/// The lines that make a directory.
fn ask_for_a_directory(rt: &impl Abort, alloc: Global) {
    for (line, name) in [
        ("  mkdir   /a\tb\r ", b"/a\tb\r".as_slice()),
        ("\\x6dkdir \\x2Fa\\xfF", b"/a\xff".as_slice()),
        ("m\\ekdir \\e", b"".as_slice()),
    ] {
        let path = path(rt, alloc, name);
        asks(rt, alloc, line, Command::Mkdir { path });
    }
}

/// The other lines of one path.
fn ask_with_a_path(rt: &impl Abort, alloc: Global) {
    let root = path(rt, alloc, b"/");
    asks(rt, alloc, "stat /", Command::Stat { path: root });
    let root = path(rt, alloc, b"/");
    asks(rt, alloc, "list /", Command::List { path: root });
    let name = path(rt, alloc, b"/b");
    asks(rt, alloc, "rmdir /b", Command::Rmdir { path: name });
    let name = path(rt, alloc, b"/b");
    asks(rt, alloc, "unlink /b", Command::Unlink { path: name });
}

/// The lines of two paths.
fn ask_with_two_paths(rt: &impl Abort, alloc: Global) {
    let old = path(rt, alloc, b"/a");
    let new = path(rt, alloc, b"/b");
    asks(rt, alloc, "link /a /b", Command::Link { old, new });
    let old = path(rt, alloc, b"/a");
    let new = path(rt, alloc, b"/b");
    asks(rt, alloc, "rename /a /b", Command::Rename { old, new });
}

#[test]
fn each_line_of_the_table_asks_for_its_command(rt: HostRuntime) {
    let alloc = rt.alloc();
    asks(&rt, alloc, "close 3", Command::Close { fd: 3 });
    asks(&rt, alloc, "fsync 00", Command::Fsync { fd: 0 });
    let count = u32::MAX;
    asks(
        &rt,
        alloc,
        "read 1 4294967295",
        Command::Read { fd: 1, count },
    );
    asks(&rt, alloc, "sync", Command::Sync);
    asks(&rt, alloc, "space", Command::Space);
    ask_to_open(&rt, alloc);
    ask_to_write(&rt, alloc);
    ask_to_seek(&rt, alloc);
    ask_to_truncate(&rt, alloc);
    ask_for_a_directory(&rt, alloc);
    ask_with_a_path(&rt, alloc);
    ask_with_two_paths(&rt, alloc)
}

/// Whether a line asks for nothing that there is.
fn is_bad(rt: &impl Abort, alloc: Global, line: &[u8]) -> bool {
    matches!(line_of(rt, alloc, line), Line::Bad)
}

/// Bad lines, by what is wrong: the name, the words after it, a number, flags, an escape.
const BAD: [&[u8]; 5] = [
    b"nope\n\\e\nMKDIR /a\nmkdir\t/a\n/a mkdir",
    b"sync \\e\nspace x\nclose\nclose 3 4\nread 0\nread 0 1 2\nwrite 1\nseek 1 0\nlink /a\nlink /a /b /c\nmkdir\nmkdir /a /b",
    b"close +3\nclose -3\nclose 4294967296\nclose 3x\nclose \\e\nread 0 -1\nseek 1 0 far\nseek 1 +1 set\nseek 1 - set\nseek 1 --1 set\nseek 1 -+1 set\nseek 1 9223372036854775808 set\nseek 1 -9223372036854775809 set\nseek -1 0 set",
    b"open /a\nopen /a cx\nopen /a rr\nopen /a rz\nopen /a \\e\nopen /a rwrw",
    b"mkdir /a\\\nmkdir /a\\x\nmkdir /a\\x4\nmkdir /a\\x4g\nmkdir /a\\y\nmkdir /\\E\nmkdir /\\X41",
];

#[test]
fn other_lines_ask_for_no_command(rt: HostRuntime) {
    let alloc = rt.alloc();
    for (kind, lines) in BAD.iter().enumerate() {
        for (place, line) in lines.split(|byte| *byte == b'\n').enumerate() {
            assert!(rt; is_bad(&rt, alloc, line), "{kind} {place}");
        }
    }
}

#[test]
fn moments_and_empty_lines(rt: HostRuntime) {
    let alloc = rt.alloc();
    for line in ["", "   "] {
        let found = line_of(&rt, alloc, line.as_bytes());
        assert!(rt; matches!(found, Line::Nothing));
    }
    for (line, moment) in [
        ("now 0", 0),
        (" n\\x6fw 0009223372036854775807", 9_223_372_036_854_775_807),
    ] {
        let found = line_of(&rt, alloc, line.as_bytes());
        assert!(rt; matches!(found, Line::Now(n) if n == moment), "{line}");
    }
    for line in [
        "now",
        "now 9223372036854775808",
        "now -1",
        "now 1 1",
        "now \\e",
    ] {
        assert!(rt; is_bad(&rt, alloc, line.as_bytes()), "{line}");
    }
}

/// Asserts that a reply has this text.
fn replies(rt: &impl Abort, alloc: Global, reply: Reply, wanted: &str) {
    assert_eq!(rt;
        reply_of(rt, alloc, &reply).as_slice(),
        wanted.as_bytes(),
        "{wanted}"
    );
}

/// The texts of replies with bytes.
fn reply_with_bytes(rt: &impl Abort, alloc: Global) {
    for (bytes, wanted) in [
        (
            b"!~ \\\x00\x7f\xff\n".as_slice(),
            "data 8 !~\\x20\\\\\\x00\\x7f\\xff\\x0a\n",
        ),
        (b"".as_slice(), "data 0 \\e\n"),
    ] {
        let bytes = text(alloc, bytes).expect(rt, "memory");
        replies(rt, alloc, Reply::Data(bytes), wanted);
    }
}

/// The texts of replies with what is known of an object.
fn reply_with_infos(rt: &impl Abort, alloc: Global) {
    let file = Info {
        kind: Kind::File,
        object: 2,
        links: 1,
        size: 10,
        moment: 18_446_744_073_709_551_615,
    };
    let directory = Info {
        kind: Kind::Directory,
        object: 1,
        links: 3,
        size: 0,
        moment: 7,
    };
    for (info, wanted) in [
        (file, "info file 2 1 10 18446744073709551615\n"),
        (directory, "info dir 1 3 0 7\n"),
    ] {
        replies(rt, alloc, Reply::Info(info), wanted);
    }
}

/// The texts of replies with names.
fn reply_with_names(rt: &impl Abort, alloc: Global) {
    let names = vec![in alloc;
        text(alloc, b"a b").expect(rt, "memory"),
        text(alloc, b"c\\").expect(rt, "memory"),
    ]
    .expect(rt, "memory");
    let none = Reply::Names(NameList::new(Vec::new(alloc)));
    replies(rt, alloc, none, "names 0\n");
    let some = Reply::Names(NameList::new(names));
    replies(rt, alloc, some, "names 2 a\\x20b c\\\\\n");
}

#[test]
fn each_reply_has_its_text(rt: HostRuntime) {
    let alloc = rt.alloc();
    let space = SpaceInfo {
        unit: 512,
        total: 100,
        free: 0,
    };
    replies(&rt, alloc, Reply::Done, "ok\n");
    replies(&rt, alloc, Reply::Fd(0), "fd 0\n");
    let wrote = Reply::Wrote(4_294_967_295);
    replies(&rt, alloc, wrote, "wrote 4294967295\n");
    replies(&rt, alloc, Reply::At(10), "at 10\n");
    replies(&rt, alloc, Reply::SpaceInfo(space), "space 512 100 0\n");
    let long = Reply::Error(Errno::ENAMETOOLONG);
    replies(&rt, alloc, long, "error ENAMETOOLONG\n");
    replies(&rt, alloc, Reply::Error(Errno::EIO), "error EIO\n");
    reply_with_bytes(&rt, alloc);
    reply_with_infos(&rt, alloc);
    reply_with_names(&rt, alloc)
}

/// It answers Done to each directory that it is to make, and to a list the two bytes of how many these were and
/// of the moment of the last one.
#[derive(Drop)]
struct Counter {
    alloc: Global,
    made: u8,
    moment: u64,
    /// How many commands were done.
    calls: u64,
}

impl Counter {
    fn new(alloc: Global) -> Counter {
        Counter {
            alloc,
            made: 0,
            moment: 0,
            calls: 0,
        }
    }

    fn names(&self) -> Result<NameList, AllocError> {
        let made = text(self.alloc, &[b'0' + self.made % 10])?;
        let moment = text(self.alloc, &[b'0' + (self.moment % 10) as u8])?;
        Ok(NameList::new(vec![in self.alloc; made, moment]?))
    }
}

impl Answers for Counter {
    ghost serves = { λ old command reply new. Unit {0} };

    ghost shows = { λ _ _ _ _. ⊥ };

    fn answer(&mut self, command: &Stamped) -> Reply {
        self.calls = self.calls.saturating_add(1);
        match &command.command {
            Command::Mkdir { path: _ } => {
                self.made = self.made.wrapping_add(1);
                self.moment = command.moment;
                Reply::Done
            }
            Command::List { path: _ } => match self.names() {
                Ok(names) => Reply::Names(names),
                Err(_) => Reply::Error(Errno::ENOMEM),
            },
            _ => Reply::Error(Errno::EIO),
        }
    }

    ghost sound = { λ v z read_only s shown. absurd shown };
}

/// What a shell answers over an input, and how it ends.
fn answers(alloc: Global, input: &[u8]) -> (Vec<u8>, Result<(), ShellFault>) {
    let mut reader = input;
    let mut writer = Vec::new(alloc);
    let ends = shell(alloc, &mut reader, &mut writer, &mut Counter::new(alloc));
    (writer, ends)
}

const INPUT: &[u8] =
    b"mkdir /a\n\nnope\r\nlist /\r\nnow 5\nmkdir \\x2fb\n  \nlist /\nread 0\nspace x\nsync";

const ANSWERS: &[u8] =
    b"ok\nbad line\nnames 2 1 0\nok\nok\nnames 2 2 5\nbad line\nbad line\nerror EIO\n";

#[test]
fn a_shell_answers_its_lines(rt: HostRuntime) {
    let alloc = rt.alloc();
    for (input, wanted) in [
        (INPUT, ANSWERS),
        (b"", b""),
        (b"\n", b""),
        (b"\r\n", b""),
        (b"\r", b"bad line\n"),
        (b"mkdir /\r\r\nmkdir\r\n", b"ok\nbad line\n"),
        (b"sync\r", b"bad line\n"),
    ] {
        let (text, ends) = answers(alloc, input);
        assert_eq!(rt; text.as_slice(), wanted);
        assert_eq!(rt; ends, Ok(()));
    }
}

#[test]
fn a_line_has_a_greatest_size(rt: HostRuntime) {
    let alloc = rt.alloc();
    let mut input = vec![in alloc; b'a'; 65_535].expect(&rt, "memory");
    for (end, wanted, ends) in [
        ("", "bad line\n", Ok(())),
        ("\n", "bad line\n", Ok(())),
        ("\r\n", "bad line\n", Ok(())),
        ("a", "bad line\n", Ok(())),
        ("a\nmkdir /\n", "bad line\nok\n", Ok(())),
        ("a\r\nmkdir /\n", "", Err(ShellFault::TooLong)),
        ("ab", "", Err(ShellFault::TooLong)),
    ] {
        input.truncate(65_535);
        input
            .extend_from_slice(end.as_bytes())
            .expect(&rt, "memory");
        let found = answers(alloc, &input);
        assert_eq!(rt; found.0.as_slice(), wanted.as_bytes(), "{end:?}");
        assert_eq!(rt; found.1, ends, "{end:?}");
    }
}

/// It gives up to three bytes a call, is interrupted at each second call, and fails at one of its calls.
#[derive(Drop)]
struct FailingReader<'a> {
    rest: &'a [u8],
    calls: u32,
    fails_at: u32,
}

impl Read for FailingReader<'_> {
    fn read(&mut self, buf: &mut [u8]) -> io::Result<usize> {
        self.calls = self.calls.wrapping_add(1);
        if self.calls == self.fails_at {
            return Err(io::Error::from(ErrorKind::BrokenPipe));
        }
        if self.calls % 2 == 0 {
            return Err(io::Error::from(ErrorKind::Interrupted));
        }
        let count = self.rest.len().min(buf.len()).min(3);
        buf[..count].copy_from_slice(&self.rest[..count]);
        self.rest = &self.rest[count..];
        Ok(count)
    }
}

/// It takes up to two bytes a call, is interrupted at each second call, and fails at one of its calls.
#[derive(Drop)]
struct FailingWriter {
    answers: Vec<u8>,
    calls: u32,
    fails_at: u32,
}

impl Write for FailingWriter {
    fn write(&mut self, buf: &[u8]) -> io::Result<usize> {
        self.calls = self.calls.wrapping_add(1);
        if self.calls == self.fails_at {
            return Err(io::Error::from(ErrorKind::BrokenPipe));
        }
        if self.calls % 2 == 0 {
            return Err(io::Error::from(ErrorKind::Interrupted));
        }
        let count = buf.len().min(2);
        self.answers.extend_from_slice(&buf[..count])?;
        Ok(count)
    }

    fn flush(&mut self) -> io::Result<()> {
        Ok(())
    }
}

/// What a shell answers over the input, whose reader fails at one of its calls, and how it ends.
fn answers_of_reader(
    rt: &impl Abort,
    alloc: Global,
    fails_at: u32,
) -> (Vec<u8>, Result<(), ShellFault>) {
    let reader = FailingReader {
        rest: INPUT,
        calls: 0,
        fails_at,
    };
    let mut reader = BufReader::with_capacity(alloc, 7, reader).expect(rt, "memory");
    let mut writer = Vec::new(alloc);
    let ends = shell(alloc, &mut reader, &mut writer, &mut Counter::new(alloc));
    (writer, ends)
}

/// Whether a text is so many of the lines of the answers.
fn has_whole_lines(text: &[u8]) -> bool {
    ANSWERS.starts_with(text) && (text.is_empty() || text.ends_with(b"\n"))
}

#[test]
fn a_reader_fails_at_each_call(rt: HostRuntime) {
    for fails_at in 1..1000 {
        let (text, ends) = answers_of_reader(&rt, rt.alloc(), fails_at);
        if ends == Ok(()) {
            assert_eq!(rt; text.as_slice(), ANSWERS);
            assert!(rt; fails_at > 40);
            return;
        }
        assert_eq!(rt; ends, Err(ShellFault::Read));
        assert!(rt; has_whole_lines(&text));
    }
    assert!(rt; false, "it still fails");
}

/// What a shell answers over the input to a writer that fails at one of its calls, how many commands it does, and how it ends.
fn answers_to_writer(alloc: Global, fails_at: u32) -> (Vec<u8>, u64, Result<(), ShellFault>) {
    let mut reader = INPUT;
    let mut writer = FailingWriter {
        answers: Vec::new(alloc),
        calls: 0,
        fails_at,
    };
    let mut counter = Counter::new(alloc);
    let ends = shell(alloc, &mut reader, &mut writer, &mut counter);
    let FailingWriter {
        answers,
        calls: _,
        fails_at: _,
    } = writer;
    (answers, counter.calls, ends)
}

/// Whether the answers begin with this text, and no command was done after the one whose answer could not be written.
fn is_answered(text: &[u8], commands: u64) -> bool {
    let whole = text.iter().filter(|byte| **byte == b'\n').count();
    ANSWERS.starts_with(text) && commands <= (whole as u64).saturating_add(1)
}

#[test]
fn a_writer_fails_at_each_call(rt: HostRuntime) {
    let mut most = 0;
    for fails_at in 1..1000 {
        let (text, commands, ends) = answers_to_writer(rt.alloc(), fails_at);
        assert!(rt; is_answered(&text, commands));
        assert!(rt; text.len() >= most);
        most = text.len();
        if ends == Ok(()) {
            assert_eq!(rt; text.as_slice(), ANSWERS);
            assert!(rt; fails_at > 60);
            return;
        }
        assert_eq!(rt; ends, Err(ShellFault::Write));
    }
    assert!(rt; false, "it still fails");
}

/// A writer that takes no memory.
struct Held {
    bytes: [u8; 64],
    count: usize,
}

impl Write for Held {
    fn write(&mut self, buf: &[u8]) -> io::Result<usize> {
        for (taken, byte) in buf.iter().enumerate() {
            if self.count >= 64 {
                return Ok(taken);
            }
            self.bytes[self.count] = *byte;
            self.count += 1;
        }
        Ok(buf.len())
    }

    fn flush(&mut self) -> io::Result<()> {
        Ok(())
    }
}

/// It takes no memory, and answers its calls in turn.
struct Turns {
    calls: u32,
}

impl Answers for Turns {
    ghost serves = { λ old command reply new. Unit {0} };

    ghost shows = { λ _ _ _ _. ⊥ };

    fn answer(&mut self, _command: &Stamped) -> Reply {
        self.calls = self.calls.wrapping_add(1);
        Reply::Wrote(self.calls)
    }

    ghost sound = { λ v z read_only s shown. absurd shown };
}

/// With the tool that refuses one allocation after another, the shell ends with NoMemory, and the replies before are out.
#[test]
fn a_refused_allocation_ends_the_shell(rt: HostRuntime) {
    let input = b"mkdir /a\nlist /\n\nx y z\nsync\nnow 3\nmkdir /bb\n";
    let text = b"wrote 1\nwrote 2\nbad line\nwrote 3\nok\nwrote 4\n";
    let mut reader = input.as_slice();
    let mut writer = Held {
        bytes: [0; 64],
        count: 0,
    };
    let mut volume = Turns { calls: 0 };
    let ends = shell(rt.alloc(), &mut reader, &mut writer, &mut volume);
    let Held { bytes, count } = writer;
    let Turns { calls } = volume;
    let answers = bytes.as_slice().get(..count).expect(&rt, "too many");
    assert!(rt; text.starts_with(answers));
    if ends == Ok(()) {
        assert_eq!(rt; answers, text.as_slice());
    } else {
        assert_eq!(rt; ends, Err(ShellFault::NoMemory));
        assert!(rt; answers.is_empty() || answers.ends_with(b"\n"));
        assert_eq!(rt;
            answers.iter().filter(|byte| **byte == b'w').count(),
            calls as usize
        );
    }
}

/// The commands of a script as a text.
fn script_of(rt: &impl Abort, alloc: Global, input: &[u8]) -> String {
    let mut reader = input;
    let script = read_script(alloc, &mut reader);
    format!(in alloc; "{script:?}").expect(rt, "memory")
}

const SCRIPT: &[u8] = b"mkdir /a\n\nnow 5\r\n  \nsync\nnow 3\nclose 1";

/// The commands of the script, each with its moment, as a text.
fn wanted_script(rt: &impl Abort, alloc: Global) -> String {
    let commands = vec![in alloc;
        Stamped {
            moment: 0,
            command: Command::Mkdir {
                path: path(rt, alloc, b"/a")
            }
        },
        Stamped {
            moment: 5,
            command: Command::Sync
        },
        Stamped {
            moment: 3,
            command: Command::Close { fd: 1 }
        },
    ]
    .expect(rt, "memory");
    let wanted: Result<Vec<Stamped>, ScriptFault> = Ok(commands);
    format!(in alloc; "{wanted:?}").expect(rt, "memory")
}

#[test]
fn a_script_is_read_with_its_moments(rt: HostRuntime) {
    let alloc = rt.alloc();
    let wanted = wanted_script(&rt, alloc);
    let long = vec![in alloc; b'a'; 65_537].expect(&rt, "memory");
    for (input, wanted) in [
        (SCRIPT, wanted.as_str()),
        (b"sync\nnope\nsync", "Err(Line)"),
        (long.as_slice(), "Err(TooLong)"),
    ] {
        assert_eq!(rt; script_of(&rt, alloc, input).as_str(), wanted);
    }
}

/// What is read of the script as a text, where its reader fails at one of its calls.
fn script_of_reader(rt: &impl Abort, alloc: Global, fails_at: u32) -> String {
    let reader = FailingReader {
        rest: SCRIPT,
        calls: 0,
        fails_at,
    };
    let mut reader = BufReader::with_capacity(alloc, 7, reader).expect(rt, "memory");
    let script = read_script(alloc, &mut reader);
    format!(in alloc; "{script:?}").expect(rt, "memory")
}

/// The 38 bytes take 13 calls and their end two, and between these 15 are 14 that are interrupted.
#[test]
fn a_reader_of_a_script_fails_at_each_call(rt: HostRuntime) {
    let alloc = rt.alloc();
    for fails_at in 1..30 {
        let found = script_of_reader(&rt, alloc, fails_at);
        assert_eq!(rt; found.as_str(), "Err(Read)", "{fails_at}");
    }
    let wanted = wanted_script(&rt, alloc);
    assert_eq!(rt; script_of_reader(&rt, alloc, 30).as_str(), wanted.as_str());
}
