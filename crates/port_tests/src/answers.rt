// Each form of answer, by a script.
use nand_model::{EraseFault, Gone, Nand, PageKind, ProgramFault};
use port_nand::{Answer, Calls, OpenFault, Port, PortDevice, Request, into_port, open};
use std::alloc::Global;
use std::process::Abort;

/// A driver that answers by a script, whatever the request, and stores the requests. Past the script power is gone. It has 512
/// bytes of a page, 32 pages of a block, and as many blocks and bytes of a tag as it is made with; all other bytes that it gives
/// are 7.
#[derive(Drop)]
struct Script {
    lines: Lines,
    calls: Calls,
}

#[derive(Drop)]
struct Lines {
    sizes: (u8, u8),
    answers: Vec<Answer>,
    requests: Vec<Request>,
}

impl Script {
    fn new(rt: &impl Abort, alloc: Global, sizes: (u8, u8), answers: &[Answer]) -> Script {
        let lines = Lines {
            sizes,
            answers: Vec::from_slice(alloc, answers).expect(rt, "memory"),
            requests: Vec::new(alloc),
        };
        Script {
            lines,
            calls: Calls::new(),
        }
    }
}

impl Lines {
    fn answer(&mut self, request: Request) -> Answer {
        let place = self.requests.len();
        if self.requests.push(request).is_err() {
            return Answer::Lost;
        }
        self.answers.get(place).copied().unwrap_or(Answer::Lost)
    }
}

impl Port for Script {
    ghost calls = { λ port. port.calls.list };

    fn read(&mut self, request: Request, buffer: &mut [u8]) -> Answer {
        let answer = self.lines.answer(request);
        buffer.fill(7);
        if request == Request::Sizes && buffer.len() == 16 {
            let (blocks, tag) = self.lines.sizes;
            buffer.copy_from_slice(&[0, 2, 0, 0, 32, 0, 0, 0, blocks, 0, 0, 0, tag, 0, 0, 0]);
        }
        self.calls = self.calls.with(request, buffer, answer);
        answer
    }

    fn write(&mut self, request: Request, bytes: &[u8]) -> Answer {
        let answer = self.lines.answer(request);
        self.calls = self.calls.with(request, bytes, answer);
        answer
    }
}

use Answer::{Lost, One, Two, Zero};

/// The sizes, and the marks of five blocks, of which the second is marked.
const OPENED: [Answer; 6] = [Zero, Zero, One, Zero, Zero, Zero];

/// The device of a script, after the sizes and the marks.
fn opened(rt: &impl Abort, alloc: Global, answers: &[Answer]) -> PortDevice<Script> {
    let mut script = Vec::from_slice(alloc, &OPENED).expect(rt, "memory");
    script.extend_from_slice(answers).expect(rt, "memory");
    open(alloc, Script::new(rt, alloc, (5, 48), script.as_slice())).expect(rt, "a device")
}

fn open_fault(
    rt: &impl Abort,
    alloc: Global,
    sizes: (u8, u8),
    answers: &[Answer],
) -> Option<OpenFault> {
    open(alloc, Script::new(rt, alloc, sizes, answers)).err()
}

#[test]
fn the_sizes_and_marks_are_asked_first(rt: HostRuntime) {
    let alloc = rt.alloc();
    let nand = opened(&rt, alloc, &[]);
    assert_eq!(rt; nand.geometry().bytes(), 512);
    assert_eq!(rt; nand.geometry().pages(), 32);
    assert_eq!(rt; nand.geometry().blocks(), 5);
    assert!(rt; !nand.is_bad(0) && nand.is_bad(1) && !nand.is_bad(4));
    let requests = into_port(nand).lines.requests;
    assert_eq!(rt; requests.len(), 6);
    assert_eq!(rt; requests.first().copied(), Some(Request::Sizes));
    assert_eq!(rt;
        requests.last().copied(),
        Some(Request::IsMarked { block: 4 })
    );
    assert_eq!(rt;
        open_fault(&rt, alloc, (5, 48), &[]),
        Some(OpenFault::BadGeometry)
    );
    assert_eq!(rt;
        open_fault(&rt, alloc, (5, 48), &OPENED[..5]),
        Some(OpenFault::Gone)
    );
    assert_eq!(rt;
        open_fault(&rt, alloc, (4, 48), &OPENED),
        Some(OpenFault::BadGeometry)
    );
    assert_eq!(rt;
        open_fault(&rt, alloc, (5, 0), &OPENED),
        Some(OpenFault::BadGeometry)
    );
    assert_eq!(rt; open_fault(&rt, alloc, (5, 24), &OPENED), None);
}

/// What the reads of a page say that have these answers, and whether they fill its tag.
fn read_page(rt: &impl Abort, alloc: Global, answers: &[Answer]) -> (Result<PageKind, Gone>, bool) {
    let mut nand = opened(rt, alloc, answers);
    if nand.geometry().bytes() != 512 {
        panic!(rt; "a page of another size");
    }
    let mut bytes = [0u8; 512];
    let mut tag = [0u8; 48];
    let answer = nand.read_page(2, 3, &mut bytes, &mut tag);
    (answer, bytes == [7; 512] && tag == [7; 48])
}

/// What a read of the data of a page alone says that has this answer, and whether it fills the buffer.
fn read_data(rt: &impl Abort, alloc: Global, answer: Answer) -> (Result<PageKind, Gone>, bool) {
    let mut nand = opened(rt, alloc, &[answer]);
    if nand.geometry().bytes() != 512 {
        panic!(rt; "a page of another size");
    }
    let mut bytes = [0u8; 512];
    let answer = nand.read_data(2, 3, &mut bytes);
    (answer, bytes == [7; 512])
}

/// What an erase, and a program after it, say that have these answers.
fn change(
    rt: &impl Abort,
    alloc: Global,
    answers: &[Answer],
) -> (Result<(), EraseFault>, Result<(), ProgramFault>) {
    let mut nand = opened(rt, alloc, answers);
    if let Err(fault) = nand.erase(2) {
        return (Err(fault), Err(ProgramFault::Gone));
    }
    if nand.geometry().bytes() != 512 || nand.is_bad(2) {
        panic!(rt; "another device");
    }
    (Ok(()), nand.program(2, 0, &[7; 512], &[9; 48]))
}

#[test]
fn each_answer_has_its_meaning(rt: HostRuntime) {
    let alloc = rt.alloc();
    let lost = Err(ProgramFault::Gone);
    assert_eq!(rt;
        read_page(&rt, alloc, &[Zero]),
        (Ok(PageKind::Erased), false)
    );
    assert_eq!(rt;
        read_page(&rt, alloc, &[One, Zero]),
        (Ok(PageKind::Written), true)
    );
    assert_eq!(rt;
        read_page(&rt, alloc, &[Two]),
        (Ok(PageKind::Uncorrectable), false)
    );
    assert_eq!(rt; read_page(&rt, alloc, &[One, One]), (Err(Gone), false));
    assert_eq!(rt; read_page(&rt, alloc, &[Lost]), (Err(Gone), false));
    assert_eq!(rt; read_data(&rt, alloc, One), (Ok(PageKind::Written), true));
    assert_eq!(rt; read_data(&rt, alloc, Zero).0, Ok(PageKind::Erased));
    assert_eq!(rt; read_data(&rt, alloc, Two).0, Ok(PageKind::Uncorrectable));
    assert_eq!(rt; read_data(&rt, alloc, Lost).0, Err(Gone));
    assert_eq!(rt; change(&rt, alloc, &[Zero, Zero, Zero]), (Ok(()), Ok(())));
    assert_eq!(rt;
        change(&rt, alloc, &[Zero, Zero, One]),
        (Ok(()), Err(ProgramFault::Failed))
    );
    assert_eq!(rt; change(&rt, alloc, &[Zero, Zero, Two]), (Ok(()), lost));
    assert_eq!(rt; change(&rt, alloc, &[Zero, One, Zero]), (Ok(()), lost));
    assert_eq!(rt; change(&rt, alloc, &[One]).0, Err(EraseFault::Failed));
    assert_eq!(rt; change(&rt, alloc, &[]).0, Err(EraseFault::Gone));
}
