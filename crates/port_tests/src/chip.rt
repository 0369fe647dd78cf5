// A driver of a chip in memory, behind a port.
use port_nand::{Answer, Calls, Port, Request};
use std::alloc::Global;
use std::process::Abort;

/// What a page of the chip reads as, its tag and its data.
#[derive(Clone, Copy)]
struct Page {
    kind: Answer,
    tag: [u8; 48],
    data: [u8; 512],
}

const ERASED: Page = Page {
    kind: Answer::Zero,
    tag: [255; 48],
    data: [255; 512],
};

/// Eight blocks of 32 pages of 512 bytes with tags of 48 or fewer, none marked bad. It answers so many requests; then power is
/// gone.
#[derive(Drop)]
pub(crate) struct Chip {
    pub(crate) memory: Memory,
    calls: Calls,
}

#[derive(Drop)]
pub(crate) struct Memory {
    pages: Vec<Page>,
    tag: [u8; 48],
    tag_bytes: u8,
    pub(crate) left: u32,
}

fn place(block: u32, page: u32) -> usize {
    block.saturating_mul(32).saturating_add(page) as usize
}

/// Fills the front of the buffer, as far as there are bytes.
fn fill(buffer: &mut [u8], bytes: &[u8]) {
    let count = buffer.len().min(bytes.len());
    buffer[..count].copy_from_slice(&bytes[..count]);
}

impl Chip {
    pub(crate) fn new(rt: &impl Abort, alloc: Global, tag_bytes: u8) -> Chip {
        let memory = Memory {
            pages: Vec::from_elem(alloc, ERASED, 256).expect(rt, "memory"),
            tag: [0; 48],
            tag_bytes,
            left: u32::MAX,
        };
        Chip {
            memory,
            calls: Calls::new(),
        }
    }
}

impl Memory {
    /// Whether one more request is answered.
    fn has_power(&mut self) -> bool {
        match self.left.checked_sub(1) {
            Some(left) => {
                self.left = left;
                true
            }
            None => false,
        }
    }

    /// Erases the pages from a place on, as many as a block has.
    fn erase(&mut self, first: usize) {
        for place in first..first.saturating_add(32) {
            if let Some(page) = self.pages.get_mut(place) {
                *page = ERASED;
            }
        }
    }

    fn program(&mut self, place: usize, data: &[u8]) {
        if let Some(page) = self.pages.get_mut(place) {
            page.kind = Answer::One;
            page.tag = self.tag;
            fill(&mut page.data, data);
        }
    }

    fn answered(&mut self, request: Request, buffer: &mut [u8]) -> Answer {
        match request {
            Request::Sizes => {
                let tag = self.tag_bytes;
                fill(buffer, &[0, 2, 0, 0, 32, 0, 0, 0, 8, 0, 0, 0, tag, 0, 0, 0]);
            }
            Request::ReadTag { block, page } => {
                if let Some(page) = self.pages.get(place(block, page)) {
                    fill(buffer, &page.tag);
                    return page.kind;
                }
            }
            Request::ReadPage { block, page } => {
                if let Some(page) = self.pages.get(place(block, page)) {
                    fill(buffer, &page.data);
                    self.tag = page.tag;
                    return page.kind;
                }
            }
            Request::LastTag { .. } => fill(buffer, &self.tag),
            _ => {}
        }
        Answer::Zero
    }

    fn done(&mut self, request: Request, bytes: &[u8]) {
        match request {
            Request::NextTag { .. } => fill(&mut self.tag, bytes),
            Request::Program { block, page } => self.program(place(block, page), bytes),
            Request::Erase { block } => self.erase(place(block, 0)),
            _ => {}
        }
    }
}

impl Port for Chip {
    ghost calls = { λ port. port.calls.list };

    fn read(&mut self, request: Request, buffer: &mut [u8]) -> Answer {
        let mut answer = Answer::Lost;
        if self.memory.has_power() {
            answer = self.memory.answered(request, buffer);
        }
        self.calls = self.calls.with(request, buffer, answer);
        answer
    }

    fn write(&mut self, request: Request, bytes: &[u8]) -> Answer {
        let mut answer = Answer::Lost;
        if self.memory.has_power() {
            self.memory.done(request, bytes);
            answer = Answer::Zero;
        }
        self.calls = self.calls.with(request, bytes, answer);
        answer
    }
}
