// What is sent to a driver, and what it answers.
ghost use Rattle.std.specs.Prelude.{◌≡◌, ◌<◌};
ghost use Rattle.port_nand.specs.Places.{answer_of, place, place_of};
ghost use Rattle.port_nand.specs.Calls.{cuts, kind_result, program_result, erase_result, mark_result};

use nand_model::{EraseFault, Gone, PageKind, ProgramFault};

/// What is sent to a driver.
#[derive(Clone, Copy, Debug, PartialEq, Eq)]
pub enum Request {
    /// The sizes of the device.
    Sizes,
    /// Whether a block is marked bad.
    IsMarked { block: u32 },
    /// The tag of a page.
    ReadTag { block: u32, page: u32 },
    /// The data of a page.
    ReadPage { block: u32, page: u32 },
    /// The tag of the page that was read last.
    LastTag { block: u32, page: u32 },
    /// The tag of the page that is programmed next.
    NextTag { block: u32, page: u32 },
    /// The data of a page that is programmed.
    Program { block: u32, page: u32 },
    Erase { block: u32 },
    MarkBad { block: u32 },
}

/// What a driver answers, as a number.
#[derive(Clone, Copy, Debug, PartialEq, Eq)]
pub enum Answer {
    /// Done; no; the page is erased.
    Zero,
    /// Failed; yes; the page is written.
    One,
    /// The page is uncorrectable.
    Two,
    /// None of these: power is gone.
    Lost,
}

/// An operation, a block and a page as one number.
fn place_of(operation: u64, block: u32, page: u32) -> u64
    requires { operation < 16 }
    ensures { result ≡ place_of operation block page }
{
    (operation << 56) + (u64::from(block) << 24) + u64::from(page)
}

/// The offset of the read or write that a request is.
pub(crate) fn place(request: Request) -> u64
    ensures { result ≡ place request }
{
    match request {
        Request::Sizes => place_of(0, 0, 0),
        Request::IsMarked { block } => place_of(1, block, 0),
        Request::ReadTag { block, page } => place_of(2, block, page),
        Request::ReadPage { block, page } => place_of(3, block, page),
        Request::LastTag { block, page } => place_of(4, block, page),
        Request::NextTag { block, page } => place_of(5, block, page),
        Request::Program { block, page } => place_of(6, block, page),
        Request::Erase { block } => place_of(7, block, 0),
        Request::MarkBad { block } => place_of(8, block, 0),
    }
}

/// The answer that a count is.
pub(crate) fn answer_of(count: usize) -> Answer
    ensures { result ≡ answer_of count }
{
    match count {
        0 => Answer::Zero,
        1 => Answer::One,
        2 => Answer::Two,
        _ => Answer::Lost,
    }
}

/// Whether the answer is none to this request, and so a loss of power.
pub(crate) fn cuts(request: Request, answer: Answer) -> bool
    ensures { result ≡ cuts request answer }
{
    match (answer, request) {
        (Answer::Zero, _) => false,
        (Answer::One, Request::IsMarked { .. }) => false,
        (Answer::One, Request::Program { .. }) => false,
        (Answer::One, Request::Erase { .. }) => false,
        (Answer::One | Answer::Two, Request::ReadTag { .. }) => false,
        (Answer::One | Answer::Two, Request::ReadPage { .. }) => false,
        _ => true,
    }
}

/// What a read returns.
pub(crate) fn kind_result(answer: Answer) -> Result<PageKind, Gone>
    ensures { result ≡ kind_result answer }
{
    match answer {
        Answer::Zero => Ok(PageKind::Erased),
        Answer::One => Ok(PageKind::Written),
        Answer::Two => Ok(PageKind::Uncorrectable),
        Answer::Lost => Err(Gone),
    }
}

/// What a program returns.
pub(crate) fn program_result(answer: Answer) -> Result<(), ProgramFault>
    ensures { result ≡ program_result answer }
{
    match answer {
        Answer::Zero => Ok(()),
        Answer::One => Err(ProgramFault::Failed),
        _ => Err(ProgramFault::Gone),
    }
}

/// What an erase returns.
pub(crate) fn erase_result(answer: Answer) -> Result<(), EraseFault>
    ensures { result ≡ erase_result answer }
{
    match answer {
        Answer::Zero => Ok(()),
        Answer::One => Err(EraseFault::Failed),
        _ => Err(EraseFault::Gone),
    }
}

/// What a mark returns.
pub(crate) fn mark_result(answer: Answer) -> Result<(), Gone>
    ensures { result ≡ mark_result answer }
{
    match answer {
        Answer::Zero => Ok(()),
        _ => Err(Gone),
    }
}
