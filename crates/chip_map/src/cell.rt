// How a page is shown.

use crate::page_state::{PageState, SurveyedPage};
use crate::surveyed::Survey;
use flash_tree::CHECK_OBJECT;

/// The object whose current pages are highlighted.
#[derive(Clone, Copy, Debug, PartialEq, Eq)]
pub enum Marked {
    Nothing,
    Object(u64),
}

/// How a page is shown.
#[derive(Clone, Copy, PartialEq, Eq)]
pub(crate) enum Cell {
    Erased,
    Current,
    /// A current page of a checkpoint.
    Checkpoint,
    /// A current page of the object that is highlighted.
    Highlighted,
    Stale,
    Invalid,
    Uncorrectable,
    Bad,
}

/// All of them, in the order of a legend.
pub(crate) const CELLS: [Cell; 8] = [
    Cell::Current,
    Cell::Highlighted,
    Cell::Checkpoint,
    Cell::Stale,
    Cell::Erased,
    Cell::Invalid,
    Cell::Uncorrectable,
    Cell::Bad,
];

/// How a current page of an object is shown.
fn current_cell(object: u64, marked: Marked) -> Cell {
    match marked {
        Marked::Object(number) if number == object => Cell::Highlighted,
        _ => {
            if object == CHECK_OBJECT {
                Cell::Checkpoint
            } else {
                Cell::Current
            }
        }
    }
}

impl Cell {
    /// How a page is shown where an object is highlighted.
    pub(crate) fn of(page: &SurveyedPage, marked: Marked) -> Cell {
        match page.state {
            PageState::Bad => Cell::Bad,
            PageState::Erased => Cell::Erased,
            PageState::Uncorrectable => Cell::Uncorrectable,
            PageState::Invalid => Cell::Invalid,
            PageState::Stale => Cell::Stale,
            PageState::Current => match page.tag {
                Some(tag) => current_cell(tag.object, marked),
                None => Cell::Current,
            },
        }
    }

    /// The character in a text.
    pub(crate) fn letter(self) -> char {
        match self {
            Cell::Erased => '.',
            Cell::Current => '#',
            Cell::Checkpoint => 'c',
            Cell::Highlighted => '@',
            Cell::Stale => '-',
            Cell::Invalid => '?',
            Cell::Uncorrectable => '!',
            Cell::Bad => 'x',
        }
    }

    /// What a legend says.
    pub(crate) fn name(self) -> &'static str {
        match self {
            Cell::Erased => "erased",
            Cell::Current => "current",
            Cell::Checkpoint => "checkpoint",
            Cell::Highlighted => "highlighted",
            Cell::Stale => "stale",
            Cell::Invalid => "invalid",
            Cell::Uncorrectable => "uncorrectable",
            Cell::Bad => "bad",
        }
    }

    /// The sequence that gives a terminal its colour.
    pub(crate) fn escape(self) -> &'static str {
        match self {
            Cell::Erased => "\x1b[0m",
            Cell::Current => "\x1b[0;32m",
            Cell::Checkpoint => "\x1b[0;36m",
            Cell::Highlighted => "\x1b[1;33m",
            Cell::Stale => "\x1b[0;34m",
            Cell::Invalid => "\x1b[0;35m",
            Cell::Uncorrectable => "\x1b[0;31m",
            Cell::Bad => "\x1b[1;31m",
        }
    }

    /// The colour in an SVG: each differs from its neighbours in lightness too.
    pub(crate) fn fill(self) -> &'static str {
        match self {
            Cell::Erased => "#ececec",
            Cell::Current => "#0072b2",
            Cell::Checkpoint => "#009e73",
            Cell::Highlighted => "#f0e442",
            Cell::Stale => "#9fc8e8",
            Cell::Invalid => "#cc79a7",
            Cell::Uncorrectable => "#d55e00",
            Cell::Bad => "#000000",
        }
    }
}

/// How many pages are shown so.
pub(crate) fn count_cells(survey: &Survey, marked: Marked, cell: Cell) -> usize {
    survey
        .pages()
        .iter()
        .filter(|page| Cell::of(page, marked) == cell)
        .count()
}
