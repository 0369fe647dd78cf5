// What is left of a page or a mark.

/// What a cut or a failure leaves: of a program of its page, of an erase of each page, of a mark.
///
/// `Old` is what was there, so of a program an erased page; `New` is what was wanted, so of an erase an erased page. A
/// mark is set by `New` alone.
#[derive(Clone, Copy, Debug, PartialEq, Eq)]
pub enum Fate {
    Old,
    New,
    Erased,
    Uncorrectable,
}
