// What is said of a tree.
ghost use Rattle.std.specs.Prelude.{◌≡◌};
ghost use Rattle.volume_check.specs.Verdicts.{is_no_header, verdict_of, verdict_of_broken};

use page_tags::HeaderFault;
use tree_walk::{Broken, Rule};
use volume_terms::ROOT;

/// What is said of a tree.
#[derive(Clone, Copy, Debug, PartialEq, Eq)]
pub enum Verdict {
    /// The root's header is that of a volume, all objects are whole, and no directory is named twice.
    Whole,
    /// There is no header of a root.
    NotAVolume,
    /// A header is of this newer format.
    Newer(u8),
    /// The root's header, an object or the names of directories are wrong.
    Damaged,
}

/// What is said of a tree whose first broken rule is this one, if any.
pub(crate) fn verdict_of(found: Option<Broken>) -> Verdict
    ensures { result ≡ verdict_of found }
{
    match found {
        Some(broken) => verdict_of_broken(broken),
        None => Verdict::Whole,
    }
}

/// What is said of a tree whose first broken rule is this one.
fn verdict_of_broken(broken: Broken) -> Verdict
    ensures { result ≡ verdict_of_broken broken }
{
    if broken.key.object == ROOT && is_no_header(broken.rule) {
        return Verdict::NotAVolume;
    }
    match broken.rule.newer() {
        Some(format) => Verdict::Newer(format),
        None => Verdict::Damaged,
    }
}

/// Whether nothing is there that could be a header.
fn is_no_header(rule: Rule) -> bool
    ensures { result ≡ is_no_header rule }
{
    matches!(
        rule,
        Rule::HeaderMissing | Rule::NoHeader(HeaderFault::Magic)
    )
}
