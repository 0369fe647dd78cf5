// What the pages of a chip are.

use page_tags::Tag;

/// What a page is.
#[derive(Clone, Copy, Debug, PartialEq, Eq)]
pub enum PageState {
    /// In a block that is marked bad.
    Bad,
    Erased,
    Uncorrectable,
    /// Written, but of no group that is whole.
    Invalid,
    /// Of a whole group, but not the newest page of its key.
    Stale,
    /// The newest page of its key.
    Current,
}

/// A page as a survey found it.
#[derive(Clone, Copy, Debug, PartialEq, Eq)]
pub struct SurveyedPage {
    pub state: PageState,
    /// The tag of a page of a good block, where it has a valid one.
    pub tag: Option<Tag>,
}
