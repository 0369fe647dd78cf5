// How many pages have each state.
ghost use Rattle.std.specs.Prelude.{◌≡◌, ◌+◌, ◌*◌, ◌<◌, ◌^◌, List, ◌++◌, ◌∷◌, []};
ghost use Rattle.chip_map.specs.declared.page_state.SurveyedPage.{SurveyedPage};
ghost use Rattle.chip_map.specs.Counting.{AreCounts, total_of};
ghost use Rattle.chip_map.specs.Surveys.{pages_of, geometry_of};

use crate::page_state::{PageState, SurveyedPage};
use crate::surveyed::Survey;

/// How many pages have each state.
#[derive(Clone, Copy, Debug, PartialEq, Eq)]
pub struct PageCounts {
    pub bad: u32,
    pub erased: u32,
    pub uncorrectable: u32,
    pub invalid: u32,
    pub stale: u32,
    pub current: u32,
}

impl PageCounts {
    /// No pages.
    fn new() -> PageCounts
        ensures counts { AreCounts [] result }
        ensures total { total_of result ≡ 0 }
    {
        PageCounts {
            bad: 0,
            erased: 0,
            uncorrectable: 0,
            invalid: 0,
            stale: 0,
            current: 0,
        }
    }

    /// Counts one more page.
    fn add(&mut self, page: &SurveyedPage)
        requires { total_of self.old + 1 < 2 ^ 32 }
        ensures counts { (before : List SurveyedPage) → AreCounts before self.old → AreCounts (before ++ page.now ∷ []) self.new }
        ensures total { total_of self.new ≡ total_of self.old + 1 }
    {
        match page.state {
            PageState::Bad => self.bad += 1,
            PageState::Erased => self.erased += 1,
            PageState::Uncorrectable => self.uncorrectable += 1,
            PageState::Invalid => self.invalid += 1,
            PageState::Stale => self.stale += 1,
            PageState::Current => self.current += 1,
        }
    }
}

/// Counts the pages of a chip by what they are.
pub fn count(survey: &Survey) -> PageCounts
    ensures counts { AreCounts (pages_of survey.now) result }
    ensures total { total_of result ≡ (geometry_of survey.now).blocks * (geometry_of survey.now).pages }
{
    let mut counts = PageCounts::new();
    for page in survey.pages() {
        counts.add(page);
    }
    counts
}
