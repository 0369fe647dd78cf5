// What was found on a chip.
ghost use Rattle.std.specs.Prelude.{◌≡◌, ◌*◌, ◌+◌, ◌<◌, length};

use crate::page_state::SurveyedPage;
use flash_tree::TagNumbers;
use nand_model::Geometry;

/// What each page of a chip is.
#[derive(Drop)]
pub struct Survey {
    geometry: Geometry,
    pages: Vec<SurveyedPage>,
    numbers: TagNumbers,
    ghost whole: { length pages.items ≡ geometry.blocks * geometry.pages },
}

impl Survey {
    ghost use Rattle.std.specs.Prelude.{slice_range};
    ghost use Rattle.chip_map.specs.Surveys.{pages_of, geometry_of, greatest_of};

    /// A survey with these pages, one block after another.
    pub(crate) fn new(geometry: Geometry, pages: Vec<SurveyedPage>, numbers: TagNumbers) -> Survey
        requires { length pages.items ≡ geometry.blocks * geometry.pages }
        ensures geometry { geometry_of result ≡ geometry }
        ensures pages { pages_of result ≡ pages.items }
        ensures numbers { greatest_of result ≡ numbers }
    {
        Survey {
            geometry,
            pages,
            numbers,
        }
    }

    /// The sizes of the device.
    pub fn geometry(&self) -> Geometry
        ensures { result ≡ geometry_of self.now }
    {
        self.geometry
    }

    /// The greatest numbers of all valid tags of good blocks.
    pub fn numbers(&self) -> TagNumbers
        ensures { result ≡ greatest_of self.now }
    {
        self.numbers
    }

    /// The pages, one block after another.
    pub fn pages(&self) -> &[SurveyedPage]
        ensures pages { result.now ≡ pages_of self.now }
        ensures len { length result.now ≡ (geometry_of self.now).blocks * (geometry_of self.now).pages }
    {
        &self.pages
    }

    /// The pages of a block.
    pub fn block(&self, block: u32) -> &[SurveyedPage]
        requires { block < (geometry_of self.now).blocks }
        ensures { let pages = (geometry_of self.now).pages in result.now ≡ slice_range (pages_of self.now) (block * pages) (block * pages + pages) }
    {
        let pages = self.geometry.pages() as usize;
        let first = block as usize * pages;
        &self.pages[first..first + pages]
    }
}
