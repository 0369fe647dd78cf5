// What is written in a group.
ghost use Rattle.std.specs.Prelude.{◌≡◌, ◌↔◌, ◌<◌, ◌≤◌, ◌+◌, ℕ, List, length, true, IfOk, IfSome, IsTrue};
ghost use Rattle.nand_model.specs.Flash.{Flash};
ghost use Rattle.nand_model.specs.Changes.{Grows, OnlyReads};
ghost use Rattle.nand_model.specs.declared.geometry.Geometry.{Geometry};

use flash_tree::Key;
use nand_model::Nand;
use page_tags::Tag;

/// Which page of the store it is, and in which version.
#[derive(Clone, Copy, Debug, PartialEq, Eq)]
pub struct PageName {
    pub key: Key,
    pub version: u64,
}

impl PageName {
    ghost use Rattle.transactions.specs.Sources.{name_of};

    /// Whether a page with this tag is called so.
    pub fn is_of(self, tag: &Tag) -> bool
        ensures { IsTrue result ↔ (name_of tag.now ≡ self) }
    {
        let key = Key {
            object: tag.object,
            chunk: tag.chunk,
        };
        self.key == key && self.version == tag.version
    }
}

#[derive(Clone, Copy, Debug, PartialEq, Eq)]
pub enum SourceFault {
    /// A page that is to be copied did not read back under its name.
    Lost,
    Gone,
}

/// A page that lies in memory, with its name.
#[derive(Clone, Copy, Debug, PartialEq, Eq)]
pub struct LentPage<'a> {
    pub name: PageName,
    pub bytes: &'a [u8],
}

/// The pages of a group that is to be written.
pub trait PageSource {
    ghost use Rattle.transactions.specs.declared.source.PageName.{PageName};
    ghost use Rattle.transactions.specs.Sources.{IsPageName};
    ghost use Rattle.transactions.specs.SourceEnds.{SourceEnds};

    /// How many pages there are.
    ghost count: { Self → ℕ };

    /// What each page is called in the group of this number.
    ghost name: { Self → ℕ → ℕ → PageName };

    /// The data of each page, over a flash that has what it is copied from.
    ghost bytes: { Self → Flash → ℕ → List ℕ };

    /// Whether it can be written in a group of this number, on a device of these sizes.
    ghost can_write: { Self → Geometry → ℕ → Type 0 };

    /// Whether it reads no page of the device.
    ghost quiet: { Self → Type 0 };

    /// Whether the flash has what page `i` is copied from.
    ghost has: { Self → Flash → ℕ → Type 0 };

    /// How many pages there are, at least one.
    fn count(&self) -> u32
        requires { (g : Geometry) × (n : ℕ) × can_write self.now g n }
        ensures value { result ≡ count self.now }
        ensures not_empty { 1 ≤ result };

    /// Lends page `i`, with its name in the group of this number, where it lies in memory as it is to be written.
    fn lent(&self, i: u32, group: u64) -> Option<LentPage<'_>>
        requires place { i < count self.now }
        requires can_write { (g : Geometry) × can_write self.now g group }
        ensures name { IfSome result (λ lent. (lent.name ≡ name self.now group i) × IsPageName group lent.name) }
        ensures size { (g : Geometry) → can_write self.now g group → IfSome result (λ lent. length lent.bytes.now ≡ g.bytes) }
        ensures has { (flash : Flash) → IfSome result (λ lent. has self.now flash i) }
        ensures bytes { (flash : Flash) → IfSome result (λ lent. lent.bytes.now ≡ bytes self.now flash i) };

    /// Fills a buffer with page `i`, and names it. Of the device it is read at most.
    fn page<N: Nand>(
        &self,
        device: &mut N,
        i: u32,
        group: u64,
        page: &mut [u8],
    ) -> Result<PageName, SourceFault>
        requires place { i < count self.now }
        requires can_write { can_write self.now (N.state device.old).geometry group }
        requires size { length page.old ≡ (N.state device.old).geometry.bytes }
        ensures reads { OnlyReads (N.state device.old) (N.state device.new) }
        ensures quiet { quiet self.now → (N.state device.new).reads ≡ (N.state device.old).reads }
        ensures issued { (N.state device.new).reads ≤ (N.state device.old).reads + 1 }
        ensures ends { SourceEnds (N.state device.old) (N.state device.new) (has self.now (N.state device.old).flash i) result }
        ensures name { IfOk result (λ n. (n ≡ name self.now group i) × IsPageName group n) }
        ensures size { length page.new ≡ length page.old }
        ensures has { (N.state device.old).honest ≡ true → IfOk result (λ _. has self.now (N.state device.old).flash i) }
        ensures bytes { (N.state device.old).honest ≡ true → IfOk result (λ _. page.new ≡ bytes self.now (N.state device.old).flash i) };

    /// What is copied stays while only erased pages are written.
    ghost stays: { (source : Self) (old new : Flash) (i : ℕ) → has source old i → Grows old new → has source new i };

    /// And so does its data.
    ghost same: { (source : Self) (old new : Flash) (i : ℕ) → has source old i → Grows old new → bytes source new i ≡ bytes source old i };
}
