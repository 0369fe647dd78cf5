// The trait of pages.
ghost use Rattle.std.specs.Prelude.{◌≡◌, ◌↔◌, ◌≤◌, ◌+◌, true, not, None, length, IsTrue, IsSome, OnOk, IfOk, IfErr, IfSome};
ghost use Rattle.pages.specs.State.{PagesState, OnlyFinds, KeepsPower, FindsPage, FailsBy};

use flash_tree::Key;
use volume_terms::StoreFault;

/// Whether a key has a page.
#[derive(Clone, Copy, Debug, PartialEq, Eq)]
pub enum Presence {
    Present,
    Absent,
}

/// Pages that are found by their keys. What they are is promised of a sound store alone.
pub trait Pages {
    /// What is known of the pages.
    ghost state: { Self → PagesState };

    /// The bytes of a page.
    fn page_bytes(&self) -> u32
        ensures bytes { result ≡ (state self.now).page_bytes }
        ensures least { 512 ≤ result }
        ensures most { result ≤ 4096 };

    /// Returns whether there is a page of the key; `page` lends it then. A key that has none is reported without looking up a page.
    fn find(&mut self, key: Key) -> Result<Presence, StoreFault>
        ensures lookups { OnlyFinds (state self.old) (state self.new) }
        ensures issued { (state self.new).issued ≤ (state self.old).issued + 1 }
        ensures absent { (state self.old).sound ≡ true → (state self.old).present key.object key.chunk ≡ None → (state self.new).issued ≡ (state self.old).issued }
        // Nor does one that is near make a call of the device.
        ensures near { (state self.old).near key.object key.chunk ≡ true → (state self.new).device ≡ (state self.old).device }
        ensures page { (state self.old).sound ≡ true → IfOk result (FindsPage (state self.old).present key.object key.chunk (state self.new).lent) }
        // An answer is given by a device that has not lost its power in the call.
        ensures power { OnOk result (KeepsPower (state self.old) (state self.new)) }
        ensures fault { IfErr result (FailsBy (state self.old) (state self.new)) };

    /// Whether the key has a page. No page is looked up.
    fn has(&self, key: Key) -> bool
        ensures { (state self.now).sound ≡ true → IsTrue result ↔ IsSome ((state self.now).present key.object key.chunk) };

    /// Whether the device has power still. It may ask the device, as for a page.
    fn has_power(&mut self) -> bool
        ensures lookups { OnlyFinds (state self.old) (state self.new) }
        ensures issued { (state self.new).issued ≤ (state self.old).issued + 1 }
        ensures power { result ≡ not (state self.new).device.gone };

    /// The page that was found last.
    fn page(&self) -> &[u8]
        ensures bytes { result.now ≡ (state self.now).lent }
        ensures size { length result.now ≡ (state self.now).page_bytes }
        ensures least { 512 ≤ length result.now }
        ensures most { length result.now ≤ 4096 };

    /// Hands out a frame, a page's room in memory, that nothing needs, if there is one. What was found is lent still.
    fn take_frame(&mut self) -> Option<Vec<u8>>
        ensures same { state self.new ≡ state self.old }
        ensures size { IfSome result (λ frame. length frame.items ≡ (state self.old).page_bytes) };

    /// Takes a frame back that is not needed, to hand it out again. What was found is lent still.
    fn return_frame(&mut self, frame: Vec<u8>)
        requires { length frame.items ≡ (state self.old).page_bytes }
        ensures { state self.new ≡ state self.old };

    /// How large a page is.
    ghost sized: { (pages : Self) → (512 ≤ (state pages).page_bytes) × ((state pages).page_bytes ≤ 4096) };
}
