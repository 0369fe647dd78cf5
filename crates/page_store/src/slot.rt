// What the cache has of a key.
ghost use Rattle.std.specs.Prelude.{◌≡◌};
ghost use Rattle.std.specs.Option.{option_copied};

/// What the cache has of a key.
#[derive(Drop)]
pub enum Slot {
    /// The key's page, in its frame.
    Page(Vec<u8>),
    /// A place for the page that the key is to get.
    Reserved,
}

impl Slot {
    ghost use Rattle.page_store.specs.Slots.{held_in, page_in};

    /// The bytes of the page.
    pub(crate) fn page(&self) -> Option<&[u8]>
        ensures { option_copied result ≡ page_in (held_in self.now) }
    {
        match self {
            Slot::Page(frame) => Some(frame),
            Slot::Reserved => None,
        }
    }
}
