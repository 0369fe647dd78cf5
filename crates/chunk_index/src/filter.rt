// Which keys stay.
ghost use Rattle.std.specs.Prelude.{◌≡◌, ◌<◌, ℕ, Bool, true, IsTrue};

use flash_tree::Key;

/// Returns which keys stay in an index.
pub trait KeyFilter {
    /// Whether the key of an object and a chunk stays.
    ghost keeps: { Self → ℕ → ℕ → Bool };

    fn keeps(&self, key: Key) -> bool
        ensures { result ≡ keeps self.now key.object key.chunk };

    /// Whether it is known without a look at each key that all chunks of an object below one stay.
    fn keeps_all_below(&self, object: u64, end: u64) -> bool
        ensures { IsTrue result → (c : ℕ) → c < end → keeps self.now object c ≡ true };
}
