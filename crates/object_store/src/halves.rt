// A number of 64 bits in two halves.
ghost use Rattle.std.specs.Prelude.{◌≡◌, ◌-◌};
ghost use Rattle.object_store.specs.TableFacts.{one_more};

use std::marker::Model;

/// A number of 64 bits in its lower and its upper half, so that it begins at a multiple of 4.
#[derive(Drop)]
pub(crate) struct Halves {
    low: u32,
    high: u32,
}

impl Model for Halves {
    ghost use Rattle.std.specs.Prelude.{ℕ};

    ghost Value = { ℕ };

    ghost use Rattle.object_store.specs.Halves.{joined};

    ghost view = { joined };
}

impl Halves {
    /// The halves of a number.
    pub(crate) fn of(number: u64) -> Halves
        ensures { result ≡ number }
    {
        Halves {
            low: (number % 4_294_967_296) as u32,
            high: (number / 4_294_967_296) as u32,
        }
    }

    /// The number.
    pub(crate) fn number(&self) -> u64
        ensures { result ≡ self.now }
    {
        self.high as u64 * 4_294_967_296 + self.low as u64
    }

    /// One more, as far as numbers of 64 bits go.
    pub(crate) fn add_one(&mut self)
        ensures { self.new ≡ one_more self.old }
    {
        *self = Halves::of(self.number().saturating_add(1));
    }

    /// One less, or 0.
    pub(crate) fn remove_one(&mut self)
        ensures { self.new ≡ self.old - 1 }
    {
        *self = Halves::of(self.number().saturating_sub(1));
    }
}
