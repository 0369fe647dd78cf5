// What is done with the facts and the free numbers of a table at once.
ghost use Rattle.std.specs.Prelude.{◌≡◌, ℕ, Bool};
ghost use Rattle.object_store.specs.Taken.{IsLeastFree, taken_in};
ghost use Rattle.object_store.specs.Numbers.{KnowsFree, next_number};
ghost use Rattle.object_store.specs.Totaled.{sizes_in, HasRoomIn, CountsAdded, CountsRemoved};

use crate::counted_facts::CountedFacts;
use crate::free_numbers::FreeNumbers;
use crate::table_facts::ObjectFacts;

/// A new object gets the least number that is free, at which there is room.
pub(crate) fn add_object(
    totaled: &mut CountedFacts,
    numbers: &mut FreeNumbers,
    facts: ObjectFacts,
) -> u64
    requires { HasRoomIn totaled.old (next_number numbers.old) }
    ensures number { result ≡ next_number numbers.old }
    ensures least { (taken : ℕ → Bool) → KnowsFree numbers.old taken → IsLeastFree taken result }
    ensures size { sizes_in totaled.new ≡ sizes_in totaled.old }
    ensures free { KnowsFree numbers.old (taken_in totaled.old.facts) → KnowsFree numbers.new (taken_in totaled.new.facts) }
    ensures counts { CountsAdded totaled.old totaled.new result facts }
{
    let number = numbers.next();
    totaled.add(number, facts);
    numbers.take(&totaled.facts);
    number
}

/// An object goes, and its number is free again.
pub(crate) fn drop_object(totaled: &mut CountedFacts, numbers: &mut FreeNumbers, number: u64)
    ensures size { sizes_in totaled.new ≡ sizes_in totaled.old }
    ensures free { KnowsFree numbers.old (taken_in totaled.old.facts) → KnowsFree numbers.new (taken_in totaled.new.facts) }
    ensures counts { CountsRemoved totaled.old totaled.new number }
{
    if totaled.remove(number) {
        numbers.give_back(number);
    }
}
