// The facts of objects, and what the objects cost.
ghost use Rattle.std.specs.Prelude.{◌≡◌, ◌≢◌, ◌<◌, ◌+◌, ℕ, Some, None, IsSome, is_some, option_map, option_and_then, OnOk};
ghost use Rattle.std.specs.FinMap as map;
ghost use Rattle.std.specs.Ordering.{nat_cmp};
ghost use Rattle.std.specs.BTreeMap.{get};
ghost use Rattle.volume_terms.specs.VolumeSizes as volume;
ghost use Rattle.object_store.specs.TableFacts.{edited};
ghost use Rattle.object_store.specs.Taken.{facts_in};
ghost use Rattle.object_store.specs.Totaled.{reported_at, sizes_in, HasRoomIn, Counts, CountsTheSame, Puts, Drops, KeepsNumbers, Edits, CountsAdded, CountsRemoved, CountsNamed, CountsUnnamed, CountsResized, CountsLengthened};

use crate::edit::Edit;
use crate::packed_facts::PackedFacts;
use crate::table_facts::ObjectFacts;
use posix_profile::Kind;
use std::alloc::{AllocError, Global};
use std::collections::BTreeMap;
use std::mem::replace;
use volume_terms::VolumeSizes;

/// The facts of objects, by number, and the units that the objects cost.
#[derive(Drop)]
pub(crate) struct CountedFacts {
    pub(crate) sizes: VolumeSizes,
    // An entry without facts is room for an object that is to come.
    pub(crate) facts: BTreeMap<u64, PackedFacts>,
    pub(crate) charge: u64,
}

/// For how many objects to come there is room made beside one that comes behind all others.
const AHEAD: u64 = 8;

/// Puts facts at a number at which there is room, and returns those that were there.
fn put_facts(facts: &mut BTreeMap<u64, PackedFacts>, number: u64, new: PackedFacts) -> PackedFacts
    requires { IsSome (get nat_cmp facts.old number) }
    ensures before { result ≡ facts_in facts.old number }
    ensures here { get nat_cmp facts.new number ≡ Some new }
    ensures others { (k : ℕ) → k ≢ number → get nat_cmp facts.new k ≡ get nat_cmp facts.old k }
{
    match facts.get_mut(&number) {
        Some(place) => replace(place, new),
        None => unreachable!(),
    }
}

impl CountedFacts {
    /// No facts.
    pub(crate) fn new(alloc: Global, sizes: VolumeSizes) -> CountedFacts
        ensures counts { Counts result map.empty }
        ensures size { sizes_in result ≡ volume.sizes_of sizes }
    {
        CountedFacts {
            sizes,
            facts: BTreeMap::new(alloc),
            charge: 0,
        }
    }

    /// The facts at a number, if there are any.
    pub(crate) fn at(&self, number: u64) -> Option<ObjectFacts>
        ensures { result ≡ reported_at self.now number }
    {
        match self.facts.get(&number) {
            Some(facts) => facts.unpack(),
            None => None,
        }
    }

    /// The kind of the object with a number, if there are facts of it.
    fn kind_at(&self, number: u64) -> Option<Kind>
        ensures { result ≡ option_map (λ f. f.kind) (reported_at self.now number) }
    {
        match self.facts.get(&number) {
            Some(facts) => facts.kind(),
            None => None,
        }
    }

    /// The size of the object with a number, if there are facts of it.
    pub(crate) fn size_at(&self, number: u64) -> Option<u64>
        ensures { result ≡ option_map (λ f. f.size) (reported_at self.now number) }
    {
        match self.facts.get(&number) {
            Some(facts) => facts.size(),
            None => None,
        }
    }

    /// The directory that names the directory with a number, if there are facts of it and it is named.
    pub(crate) fn parent_at(&self, number: u64) -> Option<u64>
        ensures { result ≡ option_and_then (λ f. f.parent) (reported_at self.now number) }
    {
        match self.facts.get(&number) {
            Some(facts) => facts.parent(),
            None => None,
        }
    }

    /// Makes room for the facts of an object.
    pub(crate) fn make_room(&mut self, number: u64) -> Result<(), AllocError>
        ensures same { CountsTheSame self.old self.new }
        ensures room { OnOk result (HasRoomIn self.new number) }
    {
        if self.facts.contains_key(&number) {
            return Ok(());
        }
        self.facts.insert(number, PackedFacts::none())?;
        Ok(())
    }

    /// Makes room for the facts of a new object. Where it comes behind all others, every other one of those to come gets room too,
    /// so that those between them fill the nodes of the map: where all came in order, a node would stay half full once it was
    /// split.
    pub(crate) fn make_room_ahead(&mut self, number: u64) -> Result<(), AllocError>
        ensures same { CountsTheSame self.old self.new }
        ensures room { OnOk result (HasRoomIn self.new number) }
    {
        if !self.is_behind_all(number) {
            return self.make_room(number);
        }
        self.make_every_other(number)?;
        self.make_room(number)
    }

    /// Whether no object with this number or a greater one has facts or room for them.
    fn is_behind_all(&self, number: u64) -> bool {
        match self.facts.last_key_value() {
            Some((last, _)) => *last < number,
            None => true,
        }
    }

    /// Makes room for every other object behind one.
    fn make_every_other(&mut self, number: u64) -> Result<(), AllocError>
        ensures { CountsTheSame self.old self.new }
    {
        for step in 0..AHEAD {
            self.make_room(number.saturating_add(2 * step + 2))?;
        }
        Ok(())
    }

    /// Puts facts at a number at which there is room, in place of those that are there.
    fn put(&mut self, number: u64, new: ObjectFacts)
        requires { HasRoomIn self.old number }
        ensures { Puts self.old self.new number new }
    {
        let new = PackedFacts::pack(new);
        let paid = new.cost(self.sizes);
        let old = put_facts(&mut self.facts, number, new);
        let less = self.charge.saturating_sub(old.cost(self.sizes));
        self.charge = less.saturating_add(paid);
    }

    /// A new object, without content and names, at a number at which there is room.
    pub(crate) fn add(&mut self, number: u64, facts: ObjectFacts)
        requires { HasRoomIn self.old number }
        ensures puts { Puts self.old self.new number facts }
        ensures counts { CountsAdded self.old self.new number facts }
    {
        self.put(number, facts);
    }

    /// The facts at a number go, and the room for them; it is returned whether there were any.
    fn take_out(&mut self, number: u64) -> bool
        ensures was { result ≡ is_some (reported_at self.old number) }
        ensures drops { Drops self.old self.new number }
    {
        let Some(place) = self.facts.remove(&number) else {
            return false;
        };
        self.charge = self.charge.saturating_sub(place.cost(self.sizes));
        place.is_some()
    }

    /// An object goes, if there is one, and it is returned whether there was.
    pub(crate) fn remove(&mut self, number: u64) -> bool
        ensures was { result ≡ is_some (reported_at self.old number) }
        ensures drops { Drops self.old self.new number }
        ensures counts { CountsRemoved self.old self.new number }
    {
        self.take_out(number)
    }

    /// The facts at a number, if there are any, are edited.
    fn edit(&mut self, number: u64, edit: Edit)
        ensures { Edits self.old self.new number (edited edit) }
    {
        let Some(place) = self.facts.get_mut(&number) else {
            return;
        };
        let freed = place.cost(self.sizes);
        place.edit(edit);
        let paid = place.cost(self.sizes);
        self.charge = self.charge.saturating_sub(freed).saturating_add(paid);
    }

    /// A name of a directory leads to an object.
    pub(crate) fn add_name(&mut self, directory: u64, number: u64, moment: u64)
        ensures keeps { KeepsNumbers self.old self.new }
        ensures counts { CountsNamed self.old self.new moment directory number }
    {
        match self.kind_at(number) {
            Some(child) => {
                self.edit(directory, Edit::EntryAdded { child, moment });
                self.edit(number, Edit::NameAdded { directory });
            }
            None => {}
        }
    }

    /// A name of a directory, which led to an object, goes.
    pub(crate) fn remove_name(&mut self, directory: u64, number: u64, moment: u64)
        ensures keeps { KeepsNumbers self.old self.new }
        ensures counts { CountsUnnamed self.old self.new moment directory number }
    {
        match self.kind_at(number) {
            Some(child) => {
                self.edit(directory, Edit::EntryRemoved { child, moment });
                self.edit(number, Edit::NameRemoved);
            }
            None => {}
        }
    }

    /// A file has so many bytes now.
    pub(crate) fn set_length(&mut self, number: u64, size: u64, moment: u64)
        ensures keeps { KeepsNumbers self.old self.new }
        ensures counts { CountsResized self.old self.new moment number size }
    {
        self.edit(number, Edit::Resized { size, moment });
    }

    /// A file has at least so many bytes now.
    pub(crate) fn lengthen(&mut self, number: u64, size: u64, moment: u64)
        ensures keeps { KeepsNumbers self.old self.new }
        ensures counts { CountsLengthened self.old self.new moment number size }
    {
        self.edit(number, Edit::Lengthened { size, moment });
    }
}
