// The facts of an object as they are held in memory.
ghost use Rattle.std.specs.Prelude.{◌≡◌, ◌<◌, ◌+◌, ◌-◌, ◌^◌, min, max, None, Some, is_some, option_map, option_and_then};
ghost use Rattle.volume_terms.specs.Rounding.{ceiling};
ghost use Rattle.volume_terms.specs.VolumeSizes.{sizes_of};
ghost use Rattle.object_store.specs.Packed.{where_said};
ghost use Rattle.object_store.specs.TableFacts.{edited, entry_added, entry_removed, name_added, name_removed, resized_facts};
ghost use Rattle.object_store.specs.Totaled.{units_of};

use crate::edit::Edit;
use crate::halves::Halves;
use crate::table_facts::ObjectFacts;
use posix_profile::Kind;
use std::marker::Model;
use volume_terms::VolumeSizes;

/// The facts of an object, or none, in 36 bytes, where an `Option<ObjectFacts>` takes 56: the numbers of 64 bits lie in
/// halves, so that facts begin at a multiple of 4.
#[derive(Drop)]
pub(crate) struct PackedFacts {
    moment: Halves,
    links: Halves,
    size: Halves,
    parent: Halves,
    kind: Kind,
    has_parent: bool,
    is_there: bool,
}

const _: () = prove!(size_of::<PackedFacts>() == 36);

impl Model for PackedFacts {
    ghost use Rattle.std.specs.Prelude.{Option};
    ghost use Rattle.object_store.specs.declared.table_facts.ObjectFacts.{ObjectFacts};

    ghost Value = { Option ObjectFacts };

    ghost use Rattle.object_store.specs.Packed.{unpacked};

    ghost view = { unpacked };
}

impl PackedFacts {
    /// No facts.
    pub(crate) fn none() -> PackedFacts
        ensures { result ≡ None }
    {
        PackedFacts {
            moment: Halves::of(0),
            links: Halves::of(0),
            size: Halves::of(0),
            parent: Halves::of(0),
            kind: Kind::File,
            has_parent: false,
            is_there: false,
        }
    }

    /// Packs facts.
    pub(crate) fn pack(facts: ObjectFacts) -> PackedFacts
        ensures { result ≡ Some facts }
    {
        let (has_parent, parent) = parts_of(facts.parent);
        PackedFacts {
            moment: Halves::of(facts.moment),
            links: Halves::of(facts.links),
            size: Halves::of(facts.size),
            parent: Halves::of(parent),
            kind: facts.kind,
            has_parent,
            is_there: true,
        }
    }

    /// The facts, if there are any.
    pub(crate) fn unpack(&self) -> Option<ObjectFacts>
        ensures { result ≡ self.now }
    {
        if !self.is_there {
            return None;
        }
        Some(ObjectFacts {
            kind: self.kind,
            moment: self.moment.number(),
            links: self.links.number(),
            size: self.size.number(),
            parent: where_said(self.has_parent, self.parent.number()),
        })
    }

    /// Whether there are facts.
    pub(crate) fn is_some(&self) -> bool
        ensures { result ≡ is_some self.now }
    {
        self.is_there
    }

    /// The kind of the object, if there are facts.
    pub(crate) fn kind(&self) -> Option<Kind>
        ensures { result ≡ option_map (λ f. f.kind) self.now }
    {
        if self.is_there { Some(self.kind) } else { None }
    }

    /// The size, if there are facts.
    pub(crate) fn size(&self) -> Option<u64>
        ensures { result ≡ option_map (λ f. f.size) self.now }
    {
        where_said(self.is_there, self.size.number())
    }

    /// The directory that names a directory, if there are facts and it is named.
    pub(crate) fn parent(&self) -> Option<u64>
        ensures { result ≡ option_and_then (λ f. f.parent) self.now }
    {
        where_said(self.is_there && self.has_parent, self.parent.number())
    }

    /// The units that the object costs, or 0 where there are no facts.
    pub(crate) fn cost(&self, sizes: VolumeSizes) -> u64
        ensures { result ≡ units_of (sizes_of sizes) self.now }
    {
        if !self.is_there {
            return 0;
        }
        match self.kind {
            Kind::File => units(self.size.number(), sizes.page_bytes()),
            Kind::Directory => units(self.size.number(), sizes.page_slots()),
        }
    }

    /// The facts, if there are any, are edited.
    pub(crate) fn edit(&mut self, edit: Edit)
        ensures { self.new ≡ option_map (edited edit) self.old }
    {
        match edit {
            Edit::EntryAdded { child, moment } => self.add_entry(child, moment),
            Edit::EntryRemoved { child, moment } => self.remove_entry(child, moment),
            Edit::NameAdded { directory } => self.add_name(directory),
            Edit::NameRemoved => self.remove_name(),
            Edit::Resized { size, moment } => self.resize(size, moment),
            Edit::Lengthened { size, moment } => self.lengthen(size, moment),
        }
    }

    /// A directory gets an entry, which leads to an object of this kind.
    fn add_entry(&mut self, child: Kind, moment: u64)
        ensures { self.new ≡ option_map (entry_added child moment) self.old }
    {
        self.moment = Halves::of(moment);
        self.size.add_one();
        match child {
            Kind::File => {}
            Kind::Directory => self.links.add_one(),
        }
    }

    /// A directory loses an entry, which led to an object of this kind.
    fn remove_entry(&mut self, child: Kind, moment: u64)
        ensures { self.new ≡ option_map (entry_removed child moment) self.old }
    {
        self.moment = Halves::of(moment);
        self.size.remove_one();
        match child {
            Kind::File => {}
            Kind::Directory => self.links.remove_one(),
        }
    }

    /// An object gets a name in a directory.
    fn add_name(&mut self, directory: u64)
        ensures { self.new ≡ option_map (λ f. name_added f.kind directory f) self.old }
    {
        match self.kind {
            Kind::File => self.links.add_one(),
            Kind::Directory => {
                self.parent = Halves::of(directory);
                self.has_parent = true;
            }
        }
    }

    /// An object loses a name.
    fn remove_name(&mut self)
        ensures { self.new ≡ option_map (λ f. name_removed f.kind f) self.old }
    {
        match self.kind {
            Kind::File => self.links.remove_one(),
            Kind::Directory => self.has_parent = false,
        }
    }

    /// An object has another size.
    fn resize(&mut self, size: u64, moment: u64)
        ensures { self.new ≡ option_map (resized_facts size moment) self.old }
    {
        self.moment = Halves::of(moment);
        self.size = Halves::of(size);
    }

    /// An object has at least this size.
    fn lengthen(&mut self, size: u64, moment: u64)
        ensures { self.new ≡ option_map (λ f. resized_facts (max f.size size) moment f) self.old }
    {
        self.moment = Halves::of(moment);
        self.size = Halves::of(self.size.number().max(size));
    }
}

/// Whether there is a number, and the number, or 0.
fn parts_of(number: Option<u64>) -> (bool, u64)
    ensures { where_said result.0 result.1 ≡ number }
{
    match number {
        Some(number) => (true, number),
        None => (false, 0),
    }
}

/// The number, if it is said that there is one.
fn where_said(there: bool, number: u64) -> Option<u64>
    ensures { result ≡ where_said there number }
{
    if there { Some(number) } else { None }
}

/// One and the units that hold so much, or the greatest number where there are more.
fn units(size: u64, unit: u64) -> u64
    requires { 0 < unit }
    ensures { result ≡ min (1 + ceiling size unit) (2 ^ 64 - 1) }
{
    size.div_ceil(unit).saturating_add(1)
}
