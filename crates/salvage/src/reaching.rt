// The objects that can be reached from one.
ghost use Rattle.std.specs.Prelude.{◌≡◌, ◌<◌, ℕ, [], ◌∷◌, length, IfOk, IfErr, OnOk};
ghost use Rattle.pages.specs.Maps.{has};
ghost use Rattle.pages.specs.State.{OnlyFinds};
ghost use Rattle.tree_walk.specs.Visits.{OfSeen};
ghost use Rattle.salvage.specs.Reached.{ListsReached};
ghost use Rattle.salvage.specs.Reaching.{Begins, HasReached, Knows, Puts, objects_in};
ghost use Rattle.salvage.specs.SeenBy.{seen_by};
ghost use Rattle.salvage.specs.Steps.{ExtendsBy};
ghost use Rattle.salvage.specs.Reported.{WhyNotRead};
ghost use Rattle.salvage.specs.declared.fault.SalvageFault.TheVariants as faults;

use crate::fault::SalvageFault;
use crate::listing::read_names;
use crate::reported::SalvagedName;
use nand_model::Nand;
use page_store::NewestPages;
use std::alloc::Global;
use std::collections::BTreeSet;

/// The objects that can be reached from one, itself first, each once.
pub(crate) fn find_reached<N: Nand>(
    alloc: Global,
    pages: &mut NewestPages<N>,
    from: u64,
) -> Result<Vec<u64>, SalvageFault>
    ensures lookups { OnlyFinds (seen_by pages.old) (seen_by pages.new) }
    ensures reached { OfSeen (seen_by pages.old) (λ z m. IfOk result (λ list. ListsReached z (has m) from list.items)) }
    ensures fault { IfErr result (WhyNotRead (seen_by pages.new)) }
{
    let mut named = begin(alloc, from)?;
    let mut place = 0;
    while place < named.objects.len() {
        named.step(alloc, pages, place)?;
        place += 1;
    }
    Ok(named.objects)
}

/// The objects that were named, in the order in which they were first, and the same as a set.
#[derive(Drop)]
pub(crate) struct NamedObjects {
    objects: Vec<u64>,
    known: BTreeSet<u64>,
}

/// The first object alone.
fn begin(alloc: Global, from: u64) -> Result<NamedObjects, SalvageFault>
    ensures begins { IfOk result (Begins from) }
    ensures why { IfErr result (λ fault. fault ≡ faults.NoMemory) }
{
    let mut known = BTreeSet::new(alloc);
    known.insert(from)?;
    Ok(NamedObjects {
        objects: vec![in alloc; from]?,
        known,
    })
}

impl NamedObjects {
    /// Puts the objects behind the others that the one at a place names.
    fn step<N: Nand>(
        &mut self,
        alloc: Global,
        pages: &mut NewestPages<N>,
        place: usize,
    ) -> Result<(), SalvageFault>
        requires within { place < length self.old.objects.items }
        requires knows { Knows self.old }
        ensures lookups { OnlyFinds (seen_by pages.old) (seen_by pages.new) }
        ensures knows { OnOk result (Knows self.new) }
        ensures goes { (from : ℕ) → OfSeen (seen_by pages.old) (λ z m. ExtendsBy 1 (HasReached z (has m) from) place self.old self.new result) }
        ensures fault { IfErr result (WhyNotRead (seen_by pages.new)) }
    {
        let object = self.objects[place];
        match read_names(alloc, pages, object)? {
            Some(listing) => self.put_all(&listing.names),
            None => Ok(()),
        }
    }

    /// Puts the objects that names lead to behind the others, each that is not known yet.
    fn put_all(&mut self, names: &[SalvagedName]) -> Result<(), SalvageFault>
        requires { Knows self.old }
        ensures puts { OnOk result (Puts (objects_in names.now) self.old self.new) }
        ensures why { IfErr result (λ fault. fault ≡ faults.NoMemory) }
    {
        for place in 0..names.len() {
            self.put(names[place].object)?;
        }
        Ok(())
    }

    /// Puts an object behind the others, unless it is known.
    fn put(&mut self, object: u64) -> Result<(), SalvageFault>
        requires { Knows self.old }
        ensures puts { OnOk result (Puts (object ∷ []) self.old self.new) }
        ensures why { IfErr result (λ fault. fault ≡ faults.NoMemory) }
    {
        if !self.known.insert(object)? {
            return Ok(());
        }
        self.objects.push(object)?;
        Ok(())
    }
}
