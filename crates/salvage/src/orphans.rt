// The objects that no directory names.
ghost use Rattle.std.specs.Prelude.{◌≡◌, length, IfOk, IfErr, OnOk};
ghost use Rattle.std.specs.List.{Contains};
ghost use Rattle.pages.specs.Maps.{has};
ghost use Rattle.pages.specs.State.{OnlyFinds};
ghost use Rattle.tree_walk.specs.Visits.{OfSeen};
ghost use Rattle.salvage.specs.Headers.{HasHeaders, Rises};
ghost use Rattle.salvage.specs.Orphans.{Adds, HasNamed, IsUnnamed, ListsUnnamed, PutsUnnamed};
ghost use Rattle.salvage.specs.Reached.{LeadsTo, ListsOrphans};
ghost use Rattle.salvage.specs.Reaching.{objects_in};
ghost use Rattle.salvage.specs.SeenBy.{seen_by};
ghost use Rattle.salvage.specs.Reported.{WhyNotRead};
ghost use Rattle.salvage.specs.declared.fault.SalvageFault.TheVariants as faults;

use crate::fault::SalvageFault;
use crate::header::read_info;
use crate::listing::read_names;
use crate::reported::SalvagedName;
use nand_model::Nand;
use page_store::NewestPages;
use std::alloc::Global;
use std::collections::BTreeSet;
use volume_terms::ROOT;

/// The objects but the root whose headers read and that no directory names, each once. `headers` has each object that has a page of
/// chunk 0, in rising order.
pub(crate) fn find_orphans<N: Nand>(
    alloc: Global,
    pages: &mut NewestPages<N>,
    headers: &[u64],
) -> Result<Vec<u64>, SalvageFault>
    ensures lookups { OnlyFinds (seen_by pages.old) (seen_by pages.new) }
    ensures orphans { OfSeen (seen_by pages.old) (λ z m. HasHeaders m headers.now → Rises headers.now → IfOk result (λ list. ListsOrphans z (has m) list.items)) }
    ensures fault { IfErr result (WhyNotRead (seen_by pages.new)) }
{
    let named = find_named(alloc, pages, headers)?;
    find_unnamed(alloc, pages, headers, &named)
}

/// The objects that directories of the list name.
fn find_named<N: Nand>(
    alloc: Global,
    pages: &mut NewestPages<N>,
    directories: &[u64],
) -> Result<BTreeSet<u64>, SalvageFault>
    ensures lookups { OnlyFinds (seen_by pages.old) (seen_by pages.new) }
    ensures named { OfSeen (seen_by pages.old) (λ z m. IfOk result (HasNamed z (has m) directories.now)) }
    ensures fault { IfErr result (WhyNotRead (seen_by pages.new)) }
{
    let mut named = BTreeSet::new(alloc);
    for place in 0..directories.len() {
        add_named(alloc, pages, directories[place], &mut named)?;
    }
    Ok(named)
}

/// Adds the objects that a directory names, and none where no header of a directory reads.
fn add_named<N: Nand>(
    alloc: Global,
    pages: &mut NewestPages<N>,
    directory: u64,
    named: &mut BTreeSet<u64>,
) -> Result<(), SalvageFault>
    ensures lookups { OnlyFinds (seen_by pages.old) (seen_by pages.new) }
    ensures adds { OfSeen (seen_by pages.old) (λ z m. OnOk result (Adds (LeadsTo z (has m) directory) named.old named.new)) }
    ensures fault { IfErr result (WhyNotRead (seen_by pages.new)) }
{
    match read_names(alloc, pages, directory)? {
        Some(listing) => add_all(named, &listing.names),
        None => Ok(()),
    }
}

/// Adds the objects that names lead to.
fn add_all(named: &mut BTreeSet<u64>, names: &[SalvagedName]) -> Result<(), SalvageFault>
    ensures adds { OnOk result (Adds (Contains (objects_in names.now)) named.old named.new) }
    ensures why { IfErr result (λ fault. fault ≡ faults.NoMemory) }
{
    for place in 0..names.len() {
        named.insert(names[place].object)?;
    }
    Ok(())
}

/// Those of the objects that are not the root, are not named, and whose headers read.
fn find_unnamed<N: Nand>(
    alloc: Global,
    pages: &mut NewestPages<N>,
    objects: &[u64],
    named: &BTreeSet<u64>,
) -> Result<Vec<u64>, SalvageFault>
    ensures lookups { OnlyFinds (seen_by pages.old) (seen_by pages.new) }
    ensures unnamed { OfSeen (seen_by pages.old) (λ z m. IfOk result (λ list. ListsUnnamed z (has m) named.now objects.now (length objects.now) list.items)) }
    ensures fault { IfErr result (WhyNotRead (seen_by pages.new)) }
{
    let mut list = Vec::new(alloc);
    for place in 0..objects.len() {
        put_unnamed(pages, objects[place], named, &mut list)?;
    }
    Ok(list)
}

/// Puts an object behind the others if it is not the root, is not named, and its header reads.
fn put_unnamed<N: Nand>(
    pages: &mut NewestPages<N>,
    object: u64,
    named: &BTreeSet<u64>,
    list: &mut Vec<u64>,
) -> Result<(), SalvageFault>
    ensures lookups { OnlyFinds (seen_by pages.old) (seen_by pages.new) }
    ensures puts { OfSeen (seen_by pages.old) (λ z m. OnOk result (PutsUnnamed (IsUnnamed z (has m) named.now object) object list.old.items list.new.items)) }
    ensures fault { IfErr result (WhyNotRead (seen_by pages.new)) }
{
    if object == ROOT {
        return Ok(());
    }
    if named.contains(&object) {
        return Ok(());
    }
    match read_info(pages, object)? {
        Some(_info) => {
            list.push(object)?;
            Ok(())
        }
        None => Ok(()),
    }
}
