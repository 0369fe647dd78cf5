// Where a path leads.
ghost use Rattle.std.specs.Prelude.{◌≡◌, [], OnOk};
ghost use Rattle.posix_profile.specs.Paths.{leads_to, pass, walk, resolve};
ghost use Rattle.posix_profile.specs.Names.{parent};
ghost use Rattle.object_store.specs.Stores.{KeepsPower, OfDirectory, OfTree};
ghost use Rattle.command_plans.specs.Paths.{component_of, last_of, goes_on, walk_over, FindsIn, PassesIn, Leads, LeadsIn};

use crate::path::parts::{PathPart, PathPlace, ends_in_slash, part_of, parts_of, test_path};
use object_store::{ObjectStore, Refusal, is_file};
use posix_profile::Errno;
use std::alloc::Global;
use volume_terms::{ROOT, StoreFault};

/// The directory above a directory; above the root it is the root.
fn parent<S: ObjectStore>(store: &S, directory: u64) -> u64
    ensures { OfDirectory S.meaning store.now directory (λ z objects. result ≡ parent objects directory) }
{
    match store.parent(directory) {
        Some(above) => above,
        None => ROOT,
    }
}

/// Where a component leads from a directory.
fn leads_to<S: ObjectStore>(
    store: &mut S,
    directory: u64,
    part: PathPart<'_>,
) -> Result<Option<u64>, StoreFault>
    ensures reads { S.meaning.reads store.old store.new }
    ensures power { OnOk result (S.meaning.has_power store.new ≡ S.meaning.has_power store.old) }
    ensures lookups { FindsIn S.meaning directory (λ objects. leads_to objects directory (component_of part.entry)) store.old store.new result }
{
    match part {
        PathPart::Dot => Ok(Some(directory)),
        PathPart::DotDot => Ok(Some(parent(store, directory))),
        PathPart::Named(name) => store.find(directory, name),
    }
}

/// The directory to which a component leads that is not the last one.
fn pass<S: ObjectStore>(store: &mut S, directory: u64, part: PathPart<'_>) -> Result<u64, Refusal>
    ensures reads { S.meaning.reads store.old store.new }
    ensures power { KeepsPower S.meaning store.old store.new result }
    ensures passes { PassesIn S.meaning directory (λ objects. pass objects (leads_to objects directory (component_of part.entry))) store.old store.new result }
{
    match leads_to(store, directory, part) {
        Ok(Some(number)) => {
            if is_file(store, number) {
                Err(Refusal::Error(Errno::ENOTDIR))
            } else {
                Ok(number)
            }
        }
        Ok(None) => Err(Refusal::Error(Errno::ENOENT)),
        Err(fault) => Err(Refusal::Fault(fault)),
    }
}

/// The end of a walk.
fn arrive<'a, S: ObjectStore>(
    store: &mut S,
    slash_follows: bool,
    directory: u64,
    last: PathPart<'a>,
) -> Result<PathPlace<'a>, Refusal>
    ensures reads { S.meaning.reads store.old store.new }
    ensures power { KeepsPower S.meaning store.old store.new result }
    ensures leads { LeadsIn S.meaning directory (λ objects. walk objects slash_follows directory (component_of last.entry) []) store.old store.new result }
{
    match leads_to(store, directory, last) {
        Ok(Some(number)) => {
            if is_file(store, number) && slash_follows {
                Err(Refusal::Error(Errno::ENOTDIR))
            } else {
                Ok(PathPlace {
                    directory,
                    last: Some(last),
                    object: Some(number),
                    slash_follows,
                })
            }
        }
        Ok(None) => Ok(PathPlace {
            directory,
            last: Some(last),
            object: None,
            slash_follows,
        }),
        Err(fault) => Err(Refusal::Fault(fault)),
    }
}

/// The directory in which the next component is looked up: the one to which the last leads, if there was one.
fn step_on<S: ObjectStore>(
    store: &mut S,
    directory: u64,
    last: Option<PathPart<'_>>,
) -> Result<u64, Refusal>
    ensures reads { S.meaning.reads store.old store.new }
    ensures power { KeepsPower S.meaning store.old store.new result }
    ensures passes { PassesIn S.meaning directory (λ objects. goes_on objects directory (last_of last.entry)) store.old store.new result }
{
    match last {
        Some(before) => pass(store, directory, before),
        None => Ok(directory),
    }
}

/// The walk over the parts, from the root.
fn walk<'a, S: ObjectStore>(
    store: &mut S,
    slash_follows: bool,
    parts: &[&'a [u8]],
) -> Result<PathPlace<'a>, Refusal>
    ensures reads { S.meaning.reads store.old store.new }
    ensures power { KeepsPower S.meaning store.old store.new result }
    ensures leads { OfTree S.meaning store.old (λ z objects. Leads S.meaning (walk_over objects slash_follows parts.now) store.old store.new result) }
{
    let mut directory = ROOT;
    let mut last = None;
    for part in parts {
        directory = step_on(store, directory, last)?;
        last = Some(part_of(part));
    }
    match last {
        Some(here) => arrive(store, slash_follows, directory, here),
        None => Ok(PathPlace {
            directory: ROOT,
            last: None,
            object: Some(ROOT),
            slash_follows,
        }),
    }
}

/// Where a path leads, or why nowhere.
pub fn resolve<'a, S: ObjectStore>(
    alloc: Global,
    store: &mut S,
    path: &'a [u8],
) -> Result<PathPlace<'a>, Refusal>
    ensures reads { S.meaning.reads store.old store.new }
    ensures power { KeepsPower S.meaning store.old store.new result }
    ensures leads { OfTree S.meaning store.old (λ z objects. Leads S.meaning (resolve objects path.now) store.old store.new result) }
{
    let parts = parts_of(alloc, path)?;
    test_path(path, &parts)?;
    walk(store, ends_in_slash(path), &parts)
}
