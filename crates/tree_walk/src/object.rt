// One object of the tree.
ghost use Rattle.std.specs.Prelude.{◌≡◌, ◌≤◌, ◌+◌, OnOk, IfOk, IfErr};
ghost use Rattle.pages.specs.Maps.{has};
ghost use Rattle.pages.specs.State.{OnlyFinds, KeepsPower};
ghost use Rattle.tree_walk.specs.Broken.{StopsAt};
ghost use Rattle.tree_walk.specs.Faults.{IfFault, ReportsWhy};
ghost use Rattle.tree_walk.specs.Hashes.{Keeps, CoversHead};
ghost use Rattle.tree_walk.specs.Pages.{OfPageBytes};
ghost use Rattle.tree_walk.specs.Visits.{IssuesForHead, IsVisited, OfSeen};

use crate::broken::{Broken, Rule};
use crate::directory::read_slots;
use crate::fault::WalkFault;
use crate::file::missing_chunk;
use crate::head::{Head, read_head};
use flash_tree::Key;
use name_index::NameIndex;
use page_tags::ObjectKind;
use pages::Pages;
use std::alloc::Global;

/// What is found of an object: its header, and the objects that it names, in the order of its slots.
#[derive(Drop)]
pub struct Visited {
    pub head: Head,
    pub named: Vec<u64>,
}

/// Goes through one object. Its header is read, and each page of a directory's slots once; a file's chunks are not read. The
/// hashes of a directory's names are added to the index.
pub fn visit<P: Pages>(
    alloc: Global,
    pages: &mut P,
    object: u64,
    names: &mut NameIndex,
) -> Result<Visited, WalkFault>
    ensures lookups { OnlyFinds (P.state pages.old) (P.state pages.new) }
    ensures issued { OfPageBytes (P.state pages.old) (λ z. IfOk result (λ visited. IssuesForHead z (P.state pages.old) (P.state pages.new) visited.head)) }
    ensures power { OnOk result (KeepsPower (P.state pages.old) (P.state pages.new)) }
    ensures leads { OfSeen (P.state pages.old) (λ z m. IfOk result (IsVisited z (has m) object)) }
    ensures stops { OfSeen (P.state pages.old) (λ z m. IfFault result (StopsAt z (has m) object) (P.state pages.new)) }
    ensures why { IfErr result (ReportsWhy (P.state pages.new)) }
    ensures keeps { Keeps names.old names.new }
    ensures hashes { OfSeen (P.state pages.old) (λ z m. IfOk result (λ visited. CoversHead names.new z m object visited.head)) }
{
    let head = read_head(alloc, pages, object)?;
    match head.kind {
        ObjectKind::File => {
            if let Some(chunk) = missing_chunk(pages, object, &head.bits) {
                return Err(WalkFault::Broken(Broken {
                    rule: Rule::ChunkMissing,
                    key: Key { object, chunk },
                }));
            }
            Ok(Visited {
                head,
                named: Vec::new(alloc),
            })
        }
        ObjectKind::Directory => {
            let named = read_slots(alloc, pages, object, head.length, names)?;
            Ok(Visited { head, named })
        }
    }
}
