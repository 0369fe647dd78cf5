// The objects of a tree, one after the other.
ghost use Rattle.std.specs.Prelude.{◌≡◌, ◌<◌, ◌≤◌, ◌+◌, ℕ, [], ◌∷◌, ◌++◌, true, false, IfOk, IfErr, IfSome, IfNone, OnOk, length};
ghost use Rattle.page_tags.specs.declared.header.ObjectKind.TheVariants as kinds;
ghost use Rattle.pages.specs.Maps.{has};
ghost use Rattle.pages.specs.State.{OnlyFinds, KeepsPower};
ghost use Rattle.tree_walk.specs.Faults.{IfFault, ReportsWhy};
ghost use Rattle.tree_walk.specs.Hashes.{CoversHeads, CoversTree};
ghost use Rattle.tree_walk.specs.Visits.{OfSeen};
ghost use Rattle.tree_walk.specs.Trees.{IsTreeThrough, IsWrongBy, named_in, page_size, tree_pages};
ghost use Rattle.tree_walk.specs.Walks.{IssuesAt, Begins, HasAgain, HasHead, IsGoing, IsDirectoryAgain, Knows, OfGoing, Puts, StopsOn, Visits};
ghost use Rattle.tree_walk.specs.declared.fault.WalkFault.TheVariants as faults;

use crate::broken::{Broken, Rule};
use crate::fault::WalkFault;
use crate::head::Head;
use crate::object::{Visited, visit};
use crate::tree::{NamedObject, Tree};
use flash_tree::Key;
use name_index::NameIndex;
use page_tags::ObjectKind;
use pages::Pages;
use std::alloc::{AllocError, Global};
use std::collections::{BTreeMap, BTreeSet};
use volume_terms::ROOT;

/// Goes through all objects of a tree from the root on, each once, in the order in which they are named. The hashes of all
/// names are added to the index. Each header is looked up once, and so is each page of a directory's slots.
pub fn walk<P: Pages>(
    alloc: Global,
    pages: &mut P,
    names: &mut NameIndex,
) -> Result<Tree, WalkFault>
    ensures lookups { OnlyFinds (P.state pages.old) (P.state pages.new) }
    ensures power { OnOk result (KeepsPower (P.state pages.old) (P.state pages.new)) }
    ensures issued { OfSeen (P.state pages.old) (λ z m. IfOk result (λ tree. (P.state pages.new).issued ≤ (P.state pages.old).issued + tree_pages z tree)) }
    ensures tree { OfSeen (P.state pages.old) (λ z m. IfOk result (IsTreeThrough z (has m))) }
    ensures size { IfOk result (λ tree. page_size tree ≡ (P.state pages.old).page_bytes) }
    ensures fault { OfSeen (P.state pages.old) (λ z m. IfFault result (IsWrongBy z (has m)) (P.state pages.new)) }
    ensures why { IfErr result (ReportsWhy (P.state pages.new)) }
    ensures hashes { OfSeen (P.state pages.old) (λ z m. IfOk result (CoversTree names.new z m)) }
{
    let mut walk = begin(alloc)?;
    let mut place = 0;
    while place < walk.objects.len() {
        walk.step(alloc, pages, place, names)?;
        place += 1;
    }
    if let Some(object) = walk.directory_again() {
        return Err(WalkFault::Broken(Broken {
            rule: Rule::DirectoryTwice,
            key: Key { object, chunk: 0 },
        }));
    }
    Ok(Tree {
        page_bytes: pages.page_bytes(),
        objects: walk.objects,
        heads: walk.heads,
        names: walk.names,
    })
}

/// A walk that is on its way: the objects in the order in which they were named, which are also known as a set; those
/// that were named again; and of those that were visited the headers, and what they name.
#[derive(Drop)]
struct WalkState {
    objects: Vec<u64>,
    known: BTreeSet<u64>,
    again: BTreeSet<u64>,
    heads: BTreeMap<u64, Head>,
    names: Vec<NamedObject>,
}

/// A walk that has come to the root.
fn begin(alloc: Global) -> Result<WalkState, WalkFault>
    ensures begins { IfOk result Begins }
    ensures why { IfErr result (λ fault. fault ≡ faults.NoMemory) }
{
    let mut known = BTreeSet::new(alloc);
    known.insert(ROOT)?;
    Ok(WalkState {
        objects: vec![in alloc; ROOT]?,
        known,
        again: BTreeSet::new(alloc),
        heads: BTreeMap::new(alloc),
        names: Vec::new(alloc),
    })
}

/// Puts what a directory names behind the other names.
fn put_names(names: &mut Vec<NamedObject>, directory: u64, named: &[u64]) -> Result<(), AllocError>
    ensures puts { OnOk result (names.new.items ≡ names.old.items ++ named_in directory named.now) }
{
    for place in 0..named.len() {
        let object = named[place];
        names.push(NamedObject { directory, object })?;
    }
    Ok(())
}

impl WalkState {
    /// Visits the object at a place.
    fn step<P: Pages>(
        &mut self,
        alloc: Global,
        pages: &mut P,
        place: usize,
        names: &mut NameIndex,
    ) -> Result<(), WalkFault>
        requires within { place < length self.old.objects.items }
        requires knows { Knows self.old }
        ensures lookups { OnlyFinds (P.state pages.old) (P.state pages.new) }
        ensures power { OnOk result (KeepsPower (P.state pages.old) (P.state pages.new)) }
        ensures knows { OnOk result (Knows self.new) }
        ensures goes { OfGoing (P.state pages.old) place self.old (λ z m. OnOk result (IsGoing z (has m) (place + 1) self.new)) }
        ensures stops { OfSeen (P.state pages.old) (λ z m. IfFault result (StopsOn z (has m) self.old place) (P.state pages.new)) }
        ensures issued { OfGoing (P.state pages.old) place self.old (λ z m. OnOk result (IssuesAt z place (self.old, self.new) (P.state pages.old, P.state pages.new))) }
        ensures why { IfErr result (ReportsWhy (P.state pages.new)) }
        ensures hashes { OfSeen (P.state pages.old) (λ z m. CoversHeads names.old z m self.old.heads → OnOk result (CoversHeads names.new z m self.new.heads)) }
    {
        let object = self.objects[place];
        let visited = visit(alloc, pages, object, names)?;
        self.take(object, visited)
    }

    /// Takes what was found of an object.
    fn take(&mut self, object: u64, visited: Visited) -> Result<(), WalkFault>
        requires { Knows self.old }
        ensures takes { OnOk result (Visits object visited self.old self.new) }
        ensures why { IfErr result (λ fault. fault ≡ faults.NoMemory) }
    {
        let Visited { head, named } = visited;
        self.put_all(&named)?;
        self.heads.insert(object, head)?;
        put_names(&mut self.names, object, &named)?;
        Ok(())
    }

    /// Puts the objects that one names behind the others.
    fn put_all(&mut self, named: &[u64]) -> Result<(), WalkFault>
        requires { Knows self.old }
        ensures puts { OnOk result (Puts named.now self.old self.new) }
        ensures why { IfErr result (λ fault. fault ≡ faults.NoMemory) }
    {
        for place in 0..named.len() {
            self.put(named[place])?;
        }
        Ok(())
    }

    /// Puts an object that is named behind the others, unless it is one of them: then it is named again.
    fn put(&mut self, object: u64) -> Result<(), WalkFault>
        requires { Knows self.old }
        ensures puts { OnOk result (Puts (object ∷ []) self.old self.new) }
        ensures why { IfErr result (λ fault. fault ≡ faults.NoMemory) }
    {
        if !self.known.insert(object)? {
            self.again.insert(object)?;
            return Ok(());
        }
        self.objects.push(object)?;
        Ok(())
    }

    /// The first directory that was named again.
    fn directory_again(&self) -> Option<u64>
        ensures is { IfSome result (IsDirectoryAgain self.now) }
        ensures not { IfNone result ((o : ℕ) → IsDirectoryAgain self.now o → ⊥) }
    {
        for place in 0..self.objects.len() {
            let object = self.objects[place];
            if self.is_directory_again(object) {
                return Some(object);
            }
        }
        None
    }

    /// Whether an object was named again and is a directory.
    fn is_directory_again(&self, object: u64) -> bool
        ensures is { result ≡ true → (head : Head) × HasAgain self.now object × HasHead self.now object head × (head.kind ≡ kinds.Directory) }
        ensures not { result ≡ false → (head : Head) → HasAgain self.now object → HasHead self.now object head → head.kind ≡ kinds.Directory → ⊥ }
    {
        if !self.again.contains(&object) {
            return false;
        }
        match self.heads.get(&object) {
            Some(head) => head.kind == ObjectKind::Directory,
            None => false,
        }
    }
}
