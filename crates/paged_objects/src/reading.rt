// What is read of the objects that the pages hold.
ghost use Rattle.std.specs.Prelude.{◌≡◌, OnOk, IfOk, IfErr, ◌≤◌, length, drop};
ghost use Rattle.std.specs.FinMap as map;
ghost use Rattle.posix_profile.specs.State.{IsDirectory};
ghost use Rattle.pages.specs.Faults.{MayLack, MayLackMemory, SaysWhy, SaysWhyMaking};
ghost use Rattle.pages.specs.State.{OnlyFinds, KeepsPower};
ghost use Rattle.directories.specs.Named.{IssuesHeld};
ghost use Rattle.file_io.specs.Reads.{HasRead};
ghost use Rattle.paged_objects.specs.Making.{AreNamesIn, IsFoundIn};
ghost use Rattle.paged_objects.specs.Placed.{IfCounted, IfLong, OfHeld, OfNamed, bytes_in};

use name_index::NameIndex;
use pages::{PageFault, Pages};
use posix_profile::NameList;
use std::alloc::Global;

/// The object that a name of a directory of so many entries leads to, found through an index of the names.
pub fn find<P: Pages>(
    names: &NameIndex,
    pages: &mut P,
    directory: u64,
    count: u64,
    name: &[u8],
) -> Result<Option<u64>, PageFault>
    ensures lookups { OnlyFinds (P.state pages.old) (P.state pages.new) }
    ensures issued { IssuesHeld names.now directory name.now (P.state pages.old).issued (P.state pages.new).issued }
    ensures power { OnOk result (KeepsPower (P.state pages.old) (P.state pages.new)) }
    ensures found { OfNamed names.now (P.state pages.old) (λ a. IfCounted a directory count (IfOk result (IsFoundIn a directory name.now))) }
    ensures why { IfErr result (SaysWhy (P.state pages.old) (P.state pages.new)) }
    ensures fault { OfHeld (P.state pages.old) (λ a.
        IfCounted a directory count (IfErr result (MayLack (P.state pages.old) (P.state pages.new)))) }
{
    directories::find(names, pages, directory, count, name)
}

/// The names of a directory, in the order of their bytes.
pub fn names<P: Pages>(pages: &mut P, alloc: Global, directory: u64) -> Result<NameList, PageFault>
    ensures lookups { OnlyFinds (P.state pages.old) (P.state pages.new) }
    ensures power { OnOk result (KeepsPower (P.state pages.old) (P.state pages.new)) }
    ensures found { OfHeld (P.state pages.old) (λ a. IsDirectory a.objects directory → IfOk result (AreNamesIn a directory)) }
    ensures why { IfErr result (SaysWhyMaking (P.state pages.new)) }
    ensures fault { OfHeld (P.state pages.old) (λ a. IsDirectory a.objects directory → IfErr result (MayLackMemory (P.state pages.new))) }
{
    directories::names(alloc, pages, directory)
}

/// Reads the bytes of a file of this length from the offset on into a buffer, as many as there are and the buffer has room for, and
/// returns how many. After a fault the buffer may hold anything.
pub fn read_into<P: Pages>(
    pages: &mut P,
    file: u64,
    len: u64,
    offset: u64,
    buffer: &mut [u8],
) -> Result<usize, PageFault>
    ensures lookups { OnlyFinds (P.state pages.old) (P.state pages.new) }
    ensures power { OnOk result (KeepsPower (P.state pages.old) (P.state pages.new)) }
    ensures size { length buffer.new ≡ length buffer.old }
    ensures count { IfOk result (λ count. count ≤ length buffer.old) }
    ensures rest { IfOk result (λ count. drop count buffer.new ≡ drop count buffer.old) }
    ensures found { OfHeld (P.state pages.old) (λ a.
        IfLong a file len (IfOk result (HasRead (bytes_in a file) offset buffer.old buffer.new))) }
    ensures fault { IfErr result (MayLack (P.state pages.old) (P.state pages.new)) }
{
    file_io::read_at(pages, file, len, offset, buffer)
}
