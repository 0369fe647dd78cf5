// A volume over the pages that a mount gives.
ghost use Rattle.std.specs.Prelude.{◌≡◌, false};
ghost use Rattle.std.specs.FinMap as map;
ghost use Rattle.command_plans.specs.Tables.{handles_in};
ghost use Rattle.paged_objects.specs.Parts as parts;
ghost use Rattle.posix_profile.specs.State.{Objects};
ghost use Rattle.posix_calls.specs.PageVolumes.{pages_of, is_read_only, is_stopped};
ghost use Rattle.posix_calls.specs.Mounts.{AreMounted, RepresentsTree};

use crate::PageVolume;
use command_plans::table::DescriptorTable;
use paged_objects::PagedObjects;
use pages::PageStore;
use std::alloc::Global;

/// A volume of mounted pages, of the table of their objects and of the hashes of the objects' names, with no descriptor open.
pub(crate) fn join<P: PageStore>(
    alloc: Global,
    objects: PagedObjects<P>,
    descriptors: DescriptorTable,
    read_only: bool,
) -> PageVolume<P>
    requires { handles_in descriptors ≡ map.empty }
    ensures same { pages_of result ≡ parts.pages_of objects }
    ensures pages { P.state (pages_of result) ≡ P.state (parts.pages_of objects) }
    ensures read_only { is_read_only result ≡ read_only }
    ensures goes_on { is_stopped result ≡ false }
    ensures tree { (tree : Objects) → AreMounted P.state objects read_only tree → RepresentsTree P.state result tree }
{
    PageVolume::new(alloc, objects, descriptors, read_only)
}
