// What a mount gives.
ghost use Rattle.std.specs.Prelude.{◌≡◌, IfOk, IfErr};
ghost use Rattle.block_state.specs.TableOf.{table};
ghost use Rattle.page_store.specs.FlashParts.{device_in};
ghost use Rattle.mounting.specs.Going.{IsGoing};
ghost use Rattle.mounting.specs.Given.{IsMade};
ghost use Rattle.mounting.specs.Made.{Remembers};
ghost use Rattle.page_store.specs.PagesOf.{mounted_pages};

use crate::making::{is_worn, make_pages};
use crate::tree_on::{Going, NamedTree};
use crate::{a_volume_has_sizes, the_footprint_holds_the_tree};
use chunk_index::the_counts_are_of_the_keys;
use name_index::NameIndex;
use nand_model::Nand;
use object_store::ObjectTable;
use page_store::{FlashPages, a_table_of_first_pages_knows_erased_blocks};
use std::alloc::Global;
use std::num::NonZeroUsize;
use tree_walk::{table, the_names_of_a_tree_are_those_of_its_objects};

/// What a mount gives: the pages of the volume, the table of its objects, the hashes of their names, and whether it can
/// only be read.
pub struct Mounted<N: Nand> {
    pub pages: FlashPages<N>,
    pub table: ObjectTable,
    pub names: NameIndex,
    pub read_only: bool,
}

/// The pages of a volume that goes on, the table of its objects and the hashes of their names. Where memory is refused the device
/// is given back.
pub(crate) fn make_mounted<N: Nand>(
    alloc: Global,
    going: Going<N>,
    capacity: NonZeroUsize,
) -> Result<Mounted<N>, N>
    requires { IsGoing (N.state going.named.value.on.device) going }
    ensures device { IfOk result (λ mounted. (mounted_pages mounted.pages).device ≡ N.state going.named.value.on.device) }
    ensures same { IfOk result (λ mounted. device_in mounted.pages ≡ going.named.value.on.device) }
    ensures checkpoint { IfOk result (λ mounted. (mounted_pages mounted.pages).checkpoint ≡ (table going.named.value.on.blocks).checkpoint) }
    ensures made { IfOk result (IsMade mounted_pages) }
    ensures remembers { IfOk result (λ mounted. Remembers (N.state going.named.value.on.device) (mounted_pages mounted.pages)) }
    ensures back { IfErr result (λ device. device ≡ going.named.value.on.device) }
{
    a_volume_has_sizes();
    a_table_of_first_pages_knows_erased_blocks();
    the_counts_are_of_the_keys();
    the_footprint_holds_the_tree();
    the_names_of_a_tree_are_those_of_its_objects();
    let Going { named, sizes } = going;
    let NamedTree { on, names } = Box::into_inner(named);
    let table = match table(alloc, &on.tree, sizes) {
        Ok(table) => table,
        Err(_) => return Err(on.device),
    };
    let read_only = is_worn(&on);
    match make_pages(alloc, on, capacity, read_only) {
        Ok(pages) => Ok(Mounted {
            pages,
            table,
            names,
            read_only,
        }),
        Err((device, _)) => Err(device),
    }
}
