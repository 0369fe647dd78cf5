// Whether a volume can go on with the tree of a device.
ghost use Rattle.std.specs.Prelude.{◌≡◌, ◌↔◌, ◌≤◌, ◌+◌, true, IsTrue, IfSome, IfNone};
ghost use Rattle.flash_tree.specs.Mount.{sizes_of};
ghost use Rattle.flash_tree.specs.Places.{numbers_of};
ghost use Rattle.flash_tree.specs.Tree.{Shows};
ghost use Rattle.block_state.specs.TableOf.{table};
ghost use Rattle.pages.specs.Maps.{PageMap, has};
ghost use Rattle.posix_profile.specs.State.{Objects};
ghost use Rattle.posix_profile.specs.Charge as costs;
ghost use Rattle.tree_walk.specs.Trees.{IsTreeThrough};
ghost use Rattle.volume_terms.specs.Sizes.{capacity};
ghost use Rattle.volume_terms.specs.VolumeSizes as volume;
ghost use Rattle.mounting.specs.Marked.{AreFitting};
ghost use Rattle.mounting.specs.Mounted.{IsTreeRead, HasRoomOn};
ghost use Rattle.mounting.specs.Going.{GoesOnBy, HasRoomFor, IsAmiss};

use crate::prune::{are_fitting, has_room};
use crate::tree_on::TreeOn;
use crate::{
    a_shown_tree_has_room_or_not, a_whole_list_shows_a_tree, the_footprint_holds_the_tree,
    the_tree_looks_up_its_footprint, what_the_tree_looks_up_is_committed,
};
use chunk_index::{blocks_without_committed_pages_are_free, the_list_of_a_block_is_whole};
use nand_model::{Geometry, Nand};
use tree_walk::{charge, the_headers_report_the_keys};
use volume_terms::VolumeSizes;

/// The sizes of a volume with so many spare blocks on a device of these sizes, if there may be one.
fn volume_sizes(geometry: Geometry, spare: u16) -> Option<VolumeSizes>
    ensures sizes { IfSome result (λ sizes. volume.sizes_of sizes ≡ sizes_of geometry spare) }
    ensures none { IfNone result (spare + 4 ≤ geometry.blocks → ⊥) }
{
    if u32::from(spare) + 4 > geometry.blocks() {
        return None;
    }
    Some(VolumeSizes::new(
        u64::from(geometry.bytes()),
        u64::from(geometry.pages()),
        u64::from(geometry.blocks()),
        u64::from(spare),
    ))
}

/// Whether the tree fits into the volume.
fn fits<N: Nand>(on: &TreeOn<N>, sizes: VolumeSizes) -> bool
    ensures { (m : PageMap) (objects : Objects) → IsTreeThrough (volume.sizes_of sizes) (has m) on.now.tree → Shows (volume.sizes_of sizes) (has m) objects
        → IsTrue result ↔ HasRoomFor (volume.sizes_of sizes) objects }
{
    charge(&on.tree, sizes) <= sizes.capacity()
}

/// The sizes of the volume that goes on with the tree of a device, if one can.
pub(crate) fn go_on<N: Nand>(on: &TreeOn<N>) -> Option<VolumeSizes>
    requires read { IsTreeRead (N.state on.now.device) (table on.now.blocks) on.now.index (numbers_of on.now.numbers) on.now.spare on.now.tree }
    ensures sizes { IfSome result (λ sizes. volume.sizes_of sizes ≡ sizes_of (N.state on.now.device).geometry on.now.spare) }
    ensures fitting { IfSome result (λ sizes. AreFitting (table on.now.blocks)) }
    ensures room { IfSome result (λ sizes. HasRoomOn (N.state on.now.device) (table on.now.blocks) on.now.spare) }
    ensures tree { (N.state on.now.device).honest ≡ true → IfSome result (λ sizes. GoesOnBy (N.state on.now.device) on.now (volume.sizes_of sizes)) }
    ensures none { (N.state on.now.device).honest ≡ true → IfNone result (IsAmiss (N.state on.now.device)) }
{
    blocks_without_committed_pages_are_free();
    the_list_of_a_block_is_whole();
    a_whole_list_shows_a_tree();
    the_footprint_holds_the_tree();
    a_shown_tree_has_room_or_not();
    the_tree_looks_up_its_footprint();
    what_the_tree_looks_up_is_committed();
    the_headers_report_the_keys();
    let sizes = match volume_sizes(on.device.geometry(), on.spare) {
        Some(sizes) => sizes,
        None => return None,
    };
    if !are_fitting(&on.blocks) {
        return None;
    }
    if !fits(on, sizes) {
        return None;
    }
    if !has_room(&on.device, &on.blocks, on.spare) {
        return None;
    }
    Some(sizes)
}
