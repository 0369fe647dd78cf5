// Where a group is written, and with which numbers.
ghost use Rattle.std.specs.Prelude.{◌≡◌, ◌↔◌, ◌<◌, ◌≤◌, ◌+◌, ◌^◌, ℕ, IfSome, IfNone, IsSome};
ghost use Rattle.volume_terms.specs.Sizes.{number_end};
ghost use Rattle.block_state.specs.Table.{room};
ghost use Rattle.block_state.specs.TableOf.{table};
ghost use Rattle.transactions.specs.Ready.{IsPlaceIn};
ghost use Rattle.transactions.specs.Written.{TableAfter, stays_open};

use crate::group::GroupFault;
use crate::page::LastPage;
use block_state::Blocks;

/// Where a group is written, and its numbers.
#[derive(Clone, Copy, Debug, PartialEq, Eq)]
pub(crate) struct GroupPlace {
    pub block: u32,
    pub first: u32,
    pub count: u32,
    pub group: u64,
    pub seq: u64,
}

/// Takes the next group number for so many pages of the open block, where it has room for them.
pub(crate) fn take_place(blocks: &mut Blocks, count: u32) -> Option<GroupPlace>
    requires not_empty { 1 ≤ count }
    requires number { (table blocks.old).next_group < number_end }
    ensures found { IfSome result (λ place. IsPlaceIn (table blocks.old) count place) }
    ensures taken { IfSome result (λ place. table blocks.new ≡ record (table blocks.old) { next_group = (table blocks.old).next_group + 1 }) }
    ensures none { IfNone result ((room (table blocks.old) < count) × (table blocks.new ≡ table blocks.old)) }
    ensures fits { IsSome result ↔ (count ≤ room (table blocks.old)) }
{
    if blocks.open_room() < count {
        return None;
    }
    let block = blocks.open_block()?;
    let entry = blocks.entry(block);
    Some(GroupPlace {
        block,
        first: entry.next,
        count,
        group: blocks.take_group(),
        seq: entry.seq,
    })
}

/// Notes how the writing of a group ended: its pages are taken, or the block takes no more.
pub(crate) fn note_end(
    blocks: &mut Blocks,
    place: &GroupPlace,
    written: &Result<LastPage, GroupFault>,
)
    requires open { (table blocks.old).open_block ≡ Some place.now.block }
    requires room { place.now.count ≤ room (table blocks.old) }
    ensures { TableAfter place.now.block place.now.count (stays_open written.now) (table blocks.old) (table blocks.new) }
{
    match written {
        Ok(LastPage::Done) => blocks.fill(place.block, place.count),
        Ok(LastPage::Suspect) => blocks.close(),
        Err(_) => blocks.close(),
    }
}
