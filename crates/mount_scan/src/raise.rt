// The greatest numbers of tags.
ghost use Rattle.std.specs.Prelude.{◌+◌, ◌<◌, length};
ghost use Rattle.flash_tree.specs.Newest.{Numbers};
ghost use Rattle.flash_tree.specs.Places.{numbers_of};
ghost use Rattle.mount_scan.specs.Blocks.{IsRaisedTo, AreRaisedBy};

use flash_tree::TagNumbers;
use page_tags::Tag;

/// The numbers, raised to those of a tag.
pub(crate) fn raised_to(numbers: TagNumbers, tag: &Tag) -> TagNumbers
    ensures { IsRaisedTo tag.now (numbers_of numbers) (numbers_of result) }
{
    TagNumbers {
        version: numbers.version.max(tag.version),
        group: numbers.group.max(tag.group),
        seq: numbers.seq.max(tag.seq),
    }
}

/// The numbers, raised to those of one more tag.
fn raised_at(numbers: TagNumbers, tags: &[Option<Tag>], i: usize) -> TagNumbers
    requires { i < length tags.now }
    ensures { (first : Numbers) → AreRaisedBy tags.now i first (numbers_of numbers) → AreRaisedBy tags.now (i + 1) first (numbers_of result) }
{
    let Some(tag) = tags[i] else {
        return numbers;
    };
    raised_to(numbers, &tag)
}

/// The numbers, raised to those of all tags.
pub(crate) fn raised_by(numbers: TagNumbers, tags: &[Option<Tag>]) -> TagNumbers
    ensures { AreRaisedBy tags.now (length tags.now) (numbers_of numbers) (numbers_of result) }
{
    let mut raised = numbers;
    for i in 0..tags.len() {
        raised = raised_at(raised, tags, i);
    }
    raised
}
