// The tag of a page.

ghost use Rattle.std.specs.Prelude.{◌≡◌, ◌≢◌, ◌<◌, ◌≤◌, ◌^◌, IfSome, IfNone, IsTrue, ◌↔◌};
ghost use Rattle.page_tags.specs.Tags.{IsTag, tag_bytes, tag_in};
ghost use Rattle.page_tags.specs.declared.tag.Tag.{Tag};

use crate::numbers::{u32_at, u64_at};
use byteorder::{ByteOrder, LittleEndian};

/// What is written beside a page: the page's place in its group of `count` pages, from 0 up, the object and the
/// chunk that it is, and the numbers that order it among others.
#[derive(Clone, Copy, Debug, PartialEq, Eq)]
pub struct Tag {
    pub index: u32,
    pub count: u32,
    pub object: u64,
    pub chunk: u64,
    pub version: u64,
    pub group: u64,
    pub seq: u64,
}

impl Tag {
    /// The 48 bytes, each number with its lowest byte first.
    #[tactic(auto, unfolding(crate::specs::Tags::tag_bytes))]
    pub fn encode(&self) -> [u8; 48]
        ensures { result ≡ tag_bytes self.now }
    {
        let mut out = [0; 48];
        LittleEndian::write_u32(&mut out, self.index);
        LittleEndian::write_u32(&mut out[4..], self.count);
        LittleEndian::write_u64(&mut out[8..], self.object);
        LittleEndian::write_u64(&mut out[16..], self.chunk);
        LittleEndian::write_u64(&mut out[24..], self.version);
        LittleEndian::write_u64(&mut out[32..], self.group);
        LittleEndian::write_u64(&mut out[40..], self.seq);
        out
    }

    fn read(bytes: &[u8; 48]) -> Tag
        ensures { result ≡ tag_in bytes.now }
    {
        Tag {
            index: u32_at(bytes, 0),
            count: u32_at(bytes, 4),
            object: u64_at(bytes, 8),
            chunk: u64_at(bytes, 16),
            version: u64_at(bytes, 24),
            group: u64_at(bytes, 32),
            seq: u64_at(bytes, 40),
        }
    }

    fn is_valid(self) -> bool
        ensures { IsTrue result ↔ IsTag self }
    {
        self.count >= 1
            && self.count <= 256
            && self.index < self.count
            && self.object >= 1
            && self.version >= 1
            && self.version <= self.group
            && self.seq >= 1
    }

    /// The tag that these bytes are, if they are one.
    pub fn decode(bytes: &[u8; 48]) -> Option<Tag>
        ensures found { IfSome result (λ t. IsTag t × (bytes.now ≡ tag_bytes t)) }
        ensures none { IfNone result ((t : Tag) → IsTag t → bytes.now ≢ tag_bytes t) }
    {
        let tag = Tag::read(bytes);
        if tag.is_valid() { Some(tag) } else { None }
    }
}
