// The head of a block summary.
ghost use Rattle.std.specs.Prelude.{◌≡◌, ◌≢◌, IfSome, IfNone, length};
ghost use Rattle.page_tags.specs.Summaries.{IsHead, head_bytes};
ghost use Rattle.page_tags.specs.declared.summary_head.SummaryHead.{SummaryHead};

use crate::numbers::{u32_at, u64_at};
use byteorder::{ByteOrder, LittleEndian};

/// Which block is summarized, as it was allocated, and how many of its pages are listed.
#[derive(Clone, Copy, Debug, PartialEq, Eq)]
pub struct SummaryHead {
    pub block: u32,
    pub entries: u32,
    /// The number that the block was allocated with.
    pub seq: u64,
}

// The bytes of a head.
#[tactic(auto, unfolding(crate::specs::Summaries::head_bytes))]
fn bytes_of(head: &SummaryHead) -> [u8; 32]
    ensures { result ≡ head_bytes head.now }
{
    let mut bytes = [0; 32];
    bytes[..4].copy_from_slice(b"NLFB");
    bytes[4] = 1;
    LittleEndian::write_u32(&mut bytes[8..], head.block);
    LittleEndian::write_u32(&mut bytes[12..], head.entries);
    LittleEndian::write_u64(&mut bytes[16..], head.seq);
    bytes
}

/// Writes a head over 32 bytes.
pub fn encode_summary_head(head: &SummaryHead, bytes: &mut [u8])
    requires { length bytes.old ≡ 32 }
    ensures { bytes.new ≡ head_bytes head.now }
{
    bytes.copy_from_slice(&bytes_of(head));
}

/// The head that these 32 bytes are, if they are one.
pub fn decode_summary_head(bytes: &[u8]) -> Option<SummaryHead>
    requires { length bytes.now ≡ 32 }
    ensures found { IfSome result (λ head. bytes.now ≡ head_bytes head) }
    ensures valid { IfSome result IsHead }
    ensures none { IfNone result ((head : SummaryHead) → IsHead head → bytes.now ≢ head_bytes head) }
{
    let head = SummaryHead {
        block: u32_at(bytes, 8),
        entries: u32_at(bytes, 12),
        seq: u64_at(bytes, 16),
    };
    if bytes == &bytes_of(&head)[..] {
        Some(head)
    } else {
        None
    }
}
