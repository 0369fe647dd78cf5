// The hash of a name.
ghost use Rattle.std.specs.Prelude.{◌≡◌};
ghost use Rattle.name_index.specs.Hashes.{fnv1a};

/// What the hash of no byte is.
const OFFSET_BASIS: u32 = 2_166_136_261;

/// What each byte multiplies the hash by.
const PRIME: u32 = 16_777_619;

/// The hash of a name: FNV-1a of 32 bits over its bytes.
pub fn name_hash(name: &[u8]) -> u32
    ensures { result ≡ fnv1a name.now }
{
    let mut hash = OFFSET_BASIS;
    for byte in name {
        hash = (hash ^ u32::from(*byte)).wrapping_mul(PRIME);
    }
    hash
}
