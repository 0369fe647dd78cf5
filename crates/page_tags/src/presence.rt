// The presence bits of a file's chunks.

ghost use Rattle.std.specs.Prelude.{◌≡◌, ◌≢◌, ◌≤◌, ◌*◌, ℕ, length};
ghost use Rattle.page_tags.specs.Headers.{is_present};

/// Whether the chunk, from 1 up, is present. Past the end of the bits none is.
pub fn is_present(bits: &[u8], chunk: u64) -> bool
    requires { 1 ≤ chunk }
    ensures { result ≡ is_present bits.now chunk }
{
    let place = chunk - 1;
    match bits.get((place / 8) as usize) {
        Some(byte) => byte >> (place % 8) & 1 == 1,
        None => false,
    }
}

/// Marks the chunk, from 1 up, as present or not.
pub fn set_present(bits: &mut [u8], chunk: u64, present: bool)
    requires not_first { 1 ≤ chunk }
    requires within { chunk ≤ 8 * length bits.old }
    ensures here { is_present bits.new chunk ≡ present }
    ensures others { (c : ℕ) → 1 ≤ c → c ≢ chunk → is_present bits.new c ≡ is_present bits.old c }
{
    let place = chunk - 1;
    let byte = (place / 8) as usize;
    let mask = 1 << (place % 8);
    if present {
        bits[byte] |= mask;
    } else {
        bits[byte] &= !mask;
    }
}
