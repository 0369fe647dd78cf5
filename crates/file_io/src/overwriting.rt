// Bytes over a part of a page or of a buffer.
ghost use Rattle.std.specs.Prelude.{◌≡◌, ◌≤◌, ◌+◌, length, replicate};
ghost use Rattle.file_io.specs.Chunks.{overwritten};

/// Writes bytes over a part of a buffer.
pub(crate) fn overwrite(buffer: &mut [u8], at: usize, bytes: &[u8])
    requires { at + length bytes.now ≤ length buffer.old }
    ensures size { length buffer.new ≡ length buffer.old }
    ensures bytes { buffer.new ≡ overwritten buffer.old at bytes.now }
{
    buffer[at..at + bytes.len()].copy_from_slice(bytes);
}

/// Writes so many zeros over a part of a buffer.
pub(crate) fn clear(buffer: &mut [u8], at: usize, count: usize)
    requires { at + count ≤ length buffer.old }
    ensures size { length buffer.new ≡ length buffer.old }
    ensures zeros { buffer.new ≡ overwritten buffer.old at (replicate count 0) }
{
    buffer[at..at + count].fill(0);
}
