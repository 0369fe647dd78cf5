// What reads and writes at an offset leave, by the profile's steps: each law by a function that does nothing.
ghost use Rattle.flash_c.specs.laws.Placed.{ReadsInPlace, WritesInPlace};

/// A seek to an offset, a read and a seek back read the bytes there and leave the state.
pub fn a_read_at_an_offset_leaves_the_state()
    ensures { ReadsInPlace }
{}

/// A seek to an offset, a write and a seek back leave the state but for the bytes there and the file's moment.
pub fn a_write_at_an_offset_leaves_the_descriptors()
    ensures { WritesInPlace }
{}
