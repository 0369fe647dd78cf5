// What was read of the header of a file.
ghost use Rattle.std.specs.Prelude.{◌≡◌};
ghost use Rattle.file_io.specs.HeadPages.{HasStart};

/// What the header of a file says: its length and the moment of its last change; and its page, which has the presence bits
/// of its chunks.
#[derive(Drop)]
pub(crate) struct FileHead {
    pub length: u64,
    pub moment: u64,
    pub page: Vec<u8>,
    ghost start: { HasStart page.items },
}

impl FileHead {
    ghost use Rattle.file_io.specs.Heads.{bits_in};

    /// The presence bits.
    pub(crate) fn bits(&self) -> &[u8]
        ensures { result.now ≡ bits_in self.now }
    {
        &self.page[32..]
    }
}
