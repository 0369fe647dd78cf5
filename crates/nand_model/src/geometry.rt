// The sizes of a device.
ghost use Rattle.std.specs.Prelude.{◌≡◌, ◌≤◌, ◌↔◌, IsTrue, IfOk, OnErr};
ghost use Rattle.nand_model.specs.Size.{IsSize};

/// A number is outside of what a device may have.
#[derive(Clone, Copy, Debug, PartialEq, Eq)]
pub struct BadGeometry;

/// The bytes of a page, the pages of a block and the blocks.
#[derive(Clone, Copy, Debug, PartialEq, Eq)]
pub struct Geometry {
    bytes: u32,
    pages: u32,
    blocks: u32,
    ghost least_bytes: { 512 ≤ bytes },
    ghost most_bytes: { bytes ≤ 4096 },
    ghost least_pages: { 32 ≤ pages },
    ghost most_pages: { pages ≤ 256 },
    ghost least_blocks: { 5 ≤ blocks },
    ghost most_blocks: { blocks ≤ 4096 },
    ghost sizes: { ∥ IsSize bytes pages blocks ∥₁ },
}

impl Geometry {
    /// 512, 1,024, 2,048 or 4,096 bytes of a page, 32, 64, 128 or 256 pages of a block, 5 to 4,096 blocks.
    pub fn new(bytes: u32, pages: u32, blocks: u32) -> Result<Geometry, BadGeometry>
        ensures ok { IfOk result (λ g. (g.bytes ≡ bytes) × (g.pages ≡ pages) × (g.blocks ≡ blocks) × IsSize bytes pages blocks) }
        ensures err { OnErr result (¬ IsSize bytes pages blocks) }
    {
        if !is_size(bytes, pages, blocks) {
            return Err(BadGeometry);
        }
        Ok(Geometry {
            bytes,
            pages,
            blocks,
        })
    }

    /// The bytes of data of a page.
    pub fn bytes(&self) -> u32
        ensures { result ≡ self.now.bytes }
    {
        self.bytes
    }

    /// The pages of a block.
    pub fn pages(&self) -> u32
        ensures { result ≡ self.now.pages }
    {
        self.pages
    }

    pub fn blocks(&self) -> u32
        ensures { result ≡ self.now.blocks }
    {
        self.blocks
    }
}

fn is_size(bytes: u32, pages: u32, blocks: u32) -> bool
    ensures { IsTrue result ↔ IsSize bytes pages blocks }
{
    matches!(bytes, 512 | 1024 | 2048 | 4096)
        && matches!(pages, 32 | 64 | 128 | 256)
        && blocks >= 5
        && blocks <= 4096
}
