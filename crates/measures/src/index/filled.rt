// An index with the blocks that it counts in.
ghost use Rattle.std.specs.Prelude.{◌≡◌, ◌<◌, ◌≤◌, ◌^◌, ℕ};
ghost use Rattle.block_state.specs.TableOf.{table};
ghost use Rattle.chunk_index.specs.Maps.{present, CountsAgree};
ghost use Rattle.chunk_index.specs.declared.form.Present.TheVariants as presents;

use block_state::Blocks;
use chunk_index::{Form, Index, WrittenGroup};
use flash_tree::Key;
use nand_model::Geometry;
use std::alloc::{AllocError, Global};

/// An index whose buffer has at most 64 pages, with the blocks that it counts in, each of 256 pages.
#[derive(Drop)]
pub struct Filled {
    index: Index,
    blocks: Blocks,
    ghost agree: { CountsAgree (table blocks) index },
    ghost within_limit: { (o c i : ℕ) → present index o c ≡ presents.InBuffer i → i < 64 },
    ghost pages: { (table blocks).geometry.pages ≡ 256 },
}

impl Filled {
    /// No page is committed. There is none where the number of blocks is out of range.
    pub fn new(alloc: Global, blocks: u32) -> Result<Option<Filled>, AllocError> {
        let Ok(geometry) = Geometry::new(512, 256, blocks) else {
            return Ok(None);
        };
        let blocks = Blocks::new(alloc, geometry)?;
        Ok(Some(Filled {
            index: Index::new(alloc),
            blocks,
        }))
    }

    /// A page of the buffer is the present one of a key.
    pub fn buffer(&mut self, key: Key, page: u32) -> Result<(), AllocError>
        requires low { key.chunk < 2 ^ 32 }
        requires page { page < 64 }
    {
        self.index.prepare(key)?;
        self.index.place(key, Form::Buffered(page));
        Ok(())
    }

    /// The buffer was written from a page of a block on.
    pub fn settle(&mut self, block: u32, first: u32, number: u64)
        requires { first ≤ 192 }
    {
        if block < self.blocks.geometry().blocks() {
            let group = WrittenGroup {
                block,
                first,
                number,
            };
            self.index.settle_group(group, &mut self.blocks);
        }
    }
}
