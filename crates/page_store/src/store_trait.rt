// The store as a store of pages that are changed and committed.
use crate::cache::SPARE_AT_REST;
use crate::store::Store;
use chunk_index::{the_counts_add_up_to_the_committed_keys, the_counts_are_of_the_keys};
use nand_model::Nand;
use pages::{Change, Cut, PageStore};
use volume_terms::StoreFault;

impl<N: Nand> PageStore for Store<N> {
    ghost use Rattle.block_state.specs.TableOf.{table};
    ghost use Rattle.page_store.specs.laws.Sound.{lost_alone, few_bad};

    ghost lost = { λ s sound failed. lost_alone (N.state s.log.device).gone (N.state s.log.device).honest s.broken sound failed };

    ghost within_limit = { λ s sound fresh. few_bad (N.state s.log.device) (table s.log.blocks) s.log.spare s.broken s.log.can_write s.within_limit sound };

    fn most_pages(&self) -> u32 {
        self.buffer.most()
    }

    fn apply(&mut self, change: Change) -> Result<(), StoreFault> {
        the_counts_are_of_the_keys();
        the_counts_add_up_to_the_committed_keys();
        self.change(change)
    }

    fn cut(&mut self, cut: Cut) -> Result<(), StoreFault> {
        the_counts_are_of_the_keys();
        self.cut_away(cut)
    }

    fn commit(&mut self) -> Result<(), StoreFault> {
        the_counts_are_of_the_keys();
        the_counts_add_up_to_the_committed_keys();
        self.write_out(SPARE_AT_REST)
    }

    fn refresh(&mut self, block: u32) -> Result<(), StoreFault> {
        the_counts_are_of_the_keys();
        self.refresh_block(block)
    }
}
