// The cut of a store's pages.
ghost use Rattle.std.specs.Prelude.{◌≡◌, ◌≤◌, true, false, OnOk, IfErr, ◌∷◌, []};
ghost use Rattle.pages.specs.Maps.{without_cuts};
ghost use Rattle.pages.specs.Stores.{SamePages};
ghost use Rattle.page_store.specs.Caching.{KeepsUncut};
ghost use Rattle.page_store.specs.Changing.{SameBeside};
ghost use Rattle.page_store.specs.StoreState.{committed_in, current_in, waiting};
ghost use Rattle.page_store.specs.StateOf.{state_of};
ghost use Rattle.volume_terms.specs.declared.fault.StoreFault.TheVariants as faults;

use crate::caching::drop_cuts;
use crate::store::{Found, Store};
use nand_model::Nand;
use pages::Cut;
use volume_terms::StoreFault;

impl<N: Nand> Store<N> {
    /// Cuts pages of an object, so that none of them is present. What is committed stays. It makes no call of the device and takes
    /// no memory.
    pub fn cut_away(&mut self, cut: Cut) -> Result<(), StoreFault>
        ensures same { SameBeside (state_of self.old) (state_of self.new) }
        ensures committed_map { SamePages (committed_in (state_of self.new)) (committed_in (state_of self.old)) }
        ensures current { (N.state self.old.log.device).honest ≡ true → OnOk result (SamePages (current_in (state_of self.new)) (without_cuts (cut ∷ []) (current_in (state_of self.old)))) }
        ensures fewer { waiting (state_of self.new) ≤ waiting (state_of self.old) }
        // What is not cut stays in the cache.
        ensures cached { KeepsUncut (cut ∷ []) self.old.cache self.new.cache }
        ensures whole { OnOk result (self.old.broken ≡ false) }
        ensures fault { IfErr result (λ fault. (fault ≡ faults.Device) × (self.old.broken ≡ true)) }
    {
        if self.broken {
            return Err(StoreFault::Device);
        }
        let cuts = [cut];
        self.found = Found::Nowhere;
        drop_cuts(&mut self.cache, &cuts);
        self.buffer.cut_all(&mut self.log.index, &cuts);
        Ok(())
    }
}
