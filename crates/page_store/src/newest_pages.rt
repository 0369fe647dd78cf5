// The newest pages, to be read.
ghost use Rattle.std.specs.Prelude.{◌≡◌, ◌<◌, ℕ, length, true, false, Some, IsSome, IfOk, IfErr, OnOk, ◌≤◌, ◌+◌, ◌⊎◌, None};
ghost use Rattle.nand_model.specs.Changes.{OnlyReads};
ghost use Rattle.block_state.specs.TableOf.{table};
ghost use Rattle.chunk_index.specs.Maps.{committed_pages};
ghost use Rattle.chunk_index.specs.declared.form.CommittedPage.{CommittedPage};
ghost use Rattle.page_store.specs.Shown.{data_at};

use crate::read_committed;
use chunk_index::{CommittedPage, Index};
use flash_tree::Key;
use nand_model::Nand;
use pages::{Pages, Presence, has_power};
use std::alloc::{AllocError, Global};
use volume_terms::StoreFault;

/// The committed pages of a device, which are read and not changed: no cache, and no buffer.
#[derive(Drop)]
pub struct NewestPages<N: Nand> {
    device: N,
    index: Index,
    // The page that was found last.
    page: Vec<u8>,
    ghost size: { length page.items ≡ (N.state device).geometry.bytes },
    ghost lie: { (o c : ℕ) (k : CommittedPage) → committed_pages index o c ≡ Some k → (k.block < (N.state device).geometry.blocks) × (k.page < (N.state device).geometry.pages) },
    ghost written: { (N.state device).honest ≡ true → (o c : ℕ) (k : CommittedPage) → committed_pages index o c ≡ Some k → IsSome (data_at (N.state device).flash k) },
}

impl<N: Nand> NewestPages<N> {
    ghost use Rattle.page_store.specs.NewestParts.{device_of, index_of};

    /// The pages that an index keeps on a device. Where memory is refused the device is given back.
    pub fn new(alloc: Global, device: N, index: Index) -> Result<NewestPages<N>, (N, AllocError)>
        requires lie { (o c : ℕ) (k : CommittedPage) → committed_pages index o c ≡ Some k → (k.block < (N.state device).geometry.blocks) × (k.page < (N.state device).geometry.pages) }
        requires written { (N.state device).honest ≡ true → (o c : ℕ) (k : CommittedPage) → committed_pages index o c ≡ Some k → IsSome (data_at (N.state device).flash k) }
        ensures device { IfOk result (λ pages. device_of pages ≡ device) }
        ensures index { IfOk result (λ pages. index_of pages ≡ index) }
        ensures given_back { IfErr result (λ back. back.0 ≡ device) }
    {
        match vec![in alloc; 0u8; device.geometry().bytes() as usize] {
            Ok(page) => Ok(NewestPages {
                device,
                index,
                page,
            }),
            Err(refused) => Err((device, refused)),
        }
    }

    /// The device and the index, as they are.
    pub fn into_parts(self) -> (N, Index)
        ensures device { result.0 ≡ device_of self }
        ensures index { result.1 ≡ index_of self }
    {
        let NewestPages { device, index, .. } = self;
        (device, index)
    }

    /// Reads the page that is committed there.
    fn read(&mut self, at: CommittedPage) -> Result<Presence, StoreFault>
        requires { (o : ℕ) × (c : ℕ) × (committed_pages self.old.index o c ≡ Some at) }
        ensures reads { OnlyReads (N.state self.old.device) (N.state self.new.device) }
        ensures index { self.new.index ≡ self.old.index }
        ensures issued { (N.state self.new.device).reads ≤ (N.state self.old.device).reads + 1 }
        ensures power { OnOk result ((N.state self.new.device).gone ≡ (N.state self.old.device).gone) }
        ensures there { IfOk result (λ presence. presence ≡ Presence.Present) }
        ensures page { (N.state self.old.device).honest ≡ true → OnOk result (data_at (N.state self.old.device).flash at ≡ Some self.new.page.items) }
        ensures fault { IfErr result (λ fault. (fault ≡ StoreFault.Device) × (((N.state self.new.device).gone ≡ true) ⊎ ((N.state self.old.device).honest ≡ true → data_at (N.state self.old.device).flash at ≡ None))) }
    {
        read_committed(&mut self.device, at, &mut self.page)?;
        Ok(Presence::Present)
    }
}

impl<N: Nand> Pages for NewestPages<N> {
    ghost use Rattle.page_store.specs.PagesOf.{newest_pages};

    ghost state = { newest_pages };

    ghost sized = { λ s. ((N.state s.device).geometry.least_bytes, (N.state s.device).geometry.most_bytes) };

    fn page_bytes(&self) -> u32 {
        self.device.geometry().bytes()
    }

    fn find(&mut self, key: Key) -> Result<Presence, StoreFault> {
        match self.index.committed(key) {
            Some(at) => self.read(at),
            None => Ok(Presence::Absent),
        }
    }

    fn has(&self, key: Key) -> bool {
        self.index.committed(key).is_some()
    }

    fn has_power(&mut self) -> bool {
        has_power(&mut self.device)
    }

    fn page(&self) -> &[u8] {
        &self.page
    }

    fn take_frame(&mut self) -> Option<Vec<u8>> {
        None
    }

    fn return_frame(&mut self, frame: Vec<u8>) {
        let _frame = frame;
    }
}
