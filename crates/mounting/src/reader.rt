// The newest pages of a device, over an index that stays.
ghost use Rattle.std.specs.Prelude.{◌≡◌, ◌<◌, ◌&&◌, Bool, length, true, Some, IfOk, IfErr, OnOk, ◌≤◌, ◌+◌, ◌⊎◌};
ghost use Rattle.nand_model.specs.Changes.{OnlyReads};
ghost use Rattle.chunk_index.specs.Maps.{committed_pages};
ghost use Rattle.chunk_index.specs.declared.form.CommittedPage.{CommittedPage};
ghost use Rattle.page_store.specs.Shown.{data_at};
ghost use Rattle.mounting.specs.Lending.{LieWithin, TrustsCommitted, lent, IsNotReadAt};
ghost use Rattle.mounting.specs.laws.OneProof.{trusts_prop};

use crate::tagged::read_tagged;
use chunk_index::{CommittedPage, Index};
use flash_tree::Key;
use nand_model::{Nand, Trust};
use pages::{Pages, Presence, has_power};
use std::alloc::{AllocError, Global};
use volume_terms::StoreFault;

/// The committed pages of a device, which are read and not changed, over an index that is lent. They are known where the index is
/// trusted.
#[derive(Drop)]
pub(crate) struct LentPages<'a, N: Nand> {
    pub(crate) device: N,
    pub(crate) index: &'a Index,
    // The page that was found last.
    pub(crate) page: Vec<u8>,
    pub(crate) trust: Trust,
    ghost size: { length page.items ≡ (N.state device).geometry.bytes },
    ghost lie: { LieWithin (N.state device) index.now },
    ghost committed: { TrustsCommitted (N.state device) trust.reported index.now } by { trusts_prop (N.state device) trust.reported index.now },
}

impl<'a, N: Nand> LentPages<'a, N> {
    /// The pages that an index keeps on a device. Where memory is refused the device is given back.
    pub(crate) fn new(
        alloc: Global,
        device: N,
        index: &'a Index,
    ) -> Result<LentPages<'a, N>, (N, AllocError)>
        ghost reported: { Bool }
        requires lie { LieWithin (N.state device) index.now }
        requires committed { TrustsCommitted (N.state device) reported index.now }
        ensures device { IfOk result (λ pages. N.state pages.device ≡ N.state device) }
        ensures index { IfOk result (λ pages. pages.index.now ≡ index.now) }
        ensures trust { IfOk result (λ pages. pages.trust.reported ≡ reported) }
        ensures given_back { IfErr result (λ back. N.state back.0 ≡ N.state device) }
    {
        match vec![in alloc; 0u8; device.geometry().bytes() as usize] {
            Ok(page) => Ok(LentPages {
                device,
                index,
                page,
                trust: Trust::as_reported(),
            }),
            Err(refused) => Err((device, refused)),
        }
    }

    /// The device, as it is.
    pub(crate) fn into_device(self) -> N
        ensures { N.state result ≡ N.state self.entry.device }
    {
        self.device
    }

    /// Reads the page of a key that is committed there.
    fn read(&mut self, key: Key, at: CommittedPage) -> Result<Presence, StoreFault>
        requires { committed_pages self.old.index.now key.object key.chunk ≡ Some at }
        ensures reads { OnlyReads (N.state self.old.device) (N.state self.new.device) }
        ensures index { self.new.index.now ≡ self.old.index.now }
        ensures trust { self.new.trust.reported ≡ self.old.trust.reported }
        ensures issued { (N.state self.new.device).reads ≤ (N.state self.old.device).reads + 1 }
        ensures power { OnOk result ((N.state self.new.device).gone ≡ (N.state self.old.device).gone) }
        ensures there { IfOk result (λ presence. presence ≡ Presence.Present) }
        ensures page { (N.state self.old.device).honest ≡ true → OnOk result (data_at (N.state self.old.device).flash at ≡ Some self.new.page.items) }
        ensures fault { IfErr result (IsNotReadAt (N.state self.old.device) (N.state self.new.device) key at) }
    {
        read_tagged(&mut self.device, key, at, &mut self.page)?;
        Ok(Presence::Present)
    }
}

impl<N: Nand> Pages for LentPages<'_, N> {
    ghost state = { λ s. lent s.trust.reported (N.state s.device) s.index.now s.page.items };

    ghost sized = { λ s. ((N.state s.device).geometry.least_bytes, (N.state s.device).geometry.most_bytes) };

    fn page_bytes(&self) -> u32 {
        self.device.geometry().bytes()
    }

    fn find(&mut self, key: Key) -> Result<Presence, StoreFault> {
        match self.index.committed(key) {
            Some(at) => self.read(key, at),
            None => Ok(Presence::Absent),
        }
    }

    fn has(&self, key: Key) -> bool {
        self.index.committed(key).is_some()
    }

    fn has_power(&mut self) -> bool {
        has_power(&mut self.device)
    }

    fn page(&self) -> &[u8] {
        &self.page
    }

    fn take_frame(&mut self) -> Option<Vec<u8>> {
        None
    }

    fn return_frame(&mut self, frame: Vec<u8>) {
        let _frame = frame;
    }
}
