// The pages that an index keeps, of which some may be lost.
ghost use Rattle.std.specs.Prelude.{◌≡◌, ◌<◌, ℕ, length, true, Some, IfOk, IfErr, OnOk, ◌≤◌, ◌+◌};
ghost use Rattle.nand_model.specs.Changes.{OnlyReads};
ghost use Rattle.chunk_index.specs.Maps.{committed_pages};
ghost use Rattle.chunk_index.specs.declared.form.CommittedPage.{CommittedPage};
ghost use Rattle.mounting.specs.Candidates.{candidates, read_on};
ghost use Rattle.mounting.specs.Lending.{LieWithin};

use chunk_index::{CommittedPage, Index};
use flash_tree::Key;
use nand_model::{Nand, PageKind};
use pages::{Pages, Presence, has_power};
use std::alloc::{AllocError, Global};
use volume_terms::StoreFault;

/// Reads the page that is committed there. One that is not written reads as zeros.
fn read_or_zeros<N: Nand>(
    device: &mut N,
    at: CommittedPage,
    page: &mut [u8],
) -> Result<(), StoreFault>
    requires block { at.block < (N.state device.old).geometry.blocks }
    requires page { at.page < (N.state device.old).geometry.pages }
    requires size { length page.old ≡ (N.state device.old).geometry.bytes }
    ensures reads { OnlyReads (N.state device.old) (N.state device.new) }
    ensures issued { (N.state device.new).reads ≤ (N.state device.old).reads + 1 }
    ensures power { OnOk result ((N.state device.new).gone ≡ (N.state device.old).gone) }
    ensures size { length page.new ≡ length page.old }
    ensures bytes { (N.state device.old).honest ≡ true → OnOk result (page.new ≡ read_on (N.state device.old) at) }
    ensures fault { IfErr result (λ fault. (fault ≡ StoreFault.Device) × ((N.state device.new).gone ≡ true)) }
{
    match device.read_data(at.block, at.page, page) {
        Ok(PageKind::Written) => Ok(()),
        Ok(PageKind::Erased) => {
            page.fill(0);
            Ok(())
        }
        Ok(PageKind::Uncorrectable) => {
            page.fill(0);
            Ok(())
        }
        Err(_) => Err(StoreFault::Device),
    }
}

/// The pages that an index keeps on a device, which are read and not changed, over an index that is lent. A place whose page was
/// lost reads as zeros, which are neither a header nor a slot.
#[derive(Drop)]
pub(crate) struct CandidatePages<'a, N: Nand> {
    pub(crate) device: N,
    pub(crate) index: &'a Index,
    // The page that was found last.
    pub(crate) page: Vec<u8>,
    ghost size: { length page.items ≡ (N.state device).geometry.bytes },
    ghost lie: { LieWithin (N.state device) index.now },
}

impl<'a, N: Nand> CandidatePages<'a, N> {
    /// The pages that an index keeps on a device. Where memory is refused the device is given back.
    pub(crate) fn new(
        alloc: Global,
        device: N,
        index: &'a Index,
    ) -> Result<CandidatePages<'a, N>, (N, AllocError)>
        requires { LieWithin (N.state device) index.now }
        ensures device { IfOk result (λ pages. N.state pages.device ≡ N.state device) }
        ensures index { IfOk result (λ pages. pages.index.now ≡ index.now) }
        ensures given_back { IfErr result (λ back. N.state back.0 ≡ N.state device) }
    {
        match vec![in alloc; 0u8; device.geometry().bytes() as usize] {
            Ok(page) => Ok(CandidatePages {
                device,
                index,
                page,
            }),
            Err(refused) => Err((device, refused)),
        }
    }

    /// The device, as it is.
    pub(crate) fn into_device(self) -> N
        ensures { N.state result ≡ N.state self.entry.device }
    {
        self.device
    }

    /// Reads the page that is committed there.
    fn read(&mut self, at: CommittedPage) -> Result<Presence, StoreFault>
        requires { (o : ℕ) × (c : ℕ) × (committed_pages self.old.index.now o c ≡ Some at) }
        ensures reads { OnlyReads (N.state self.old.device) (N.state self.new.device) }
        ensures index { self.new.index.now ≡ self.old.index.now }
        ensures issued { (N.state self.new.device).reads ≤ (N.state self.old.device).reads + 1 }
        ensures power { OnOk result ((N.state self.new.device).gone ≡ (N.state self.old.device).gone) }
        ensures there { IfOk result (λ presence. presence ≡ Presence.Present) }
        ensures page { (N.state self.old.device).honest ≡ true
            → OnOk result (self.new.page.items ≡ read_on (N.state self.old.device) at) }
        ensures fault { IfErr result (λ fault. (fault ≡ StoreFault.Device) × ((N.state self.new.device).gone ≡ true)) }
    {
        read_or_zeros(&mut self.device, at, &mut self.page)?;
        Ok(Presence::Present)
    }
}

impl<N: Nand> Pages for CandidatePages<'_, N> {
    ghost state = { λ s. candidates (N.state s.device) s.index.now s.page.items };

    ghost sized = { λ s. ((N.state s.device).geometry.least_bytes, (N.state s.device).geometry.most_bytes) };

    fn page_bytes(&self) -> u32 {
        self.device.geometry().bytes()
    }

    fn find(&mut self, key: Key) -> Result<Presence, StoreFault> {
        match self.index.committed(key) {
            Some(at) => self.read(at),
            None => Ok(Presence::Absent),
        }
    }

    fn has(&self, key: Key) -> bool {
        self.index.committed(key).is_some()
    }

    fn has_power(&mut self) -> bool {
        has_power(&mut self.device)
    }

    fn page(&self) -> &[u8] {
        &self.page
    }

    fn take_frame(&mut self) -> Option<Vec<u8>> {
        None
    }

    fn return_frame(&mut self, frame: Vec<u8>) {
        let _frame = frame;
    }
}
