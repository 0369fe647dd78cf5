// Pages of a worn device, which are read and not changed.
ghost use Rattle.std.specs.Prelude.{◌≡◌, ◌≤◌, true, false, OnOk, IfErr};
ghost use Rattle.flash_tree.specs.Places.{numbers_of};
ghost use Rattle.page_store.specs.Newest.{seen_pages};
ghost use Rattle.page_store.specs.NewestParts.{device_of, index_of, page_of};
ghost use Rattle.volume_terms.specs.declared.fault.StoreFault.TheVariants as faults;
ghost use Rattle.page_store.specs.ReadOnly.{IsWorn, HasGreatest, IsCarrying, only_read};
ghost use Rattle.page_store.specs.laws.ReadOnlyProof.{carrying_prop};

use crate::NewestPages;
use flash_tree::{Key, TagNumbers};
use nand_model::Nand;
use pages::{Change, Cut, PageStore, Pages, Presence};
use volume_terms::StoreFault;

/// The newest pages of a volume that is only read, since its device is worn out. A commit has nothing to do; a change is
/// refused.
#[derive(Drop)]
pub struct ReadOnlyPages<N: Nand> {
    pages: NewestPages<N>,
    // The greatest numbers that are on the device.
    greatest: TagNumbers,
    // How many blocks may be bad.
    spare: u32,
    // How many pages a change may have.
    most: u32,
    // The block that may have a checkpoint.
    checkpoint: Option<u32>,
    // Whether a change was refused, so that the pages are not what its caller meant any more.
    refused_change: bool,
    ghost worn: { IsWorn (N.state (device_of pages)) (numbers_of greatest) spare },
    ghost numbers: { HasGreatest (N.state (device_of pages)) (numbers_of greatest) },
    ghost carrying: { IsCarrying (seen_pages (N.state (device_of pages)) (index_of pages) (page_of pages)) } by { carrying_prop (seen_pages (N.state (device_of pages)) (index_of pages) (page_of pages)) },
}

impl<N: Nand> ReadOnlyPages<N> {
    /// These pages of a device whose greatest numbers these are, with so many blocks to spare, and the block that may have a
    /// checkpoint. A change that is refused has at most so many pages.
    pub fn new(
        pages: NewestPages<N>,
        greatest: TagNumbers,
        spare: u32,
        most: u32,
        checkpoint: Option<u32>,
    ) -> ReadOnlyPages<N>
        requires worn { IsWorn (⟦<NewestPages<N> as Pages>⟧.state pages).device (numbers_of greatest) spare }
        requires numbers { HasGreatest (⟦<NewestPages<N> as Pages>⟧.state pages).device (numbers_of greatest) }
        requires carrying { IsCarrying (⟦<NewestPages<N> as Pages>⟧.state pages) }
        ensures pages { result.pages ≡ pages }
        ensures state { ⟦<ReadOnlyPages<N> as Pages>⟧.state result ≡ only_read (record (⟦<NewestPages<N> as Pages>⟧.state pages) { checkpoint = checkpoint }) (numbers_of greatest) spare most false }
    {
        ReadOnlyPages {
            pages,
            greatest,
            spare,
            most,
            checkpoint,
            refused_change: false,
        }
    }

    /// Refuses a commit where a change was refused, since the pages are not what is to be committed.
    fn check_unchanged(&self) -> Result<(), StoreFault>
        ensures whole { OnOk result (self.now.refused_change ≡ false) }
        ensures fault { IfErr result (λ fault. (fault ≡ faults.Worn) × (self.now.refused_change ≡ true)) }
    {
        if self.refused_change {
            return Err(StoreFault::Worn);
        }
        Ok(())
    }

    /// The device, as it is.
    pub fn into_device(self) -> N
        ensures { result ≡ device_of self.pages }
    {
        let (device, _index) = self.pages.into_parts();
        device
    }
}

impl<N: Nand> Pages for ReadOnlyPages<N> {
    ghost state = { λ s. only_read (record (⟦<NewestPages<N> as Pages>⟧.state s.pages) { checkpoint = s.checkpoint }) (numbers_of s.greatest) s.spare s.most s.refused_change };

    ghost sized = { λ s. ((⟦<NewestPages<N> as Pages>⟧.state s.pages).device.geometry.least_bytes, (⟦<NewestPages<N> as Pages>⟧.state s.pages).device.geometry.most_bytes) };

    fn page_bytes(&self) -> u32 {
        self.pages.page_bytes()
    }

    fn find(&mut self, key: Key) -> Result<Presence, StoreFault> {
        self.pages.find(key)
    }

    fn has(&self, key: Key) -> bool {
        self.pages.has(key)
    }

    fn has_power(&mut self) -> bool {
        self.pages.has_power()
    }

    fn page(&self) -> &[u8] {
        self.pages.page()
    }

    fn take_frame(&mut self) -> Option<Vec<u8>> {
        self.pages.take_frame()
    }

    fn return_frame(&mut self, frame: Vec<u8>) {
        self.pages.return_frame(frame)
    }
}

impl<N: Nand> PageStore for ReadOnlyPages<N> {
    ghost use Rattle.page_store.specs.laws.ReadOnlySound.{lost_reading, only_worn};

    ghost lost = { λ s sound failed. lost_reading (⟦<NewestPages<N> as Pages>⟧.state s.pages).device.gone (⟦<NewestPages<N> as Pages>⟧.state s.pages).device.honest s.refused_change sound failed };

    ghost within_limit = { λ s sound fresh. only_worn _ _ fresh };

    fn most_pages(&self) -> u32 {
        self.most
    }

    fn apply(&mut self, _change: Change) -> Result<(), StoreFault> {
        self.refused_change = true;
        Err(StoreFault::Worn)
    }

    fn cut(&mut self, _cut: Cut) -> Result<(), StoreFault> {
        self.refused_change = true;
        Err(StoreFault::Worn)
    }

    fn commit(&mut self) -> Result<(), StoreFault> {
        self.check_unchanged()?;
        Ok(())
    }

    fn refresh(&mut self, _block: u32) -> Result<(), StoreFault> {
        self.refused_change = true;
        Err(StoreFault::Worn)
    }
}
