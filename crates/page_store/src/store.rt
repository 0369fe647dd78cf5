// The store.
ghost use Rattle.std.specs.Prelude.{◌≡◌, ◌<◌, ◌≤◌, ℕ, List, length, true, false, None, IsSome, IfOk, IfErr, OnOk, ◌/◌, []};
ghost use Rattle.std.specs.NonZero.{non_zero_usize_get};
ghost use Rattle.block_state.specs.TableOf.{table};
ghost use Rattle.flash_log.specs.Consistency.{AreCommitted, HasFreeBlocks};
ghost use Rattle.chunk_index.specs.Maps.{committed_pages, present};
ghost use Rattle.chunk_index.specs.declared.form.Present.TheVariants as presents;
ghost use Rattle.page_store.specs.Buffering.{Buffers, IsUnbuffered};
ghost use Rattle.page_store.specs.BufferOf.{contents, most_pages, bytes_of_page};
ghost use Rattle.page_store.specs.Shown.{present_data};
ghost use Rattle.page_store.specs.Cached.{held, cached, capacity_of, page_bytes_of};
ghost use Rattle.page_store.specs.Found.{IsFound};
ghost use Rattle.page_store.specs.Reading.{IsFindFault, Lends, Looks};
ghost use Rattle.page_store.specs.Caching.{Shows, KeepsRest};
ghost use Rattle.page_store.specs.Carrying.{AreNumbered};
ghost use Rattle.flash_log.specs.LogOf.{HasReserve};
ghost use Rattle.page_store.specs.laws.OneProof.{newest_committed_prop};

use crate::counts::StoreCounts;
use crate::reading::load_committed;
use crate::{Buffer, PageCache};
use chunk_index::{CommittedPage, Present};
use flash_log::Log;
use flash_tree::Key;
use nand_model::{Geometry, Nand};
use pages::{Pages, Presence, has_power};
use std::alloc::{AllocError, Global};
use std::num::NonZeroUsize;
use volume_terms::{BUFFERS_IN_BLOCK, StoreFault};

/// Where the page is that was found last.
#[derive(Clone, Copy, Debug, PartialEq, Eq)]
pub(crate) enum Found {
    Nowhere,
    /// This page of the buffer.
    Buffered(u32),
    /// In the cache.
    Cached(Key),
}

/// The pages of a volume's objects: committed on a device, with a buffer of pages that are not written yet, and a cache of
/// present ones.
#[derive(Drop)]
pub struct Store<N: Nand> {
    pub(crate) log: Log<N>,
    pub(crate) buffer: Buffer,
    pub(crate) cache: PageCache,
    // What a page of the device is read into, and what is lent before a page was found.
    pub(crate) scratch: Vec<u8>,
    pub(crate) found: Found,
    // Whether a commit failed, so that nothing is known of the pages any more.
    pub(crate) broken: bool,
    pub(crate) counts: StoreCounts,
    ghost buffers: { Buffers log.index (contents buffer) },
    ghost objects: { broken ≡ false → AreNumbered (N.state log.device) (contents buffer) },
    ghost most: { most_pages buffer ≡ (N.state log.device).geometry.pages / 4 },
    ghost size: { length scratch.items ≡ (N.state log.device).geometry.bytes },
    ghost buffer_size: { bytes_of_page buffer ≡ (N.state log.device).geometry.bytes },
    ghost cache_size: { page_bytes_of cache ≡ (N.state log.device).geometry.bytes },
    ghost place: { IsFound (contents buffer) found },
    ghost within_limit: { broken ≡ false → HasReserve log },
    ghost free: { broken ≡ false → HasFreeBlocks (table log.blocks) log.spare },
    // Each committed page is the newest of its key, also where the device has gone in a read.
    ghost newest: { broken ≡ false → (N.state log.device).honest ≡ true → AreCommitted (N.state log.device).flash (committed_pages log.index) } by { newest_committed_prop broken (N.state log.device).honest (N.state log.device).flash (committed_pages log.index) },
    ghost shown: { broken ≡ false → (N.state log.device).honest ≡ true → Shows cache (present_data log.index (contents buffer) (N.state log.device).flash) },
}

/// What a store takes of memory at once.
struct Rooms {
    buffer: Buffer,
    cache: PageCache,
    scratch: Vec<u8>,
}

/// An empty buffer of a quarter of a block, an empty cache, and a page.
fn make_rooms(
    alloc: Global,
    geometry: Geometry,
    capacity: NonZeroUsize,
) -> Result<Rooms, AllocError>
    ensures empty { IfOk result (λ made. contents made.buffer ≡ []) }
    ensures buffer { IfOk result (λ made. (most_pages made.buffer ≡ geometry.pages / 4) × (bytes_of_page made.buffer ≡ geometry.bytes)) }
    ensures cache { IfOk result (λ made. (page_bytes_of made.cache ≡ geometry.bytes) × ((o c : ℕ) → held made.cache o c ≡ None)) }
    ensures capacity { IfOk result (λ made. capacity_of made.cache ≡ non_zero_usize_get capacity) }
    ensures page { IfOk result (λ made. length made.scratch.items ≡ geometry.bytes) }
{
    Ok(Rooms {
        buffer: Buffer::new(alloc, geometry.pages() / BUFFERS_IN_BLOCK, geometry.bytes())?,
        cache: PageCache::new(alloc, capacity, geometry.bytes() as usize)?,
        scratch: vec![in alloc; 0u8; geometry.bytes() as usize]?,
    })
}

impl<N: Nand> Store<N> {
    ghost use Rattle.page_store.specs.StateOf.{lent_by, state_of};

    /// A store over what is committed on a log, with a buffer of a quarter of a block and a cache of at most so many pages.
    /// Where memory is refused the device is returned as it is.
    pub fn new(
        alloc: Global,
        log: Log<N>,
        capacity: NonZeroUsize,
    ) -> Result<Store<N>, (N, AllocError)>
        requires committed { (N.state log.device).honest ≡ true → AreCommitted (N.state log.device).flash (committed_pages log.index) }
        requires within_limit { HasReserve log }
        requires free { HasFreeBlocks (table log.blocks) log.spare }
        requires none { IsUnbuffered log.index }
        ensures log { IfOk result (λ store. store.log ≡ log) }
        ensures whole { IfOk result (λ store. store.broken ≡ false) }
        ensures most { IfOk result (λ store. most_pages store.buffer ≡ (N.state log.device).geometry.pages / 4) }
        ensures capacity { IfOk result (λ store. capacity_of store.cache ≡ non_zero_usize_get capacity) }
        ensures pages { (o c : ℕ) → IfOk result (λ store. present_data log.index (contents store.buffer) (N.state log.device).flash o c ≡ present_data log.index [] (N.state log.device).flash o c) }
        ensures given_back { IfErr result (λ back. back.0 ≡ log.device) }
    {
        match make_rooms(alloc, log.device.geometry(), capacity) {
            Ok(
                Rooms {
                    buffer,
                    cache,
                    scratch,
                },
            ) => Ok(Store {
                log,
                buffer,
                cache,
                scratch,
                found: Found::Nowhere,
                broken: false,
                counts: StoreCounts::new(),
            }),
            Err(refused) => Err((log.device, refused)),
        }
    }

    /// The device, as it is.
    pub fn into_device(self) -> N
        ensures { result ≡ self.log.device }
    {
        self.log.device
    }

    /// Finds the page of a key that is committed there.
    fn find_committed(&mut self, key: Key, at: CommittedPage) -> Result<Presence, StoreFault>
        requires { present self.old.log.index key.object key.chunk ≡ presents.OnFlash at }
        ensures looks { Looks (state_of self.old) (state_of self.new) }
        ensures power { OnOk result ((N.state self.new.log.device).gone ≡ (N.state self.old.log.device).gone) }
        ensures cached { IsSome (cached self.old.cache key.object key.chunk) → N.state self.new.log.device ≡ N.state self.old.log.device }
        ensures rest { KeepsRest key.object key.chunk self.old.cache self.new.cache }
        ensures there { IfOk result (λ presence. presence ≡ Presence.Present) }
        ensures page { Lends (state_of self.old) at (lent_by self.new) result }
        ensures fault { IfErr result (IsFindFault (state_of self.old) (state_of self.new)) }
    {
        match load_committed(
            &mut self.log.device,
            &mut self.cache,
            &mut self.scratch,
            key,
            at,
        ) {
            Ok(()) => {
                self.found = Found::Cached(key);
                Ok(Presence::Present)
            }
            Err(fault) => {
                self.counts.note(fault);
                Err(fault)
            }
        }
    }
}

impl<N: Nand> Pages for Store<N> {
    ghost use Rattle.page_store.specs.PagesOf.{store_pages};

    ghost state = { store_pages };

    ghost sized = { λ s. ((N.state s.log.device).geometry.least_bytes, (N.state s.log.device).geometry.most_bytes) };

    fn page_bytes(&self) -> u32 {
        self.log.device.geometry().bytes()
    }

    fn find(&mut self, key: Key) -> Result<Presence, StoreFault> {
        match self.log.index.present(key) {
            Present::Absent => Ok(Presence::Absent),
            Present::InBuffer(place) => {
                self.found = Found::Buffered(place);
                Ok(Presence::Present)
            }
            Present::OnFlash(at) => self.find_committed(key, at),
        }
    }

    fn has(&self, key: Key) -> bool {
        match self.log.index.present(key) {
            Present::Absent => false,
            Present::InBuffer(_) => true,
            Present::OnFlash(_) => true,
        }
    }

    fn has_power(&mut self) -> bool {
        has_power(&mut self.log.device)
    }

    fn page(&self) -> &[u8] {
        match self.found {
            Found::Nowhere => &self.scratch,
            Found::Buffered(place) => &self.buffer.pages()[place as usize].bytes,
            Found::Cached(key) => match self.cache.page(key) {
                Some(page) => page,
                None => &self.scratch,
            },
        }
    }

    fn take_frame(&mut self) -> Option<Vec<u8>> {
        self.cache.take_spare()
    }

    fn return_frame(&mut self, frame: Vec<u8>) {
        self.cache.return_spare(frame)
    }
}
