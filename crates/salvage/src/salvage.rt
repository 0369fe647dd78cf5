// The salvage of a device.
ghost use Rattle.std.specs.Prelude.{◌≡◌, ◌<◌, length, IfOk, IfErr, OnErr};
ghost use Rattle.pages.specs.Maps.{has};
ghost use Rattle.pages.specs.State.{OnlyFinds};
ghost use Rattle.volume_terms.specs.Sizes.{Sizes};
ghost use Rattle.tree_walk.specs.Visits.{IsSeen};
ghost use Rattle.salvage.specs.Opened.{CanBeRead};
ghost use Rattle.salvage.specs.Headers.{HasHeaders, Rises};
ghost use Rattle.salvage.specs.Reached.{ListsOrphans, ListsReached};
ghost use Rattle.salvage.specs.SeenBy.{seen_by};
ghost use Rattle.salvage.specs.Reported.{KeepsRest, LacksPower, ListsDirectory, ReadsPart, SaysInfo, WhyNotRead};

use crate::fault::SalvageFault;
use crate::header::read_info;
use crate::headers::committed_headers;
use crate::listing::read_names;
use crate::orphans::find_orphans;
use crate::reaching::find_reached;
use crate::reading::read_part;
use crate::reported::{Listing, ObjectInfo, Part};
use nand_model::Nand;
use page_store::NewestPages;
use std::alloc::{AllocError, Global};
use surviving_pages::{LostPlace, Survivors};

/// What is left on a device, which is only read. No page that is lost ends it: it counts as one that is not there.
#[derive(Drop)]
pub struct Salvage<N: Nand> {
    pages: NewestPages<N>,
    // The objects that have a page of chunk 0, in rising order.
    headers: Vec<u64>,
    // The places of the pages that were found lost.
    lost: Vec<LostPlace>,
    ghost listed: { HasHeaders (seen_by pages).present headers.items },
    ghost rises: { Rises headers.items },
}

impl<N: Nand> Salvage<N> {
    ghost use Rattle.salvage.specs.StateOf.{device_in, index_in, lost_in, state};

    /// A salvage that goes by the pages that were found on a device. Where memory is refused the device is given back.
    pub(crate) fn new(
        alloc: Global,
        device: N,
        found: Survivors,
    ) -> Result<Salvage<N>, (N, AllocError)>
        requires { CanBeRead (N.state device) found.index }
        ensures device { IfOk result (λ s. device_in s ≡ device) }
        ensures index { IfOk result (λ s. index_in s ≡ found.index) }
        ensures lost { IfOk result (λ s. lost_in s ≡ found.lost.items) }
        ensures given_back { IfErr result (λ back. back.0 ≡ device) }
    {
        let Survivors { index, lost } = found;
        let headers = match committed_headers(alloc, &index) {
            Ok(headers) => headers,
            Err(refused) => return Err((device, refused)),
        };
        match NewestPages::new(alloc, device, index) {
            Ok(pages) => Ok(Salvage {
                pages,
                headers,
                lost,
            }),
            Err(back) => Err(back),
        }
    }

    /// The places of the pages that were found lost, where the salvage goes by pages that survive. An older page of such a page's key is
    /// shown, where there is one.
    pub fn lost(&self) -> &[LostPlace]
        ensures { result.now ≡ lost_in self.now }
    {
        &self.lost
    }

    /// The device, as it is.
    pub fn into_device(self) -> N
        ensures { result ≡ device_in self }
    {
        let (device, _index) = self.pages.into_parts();
        device
    }

    /// What the header of an object says; none where no header of it reads.
    pub fn stat(&mut self, object: u64) -> Result<Option<ObjectInfo>, SalvageFault>
        ensures lookups { OnlyFinds (state self.old) (state self.new) }
        ensures lost { lost_in self.new ≡ lost_in self.old }
        ensures info { (z : Sizes) → IsSeen z (state self.old) → IfOk result (SaysInfo z (has (state self.old).present) object) }
        ensures fault { IfErr result (LacksPower (state self.new)) }
    {
        read_info(&mut self.pages, object)
    }

    /// The names of a directory whose slots read; none where no header of a directory reads. A name may stand twice, and may lead
    /// to an object that is lost.
    pub fn list(&mut self, alloc: Global, directory: u64) -> Result<Option<Listing>, SalvageFault>
        ensures lookups { OnlyFinds (state self.old) (state self.new) }
        ensures lost { lost_in self.new ≡ lost_in self.old }
        ensures lists { (z : Sizes) → IsSeen z (state self.old) → IfOk result (ListsDirectory z (has (state self.old).present) directory) }
        ensures fault { IfErr result (WhyNotRead (state self.new)) }
    {
        read_names(alloc, &mut self.pages, directory)
    }

    /// Reads bytes of a file from an offset on into a buffer, up to the end of the chunk that has the first; none where no header of
    /// a file reads. A chunk that the header says is absent reads as zeros. What lies in the buffer past the bytes that were read
    /// stays.
    pub fn read_at(
        &mut self,
        file: u64,
        offset: u64,
        buffer: &mut [u8],
    ) -> Result<Option<Part>, SalvageFault>
        ensures lookups { OnlyFinds (state self.old) (state self.new) }
        ensures lost { lost_in self.new ≡ lost_in self.old }
        ensures size { length buffer.new ≡ length buffer.old }
        ensures reads { (z : Sizes) → IsSeen z (state self.old)
            → IfOk result (ReadsPart z (has (state self.old).present) file offset buffer.new) }
        ensures rest { IfOk result (λ reported. KeepsRest reported buffer.old buffer.new) }
        ensures stays { OnErr result (buffer.new ≡ buffer.old) }
        ensures fault { IfErr result (LacksPower (state self.new)) }
    {
        read_part(&mut self.pages, file, offset, buffer)
    }

    /// The objects that can be reached from one, itself first, each once.
    pub fn reach(&mut self, alloc: Global, from: u64) -> Result<Vec<u64>, SalvageFault>
        ensures lookups { OnlyFinds (state self.old) (state self.new) }
        ensures lost { lost_in self.new ≡ lost_in self.old }
        ensures reached { (z : Sizes) → IsSeen z (state self.old)
            → IfOk result (λ list. ListsReached z (has (state self.old).present) from list.items) }
        ensures fault { IfErr result (WhyNotRead (state self.new)) }
    {
        find_reached(alloc, &mut self.pages, from)
    }

    /// The objects but the root whose headers read and that no directory names, each once.
    pub fn orphans(&mut self, alloc: Global) -> Result<Vec<u64>, SalvageFault>
        ensures lookups { OnlyFinds (state self.old) (state self.new) }
        ensures lost { lost_in self.new ≡ lost_in self.old }
        ensures orphans { (z : Sizes) → IsSeen z (state self.old)
            → IfOk result (λ list. ListsOrphans z (has (state self.old).present) list.items) }
        ensures fault { IfErr result (WhyNotRead (state self.new)) }
    {
        find_orphans(alloc, &mut self.pages, &self.headers)
    }
}
