// The table of descriptors: it takes memory when it is made, and none later.
ghost use Rattle.std.specs.Prelude.{ℕ, ◌≡◌, ◌<◌, ◌≤◌, Some, None, length, IfOk, MatchBool, get_or, not};
ghost use Rattle.std.specs.Option.{option_map};
ghost use Rattle.std.specs.FinMap as map;
ghost use Rattle.volume_terms.specs.Sizes.{descriptors};
ghost use Rattle.posix_profile.specs.Changes.{free_descriptor};
ghost use Rattle.posix_profile.specs.WellFormed.{IsOpen};

use posix_profile::OpenFlags;
use std::alloc::{AllocError, Global};
use volume_terms::DESCRIPTORS;

/// What an open descriptor refers to. The offset is in bytes.
#[derive(Clone, Copy, Debug, PartialEq, Eq)]
pub struct OpenDescription {
    pub object: u64,
    pub flags: OpenFlags,
    pub offset: u64,
}

/// What the descriptors refer to.
#[derive(Drop)]
pub struct DescriptorTable {
    slots: Vec<Option<OpenDescription>>,
    /// Where a search of the slots ends.
    end: u32,
    ghost size: { length slots.items ≡ 64 },
    ghost few: { end ≤ 64 },
    ghost closed: { (fd : ℕ) → end ≤ fd → get_or slots.items fd None ≡ None },
}

impl DescriptorTable {
    ghost use Rattle.command_plans.specs.Tables.{handle_of, handles_in, RefersTo, RefersToOther};

    /// No descriptor is open.
    pub fn new(alloc: Global) -> Result<DescriptorTable, AllocError>
        ensures { IfOk result (λ table. handles_in table ≡ map.empty) }
    {
        let mut slots = Vec::new(alloc);
        slots.resize(DESCRIPTORS as usize, None)?;
        Ok(DescriptorTable { slots, end: 0 })
    }

    /// A table of the same descriptors.
    pub fn copy(&self, alloc: Global) -> Result<DescriptorTable, AllocError>
        ensures { IfOk result (λ copy. handles_in copy ≡ handles_in self.now) }
    {
        let slots = Vec::from_slice(alloc, &self.slots)?;
        Ok(DescriptorTable {
            slots,
            end: self.end,
        })
    }

    /// What the descriptor refers to, if it is open.
    pub fn get(&self, fd: u32) -> Option<OpenDescription>
        ensures { option_map handle_of result ≡ map.get (handles_in self.now) fd }
    {
        if fd < DESCRIPTORS {
            self.slots[fd as usize]
        } else {
            None
        }
    }

    /// The descriptor refers to this. One that there is not stays as it is.
    pub fn put(&mut self, fd: u32, description: OpenDescription)
        ensures puts { fd < descriptors → handles_in self.new ≡ map.insert (handles_in self.old) fd (handle_of description) }
        ensures stays { 64 ≤ fd → handles_in self.new ≡ handles_in self.old }
    {
        if fd < DESCRIPTORS {
            self.end = self.end.max(fd + 1);
            self.slots[fd as usize] = Some(description);
        }
    }

    /// The descriptor is open no longer.
    pub fn remove(&mut self, fd: u32)
        ensures { handles_in self.new ≡ map.remove (handles_in self.old) fd }
    {
        if fd < DESCRIPTORS {
            self.slots[fd as usize] = None;
            self.end = self.open_end();
        }
    }

    /// Whether the descriptor is not open.
    fn is_closed(&self, fd: u32) -> bool
        ensures { result ≡ not (map.contains_key (handles_in self.now) fd) }
    {
        self.get(fd).is_none()
    }

    /// The end, lowered past the slots that are closed.
    fn open_end(&self) -> u32
        ensures most { result ≤ self.now.end }
        ensures closed { (fd : ℕ) → result ≤ fd → get_or self.now.slots.items fd None ≡ None }
    {
        let mut end = self.end;
        'slots: while end > 0 && self.is_closed(end - 1) {
            end -= 1;
        }
        end
    }

    /// The least descriptor that is not open, if there is one.
    pub fn free(&self) -> Option<u32>
        ensures { result ≡ free_descriptor (handles_in self.now) }
    {
        for fd in 0..self.end {
            if self.is_closed(fd) {
                return Some(fd);
            }
        }
        if self.end < DESCRIPTORS {
            Some(self.end)
        } else {
            None
        }
    }

    /// Whether the descriptor refers to the object.
    fn refers_to(&self, fd: u32, number: u64) -> bool
        ensures { MatchBool result (RefersTo (handles_in self.now) fd number) (RefersToOther (handles_in self.now) fd number) }
    {
        match self.get(fd) {
            Some(description) => description.object == number,
            None => false,
        }
    }

    /// Whether some descriptor refers to the object.
    pub fn is_open(&self, number: u64) -> bool
        ensures { MatchBool result (IsOpen (handles_in self.now) number) (IsOpen (handles_in self.now) number → ⊥) }
    {
        for fd in 0..self.end {
            if self.refers_to(fd, number) {
                return true;
            }
        }
        false
    }

    /// Whether a descriptor other than this one represents the object.
    pub fn is_open_besides(&self, fd: u32, number: u64) -> bool
        ensures { MatchBool result (IsOpen (map.remove (handles_in self.now) fd) number) (IsOpen (map.remove (handles_in self.now) fd) number → ⊥) }
    {
        for other in 0..self.end {
            if other != fd && self.refers_to(other, number) {
                return true;
            }
        }
        false
    }
}
