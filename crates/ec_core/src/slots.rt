//! Synchronisation slots, found by the frame's number and their own.
ghost use Rattle.std.specs.Prelude.{◌≡◌, ◌+◌, [], slice_get, slice_set, IfOk, IsSome, OnErr, OnOk};
ghost use Rattle.ec_core.specs.Slots.{row_in, row_with, slot_of, with_slot, without};
ghost use Rattle.ec_core.specs.Queues.{grown};

use crate::queue::grow;
use ec_base::{List, NoMemory};
use std::alloc::Global;
use std::marker::Model;

/// A slot: syncs to come, what the count becomes at a filling, the fiber that a filling starts, and fillings so far.
#[derive(Clone, Copy)]
pub struct Slot {
    pub count: u64,
    pub reset: u32,
    pub fiber: Option<u32>,
    pub fillings: u64,
}

/// The slots of a node, a row a frame.
#[derive(Drop)]
pub struct Slots {
    rows: Vec<List<Option<Slot>>>,
}

impl Model for Slots {
    ghost use Rattle.ec_core.specs.Slots.{Row};
    ghost use Rattle.std.specs.Prelude.{List};

    ghost Value = { List Row };

    ghost view = { λ s. s.rows.items };
}

impl Slots {
    pub fn new(alloc: Global) -> Slots
        ensures { result ≡ [] }
    {
        Slots {
            rows: Vec::new(alloc),
        }
    }

    /// A slot, where it is known.
    pub fn get(&self, frame: u64, slot: u32) -> Option<Slot>
        ensures { result ≡ slot_of frame slot self.now }
    {
        match self.rows.get(frame as usize) {
            None => None,
            Some(row) => match row.get(slot as usize) {
                None => None,
                Some(x) => *x,
            },
        }
    }

    /// Makes so many rows.
    #[tactic(auto, using(crate::proofs::Lists::grows, crate::proofs::KnownSlots::take_more))]
    fn grow(&mut self, alloc: Global, count: usize) -> Result<(), NoMemory>
        ensures ok { OnOk result (self.new ≡ grown count [] self.old) }
        ensures err { OnErr result (self.new ≡ self.old) }
    {
        let before = self.rows.len();
        for _ in before..count {
            if let Err(_) = self.rows.push(List::new(alloc)) {
                self.rows.truncate(before);
                return Err(NoMemory);
            }
        }
        Ok(())
    }

    /// A copy of a frame's row with this slot put.
    fn row_with(
        &self,
        alloc: Global,
        frame: u64,
        slot: u32,
        x: Slot,
    ) -> Result<List<Option<Slot>>, NoMemory>
        ensures { IfOk result (λ row. row ≡ row_with slot x (row_in (slice_get self.now frame))) }
    {
        let mut row = match self.rows.get(frame as usize) {
            None => List::new(alloc),
            Some(row) => List::from_slice(alloc, row.as_slice())?,
        };
        grow(&mut row, slot as usize + 1, None)?;
        row.set(slot as usize, Some(x));
        Ok(row)
    }

    /// Puts a slot of a frame, or leaves the slots as they were.
    pub fn put(&mut self, alloc: Global, frame: u64, slot: u32, x: Slot) -> Result<(), NoMemory>
        ensures ok { OnOk result (self.new ≡ with_slot frame slot x self.old) }
        ensures err { OnErr result (self.new ≡ self.old) }
    {
        let Some(count) = frame.checked_add(1) else {
            return Err(NoMemory);
        };
        let row = self.row_with(alloc, frame, slot, x)?;
        self.grow(alloc, count as usize)?;
        self.rows[frame as usize] = row;
        Ok(())
    }

    /// Puts a slot that is known, which wants no memory.
    pub fn replace(&mut self, frame: u64, slot: u32, x: Slot)
        requires { IsSome (slot_of frame slot self.old) }
        ensures { self.new ≡ with_slot frame slot x self.old }
    {
        let row = &mut self.rows[frame as usize];
        row.set(slot as usize, Some(x));
    }

    /// Forgets a frame's slots.
    pub fn end_frame(&mut self, alloc: Global, frame: u64)
        ensures { self.new ≡ without frame self.old }
    {
        let frame = frame as usize;
        if frame < self.rows.len() {
            self.rows[frame] = List::new(alloc);
        }
    }
}
