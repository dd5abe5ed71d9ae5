//! The slots of a node.
ghost use Rattle.std.specs.Prelude.{◌≡◌, ◌<◌, ◌≤◌, [], length, true, is_some, OnErr, OnOk};
ghost use Rattle.ec_slots.specs.Slots as slots;

use crate::row::Row;
use crate::slot::{Filled, Slot};
use ec_base::NoMemory;
use std::alloc::Global;
use std::marker::Model;

/// The slots of a node. Contracts see a row a frame, of the slots that were set up.
#[derive(Drop)]
pub struct Slots {
    rows: Vec<Row>,
}

impl Model for Slots {
    ghost use Rattle.ec_slots.specs.Slots.{Row};
    ghost use Rattle.std.specs.Prelude.{List};

    ghost Value = { List Row };

    ghost view = { λ s. s.rows.items };
}

impl Slots {
    /// No slots.
    pub fn new(alloc: Global) -> Slots
        ensures { result ≡ [] }
    {
        Slots {
            rows: Vec::new(alloc),
        }
    }

    /// The slot of a frame, where it is known.
    fn get(&self, frame: u64, slot: u32) -> Option<Slot>
        ensures { result ≡ slots.slot_of frame slot self.now }
    {
        match self.rows.get(frame as usize) {
            None => None,
            Some(row) => row.get(slot),
        }
    }

    /// Makes so many rows, or leaves the slots as they were.
    #[tactic(auto, using(crate::proofs::Rows::grows))]
    fn grow(&mut self, alloc: Global, count: usize) -> Result<(), NoMemory>
        ensures ok { OnOk result (self.new ≡ slots.grown count self.old) }
        ensures err { OnErr result (self.new ≡ self.old) }
    {
        let before = self.rows.len();
        for _ in before..count {
            if let Err(_) = self.rows.push(Row::new(alloc)) {
                self.rows.truncate(before);
                return Err(NoMemory);
            }
        }
        Ok(())
    }

    /// Puts the first slot of a frame that has no row, or leaves the slots as they were.
    #[tactic(auto, using(crate::proofs::Rows::puts))]
    fn put_first(&mut self, alloc: Global, frame: u64, slot: u32, x: Slot) -> Result<(), NoMemory>
        requires { length self.old ≤ frame }
        ensures ok { OnOk result (self.new ≡ slots.put_slot frame slot x self.old) }
        ensures err { OnErr result (self.new ≡ self.old) }
    {
        let Some(count) = frame.checked_add(1) else {
            return Err(NoMemory);
        };
        let mut row = Row::new(alloc);
        row.put(slot, x)?;
        self.grow(alloc, count as usize)?;
        self.rows[frame as usize] = row;
        Ok(())
    }

    /// Puts a slot of a frame that has a row, or leaves the slots as they were.
    #[tactic(auto, using(crate::proofs::Rows::puts))]
    fn put_next(&mut self, frame: u64, slot: u32, x: Slot) -> Result<(), NoMemory>
        requires { frame < length self.old }
        ensures ok { OnOk result (self.new ≡ slots.put_slot frame slot x self.old) }
        ensures err { OnErr result (self.new ≡ self.old) }
    {
        self.rows[frame as usize].put(slot, x)
    }

    /// Puts a slot that is known, which wants no memory.
    #[tactic(auto, using(crate::proofs::Rows::puts))]
    fn replace(&mut self, frame: u64, slot: u32, x: Slot)
        requires { is_some (slots.slot_of frame slot self.old) ≡ true }
        ensures { self.new ≡ slots.put_slot frame slot x self.old }
    {
        self.rows[frame as usize].replace(slot, x);
    }

    /// Sets a slot up: its count and its reset count, each from 1 to `MAX_SLOT_COUNT`, and the fiber that its filling
    /// starts. A slot that was known keeps its fillings. Where memory runs out, the slots are as before.
    pub fn init(
        &mut self,
        alloc: Global,
        frame: u64,
        slot: u32,
        count: u32,
        reset: u32,
        fiber: u32,
    ) -> Result<(), NoMemory>
        ensures ok { OnOk result (self.new ≡ slots.set_up frame slot count reset fiber self.old) }
        ensures err { OnErr result (self.new ≡ self.old) }
    {
        let fillings = match self.get(frame, slot) {
            None => 0,
            Some(before) => before.fillings,
        };
        let after = Slot {
            count: count as u64,
            reset,
            fiber,
            fillings,
        };
        if frame < self.rows.len() as u64 {
            self.put_next(frame, slot, after)
        } else {
            self.put_first(alloc, frame, slot, after)
        }
    }

    /// Whether a slot of a frame was set up and not forgotten.
    pub fn known(&self, frame: u64, slot: u32) -> bool
        ensures { result ≡ is_some (slots.slot_of frame slot self.now) }
    {
        self.get(frame, slot).is_some()
    }

    /// Whether a slot is known and its count and fillings are below the highest number of 64 bits.
    pub fn has_room(&self, frame: u64, slot: u32) -> bool
        ensures { result ≡ slots.has_room (slots.slot_of frame slot self.now) }
    {
        match self.get(frame, slot) {
            None => false,
            Some(x) => x.count < u64::MAX && x.fillings < u64::MAX,
        }
    }

    /// How often a slot has been filled.
    pub fn fillings(&self, frame: u64, slot: u32) -> u64
        ensures { result ≡ slots.fillings_of (slots.slot_of frame slot self.now) }
    {
        match self.get(frame, slot) {
            None => 0,
            Some(x) => x.fillings,
        }
    }

    /// Whether the next sync of a slot that has room fills it, and what that starts.
    pub fn next_filling(&self, frame: u64, slot: u32) -> Option<Filled>
        requires { slots.has_room (slots.slot_of frame slot self.now) ≡ true }
        ensures { result ≡ slots.filled_by (slots.slot_of frame slot self.now) }
    {
        let x = self.get(frame, slot)?;
        if x.count > 1 {
            return None;
        }
        Some(Filled {
            fiber: x.fiber,
            filling: x.fillings + 1,
        })
    }

    /// One sync more is to come for a slot that has room.
    pub fn incr(&mut self, frame: u64, slot: u32)
        requires { slots.has_room (slots.slot_of frame slot self.old) ≡ true }
        ensures { self.new ≡ slots.incremented frame slot self.old }
    {
        if let Some(before) = self.get(frame, slot) {
            let after = Slot {
                count: before.count + 1,
                ..before
            };
            self.replace(frame, slot, after);
        }
    }

    /// One sync of a slot that has room: what it starts, where this was the last one to come. The count then is the reset
    /// count.
    pub fn sync(&mut self, frame: u64, slot: u32) -> Option<Filled>
        requires { slots.has_room (slots.slot_of frame slot self.old) ≡ true }
        ensures filled { result ≡ slots.filled_by (slots.slot_of frame slot self.old) }
        ensures slots { self.new ≡ slots.synced frame slot self.old }
    {
        let before = self.get(frame, slot)?;
        if before.count > 1 {
            let after = Slot {
                count: before.count - 1,
                ..before
            };
            self.replace(frame, slot, after);
            return None;
        }
        let filling = before.fillings + 1;
        let after = Slot {
            count: before.reset as u64,
            fillings: filling,
            ..before
        };
        self.replace(frame, slot, after);
        Some(Filled {
            fiber: before.fiber,
            filling,
        })
    }

    /// Forgets a frame's slots.
    pub fn end_frame(&mut self, alloc: Global, frame: u64)
        ensures { self.new ≡ slots.without frame self.old }
    {
        let frame = frame as usize;
        if frame < self.rows.len() {
            self.rows[frame] = Row::new(alloc);
        }
    }
}
