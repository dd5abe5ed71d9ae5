//! The slots of one frame.
ghost use Rattle.std.specs.Prelude.{◌≡◌, [], true, is_some, OnErr, OnOk};
ghost use Rattle.ec_slots.specs.Slots as slots;

use crate::slot::{Numbered, Slot};
use ec_base::{List, NoMemory};
use std::alloc::Global;
use std::marker::Model;

/// The slots of a frame that were set up, in the order of their first set-up. There are few: code needs one for what is under
/// way at one time, so they are looked through.
#[derive(Drop)]
pub struct Row {
    all: List<Numbered>,
}

impl Model for Row {
    ghost use Rattle.ec_slots.specs.declared.slot.Numbered.{Numbered};
    ghost use Rattle.std.specs.Prelude.{List};

    ghost Value = { List Numbered };

    ghost view = { λ r. r.all };
}

impl Row {
    /// No slots.
    pub fn new(alloc: Global) -> Row
        ensures { result ≡ [] }
    {
        Row {
            all: List::new(alloc),
        }
    }

    /// The place of the slot of this number, past the end where there is none.
    #[tactic(auto, using(crate::proofs::Places::steps))]
    fn place(&self, number: u32) -> usize
        ensures { result ≡ slots.place_in number self.now }
    {
        let all = self.all.as_slice();
        for i in 0..all.len() {
            if all[i].number == number {
                return i;
            }
        }
        all.len()
    }

    /// The slot of this number.
    #[tactic(auto, using(crate::proofs::Places::reads))]
    pub fn get(&self, number: u32) -> Option<Slot>
        ensures { result ≡ slots.slot_in number self.now }
    {
        match self.all.get(self.place(number)) {
            None => None,
            Some(x) => Some(x.slot),
        }
    }

    /// Puts a slot in the place of the one of its number, or behind all others, or leaves the slots as they were.
    #[tactic(auto, using(crate::proofs::Places::writes))]
    pub fn put(&mut self, number: u32, slot: Slot) -> Result<(), NoMemory>
        ensures ok { OnOk result (self.new ≡ slots.with_slot number slot self.old) }
        ensures err { OnErr result (self.new ≡ self.old) }
    {
        let at = self.place(number);
        if at < self.all.len() {
            self.all.set(at, Numbered { number, slot });
            return Ok(());
        }
        match self.all.push(Numbered { number, slot }) {
            Ok(()) => Ok(()),
            Err(_) => Err(NoMemory),
        }
    }

    /// Puts a slot whose number is known, which wants no memory.
    #[tactic(auto, using(crate::proofs::Places::writes, crate::proofs::Places::place_known))]
    pub fn replace(&mut self, number: u32, slot: Slot)
        requires { is_some (slots.slot_in number self.old) ≡ true }
        ensures { self.new ≡ slots.with_slot number slot self.old }
    {
        let at = self.place(number);
        self.all.set(at, Numbered { number, slot });
    }
}
