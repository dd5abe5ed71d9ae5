//! Synchronisation slots: counts that fall by one with each sync, and start a fiber where they reach zero.
//! `specs/Slots.antt` says what slots are and what becomes of them.
#![tactic(auto)]

mod row;
mod slot;
mod slots;

pub use slot::{Filled, Numbered, Slot};
pub use slots::Slots;
