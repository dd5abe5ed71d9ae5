//! Slots: set up, synced and forgotten.
use ec_base::NoMemory;
use ec_slots::{Filled, Slots};
use std::alloc::Global;
use std::process::Abort;

/// A call on slots with what it answers. A frame and a slot come first.
#[derive(Clone, Copy)]
enum Call {
    /// The count, the reset count and the fiber.
    Init(u64, u32, u32, u32, u32),
    Incr(u64, u32),
    /// A sync that fills nothing.
    Sync(u64, u32),
    /// A sync that starts this fiber with this filling.
    Fill(u64, u32, u32, u64),
    EndFrame(u64),
    /// How often it has been filled.
    Fillings(u64, u32, u64),
    /// The next sync fills nothing.
    NoneNext(u64, u32),
    /// The next sync starts this fiber with this filling.
    Next(u64, u32, u32, u64),
    Known(u64, u32),
    Unknown(u64, u32),
}

fn sync(rt: &impl Abort, slots: &mut Slots, frame: u64, slot: u32) {
    assert!(rt; slots.has_room(frame, slot));
    assert!(rt; slots.sync(frame, slot).is_none());
}

fn is_filled(rt: &impl Abort, filled: Option<Filled>, fiber: u32, filling: u64) {
    match filled {
        Some(filled) => {
            assert_eq!(rt; filled.fiber, fiber);
            assert_eq!(rt; filled.filling, filling);
        }
        None => panic!(rt; "nothing was filled"),
    }
}

fn fill(rt: &impl Abort, slots: &mut Slots, frame: u64, slot: u32, fiber: u32, filling: u64) {
    assert!(rt; slots.has_room(frame, slot));
    is_filled(rt, slots.sync(frame, slot), fiber, filling);
}

fn none_next(rt: &impl Abort, slots: &Slots, frame: u64, slot: u32) {
    assert!(rt; slots.has_room(frame, slot));
    assert!(rt; slots.next_filling(frame, slot).is_none());
}

fn next(rt: &impl Abort, slots: &Slots, frame: u64, slot: u32, fiber: u32, filling: u64) {
    assert!(rt; slots.has_room(frame, slot));
    is_filled(rt, slots.next_filling(frame, slot), fiber, filling);
}

fn incr(rt: &impl Abort, slots: &mut Slots, frame: u64, slot: u32) {
    assert!(rt; slots.has_room(frame, slot));
    slots.incr(frame, slot);
}

fn unknown(rt: &impl Abort, slots: &Slots, frame: u64, slot: u32) {
    assert!(rt; !slots.known(frame, slot));
    assert!(rt; !slots.has_room(frame, slot));
    assert_eq!(rt; slots.fillings(frame, slot), 0);
}

fn make(rt: &impl Abort, alloc: Global, slots: &mut Slots, call: Call) -> Result<(), NoMemory> {
    match call {
        Call::Init(frame, slot, count, reset, fiber) => {
            slots.init(alloc, frame, slot, count, reset, fiber)?
        }
        Call::Incr(frame, slot) => incr(rt, slots, frame, slot),
        Call::Sync(frame, slot) => sync(rt, slots, frame, slot),
        Call::Fill(frame, slot, fiber, filling) => fill(rt, slots, frame, slot, fiber, filling),
        Call::EndFrame(frame) => slots.end_frame(alloc, frame),
        Call::Fillings(frame, slot, fillings) => {
            assert_eq!(rt; slots.fillings(frame, slot), fillings)
        }
        Call::NoneNext(frame, slot) => none_next(rt, slots, frame, slot),
        Call::Next(frame, slot, fiber, filling) => next(rt, slots, frame, slot, fiber, filling),
        Call::Known(frame, slot) => assert!(rt; slots.known(frame, slot)),
        Call::Unknown(frame, slot) => unknown(rt, slots, frame, slot),
    }
    Ok(())
}

/// These calls, one after the other, on no slots.
fn make_all(rt: &impl Abort, alloc: Global, calls: &[Call]) -> Result<(), NoMemory> {
    let mut slots = Slots::new(alloc);
    for call in calls {
        make(rt, alloc, &mut slots, *call)?;
    }
    Ok(())
}

/// Two syncs fill it, and then three.
const FILLED_TWICE: &[Call] = &[
    Call::Unknown(0, 0),
    Call::Init(0, 0, 2, 3, 7),
    Call::Known(0, 0),
    Call::Unknown(0, 1),
    Call::Unknown(1, 0),
    Call::Sync(0, 0),
    Call::Fill(0, 0, 7, 1),
    Call::Sync(0, 0),
    Call::Sync(0, 0),
    Call::Fill(0, 0, 7, 2),
];

#[test]
fn count_and_then_reset_count(rt: HostRuntime) -> Result<(), NoMemory> {
    make_all(&rt, rt.alloc(), FILLED_TWICE)
}

/// The reset count isn't the count.
const LATER_WITH_MORE: &[Call] = &[
    Call::Init(7, 0, 2, 3, 5),
    Call::Sync(7, 0),
    Call::Fill(7, 0, 5, 1),
    Call::Sync(7, 0),
    Call::Sync(7, 0),
    Call::Fill(7, 0, 5, 2),
];

#[test]
fn later_fillings_take_the_reset_count(rt: HostRuntime) -> Result<(), NoMemory> {
    make_all(&rt, rt.alloc(), LATER_WITH_MORE)
}

/// To ask what comes next changes nothing.
const ASKED: &[Call] = &[
    Call::Init(1, 4, 2, 1, 5),
    Call::Fillings(1, 4, 0),
    Call::NoneNext(1, 4),
    Call::NoneNext(1, 4),
    Call::Sync(1, 4),
    Call::Fillings(1, 4, 0),
    Call::Next(1, 4, 5, 1),
    Call::Next(1, 4, 5, 1),
    Call::Fill(1, 4, 5, 1),
    Call::Fillings(1, 4, 1),
    Call::Next(1, 4, 5, 2),
    Call::Incr(1, 4),
    Call::NoneNext(1, 4),
    Call::Fillings(1, 4, 1),
    Call::Fillings(1, 3, 0),
    Call::Init(1, 4, 1, 1, 8),
    Call::Fillings(1, 4, 1),
    Call::Next(1, 4, 8, 2),
    Call::EndFrame(1),
    Call::Fillings(1, 4, 0),
];

#[test]
fn fillings_so_far_and_the_next(rt: HostRuntime) -> Result<(), NoMemory> {
    make_all(&rt, rt.alloc(), ASKED)
}

const ONE_MORE: &[Call] = &[
    Call::Init(0, 0, 1, 1, 4),
    Call::Incr(0, 0),
    Call::Incr(0, 0),
    Call::Sync(0, 0),
    Call::Sync(0, 0),
    Call::Fill(0, 0, 4, 1),
    Call::Fill(0, 0, 4, 2),
];

#[test]
fn incr_waits_for_one_more(rt: HostRuntime) -> Result<(), NoMemory> {
    make_all(&rt, rt.alloc(), ONE_MORE)
}

const SET_UP_AGAIN: &[Call] = &[
    Call::Init(0, 0, 1, 1, 4),
    Call::Init(0, 6, 1, 1, 5),
    Call::Fill(0, 0, 4, 1),
    Call::Init(0, 0, 2, 1, 9),
    Call::Sync(0, 0),
    Call::Fill(0, 0, 9, 2),
    Call::Fill(0, 0, 9, 3),
    Call::Fill(0, 6, 5, 1),
];

#[test]
fn set_up_again_keeps_fillings(rt: HostRuntime) -> Result<(), NoMemory> {
    make_all(&rt, rt.alloc(), SET_UP_AGAIN)
}

const FORGOTTEN: &[Call] = &[
    Call::Init(5, 3, 1, 1, 2),
    Call::Unknown(4, 3),
    Call::Init(2, 3, 2, 2, 1),
    Call::Init(5, 1, 1, 1, 8),
    Call::Fill(5, 3, 2, 1),
    Call::Sync(2, 3),
    Call::EndFrame(9),
    Call::EndFrame(5),
    Call::Unknown(5, 3),
    Call::Unknown(5, 1),
    Call::Fill(2, 3, 1, 1),
    Call::Init(5, 3, 1, 1, 6),
    Call::Fill(5, 3, 6, 1),
];

#[test]
fn frames_keep_their_own_slots(rt: HostRuntime) -> Result<(), NoMemory> {
    make_all(&rt, rt.alloc(), FORGOTTEN)
}
