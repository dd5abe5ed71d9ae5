//! Synchronisation units, message by message.
use ec_base::NoMemory;
use ec_code::{Entry, Message};
use ec_su::Su;
use std::alloc::Global;
use std::process::Abort;

/// A call on a unit with what it answers.
#[derive(Clone, Copy)]
enum Call {
    /// A message that fills nothing.
    Handle(Row),
    /// A message that fills this slot of this frame.
    Fill(Row, u64, u32),
    /// The oldest entry for the execution unit starts a fiber of a frame: the fiber, the slot and the filling.
    Starts(u64, u32, u32, u64),
    /// There is no entry for the execution unit.
    NoneReady,
    /// The oldest message for a peer is this one.
    Passes(u32, Row),
    /// There is no message for a peer.
    NoneFor(u32),
    Ended(bool),
    Handled(u64),
}

/// A message.
#[derive(Clone, Copy)]
enum Row {
    /// The frame, the slot, the count, the reset count and the fiber.
    Init(u64, u32, u32, u32, u32),
    /// The frame and the slot.
    Incr(u64, u32),
    /// The node, the frame and the slot.
    Sync(u32, u64, u32),
    /// The node, and the frame, fiber, slot and filling of a start.
    Work(u32, u64, u32, u32, u64),
    EndFrame(u64),
}

fn message(row: Row) -> Message {
    match row {
        Row::Init(frame, slot, count, reset, fiber) => Message::Init {
            frame,
            slot,
            count,
            reset,
            fiber,
        },
        Row::Incr(frame, slot) => Message::Incr { frame, slot },
        Row::Sync(node, frame, slot) => Message::Sync { node, frame, slot },
        Row::Work(node, frame, fiber, slot, filling) => Message::Work {
            node,
            entry: Entry::Start {
                frame,
                fiber,
                slot,
                filling,
            },
        },
        Row::EndFrame(frame) => Message::EndFrame { frame },
    }
}

/// The frame and slot that a message fills.
fn filled(
    rt: &impl Abort,
    alloc: Global,
    su: &mut Su,
    row: Row,
) -> Result<Option<(u64, u32)>, NoMemory> {
    let m = message(row);
    let before = su.handled();
    assert!(rt; before < 4294967296);
    assert_eq!(rt; su.candidates(&m), 1);
    let filled = su.handle(alloc, m, 0)?;
    assert_eq!(rt; su.handled(), before + 1);
    Ok(filled)
}

fn is_start(
    rt: &impl Abort,
    entry: Option<Entry>,
    frame: u64,
    fiber: u32,
    slot: u32,
    filling: u64,
) {
    match entry {
        Some(
            Entry::Start {
                frame: its_frame,
                fiber: its_fiber,
                slot: its_slot,
                filling: its_filling,
            },
        ) => {
            assert_eq!(rt; its_frame, frame);
            assert_eq!(rt; its_fiber, fiber);
            assert_eq!(rt; its_slot, slot);
            assert_eq!(rt; its_filling, filling);
        }
        _ => panic!(rt; "no start"),
    }
}

fn is_sync(rt: &impl Abort, message: Option<Message>, node: u32, frame: u64, slot: u32) {
    match message {
        Some(
            Message::Sync {
                node: its_node,
                frame: its_frame,
                slot: its_slot,
            },
        ) => {
            assert_eq!(rt; its_node, node);
            assert_eq!(rt; its_frame, frame);
            assert_eq!(rt; its_slot, slot);
        }
        _ => panic!(rt; "no sync"),
    }
}

/// A message is work for this node, to start a fiber.
fn is_work(rt: &impl Abort, message: Option<Message>, node: u32, start: (u64, u32, u32, u64)) {
    let (frame, fiber, slot, filling) = start;
    match message {
        Some(
            Message::Work {
                node: its_node,
                entry,
            },
        ) => {
            assert_eq!(rt; its_node, node);
            is_start(rt, Some(entry), frame, fiber, slot, filling);
        }
        _ => panic!(rt; "no work"),
    }
}

fn passes(rt: &impl Abort, su: &mut Su, peer: u32, row: Row) {
    assert!(rt; su.has_peer(peer));
    let passed = su.take_peer(peer);
    match row {
        Row::Sync(node, frame, slot) => is_sync(rt, passed, node, frame, slot),
        Row::Work(node, frame, fiber, slot, filling) => {
            is_work(rt, passed, node, (frame, fiber, slot, filling))
        }
        _ => panic!(rt; "not for a peer"),
    }
}

fn starts(rt: &impl Abort, su: &mut Su, frame: u64, fiber: u32, slot: u32, filling: u64) {
    assert!(rt; su.has_ready());
    is_start(rt, su.take_ready(), frame, fiber, slot, filling);
}

fn none_ready(rt: &impl Abort, su: &mut Su) {
    assert!(rt; !su.has_ready());
    assert!(rt; su.take_ready().is_none());
}

fn none_for(rt: &impl Abort, su: &mut Su, peer: u32) {
    assert!(rt; !su.has_peer(peer));
    assert!(rt; su.take_peer(peer).is_none());
}

fn fill(
    rt: &impl Abort,
    alloc: Global,
    su: &mut Su,
    row: Row,
    frame: u64,
    slot: u32,
) -> Result<(), NoMemory> {
    match filled(rt, alloc, su, row)? {
        Some((its_frame, its_slot)) => {
            assert_eq!(rt; its_frame, frame);
            assert_eq!(rt; its_slot, slot);
        }
        None => panic!(rt; "nothing was filled"),
    }
    Ok(())
}

fn make(rt: &impl Abort, alloc: Global, su: &mut Su, call: &Call) -> Result<(), NoMemory> {
    match *call {
        Call::Handle(row) => assert!(rt; filled(rt, alloc, su, row)?.is_none()),
        Call::Fill(row, frame, slot) => fill(rt, alloc, su, row, frame, slot)?,
        Call::Starts(frame, fiber, slot, filling) => starts(rt, su, frame, fiber, slot, filling),
        Call::NoneReady => none_ready(rt, su),
        Call::Passes(peer, row) => passes(rt, su, peer, row),
        Call::NoneFor(peer) => none_for(rt, su, peer),
        Call::Ended(ended) => assert_eq!(rt; su.ended(), ended),
        Call::Handled(handled) => assert_eq!(rt; su.handled(), handled),
    }
    Ok(())
}

/// These calls, one after the other, on the unit of a node of three.
fn make_all(rt: &impl Abort, alloc: Global, node: u32, calls: &[Call]) -> Result<(), NoMemory> {
    let mut su = Su::new(alloc, node, 3)?;
    for call in calls {
        make(rt, alloc, &mut su, call)?;
    }
    Ok(())
}

/// Nothing waits, nothing was handled, and main hasn't ended.
const NEW: &[Call] = &[
    Call::Handled(0),
    Call::Ended(false),
    Call::NoneReady,
    Call::NoneFor(0),
    Call::NoneFor(1),
    Call::NoneFor(2),
    Call::NoneFor(3),
];

#[test]
fn a_unit_begins_with_nothing(rt: HostRuntime) -> Result<(), NoMemory> {
    make_all(&rt, rt.alloc(), 0, NEW)?;
    make_all(&rt, rt.alloc(), 1, NEW)
}

/// Two syncs fill it, and then one.
const OWN: &[Call] = &[
    Call::Handle(Row::Init(7, 2, 2, 1, 5)),
    Call::Handle(Row::Sync(1, 7, 2)),
    Call::NoneReady,
    Call::Fill(Row::Sync(1, 7, 2), 7, 2),
    Call::Fill(Row::Sync(1, 7, 2), 7, 2),
    Call::NoneFor(1),
    Call::Starts(7, 5, 2, 1),
    Call::Starts(7, 5, 2, 2),
    Call::NoneReady,
    Call::Ended(false),
    Call::Handled(4),
];

#[test]
fn a_filling_starts_a_fiber(rt: HostRuntime) -> Result<(), NoMemory> {
    make_all(&rt, rt.alloc(), 1, OWN)
}

const ONE_MORE: &[Call] = &[
    Call::Handle(Row::Init(1, 0, 1, 1, 4)),
    Call::Handle(Row::Incr(1, 0)),
    Call::Handle(Row::Sync(0, 1, 0)),
    Call::NoneReady,
    Call::Fill(Row::Sync(0, 1, 0), 1, 0),
    Call::Starts(1, 4, 0, 1),
    Call::NoneReady,
];

#[test]
fn incr_waits_for_one_more(rt: HostRuntime) -> Result<(), NoMemory> {
    make_all(&rt, rt.alloc(), 0, ONE_MORE)
}

/// A peer's slot may be known here too, under the same numbers.
const FOR_A_PEER: &[Call] = &[
    Call::Handle(Row::Init(7, 2, 1, 1, 5)),
    Call::Handle(Row::Sync(0, 7, 2)),
    Call::Handle(Row::Work(0, 3, 1, 6, 9)),
    Call::Handle(Row::Sync(2, 8, 4)),
    Call::Handle(Row::Work(2, 4, 2, 0, 1)),
    Call::NoneReady,
    Call::NoneFor(1),
    Call::Passes(2, Row::Sync(2, 8, 4)),
    Call::Passes(0, Row::Sync(0, 7, 2)),
    Call::Passes(0, Row::Work(0, 3, 1, 6, 9)),
    Call::NoneFor(0),
    Call::Passes(2, Row::Work(2, 4, 2, 0, 1)),
    Call::NoneFor(2),
    Call::Fill(Row::Sync(1, 7, 2), 7, 2),
    Call::Starts(7, 5, 2, 1),
    Call::Handled(6),
];

#[test]
fn messages_for_peers_are_passed_on(rt: HostRuntime) -> Result<(), NoMemory> {
    make_all(&rt, rt.alloc(), 1, FOR_A_PEER)
}

const OWN_WORK: &[Call] = &[
    Call::Handle(Row::Work(2, 3, 1, 6, 9)),
    Call::Handle(Row::Work(2, 3, 0, 6, 10)),
    Call::NoneFor(2),
    Call::Starts(3, 1, 6, 9),
    Call::Starts(3, 0, 6, 10),
    Call::NoneReady,
    Call::Handled(2),
];

#[test]
fn own_work_is_ready(rt: HostRuntime) -> Result<(), NoMemory> {
    make_all(&rt, rt.alloc(), 2, OWN_WORK)
}

const ROOT: &[Call] = &[
    Call::Handle(Row::Sync(1, 0, 0)),
    Call::Ended(false),
    Call::Fill(Row::Sync(0, 0, 0), 0, 0),
    Call::Ended(true),
    Call::NoneReady,
    Call::NoneFor(0),
    Call::Passes(1, Row::Sync(1, 0, 0)),
    Call::Handled(2),
];

#[test]
fn root_slot_starts_nothing(rt: HostRuntime) -> Result<(), NoMemory> {
    make_all(&rt, rt.alloc(), 0, ROOT)
}

const NO_ROOT: &[Call] = &[
    Call::Handle(Row::Sync(1, 0, 0)),
    Call::Ended(false),
    Call::NoneReady,
    Call::NoneFor(1),
];

#[test]
fn only_node_0_has_the_root_slot(rt: HostRuntime) -> Result<(), NoMemory> {
    make_all(&rt, rt.alloc(), 1, NO_ROOT)
}

/// An Incr before the set-up isn't kept.
const UNKNOWN: &[Call] = &[
    Call::Handle(Row::Sync(0, 4, 1)),
    Call::Handle(Row::Incr(4, 1)),
    Call::Handle(Row::EndFrame(4)),
    Call::NoneReady,
    Call::Handle(Row::Init(4, 1, 1, 1, 3)),
    Call::Handle(Row::Sync(0, 4, 0)),
    Call::Handle(Row::Sync(0, 3, 1)),
    Call::NoneReady,
    Call::Fill(Row::Sync(0, 4, 1), 4, 1),
    Call::Starts(4, 3, 1, 1),
    Call::Handled(7),
];

#[test]
fn unknown_slots_do_nothing(rt: HostRuntime) -> Result<(), NoMemory> {
    make_all(&rt, rt.alloc(), 0, UNKNOWN)
}

const SET_UP_AGAIN: &[Call] = &[
    Call::Handle(Row::Init(1, 0, 1, 1, 4)),
    Call::Fill(Row::Sync(0, 1, 0), 1, 0),
    Call::Handle(Row::Init(1, 0, 2, 1, 9)),
    Call::Handle(Row::Sync(0, 1, 0)),
    Call::Fill(Row::Sync(0, 1, 0), 1, 0),
    Call::Starts(1, 4, 0, 1),
    Call::Starts(1, 9, 0, 2),
    Call::NoneReady,
];

#[test]
fn set_up_again_keeps_fillings(rt: HostRuntime) -> Result<(), NoMemory> {
    make_all(&rt, rt.alloc(), 0, SET_UP_AGAIN)
}

/// A start that is ready stays.
const FORGOTTEN: &[Call] = &[
    Call::Handle(Row::Init(1, 0, 1, 1, 4)),
    Call::Handle(Row::Init(2, 0, 1, 1, 6)),
    Call::Fill(Row::Sync(0, 1, 0), 1, 0),
    Call::Handle(Row::EndFrame(1)),
    Call::Handle(Row::Sync(0, 1, 0)),
    Call::Fill(Row::Sync(0, 2, 0), 2, 0),
    Call::Handle(Row::Init(1, 0, 1, 1, 5)),
    Call::Fill(Row::Sync(0, 1, 0), 1, 0),
    Call::Starts(1, 4, 0, 1),
    Call::Starts(2, 6, 0, 1),
    Call::Starts(1, 5, 0, 1),
    Call::NoneReady,
    Call::Handled(8),
];

#[test]
fn end_of_a_frame_forgets_its_slots(rt: HostRuntime) -> Result<(), NoMemory> {
    make_all(&rt, rt.alloc(), 0, FORGOTTEN)
}
