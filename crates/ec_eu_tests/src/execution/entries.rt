//! Entries: what memory answers, what a frame is filled with, what starts a fiber, and what is printed.
use crate::execution::{
    AT, AT_TO, BACK, OTHER, OWN, ZERO, after, answers, are, code_of, fill, is_done,
    is_second_fiber, only, same, start, text, trapped, unit, values, went,
};
use ec_base::{Block, List, NoMemory, TrapKind, Value};
use ec_cells::Node;
use ec_code::{Code, Entry, Instr, Message};
use ec_eu::Eu;
use std::alloc::Global;
use std::process::Abort;

/// Block 0, and a block that the node hasn't.
const FIRST: Block = Block { node: 1, number: 0 };

const UNKNOWN: Block = Block { node: 1, number: 1 };

/// A unit takes an entry, which needs no code, and doesn't trap.
fn takes(rt: &impl Abort, alloc: Global, eu: &mut Eu, e: Entry) -> Result<(), NoMemory> {
    let code = Code {
        main: 0,
        functions: List::new(alloc),
    };
    went(rt, eu.entry(alloc, &code, e)?);
    Ok(())
}

/// An entry that traps with Bounds, says nothing and changes no cell of block 0.
fn is_out_of_bounds(rt: &impl Abort, alloc: Global, e: Entry) -> Result<(), NoMemory> {
    let code = code_of(alloc, Instr::EndFiber)?;
    let mut eu = unit(rt, alloc)?;
    trapped(rt, eu.entry(alloc, &code, e)?, TrapKind::Bounds, AT);
    assert!(rt; !eu.has_out());
    for cell in 0..6i64 {
        let expected = if cell % 2 == 0 { ZERO } else { Value::Null };
        assert!(rt;
            eu.node()
                .load(0, cell, 1, 0)
                .is_some_and(|v| same(v, expected))
        );
    }
    Ok(())
}

// ---- cells of blocks

fn load(block: Block, index: i64, off: i64) -> Entry {
    Entry::Load {
        block,
        index,
        size: 2,
        off,
        at: AT,
        back: BACK,
    }
}

fn store(block: Block, index: i64, off: i64) -> Entry {
    Entry::Store {
        block,
        index,
        size: 2,
        off,
        value: OTHER,
        at: AT,
        back: BACK,
    }
}

fn add(block: Block, value: Value) -> Entry {
    Entry::Add {
        block,
        value,
        at: AT,
        back: BACK,
    }
}

/// A cell of block 0 is read.
fn reads(
    rt: &impl Abort,
    alloc: Global,
    eu: &mut Eu,
    off: i64,
    value: Value,
) -> Result<(), NoMemory> {
    takes(rt, alloc, eu, load(FIRST, 1, off))?;
    answers(rt, &only(rt, eu), value);
    Ok(())
}

/// A cell of block 0 is set, between reads of it and of its neighbour.
fn reads_and_writes(rt: &impl Abort, alloc: Global, eu: &mut Eu) -> Result<(), NoMemory> {
    reads(rt, alloc, eu, 1, Value::Null)?;
    takes(rt, alloc, eu, store(FIRST, 1, 1))?;
    assert!(rt; is_done(&only(rt, eu)));
    reads(rt, alloc, eu, 1, OTHER)?;
    reads(rt, alloc, eu, 0, ZERO)
}

#[test]
fn a_read_and_a_write(rt: HostRuntime) -> Result<(), NoMemory> {
    let mut eu = unit(&rt, rt.alloc())?;
    reads_and_writes(&rt, rt.alloc(), &mut eu)
}

#[test]
fn a_block_is_taken_by_its_number(rt: HostRuntime) -> Result<(), NoMemory> {
    let mut eu = unit(&rt, rt.alloc())?;
    takes(
        &rt,
        rt.alloc(),
        &mut eu,
        load(Block { node: 2, number: 0 }, 2, 1),
    )?;
    answers(&rt, &only(&rt, &mut eu), Value::Null);
    Ok(())
}

/// What is added to block 0 one after the other, and what its first cell then holds.
const SUMS: &[(Value, i64)] = &[
    (Value::Int(5), 5),
    (Value::Int(-7), -2),
    (Value::Null, -2),
    (OTHER, -2),
    (Value::Int(i64::MIN), i64::MAX - 1),
];

#[test]
fn sums(rt: HostRuntime) -> Result<(), NoMemory> {
    let mut eu = unit(&rt, rt.alloc())?;
    for (value, sum) in SUMS {
        takes(&rt, rt.alloc(), &mut eu, add(FIRST, *value))?;
        assert!(rt; is_done(&only(&rt, &mut eu)));
        let found = eu.node().load(0, 0, 1, 0);
        assert!(rt; found.is_some_and(|v| same(v, Value::Int(*sum))));
    }
    Ok(())
}

/// A block, an element of two, and a cell in it.
const MISSED: &[(Block, i64, i64)] = &[
    (UNKNOWN, 0, 0),
    (FIRST, 3, 0),
    (FIRST, -1, 0),
    (FIRST, 0, 2),
    (FIRST, 0, -1),
];

#[test]
fn cells_that_no_block_has(rt: HostRuntime) -> Result<(), NoMemory> {
    for (block, index, off) in MISSED {
        is_out_of_bounds(&rt, rt.alloc(), load(*block, *index, *off))?;
        is_out_of_bounds(&rt, rt.alloc(), store(*block, *index, *off))?;
    }
    is_out_of_bounds(&rt, rt.alloc(), add(UNKNOWN, ZERO))
}

// ---- elements of blocks

/// A copy of an element of two to element 3 of a block of node 2.
fn copy_out(block: Block, index: i64) -> Entry {
    Entry::CopyOut {
        block,
        index,
        size: 2,
        to: Block { node: 2, number: 4 },
        to_index: 3,
        at: AT,
        at_to: AT_TO,
        back: BACK,
    }
}

fn copy_in(alloc: Global, block: Block, index: i64) -> Result<Entry, NoMemory> {
    Ok(Entry::CopyIn {
        block,
        index,
        cells: values(alloc, &[Value::Int(8), OTHER])?,
        at: AT,
        back: BACK,
    })
}

#[test]
fn an_element_that_is_copied(rt: HostRuntime) -> Result<(), NoMemory> {
    let mut eu = unit(&rt, rt.alloc())?;
    takes(&rt, rt.alloc(), &mut eu, copy_out(FIRST, 1))?;
    let message = only(&rt, &mut eu);
    let Message::Work {
        node: 2,
        entry: Entry::CopyIn {
            block,
            index: 3,
            cells,
            at,
            back,
        },
    } = &message
    else {
        panic!(rt; "the element goes to the target's node");
    };
    assert!(rt; block.node == 2 && block.number == 4);
    are(&rt, cells, &[ZERO, Value::Null]);
    assert_eq!(rt; *at, AT_TO);
    assert!(rt; back.node == 2 && back.frame == 5 && back.slot == 7);
    assert_eq!(rt; back.cell, Some(6));
    Ok(())
}

const REPLACED: &[Value] = &[ZERO, Value::Null, Value::Int(8), OTHER, ZERO, Value::Null];

#[test]
fn an_element_that_is_replaced(rt: HostRuntime) -> Result<(), NoMemory> {
    let mut eu = unit(&rt, rt.alloc())?;
    takes(&rt, rt.alloc(), &mut eu, copy_in(rt.alloc(), FIRST, 1)?)?;
    assert!(rt; is_done(&only(&rt, &mut eu)));
    for (cell, value) in REPLACED.iter().enumerate() {
        let found = eu.node().load(0, cell as i64, 1, 0);
        assert!(rt; found.is_some_and(|v| same(v, *value)));
    }
    Ok(())
}

#[test]
fn elements_that_no_block_has(rt: HostRuntime) -> Result<(), NoMemory> {
    for (block, index) in [(UNKNOWN, 0i64), (FIRST, 3), (FIRST, -1)] {
        is_out_of_bounds(&rt, rt.alloc(), copy_out(block, index))?;
        is_out_of_bounds(&rt, rt.alloc(), copy_in(rt.alloc(), block, index)?)?;
    }
    Ok(())
}

// ---- frames

/// A frame is filled, and then its slot is synced.
fn is_filled(rt: &impl Abort, message: &Message, frame: u64) {
    let Message::Sync {
        node: 1,
        frame: found,
        slot: 3,
    } = message
    else {
        panic!(rt; "the slot is synced");
    };
    assert_eq!(rt; *found, frame);
}

#[test]
fn cells_that_are_filled(rt: HostRuntime) -> Result<(), NoMemory> {
    let mut eu = unit(&rt, rt.alloc())?;
    takes(&rt, rt.alloc(), &mut eu, fill(rt.alloc(), 1)?)?;
    is_filled(&rt, &only(&rt, &mut eu), 1);
    assert_eq!(rt; eu.node().cell_count(1), 5);
    assert!(rt; same(eu.node().cell(1, 0), Value::Null));
    assert!(rt; same(eu.node().cell(1, 1), ZERO));
    assert!(rt; same(eu.node().cell(1, 4), OTHER));
    takes(&rt, rt.alloc(), &mut eu, fill(rt.alloc(), 0)?)?;
    is_filled(&rt, &only(&rt, &mut eu), 0);
    assert_eq!(rt; eu.node().cell_count(0), 1);
    assert!(rt; same(eu.node().cell(0, 0), Value::Null));
    Ok(())
}

#[test]
fn a_fiber_that_is_started(rt: HostRuntime) -> Result<(), NoMemory> {
    let code = code_of(rt.alloc(), Instr::EndFiber)?;
    let mut eu = unit(&rt, rt.alloc())?;
    went(&rt, eu.entry(rt.alloc(), &code, start(1, 1))?);
    assert!(rt; is_second_fiber(&only(&rt, &mut eu), 1));
    Ok(())
}

const ARGS: [Value; 4] = [Value::Int(5), Value::Null, OWN, OTHER];

#[test]
fn a_frame_of_a_call(rt: HostRuntime) -> Result<(), NoMemory> {
    let mut eu = after(&rt, rt.alloc(), Instr::Sync(9), &ARGS)?;
    assert!(rt; is_second_fiber(&only(&rt, &mut eu), 2));
    assert_eq!(rt; eu.node().cell_count(2), 5);
    for (cell, value) in [0u32, 1, 2, 3].iter().zip(&ARGS) {
        assert!(rt; same(eu.node().cell(2, *cell), *value));
    }
    assert!(rt; same(eu.node().cell(2, 4), ZERO));
    match eu.node().births().frames.get(2) {
        Some(Some(birth)) => {
            assert!(rt; birth.node == 2 && birth.frame == 5 && birth.number == 3);
        }
        _ => panic!(rt; "the frame has the call's birth"),
    }
    Ok(())
}

// ---- output

#[test]
fn prints_one_behind_the_other(rt: HostRuntime) -> Result<(), NoMemory> {
    let alloc = rt.alloc();
    let mut eu = unit(&rt, alloc)?;
    for bytes in [b"a 7\n", b"b%d\n"] {
        let bytes = text(alloc, bytes)?;
        takes(&rt, alloc, &mut eu, Entry::Print { bytes, back: BACK })?;
        assert!(rt; is_done(&only(&rt, &mut eu)));
    }
    assert_eq!(rt; eu.output().as_slice(), &b"a 7\nb%d\n"[..]);
    Ok(())
}

// ---- a unit at first

/// The memory at first: frame 0, of one cell, which has no birth.
fn is_fresh(rt: &impl Abort, node: &Node) {
    assert_eq!(rt; node.number(), 2);
    assert!(rt; node.live(0) && !node.live(1));
    assert_eq!(rt; node.cell_count(0), 1);
    assert!(rt; same(node.cell(0, 0), ZERO));
    assert!(rt; matches!(node.births().frames.get(0), Some(None)));
}

#[test]
fn a_unit_without_a_step(rt: HostRuntime) -> Result<(), NoMemory> {
    let mut eu = Eu::new(rt.alloc(), 2, 3)?;
    is_fresh(&rt, eu.node());
    assert!(rt; eu.output().as_slice().is_empty());
    assert!(rt; eu.trap().is_none());
    assert!(rt; !eu.waiting() && !eu.has_out());
    assert!(rt; eu.take_out().is_none());
    Ok(())
}
