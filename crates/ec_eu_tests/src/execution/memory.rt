//! Instructions on blocks of the own node.
use crate::execution::{AT, OTHER, OWN, ZERO, after, leaves, same, traps};
use ec_base::{Birth, Block, NoMemory, TrapKind, Value};
use ec_code::Instr;
use std::alloc::Global;
use std::process::Abort;

/// The pointer, the element's index, and the cell in it; the last is the value that is stored.
fn place(pointer: Value, index: i64, off: i64) -> [Value; 4] {
    [pointer, Value::Int(index), Value::Int(off), Value::Int(9)]
}

/// A cell of an element of two, and what it holds at first.
type FoundRow = (i64, i64, Value);

const FOUND: &[FoundRow] = &[
    (0, 0, ZERO),
    (0, 1, Value::Null),
    (1, 0, ZERO),
    (2, 1, Value::Null),
];

fn is_found(rt: &impl Abort, alloc: Global, row: &FoundRow) -> Result<(), NoMemory> {
    let (index, off, value) = row;
    let args = place(OWN, *index, *off);
    leaves(rt, alloc, Instr::Load(4, 0, 1, 2, 2, AT), &args, *value)
}

fn is_stored(rt: &impl Abort, alloc: Global, row: &FoundRow) -> Result<(), NoMemory> {
    let (index, off, _) = row;
    let args = place(OWN, *index, *off);
    let eu = after(rt, alloc, Instr::Store(0, 1, 2, 2, 3, AT), &args)?;
    let stored = eu.node().load(0, *index, 2, *off);
    assert!(rt; stored.is_some_and(|v| same(v, Value::Int(9))));
    assert!(rt; !eu.has_out());
    Ok(())
}

#[test]
fn cells_of_a_block(rt: HostRuntime) -> Result<(), NoMemory> {
    for row in FOUND {
        is_found(&rt, rt.alloc(), row)?;
        is_stored(&rt, rt.alloc(), row)?;
    }
    Ok(())
}

/// A pointer, an element of two, a cell in it, and the trap. NULL is looked at first.
type MissedRow = (Value, i64, i64, TrapKind);

const MISSED: &[MissedRow] = &[
    (Value::Null, 0, 0, TrapKind::Null),
    (Value::Null, 9, -1, TrapKind::Null),
    (Value::Int(0), 0, 0, TrapKind::Null),
    (OTHER, 0, 0, TrapKind::Bounds),
    (
        Value::Ptr(Block { node: 1, number: 1 }),
        0,
        0,
        TrapKind::Bounds,
    ),
    (OWN, 3, 0, TrapKind::Bounds),
    (OWN, -1, 0, TrapKind::Bounds),
    (OWN, 0, 2, TrapKind::Bounds),
    (OWN, 1, -1, TrapKind::Bounds),
];

fn is_missed(rt: &impl Abort, alloc: Global, row: &MissedRow) -> Result<(), NoMemory> {
    let (pointer, index, off, kind) = row;
    let args = place(*pointer, *index, *off);
    traps(rt, alloc, Instr::Load(4, 0, 1, 2, 2, AT), &args, *kind, AT)?;
    traps(rt, alloc, Instr::Store(0, 1, 2, 2, 3, AT), &args, *kind, AT)
}

#[test]
fn cells_that_are_in_no_block(rt: HostRuntime) -> Result<(), NoMemory> {
    for row in MISSED {
        is_missed(&rt, rt.alloc(), row)?;
    }
    Ok(())
}

fn is_birth(rt: &impl Abort, birth: &Birth, frame: u64, number: u64) {
    assert_eq!(rt; birth.node, 1);
    assert_eq!(rt; birth.frame, frame);
    assert_eq!(rt; birth.number, number);
}

#[test]
fn a_block_more(rt: HostRuntime) -> Result<(), NoMemory> {
    let args = [Value::Int(2), ZERO, ZERO, ZERO];
    let eu = after(&rt, rt.alloc(), Instr::Alloc(4, 0, 3, 5, AT), &args)?;
    let made = Value::Ptr(Block { node: 1, number: 1 });
    assert!(rt; same(eu.node().cell(2, 4), made));
    assert!(rt; !eu.has_out());
    for cell in 0..6i64 {
        let expected = if cell % 3 == 1 { ZERO } else { Value::Null };
        let found = eu.node().load(1, cell, 1, 0);
        assert!(rt; found.is_some_and(|v| same(v, expected)));
    }
    assert!(rt; eu.node().load(1, 6, 1, 0).is_none());
    match eu.node().births().blocks.get(1) {
        Some(birth) => is_birth(&rt, birth, 2, 1),
        None => panic!(rt; "the block has a birth"),
    }
    Ok(())
}

/// How many elements of 64 cells; 16384 are the limit.
const TOO_MANY: &[Value] = &[
    ZERO,
    Value::Null,
    OWN,
    Value::Int(-1),
    Value::Int(16_385),
    Value::Int(i64::MAX),
    Value::Int(i64::MIN),
];

#[test]
fn sizes_of_blocks(rt: HostRuntime) -> Result<(), NoMemory> {
    let alloc = rt.alloc();
    for count in TOO_MANY {
        let args = [*count, ZERO, ZERO, ZERO];
        traps(
            &rt,
            alloc,
            Instr::Alloc(4, 0, 64, 0, AT),
            &args,
            TrapKind::BadSize,
            AT,
        )?;
    }
    let args = [Value::Int(16_384), ZERO, ZERO, ZERO];
    let eu = after(&rt, alloc, Instr::Alloc(4, 0, 64, 0, AT), &args)?;
    assert!(rt; eu.node().load(1, 16_383, 64, 63).is_some());
    Ok(())
}
