//! What instructions on slots and on blocks of any node say.
use crate::execution::{AT, AT_TO, OTHER, OWN, ZERO, after, cells, only, text, traps};
use ec_base::{Block, NoMemory, Span, TrapKind, Value};
use ec_code::{Back, Entry, Instr, Message};
use std::alloc::Global;
use std::process::Abort;

const NONE: [Value; 4] = [ZERO; 4];

/// The only message of an instruction of frame 2 with these arguments.
fn says(rt: &impl Abort, alloc: Global, x: Instr, args: &[Value]) -> Result<Message, NoMemory> {
    let mut eu = after(rt, alloc, x, args)?;
    Ok(only(rt, &mut eu))
}

#[test]
fn slots(rt: HostRuntime) -> Result<(), NoMemory> {
    let alloc = rt.alloc();
    assert!(rt;
        matches!(
            &says(&rt, alloc, Instr::InitSync(8, 2, 3, 1), &NONE)?,
            Message::Init {
                frame: 2,
                slot: 8,
                count: 2,
                reset: 3,
                fiber: 1,
            }
        )
    );
    assert!(rt;
        matches!(
            &says(&rt, alloc, Instr::Sync(8), &NONE)?,
            Message::Sync {
                node: 1,
                frame: 2,
                slot: 8,
            }
        )
    );
    assert!(rt;
        matches!(
            &says(&rt, alloc, Instr::IncrSync(8), &NONE)?,
            Message::Incr { frame: 2, slot: 8 }
        )
    );
    Ok(())
}

// ---- blocks of any node

/// A pointer, two numbers, and the value that is written or added.
const ARGS: [Value; 4] = [OTHER, Value::Int(4), Value::Int(-1), Value::Int(9)];

fn is_block(block: &Block, node: u32, number: u64) -> bool {
    block.node == node && block.number == number
}

/// The answer goes to a slot of frame 2, and to no cell.
fn is_back(back: &Back, slot: u32) -> bool {
    back.node == 1 && back.frame == 2 && back.cell.is_none() && back.slot == slot
}

#[test]
fn a_read(rt: HostRuntime) -> Result<(), NoMemory> {
    let message = says(&rt, rt.alloc(), Instr::GetSync(0, 1, 3, 2, 4, 8, AT), &ARGS)?;
    let Message::Work {
        node: 2,
        entry: Entry::Load {
            block,
            index: 4,
            size: 3,
            off: -1,
            at,
            back,
        },
    } = &message
    else {
        panic!(rt; "a read is asked of the block's node");
    };
    assert!(rt; is_block(block, 2, 0));
    assert_eq!(rt; *at, AT);
    assert!(rt; back.node == 1 && back.frame == 2 && back.slot == 8);
    assert_eq!(rt; back.cell, Some(4));
    Ok(())
}

#[test]
fn a_write(rt: HostRuntime) -> Result<(), NoMemory> {
    let message = says(
        &rt,
        rt.alloc(),
        Instr::DataSync(3, 0, 1, 3, 2, 8, AT),
        &ARGS,
    )?;
    let Message::Work {
        node: 2,
        entry: Entry::Store {
            block,
            index: 4,
            size: 3,
            off: -1,
            value: Value::Int(9),
            at,
            back,
        },
    } = &message
    else {
        panic!(rt; "a write is asked of the block's node");
    };
    assert!(rt; is_block(block, 2, 0));
    assert_eq!(rt; *at, AT);
    assert!(rt; is_back(back, 8));
    Ok(())
}

#[test]
fn a_sum(rt: HostRuntime) -> Result<(), NoMemory> {
    let message = says(&rt, rt.alloc(), Instr::AddSync(3, 0, 8, AT), &ARGS)?;
    let Message::Work {
        node: 2,
        entry: Entry::Add {
            block,
            value: Value::Int(9),
            at,
            back,
        },
    } = &message
    else {
        panic!(rt; "a sum is asked of the block's node");
    };
    assert!(rt; is_block(block, 2, 0));
    assert_eq!(rt; *at, AT);
    assert!(rt; is_back(back, 8));
    Ok(())
}

#[test]
fn a_copy(rt: HostRuntime) -> Result<(), NoMemory> {
    let args = [OTHER, Value::Int(4), OWN, Value::Int(-2)];
    let copy = Instr::BlkmovSync(0, 1, 2, 3, 6, 8, AT, AT_TO);
    let message = says(&rt, rt.alloc(), copy, &args)?;
    let Message::Work {
        node: 2,
        entry: Entry::CopyOut {
            block,
            index: 4,
            size: 6,
            to,
            to_index: -2,
            at,
            at_to,
            back,
        },
    } = &message
    else {
        panic!(rt; "a copy is asked of the source's node");
    };
    assert!(rt; is_block(block, 2, 0));
    assert!(rt; is_block(to, 1, 0));
    assert_eq!(rt; *at, AT);
    assert_eq!(rt; *at_to, AT_TO);
    assert!(rt; is_back(back, 8));
    Ok(())
}

/// Values that count as NULL.
const NULLS: &[Value] = &[Value::Null, Value::Int(5)];

fn asks_null(rt: &impl Abort, alloc: Global, pointer: Value) -> Result<(), NoMemory> {
    let args = [pointer, Value::Int(-1), Value::Int(-1), ZERO];
    let null = TrapKind::Null;
    traps(
        rt,
        alloc,
        Instr::GetSync(0, 1, 3, 2, 4, 8, AT),
        &args,
        null,
        AT,
    )?;
    traps(
        rt,
        alloc,
        Instr::DataSync(3, 0, 1, 3, 2, 8, AT),
        &args,
        null,
        AT,
    )?;
    traps(rt, alloc, Instr::AddSync(3, 0, 8, AT), &args, null, AT)
}

#[test]
fn asking_of_no_block(rt: HostRuntime) -> Result<(), NoMemory> {
    for pointer in NULLS {
        asks_null(&rt, rt.alloc(), *pointer)?;
    }
    Ok(())
}

/// Source and target of a copy, and the place of the trap: that of the source where both are NULL.
const COPIED: &[(Value, Value, Span)] = &[
    (Value::Null, OWN, AT),
    (OTHER, Value::Null, AT_TO),
    (Value::Null, Value::Null, AT),
    (Value::Int(5), Value::Int(5), AT),
];

fn copies_null(rt: &impl Abort, alloc: Global, row: &(Value, Value, Span)) -> Result<(), NoMemory> {
    let (from, to, at) = row;
    let copy = Instr::BlkmovSync(0, 1, 2, 3, 6, 8, AT, AT_TO);
    traps(
        rt,
        alloc,
        copy,
        &[*from, ZERO, *to, ZERO],
        TrapKind::Null,
        *at,
    )
}

#[test]
fn copies_of_no_block(rt: HostRuntime) -> Result<(), NoMemory> {
    for row in COPIED {
        copies_null(&rt, rt.alloc(), row)?;
    }
    Ok(())
}

// ---- prints

#[test]
fn a_print(rt: HostRuntime) -> Result<(), NoMemory> {
    let alloc = rt.alloc();
    let string = text(alloc, b"%d, %ld of 5%%\n")?;
    let print = Instr::PrintSync(string, cells(alloc, &[3, 0])?, 8);
    let message = says(&rt, alloc, print, &ARGS)?;
    let Message::Work {
        node: 0,
        entry: Entry::Print { bytes, back },
    } = &message
    else {
        panic!(rt; "a print is asked of node 0");
    };
    assert_eq!(rt; bytes.as_slice(), &b"9, 0 of 5%\n"[..]);
    assert!(rt; is_back(back, 8));
    Ok(())
}
