//! Calls, and ends of functions.
use crate::execution::{
    AT, OTHER, OWN, ZERO, after, answers, are, cells, code, only, runs, said, unit, went,
};
use ec_base::{Birth, List, NoMemory, Value};
use ec_code::{Call, CallPlace, Entry, Instr, Message};
use ec_eu::Eu;
use std::alloc::Global;
use std::process::Abort;

/// Calls function 6 with cells 1 and 0 for cells 4 and 3 and slot 8.
fn invoke(alloc: Global, place: CallPlace) -> Result<Instr, NoMemory> {
    let results = cells(alloc, &[4, 3])?;
    let args = cells(alloc, &[1, 0])?;
    Ok(Instr::Invoke(6, place, results, 8, args))
}

/// The call of frame 2 whose birth has this number.
fn is_call(rt: &impl Abort, call: &Call, args: &[Value], number: u64) {
    assert_eq!(rt; call.function, 6);
    are(rt, &call.args, args);
    let Some(birth) = &call.birth else {
        panic!(rt; "the call has a birth");
    };
    assert!(rt; birth.node == 1 && birth.frame == 2 && birth.number == number);
    assert!(rt; call.node == 1 && call.frame == 2);
    assert_eq!(rt; call.cells.as_slice(), &[4u32, 3][..]);
    assert_eq!(rt; call.slot, 8);
}

/// The next message is that call, for a node.
fn calls(rt: &impl Abort, eu: &mut Eu, node: u32, args: &[Value], number: u64) {
    match &said(rt, eu) {
        Message::Work {
            node: found,
            entry: Entry::Enter { call },
        } => {
            assert_eq!(rt; *found, node);
            is_call(rt, call, args, number);
        }
        _ => panic!(rt; "a call is said"),
    }
}

/// A place, what cell 0 holds, and the node, of 3.
type PlaceRow = (CallPlace, Value, u32);

const PLACES: &[PlaceRow] = &[
    (CallPlace::Here, OTHER, 1),
    (CallPlace::Home, OTHER, 0),
    (CallPlace::Node(0), Value::Int(2), 2),
    (CallPlace::Node(0), Value::Int(3), 0),
    (CallPlace::Node(0), Value::Int(-1), 2),
    (CallPlace::Node(0), Value::Int(i64::MIN), 1),
    (CallPlace::Node(0), OTHER, 0),
    (CallPlace::Owner(0), OTHER, 2),
    (CallPlace::Owner(0), OWN, 1),
    (CallPlace::Owner(0), Value::Null, 1),
    (CallPlace::Owner(0), Value::Int(2), 1),
];

fn is_placed(rt: &impl Abort, alloc: Global, row: &PlaceRow) -> Result<(), NoMemory> {
    let (place, value, node) = row;
    let args = [*value, Value::Int(7), ZERO, ZERO];
    let mut eu = after(rt, alloc, invoke(alloc, *place)?, &args)?;
    calls(rt, &mut eu, *node, &[Value::Int(7), *value], 1);
    assert!(rt; !eu.has_out());
    Ok(())
}

#[test]
fn nodes_of_calls(rt: HostRuntime) -> Result<(), NoMemory> {
    for row in PLACES {
        is_placed(&rt, rt.alloc(), row)?;
    }
    Ok(())
}

/// Two calls between two blocks.
fn four_births(alloc: Global) -> Result<List<Instr>, NoMemory> {
    let mut instrs = List::new(alloc);
    instrs.push(Instr::Alloc(4, 1, 1, 0, AT))?;
    instrs.push(invoke(alloc, CallPlace::Here)?)?;
    instrs.push(invoke(alloc, CallPlace::Home)?)?;
    instrs.push(Instr::Alloc(4, 1, 1, 0, AT))?;
    Ok(instrs)
}

/// The births of the unit's blocks 0, 1 and 2, by frame and number.
const BLOCKS: &[(u64, u64)] = &[(1, 1), (2, 1), (2, 4)];

fn is_birth(rt: &impl Abort, birth: &Birth, row: &(u64, u64)) {
    let (frame, number) = row;
    assert!(rt; birth.frame == *frame && birth.number == *number);
}

fn are_births(rt: &impl Abort, births: &List<Birth>) {
    assert_eq!(rt; births.len(), BLOCKS.len());
    for (birth, row) in births.as_slice().iter().zip(BLOCKS) {
        is_birth(rt, birth, row);
    }
}

#[test]
fn each_birth_takes_the_next_number(rt: HostRuntime) -> Result<(), NoMemory> {
    let code = code(rt.alloc(), four_births(rt.alloc())?)?;
    let mut eu = unit(&rt, rt.alloc())?;
    let args = [ZERO, Value::Int(1), ZERO, ZERO];
    went(&rt, runs(rt.alloc(), &mut eu, &code, &args)?);
    calls(&rt, &mut eu, 1, &[Value::Int(1), ZERO], 2);
    calls(&rt, &mut eu, 0, &[Value::Int(1), ZERO], 3);
    are_births(&rt, &eu.node().births().blocks);
    Ok(())
}

// ---- ends

#[test]
fn the_end_of_a_function(rt: HostRuntime) -> Result<(), NoMemory> {
    let end = Instr::EndFunction(cells(rt.alloc(), &[1])?);
    let mut eu = after(&rt, rt.alloc(), end, &[ZERO, OTHER, ZERO, ZERO])?;
    answers(&rt, &said(&rt, &mut eu), OTHER);
    assert!(rt; matches!(&only(&rt, &mut eu), Message::EndFrame { frame: 2 }));
    assert!(rt; !eu.node().live(2));
    assert!(rt; eu.node().live(1));
    Ok(())
}

#[test]
fn the_end_of_a_fiber(rt: HostRuntime) -> Result<(), NoMemory> {
    let eu = after(&rt, rt.alloc(), Instr::EndFiber, &[OTHER, ZERO, ZERO, ZERO])?;
    assert!(rt; eu.node().live(2));
    assert_eq!(rt; eu.node().cell_count(2), 5);
    assert!(rt; !eu.has_out());
    assert!(rt; !eu.waiting());
    Ok(())
}
