//! Fiber runs: the order of instructions, jumps, traps, and fibers that are spawned.
use crate::execution::{
    AT, OWN, ZERO, after, cells, code, code_of, is_second_fiber, only, runs, said, same, trapped,
    unit, went,
};
use ec_base::{List, NoMemory, TrapKind, Value};
use ec_code::{Code, Instr, Message};
use ec_eu::{Eu, EuEnd};
use std::alloc::Global;
use std::process::Abort;

// ---- jumps

/// A jump, over an instruction that sets cell 4 to 1, an end, and one that adds 2.
fn jumping(alloc: Global, jump: Instr) -> Result<List<Instr>, NoMemory> {
    let mut instrs = List::new(alloc);
    instrs.push(jump)?;
    instrs.push(Instr::Const(4, 1))?;
    instrs.push(Instr::Add(4, 4, 1))?;
    Ok(instrs)
}

/// A fiber that begins with a jump, with this value in cell 0 and 2 in cell 1, leaves a number in cell 4.
fn jumps(
    rt: &impl Abort,
    alloc: Global,
    jump: Instr,
    value: Value,
    left: i64,
) -> Result<(), NoMemory> {
    let code = code(alloc, jumping(alloc, jump)?)?;
    let mut eu = unit(rt, alloc)?;
    let args = [value, Value::Int(2), ZERO, ZERO];
    went(rt, runs(alloc, &mut eu, &code, &args)?);
    assert!(rt; same(eu.node().cell(2, 4), Value::Int(left)));
    Ok(())
}

/// What the cell of a JUMPZ holds, and what the fiber leaves.
const TESTED: &[(Value, i64)] = &[
    (ZERO, 2),
    (Value::Null, 2),
    (OWN, 2),
    (Value::Int(1), 3),
    (Value::Int(-1), 3),
];

#[test]
fn jumps_that_are_taken(rt: HostRuntime) -> Result<(), NoMemory> {
    for (value, left) in TESTED {
        jumps(&rt, rt.alloc(), Instr::JumpZ(0, 2), *value, *left)?;
    }
    Ok(())
}

/// Where a jump leads, and what the fiber leaves: one that doesn't lead forward goes on behind itself.
const TARGETS: &[(u32, i64)] = &[(0, 3), (1, 3), (2, 2), (3, 0), (u32::MAX, 0)];

#[test]
fn targets_of_jumps(rt: HostRuntime) -> Result<(), NoMemory> {
    for (target, left) in TARGETS {
        jumps(&rt, rt.alloc(), Instr::Jump(*target), ZERO, *left)?;
    }
    Ok(())
}

// ---- traps

/// Sets cell 4, syncs slot 3 and spawns, and traps before it does so again.
fn trapping(alloc: Global) -> Result<List<Instr>, NoMemory> {
    let mut instrs = List::new(alloc);
    instrs.push(Instr::Const(4, 8))?;
    instrs.push(Instr::Sync(3))?;
    instrs.push(Instr::Spawn(1))?;
    instrs.push(Instr::Div(4, 4, 0, AT))?;
    instrs.push(Instr::Const(4, 9))?;
    instrs.push(Instr::Sync(4))?;
    Ok(instrs)
}

/// What frame 2 did before its trap, and the trap.
fn is_kept(rt: &impl Abort, eu: &mut Eu) {
    match eu.trap() {
        Some(trap) => trapped(rt, EuEnd::Trapped(trap), TrapKind::DivZero, AT),
        None => panic!(rt; "the trap is kept"),
    }
    assert!(rt; same(eu.node().cell(2, 4), Value::Int(8)));
    assert!(rt; eu.node().live(2));
    assert!(rt; eu.waiting());
    match &only(rt, eu) {
        Message::Sync { node, frame, slot } => {
            assert!(rt; *node == 1 && *frame == 2 && *slot == 3);
        }
        _ => panic!(rt; "the slot is synced"),
    }
}

#[test]
fn what_a_fiber_did_before_its_trap(rt: HostRuntime) -> Result<(), NoMemory> {
    let code = code(rt.alloc(), trapping(rt.alloc())?)?;
    let mut eu = unit(&rt, rt.alloc())?;
    assert!(rt; eu.trap().is_none());
    let end = runs(rt.alloc(), &mut eu, &code, &[ZERO; 4])?;
    trapped(&rt, end, TrapKind::DivZero, AT);
    is_kept(&rt, &mut eu);
    Ok(())
}

// ---- spawned fibers

/// Runs the oldest spawned fiber.
fn runs_spawned(rt: &impl Abort, alloc: Global, eu: &mut Eu, code: &Code) -> Result<(), NoMemory> {
    assert!(rt; eu.waiting());
    went(rt, eu.spawned(alloc, code)?);
    Ok(())
}

#[test]
fn a_spawned_fiber(rt: HostRuntime) -> Result<(), NoMemory> {
    let code = code_of(rt.alloc(), Instr::Spawn(1))?;
    let mut eu = unit(&rt, rt.alloc())?;
    assert!(rt; !eu.waiting());
    went(&rt, runs(rt.alloc(), &mut eu, &code, &[ZERO; 4])?);
    went(&rt, runs(rt.alloc(), &mut eu, &code, &[ZERO; 4])?);
    assert!(rt; !eu.has_out());
    runs_spawned(&rt, rt.alloc(), &mut eu, &code)?;
    assert!(rt; is_second_fiber(&only(&rt, &mut eu), 2));
    runs_spawned(&rt, rt.alloc(), &mut eu, &code)?;
    assert!(rt; is_second_fiber(&only(&rt, &mut eu), 3));
    assert!(rt; !eu.waiting());
    Ok(())
}

#[test]
fn a_spawned_fiber_that_is_not_there(rt: HostRuntime) -> Result<(), NoMemory> {
    let code = code_of(rt.alloc(), Instr::Spawn(3))?;
    let mut eu = after(&rt, rt.alloc(), Instr::Spawn(3), &[ZERO; 4])?;
    runs_spawned(&rt, rt.alloc(), &mut eu, &code)?;
    assert!(rt; !eu.has_out());
    assert!(rt; !eu.waiting());
    Ok(())
}

/// Spawns a fiber, and ends the function.
fn ending(alloc: Global) -> Result<List<Instr>, NoMemory> {
    let mut instrs = List::new(alloc);
    instrs.push(Instr::Spawn(1))?;
    instrs.push(Instr::EndFunction(cells(alloc, &[0])?))?;
    instrs.push(Instr::Sync(4))?;
    Ok(instrs)
}

#[test]
fn a_spawned_fiber_of_an_ended_frame(rt: HostRuntime) -> Result<(), NoMemory> {
    let code = code(rt.alloc(), ending(rt.alloc())?)?;
    let mut eu = unit(&rt, rt.alloc())?;
    went(&rt, runs(rt.alloc(), &mut eu, &code, &[ZERO; 4])?);
    assert!(rt; matches!(&said(&rt, &mut eu), Message::Work { .. }));
    assert!(rt; matches!(&only(&rt, &mut eu), Message::EndFrame { frame: 2 }));
    runs_spawned(&rt, rt.alloc(), &mut eu, &code)?;
    assert!(rt; !eu.has_out());
    assert!(rt; !eu.waiting());
    Ok(())
}

#[test]
fn a_spawned_fiber_that_traps(rt: HostRuntime) -> Result<(), NoMemory> {
    let code = code_of(rt.alloc(), Instr::Spawn(2))?;
    let mut eu = unit(&rt, rt.alloc())?;
    went(&rt, runs(rt.alloc(), &mut eu, &code, &[ZERO; 4])?);
    assert!(rt; eu.waiting());
    trapped(&rt, eu.spawned(rt.alloc(), &code)?, TrapKind::DivZero, AT);
    assert!(rt; eu.trap().is_some());
    assert!(rt; !eu.waiting());
    Ok(())
}
