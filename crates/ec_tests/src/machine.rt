//! Worlds, step by step.
use ec_base::{Fail as Failure, List, NoMemory, Text};
use ec_core::{Act, Choice, Code, Fiber, Function, Instr, NotEnabled, World, enabled_exactly};
use std::alloc::Global;
use std::process::Abort;

fn text(alloc: Global, bytes: &[u8]) -> Result<Text, NoMemory> {
    Ok(Text::from_slice(alloc, bytes)?)
}

fn cells(alloc: Global, numbers: &[u32]) -> Result<List<u32>, NoMemory> {
    Ok(List::from_slice(alloc, numbers)?)
}

/// The code of one function without parameters, with one result and two cells and slots.
fn code(alloc: Global, name: &[u8], fibers: List<Fiber>) -> Result<Code, NoMemory> {
    let mut functions = List::new(alloc);
    functions.push(Function {
        name: text(alloc, name)?,
        params: 0,
        results: 1,
        cells: 2,
        slots: 2,
        fibers,
    })?;
    Ok(Code { main: 0, functions })
}

/// Prints 7 and goes on in fiber 1.
fn first_print(alloc: Global) -> Result<List<Instr>, NoMemory> {
    let mut instrs = List::new(alloc);
    instrs.push(Instr::Const(0, 7))?;
    instrs.push(Instr::InitSync(0, 1, 1, 1))?;
    instrs.push(Instr::PrintSync(text(alloc, b"a %d\n")?, cells(alloc, &[0])?, 0))?;
    instrs.push(Instr::EndFiber)?;
    Ok(instrs)
}

/// Prints 3 * 7 and goes on in fiber 2.
fn second_print(alloc: Global) -> Result<List<Instr>, NoMemory> {
    let mut instrs = List::new(alloc);
    instrs.push(Instr::InitSync(1, 1, 1, 2))?;
    instrs.push(Instr::Const(1, 3))?;
    instrs.push(Instr::Mul(1, 0, 1))?;
    instrs.push(Instr::PrintSync(text(alloc, b"b %ld%%")?, cells(alloc, &[1])?, 1))?;
    instrs.push(Instr::EndFiber)?;
    Ok(instrs)
}

/// Returns a cell.
fn returned(alloc: Global, cell: u32) -> Result<List<Instr>, NoMemory> {
    let mut instrs = List::new(alloc);
    instrs.push(Instr::EndFunction(cells(alloc, &[cell])?))?;
    Ok(instrs)
}

/// Prints 7 and goes on in fiber 1, which prints 3 * 7 and goes on in fiber 2, which returns that.
fn two_prints(alloc: Global) -> Result<Code, NoMemory> {
    let mut fibers = List::new(alloc);
    fibers.push(Fiber {
        instrs: first_print(alloc)?,
    })?;
    fibers.push(Fiber {
        instrs: second_print(alloc)?,
    })?;
    fibers.push(Fiber {
        instrs: returned(alloc, 1)?,
    })?;
    code(alloc, b"main", fibers)
}

/// Returns 0.
fn nil(alloc: Global) -> Result<Code, NoMemory> {
    let mut instrs = List::new(alloc);
    instrs.push(Instr::Const(0, 0))?;
    instrs.push(Instr::EndFunction(cells(alloc, &[0])?))?;
    let mut fibers = List::new(alloc);
    fibers.push(Fiber { instrs })?;
    code(alloc, b"main", fibers)
}

fn choice(act: Act) -> Choice {
    Choice {
        node: 0,
        act,
        peer: 0,
        pick: 0,
    }
}

/// A step of node 0, which has a step before the world has ended.
fn step(rt: &impl Abort, alloc: Global, code: &Code, world: &mut World, act: Act) {
    assert!(rt; world.result().is_none());
    assert!(rt; world.enabled(choice(act)));
    assert!(rt; world.step(alloc, code, choice(act)).is_ok());
}

/// The world that all these acts of its one node lead to.
fn after(rt: &impl Abort, alloc: Global, code: &Code, acts: &[Act]) -> Result<World, NoMemory> {
    let mut world = World::start(alloc, code, 1, &[])?;
    for act in acts {
        step(rt, alloc, code, &mut world, *act);
    }
    Ok(world)
}

/// What the last of these acts, and none before it, ends with.
fn ends(
    rt: &impl Abort,
    alloc: Global,
    code: &Code,
    acts: &[Act],
    value: i64,
    output: &[u8],
) -> Result<u64, NoMemory> {
    let world = after(rt, alloc, code, acts)?;
    assert!(rt; world.ended());
    assert_eq!(rt; world.result(), Some(value));
    assert_eq!(rt; world.output().as_slice(), output);
    Ok(world.handled())
}

const RETURNING: &[Act] = &[
    Act::EuReady,
    Act::EuEvent,
    Act::SuEvent,
    Act::SuReady,
    Act::EuReady,
    Act::EuEvent,
    Act::EuEvent,
    Act::SuEvent,
    Act::SuEvent,
];

#[test]
fn nothing_but_a_result(rt: HostRuntime) -> Result<(), NoMemory> {
    let code = nil(rt.alloc())?;
    ends(&rt, rt.alloc(), &code, RETURNING, 0, b"")?;
    Ok(())
}

const PRINTING_TWICE: &[Act] = &[
    Act::EuReady,
    Act::EuEvent,
    Act::EuEvent,
    Act::SuEvent,
    Act::SuEvent,
    Act::SuReady,
    Act::EuReady,
    Act::EuEvent,
    Act::SuEvent,
    Act::SuReady,
    Act::EuReady,
    Act::EuEvent,
    Act::EuEvent,
    Act::SuEvent,
    Act::SuEvent,
    Act::SuReady,
    Act::EuReady,
    Act::EuEvent,
    Act::SuEvent,
    Act::SuReady,
    Act::EuReady,
    Act::EuEvent,
    Act::EuEvent,
    Act::SuEvent,
    Act::SuEvent,
    Act::SuReady,
    Act::EuReady,
    Act::EuEvent,
    Act::SuEvent,
];

#[test]
fn two_prints_in_their_order(rt: HostRuntime) -> Result<(), NoMemory> {
    let code = two_prints(rt.alloc())?;
    let handled = ends(&rt, rt.alloc(), &code, PRINTING_TWICE, 21, b"a 7\nb 21%")?;
    assert_eq!(rt; handled, 9);
    Ok(())
}

/// A choice, by its node, act, peer and pick.
type ChoiceRow = (u32, Act, u32, u64);

/// Choices without a step in a world that begins.
const NOT_ENABLED: &[ChoiceRow] = &[
    (0, Act::SuEvent, 0, 0),
    (0, Act::SuSend, 0, 0),
    (2, Act::EuReady, 0, 0),
    (0, Act::EuReady, 1, 0),
    (0, Act::EuReady, 0, 1),
];

fn is_refused(rt: &impl Abort, alloc: Global, code: &Code, world: &mut World, row: &ChoiceRow) {
    let (node, act, peer, pick) = *row;
    let choice = Choice {
        node,
        act,
        peer,
        pick,
    };
    assert!(rt; !world.enabled(choice));
    match world.step(alloc, code, choice) {
        Err(Failure::Refused(NotEnabled)) => {}
        _ => panic!(rt; "a step was made"),
    }
}

#[test]
fn a_choice_that_is_not_enabled(rt: HostRuntime) -> Result<(), NoMemory> {
    let code = nil(rt.alloc())?;
    let mut world = World::start(rt.alloc(), &code, 2, &[])?;
    for row in NOT_ENABLED {
        is_refused(&rt, rt.alloc(), &code, &mut world, row);
    }
    assert!(rt; world.step(rt.alloc(), &code, choice(Act::EuReady)).is_ok());
    world.rooted();
    enabled_exactly();
    Ok(())
}
