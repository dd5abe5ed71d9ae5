//! Worlds of one node and more, from their start to their end.
use ec_base::{List, MAX_NODES, NoMemory, Span, Text, TrapKind};
use ec_code::{CallPlace, Code, Fiber, Function, Instr, valid};
use ec_world::{Act, Choice, World, enabled_exactly};
use std::alloc::Global;
use std::process::Abort;

const AT: Span = Span { from: 3, to: 5 };

fn list(alloc: Global, numbers: &[u32]) -> Result<List<u32>, NoMemory> {
    Ok(List::from_slice(alloc, numbers)?)
}

fn text(alloc: Global, bytes: &[u8]) -> Result<Text, NoMemory> {
    Ok(Text::from_slice(alloc, bytes)?)
}

/// A function without fibers, of four cells and one slot.
fn function(alloc: Global, name: &[u8], params: u32) -> Result<Function, NoMemory> {
    Ok(Function {
        name: text(alloc, name)?,
        params,
        results: 1,
        cells: 4,
        slots: 1,
        fibers: List::new(alloc),
    })
}

/// Calls function 1 with a cell on a node, whose number cell 1 holds, and goes on in fiber 1 with the result in cell 2.
fn call(alloc: Global, args: &[u32]) -> Result<Fiber, NoMemory> {
    let mut instrs = List::new(alloc);
    instrs.push(Instr::Const(1, 1))?;
    instrs.push(Instr::InitSync(0, 1, 1, 1))?;
    let results = list(alloc, &[2])?;
    instrs.push(Instr::Invoke(1, CallPlace::Node(1), results, 0, list(alloc, args)?))?;
    instrs.push(Instr::EndFiber)?;
    Ok(Fiber { instrs })
}

/// Reads the first cell of the block to which cell 2 points into cell 3, and goes on in fiber 2.
fn read(alloc: Global) -> Result<Fiber, NoMemory> {
    let mut instrs = List::new(alloc);
    instrs.push(Instr::InitSync(0, 1, 1, 2))?;
    instrs.push(Instr::GetSync(2, 0, 1, 0, 3, 0, AT))?;
    instrs.push(Instr::EndFiber)?;
    Ok(Fiber { instrs })
}

/// Prints cell 3 and goes on in fiber 3.
fn print(alloc: Global) -> Result<Fiber, NoMemory> {
    let mut instrs = List::new(alloc);
    instrs.push(Instr::InitSync(0, 1, 1, 3))?;
    instrs.push(Instr::PrintSync(text(alloc, b"%d\n")?, list(alloc, &[3])?, 0))?;
    instrs.push(Instr::EndFiber)?;
    Ok(Fiber { instrs })
}

/// Returns a cell.
fn give(alloc: Global, cell: u32) -> Result<Fiber, NoMemory> {
    let mut instrs = List::new(alloc);
    instrs.push(Instr::EndFunction(list(alloc, &[cell])?))?;
    Ok(Fiber { instrs })
}

/// Makes a block of one cell that holds 7, and returns its pointer.
fn seven(alloc: Global) -> Result<Fiber, NoMemory> {
    let mut instrs = List::new(alloc);
    instrs.push(Instr::Const(1, 1))?;
    instrs.push(Instr::Alloc(2, 1, 1, 0, AT))?;
    instrs.push(Instr::Const(3, 7))?;
    instrs.push(Instr::Store(2, 0, 1, 0, 3, AT))?;
    instrs.push(Instr::EndFunction(list(alloc, &[2])?))?;
    Ok(Fiber { instrs })
}

/// Returns NULL.
fn null(alloc: Global) -> Result<Fiber, NoMemory> {
    let mut instrs = List::new(alloc);
    instrs.push(Instr::Nil(2))?;
    instrs.push(Instr::EndFunction(list(alloc, &[2])?))?;
    Ok(Fiber { instrs })
}

/// Returns 0 where cell 0 is 0, and else calls itself with one less and goes on in fiber 1.
fn descend(alloc: Global) -> Result<Fiber, NoMemory> {
    let mut instrs = List::new(alloc);
    instrs.push(Instr::JumpZ(0, 6))?;
    instrs.push(Instr::Const(1, 1))?;
    instrs.push(Instr::Sub(2, 0, 1))?;
    instrs.push(Instr::InitSync(0, 1, 1, 1))?;
    let (results, args) = (list(alloc, &[3])?, list(alloc, &[2])?);
    instrs.push(Instr::Invoke(1, CallPlace::Here, results, 0, args))?;
    instrs.push(Instr::EndFiber)?;
    instrs.push(Instr::EndFunction(list(alloc, &[0])?))?;
    Ok(Fiber { instrs })
}

/// Returns one more than cell 3.
fn ascend(alloc: Global) -> Result<Fiber, NoMemory> {
    let mut instrs = List::new(alloc);
    instrs.push(Instr::Const(1, 1))?;
    instrs.push(Instr::Add(3, 3, 1))?;
    instrs.push(Instr::EndFunction(list(alloc, &[3])?))?;
    Ok(Fiber { instrs })
}

fn code(alloc: Global, main: Function, callee: Function) -> Result<Code, NoMemory> {
    let mut functions = List::new(alloc);
    functions.push(main)?;
    functions.push(callee)?;
    Ok(Code { main: 0, functions })
}

/// Prints what a block of node 1 holds that a call there made, and returns it.
fn reading(alloc: Global, callee: Fiber) -> Result<Code, NoMemory> {
    let mut main = function(alloc, b"main", 0)?;
    main.fibers.push(call(alloc, &[])?)?;
    main.fibers.push(read(alloc)?)?;
    main.fibers.push(print(alloc)?)?;
    main.fibers.push(give(alloc, 3)?)?;
    let mut other = function(alloc, b"other", 0)?;
    other.fibers.push(callee)?;
    code(alloc, main, other)
}

/// Calls a function that calls itself as often as main's argument says.
fn deep(alloc: Global) -> Result<Code, NoMemory> {
    let mut main = function(alloc, b"main", 1)?;
    main.fibers.push(call(alloc, &[0])?)?;
    main.fibers.push(give(alloc, 2)?)?;
    let mut other = function(alloc, b"deep", 1)?;
    other.fibers.push(descend(alloc)?)?;
    other.fibers.push(ascend(alloc)?)?;
    code(alloc, main, other)
}

const ACTS: &[Act] = &[
    Act::EuReady,
    Act::EuSpawn,
    Act::EuEvent,
    Act::EuHungry,
    Act::SuEvent,
    Act::SuReady,
];

const BACKWARD: &[Act] = &[
    Act::SuReady,
    Act::SuEvent,
    Act::EuEvent,
    Act::EuSpawn,
    Act::EuReady,
];

/// Makes a step, where it is enabled, and says whether it was.
fn try_step(rt: &impl Abort, alloc: Global, code: &Code, world: &mut World, c: Choice) -> bool {
    assert!(rt; world.handled() < 1 << 32);
    if !world.enabled(c) {
        assert!(rt; world.step(alloc, code, c).is_err());
        return false;
    }
    assert!(rt; world.held(c) < 64);
    assert!(rt; world.step(alloc, code, c).is_ok());
    true
}

/// Makes each enabled step of one node once, and says whether there was one.
fn round(
    rt: &impl Abort,
    alloc: Global,
    code: &Code,
    world: &mut World,
    node: u32,
    acts: &[Act],
) -> bool {
    let mut moved = false;
    for act in acts {
        let c = Choice {
            node,
            act: *act,
            peer: 0,
            pick: 0,
        };
        moved = try_step(rt, alloc, code, world, c) || moved;
    }
    for peer in 0..world.nodes() {
        for act in [Act::SuSend, Act::SuNet] {
            let c = Choice {
                node,
                act,
                peer,
                pick: 0,
            };
            moved = try_step(rt, alloc, code, world, c) || moved;
        }
    }
    moved
}

/// The world after all steps that there are, node by node.
fn last(
    rt: &impl Abort,
    alloc: Global,
    code: &Code,
    nodes: u32,
    args: &[i64],
    acts: &[Act],
) -> Result<World, NoMemory> {
    assert!(rt; valid(code));
    assert!(rt; 0 < nodes);
    assert!(rt; nodes <= MAX_NODES);
    let mut world = World::start(alloc, code, nodes, args)?;
    for _ in 0..20_000 {
        let mut moved = false;
        for node in 0..nodes {
            moved = round(rt, alloc, code, &mut world, node, acts) || moved;
        }
        if !moved {
            break;
        }
    }
    Ok(world)
}

#[test]
fn blocks_of_other_nodes_are_read(rt: HostRuntime) -> Result<(), NoMemory> {
    for nodes in 1..4 {
        for acts in [ACTS, BACKWARD] {
            let code = reading(rt.alloc(), seven(rt.alloc())?)?;
            let world = last(&rt, rt.alloc(), &code, nodes, &[], acts)?;
            assert_eq!(rt; world.result(), Some(7));
            assert_eq!(rt; world.output().as_slice(), b"7\n".as_slice());
            assert!(rt; world.trap().is_none());
        }
    }
    Ok(())
}

#[test]
fn reads_through_null_trap(rt: HostRuntime) -> Result<(), NoMemory> {
    for nodes in 1..4 {
        let code = reading(rt.alloc(), null(rt.alloc())?)?;
        let world = last(&rt, rt.alloc(), &code, nodes, &[], ACTS)?;
        assert!(rt; !world.ended());
        assert_eq!(rt; world.result(), None);
        let trap = world.trap();
        assert!(rt; trap.is_some_and(|t| matches!(t.kind, TrapKind::Null) && t.at.from == AT.from));
    }
    Ok(())
}

#[test]
fn calls_are_six_hundred_deep(rt: HostRuntime) -> Result<(), NoMemory> {
    for nodes in 1..3 {
        let code = deep(rt.alloc())?;
        let world = last(&rt, rt.alloc(), &code, nodes, &[600, 5], ACTS)?;
        assert_eq!(rt; world.result(), Some(600));
    }
    Ok(())
}

#[test]
fn missing_arguments_are_0(rt: HostRuntime) -> Result<(), NoMemory> {
    let code = deep(rt.alloc())?;
    let world = last(&rt, rt.alloc(), &code, 1, &[], ACTS)?;
    assert_eq!(rt; world.result(), Some(0));
    enabled_exactly();
    Ok(())
}
