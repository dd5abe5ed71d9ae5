//! What instructions name, and which code is valid.
use ec_base::{List, NoMemory, Span, Text};
use ec_code::{CallPlace, Code, Fiber, Function, Instr, valid};
use std::alloc::Global;
use std::process::Abort;

const AT: Span = Span { from: 0, to: 0 };

fn text(alloc: Global, bytes: &[u8]) -> Result<Text, NoMemory> {
    Ok(Text::from_slice(alloc, bytes)?)
}

fn cells(alloc: Global, numbers: &[u32]) -> Result<List<u32>, NoMemory> {
    Ok(List::from_slice(alloc, numbers)?)
}

fn print(alloc: Global, string: &[u8], numbers: &[u32], slot: u32) -> Result<Instr, NoMemory> {
    Ok(Instr::PrintSync(text(alloc, string)?, cells(alloc, numbers)?, slot))
}

fn call(
    alloc: Global,
    function: u32,
    place: CallPlace,
    results: &[u32],
    args: &[u32],
) -> Result<Instr, NoMemory> {
    Ok(Instr::Invoke(
        function,
        place,
        cells(alloc, results)?,
        0,
        cells(alloc, args)?,
    ))
}

fn end(alloc: Global, results: &[u32]) -> Result<Instr, NoMemory> {
    Ok(Instr::EndFunction(cells(alloc, results)?))
}

// ---- what instructions name

/// The slot that is named, the one that is set up, the fiber, the place of a jump, and whether it is the end.
type Names = (Option<u32>, Option<u32>, Option<u32>, Option<u32>, bool);

fn names(rt: &impl Abort, x: Instr, wanted: Names) {
    let (slot, set_up, fiber, target, ends) = wanted;
    assert_eq!(rt; x.slot(), slot);
    assert_eq!(rt; x.slot_set_up(), set_up);
    assert_eq!(rt; x.fiber(), fiber);
    assert_eq!(rt; x.jump_target(), target);
    assert_eq!(rt; x.ends(), ends);
}

#[test]
fn slots_that_instructions_name(rt: HostRuntime) -> Result<(), NoMemory> {
    let alloc = rt.alloc();
    names(
        &rt,
        Instr::InitSync(3, 1, 2, 4),
        (Some(3), Some(3), Some(4), None, false),
    );
    names(&rt, Instr::Sync(5), (Some(5), None, None, None, false));
    names(&rt, Instr::IncrSync(6), (Some(6), None, None, None, false));
    names(
        &rt,
        Instr::GetSync(1, 2, 3, 4, 5, 7, AT),
        (Some(7), None, None, None, false),
    );
    names(
        &rt,
        Instr::DataSync(1, 2, 3, 4, 5, 8, AT),
        (Some(8), None, None, None, false),
    );
    names(
        &rt,
        Instr::BlkmovSync(1, 2, 3, 4, 5, 9, AT, AT),
        (Some(9), None, None, None, false),
    );
    names(
        &rt,
        Instr::AddSync(1, 2, 10, AT),
        (Some(10), None, None, None, false),
    );
    names(
        &rt,
        print(alloc, b"", &[], 11)?,
        (Some(11), None, None, None, false),
    );
    names(
        &rt,
        call(rt.alloc(), 1, CallPlace::Home, &[2], &[3])?,
        (Some(0), None, None, None, false),
    );
    Ok(())
}

#[test]
fn what_other_instructions_name(rt: HostRuntime) -> Result<(), NoMemory> {
    names(&rt, Instr::Const(1, 2), (None, None, None, None, false));
    names(&rt, Instr::Spawn(5), (None, None, Some(5), None, false));
    names(&rt, Instr::Jump(6), (None, None, None, Some(6), false));
    names(&rt, Instr::JumpZ(1, 7), (None, None, None, Some(7), false));
    names(&rt, end(rt.alloc(), &[1])?, (None, None, None, None, true));
    names(&rt, Instr::EndFiber, (None, None, None, None, true));
    Ok(())
}

// ---- single instructions

/// Fiber 0 of main, in which an instruction stands second of four.
fn around(alloc: Global, x: Instr) -> Result<Fiber, NoMemory> {
    let mut instrs = List::new(alloc);
    instrs.push(Instr::InitSync(0, 1, 255, 1))?;
    instrs.push(x)?;
    instrs.push(Instr::Const(2, 0))?;
    instrs.push(Instr::EndFiber)?;
    Ok(Fiber { instrs })
}

fn single(alloc: Global, x: Instr) -> Result<Fiber, NoMemory> {
    let mut instrs = List::new(alloc);
    instrs.push(x)?;
    Ok(Fiber { instrs })
}

/// A function of one parameter and one result that returns its argument.
fn identity(alloc: Global, name: &[u8]) -> Result<Function, NoMemory> {
    let mut fibers = List::new(alloc);
    fibers.push(single(alloc, end(alloc, &[0])?)?)?;
    Ok(Function {
        name: text(alloc, name)?,
        params: 1,
        results: 1,
        cells: 1,
        slots: 0,
        fibers,
    })
}

/// main, of three cells, two slots, of which the first is set up, and two fibers; the instruction stands in the first.
fn main_around(alloc: Global, x: Instr) -> Result<Function, NoMemory> {
    let mut fibers = List::new(alloc);
    fibers.push(around(alloc, x)?)?;
    fibers.push(single(alloc, end(alloc, &[0])?)?)?;
    Ok(Function {
        name: text(alloc, b"main")?,
        params: 0,
        results: 1,
        cells: 3,
        slots: 2,
        fibers,
    })
}

/// main and an identity.
fn program(alloc: Global, x: Instr) -> Result<Code, NoMemory> {
    let mut functions = List::new(alloc);
    functions.push(main_around(alloc, x)?)?;
    functions.push(identity(alloc, b"Id.1_z")?)?;
    Ok(Code { main: 0, functions })
}

fn is_valid(rt: &impl Abort, alloc: Global, x: Instr) -> Result<(), NoMemory> {
    assert!(rt; valid(&program(alloc, x)?));
    Ok(())
}

fn is_refused(rt: &impl Abort, alloc: Global, x: Instr) -> Result<(), NoMemory> {
    assert!(rt; !valid(&program(alloc, x)?));
    Ok(())
}

#[test]
fn cells_slots_and_fibers(rt: HostRuntime) -> Result<(), NoMemory> {
    let alloc = rt.alloc();
    is_valid(&rt, alloc, Instr::Const(2, 5))?;
    is_refused(&rt, alloc, Instr::Const(3, 5))?;
    is_refused(&rt, alloc, Instr::Add(0, 1, 3))?;
    is_valid(&rt, alloc, Instr::Sync(0))?;
    is_refused(&rt, alloc, Instr::Sync(1))?;
    is_refused(&rt, alloc, Instr::Sync(2))?;
    is_valid(&rt, alloc, Instr::InitSync(1, 255, 1, 1))?;
    is_refused(&rt, alloc, Instr::InitSync(2, 1, 1, 1))?;
    is_valid(&rt, alloc, Instr::Spawn(1))?;
    is_refused(&rt, alloc, Instr::Spawn(2))?;
    Ok(())
}

#[test]
fn jumps(rt: HostRuntime) -> Result<(), NoMemory> {
    let alloc = rt.alloc();
    is_valid(&rt, alloc, Instr::Jump(2))?;
    is_valid(&rt, alloc, Instr::JumpZ(0, 3))?;
    is_refused(&rt, alloc, Instr::Jump(1))?;
    is_refused(&rt, alloc, Instr::Jump(0))?;
    is_refused(&rt, alloc, Instr::JumpZ(0, 4))?;
    Ok(())
}

#[test]
fn calls_and_results(rt: HostRuntime) -> Result<(), NoMemory> {
    let alloc = rt.alloc();
    is_valid(&rt, alloc, call(alloc, 1, CallPlace::Node(2), &[0], &[1])?)?;
    is_refused(&rt, alloc, call(alloc, 1, CallPlace::Node(3), &[0], &[1])?)?;
    is_refused(&rt, alloc, call(alloc, 1, CallPlace::Owner(3), &[0], &[1])?)?;
    is_refused(&rt, alloc, call(alloc, 2, CallPlace::Here, &[0], &[1])?)?;
    is_refused(&rt, alloc, call(alloc, 1, CallPlace::Here, &[], &[1])?)?;
    is_refused(&rt, alloc, call(alloc, 1, CallPlace::Here, &[0], &[])?)?;
    is_valid(&rt, alloc, end(alloc, &[2])?)?;
    is_refused(&rt, alloc, end(alloc, &[])?)?;
    Ok(())
}

#[test]
fn sizes_and_strings(rt: HostRuntime) -> Result<(), NoMemory> {
    let alloc = rt.alloc();
    is_valid(&rt, alloc, Instr::Check(0, 64, AT))?;
    is_refused(&rt, alloc, Instr::Check(0, 65, AT))?;
    is_refused(&rt, alloc, Instr::Check(0, 0, AT))?;
    is_valid(&rt, alloc, Instr::Alloc(0, 1, 64, u64::MAX, AT))?;
    is_valid(&rt, alloc, Instr::Alloc(0, 1, 2, 3, AT))?;
    is_refused(&rt, alloc, Instr::Alloc(0, 1, 2, 4, AT))?;
    is_refused(&rt, alloc, Instr::Alloc(0, 1, 65, 0, AT))?;
    is_refused(&rt, alloc, Instr::Load(0, 1, 2, 0, 0, AT))?;
    is_refused(&rt, alloc, Instr::InitSync(0, 0, 1, 1))?;
    is_refused(&rt, alloc, Instr::InitSync(0, 1, 256, 1))?;
    is_valid(&rt, alloc, print(alloc, b"%d of %ld: 5 %%", &[0, 1], 0)?)?;
    is_refused(&rt, alloc, print(alloc, b"%d of %ld: 5 %%", &[0], 0)?)?;
    is_refused(&rt, alloc, print(alloc, b"%x", &[], 0)?)?;
    is_valid(&rt, alloc, print(alloc, &[b'a'; 255], &[], 0)?)?;
    is_refused(&rt, alloc, print(alloc, &[b'a'; 256], &[], 0)?)?;
    Ok(())
}

// ---- functions and programs

/// Whether main, with this function beside it, is valid.
fn beside(alloc: Global, f: Function) -> Result<bool, NoMemory> {
    let mut functions = List::new(alloc);
    functions.push(f)?;
    functions.push(main_around(alloc, Instr::Nil(0))?)?;
    Ok(valid(&Code { main: 1, functions }))
}

#[test]
fn names_of_functions(rt: HostRuntime) -> Result<(), NoMemory> {
    let alloc = rt.alloc();
    assert!(rt; beside(alloc, identity(alloc, &[b'Z'; 80])?)?);
    assert!(rt; !beside(alloc, identity(alloc, &[b'Z'; 81])?)?);
    assert!(rt; !beside(alloc, identity(alloc, b"")?)?);
    assert!(rt; beside(alloc, identity(alloc, b"az.AZ_09")?)?);
    assert!(rt; !beside(alloc, identity(alloc, b"a-z")?)?);
    Ok(())
}

/// A function of one fiber.
fn of_fiber(alloc: Global, params: u32, cells: u32, fiber: Fiber) -> Result<Function, NoMemory> {
    let mut fibers = List::new(alloc);
    fibers.push(fiber)?;
    Ok(Function {
        name: text(alloc, b"f")?,
        params,
        results: 0,
        cells,
        slots: 0,
        fibers,
    })
}

#[test]
fn cells_and_fibers_of_functions(rt: HostRuntime) -> Result<(), NoMemory> {
    let alloc = rt.alloc();
    let ends = of_fiber(alloc, 2, 2, single(alloc, Instr::EndFiber)?)?;
    assert!(rt; beside(alloc, ends)?);
    let crowded = of_fiber(alloc, 2, 1, single(alloc, Instr::EndFiber)?)?;
    assert!(rt; !beside(alloc, crowded)?);
    let endless = of_fiber(alloc, 1, 1, single(alloc, Instr::Const(0, 1))?)?;
    assert!(rt; !beside(alloc, endless)?);
    let empty = of_fiber(
        alloc,
        1,
        1,
        Fiber {
            instrs: List::new(alloc),
        },
    )?;
    assert!(rt; !beside(alloc, empty)?);
    let mut none = identity(alloc, b"f")?;
    none.fibers = List::new(alloc);
    assert!(rt; !beside(alloc, none)?);
    Ok(())
}

#[test]
fn mains(rt: HostRuntime) -> Result<(), NoMemory> {
    let mut code = program(rt.alloc(), Instr::Nil(0))?;
    assert!(rt; valid(&code));
    code.main = 1;
    assert!(rt; valid(&code));
    code.main = 2;
    assert!(rt; !valid(&code));
    let mut functions = List::new(rt.alloc());
    functions.push(of_fiber(rt.alloc(), 0, 1, single(rt.alloc(), Instr::EndFiber)?)?)?;
    assert!(rt; !valid(&Code { main: 0, functions }));
    Ok(())
}
