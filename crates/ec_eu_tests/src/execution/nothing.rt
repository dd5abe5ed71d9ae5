//! Entries that do nothing.
use crate::execution::{
    ZERO, cells, code_of, code_with, fibers_with, fill, only, runs, start, unit, went,
};
use ec_base::{List, NoMemory};
use ec_code::{Call, Code, Entry, Instr, Message};
use ec_eu::Eu;
use std::alloc::Global;
use std::process::Abort;

/// An entry after which there is no frame more, and nothing that is said or spawned.
fn does_nothing(rt: &impl Abort, alloc: Global, eu: &mut Eu, e: Entry) -> Result<(), NoMemory> {
    let code = code_of(alloc, Instr::Sync(9))?;
    let frames = eu.node().births().frames.len();
    went(rt, eu.entry(alloc, &code, e)?);
    assert_eq!(rt; eu.node().births().frames.len(), frames);
    assert!(rt; !eu.has_out());
    assert!(rt; !eu.waiting());
    Ok(())
}

#[test]
fn frames_that_are_not_live(rt: HostRuntime) -> Result<(), NoMemory> {
    let alloc = rt.alloc();
    let code = code_of(alloc, Instr::EndFunction(cells(alloc, &[0])?))?;
    let mut eu = unit(&rt, alloc)?;
    went(&rt, runs(alloc, &mut eu, &code, &[ZERO; 4])?);
    assert!(rt; matches!(eu.take_out(), Some(Message::Work { .. })));
    assert!(rt; matches!(&only(&rt, &mut eu), Message::EndFrame { frame: 2 }));
    for frame in [2u64, 3, u64::MAX] {
        does_nothing(&rt, alloc, &mut eu, start(frame, 1))?;
        does_nothing(&rt, alloc, &mut eu, fill(alloc, frame)?)?;
    }
    Ok(())
}

#[test]
fn fibers_that_are_not_there(rt: HostRuntime) -> Result<(), NoMemory> {
    let mut eu = unit(&rt, rt.alloc())?;
    for (frame, fiber) in [(1u64, 3u32), (1, u32::MAX), (0, 0), (0, 1)] {
        does_nothing(&rt, rt.alloc(), &mut eu, start(frame, fiber))?;
    }
    Ok(())
}

#[test]
fn a_function_that_the_code_has_not(rt: HostRuntime) -> Result<(), NoMemory> {
    let code = Code {
        main: 0,
        functions: List::new(rt.alloc()),
    };
    let mut eu = unit(&rt, rt.alloc())?;
    went(&rt, eu.entry(rt.alloc(), &code, start(1, 1))?);
    assert!(rt; !eu.has_out());
    Ok(())
}

/// A call of a function with so many arguments, and cells for so many results.
type CallRow = (u32, u32, u32);

const WRONG_CALLS: &[CallRow] = &[
    (1, 4, 1),
    (u32::MAX, 4, 1),
    (0, 3, 1),
    (0, 5, 1),
    (0, 4, 0),
    (0, 4, 2),
];

fn call_of(alloc: Global, row: &CallRow) -> Result<Entry, NoMemory> {
    let (function, args, results) = row;
    let mut call = Call {
        function: *function,
        args: List::new(alloc),
        birth: None,
        node: 0,
        frame: 0,
        cells: List::new(alloc),
        slot: 0,
    };
    for _ in 0..*args {
        call.args.push(ZERO)?;
    }
    for _ in 0..*results {
        call.cells.push(0)?;
    }
    Ok(Entry::Enter { call })
}

#[test]
fn calls_that_fit_no_function(rt: HostRuntime) -> Result<(), NoMemory> {
    let mut eu = unit(&rt, rt.alloc())?;
    for row in WRONG_CALLS {
        does_nothing(&rt, rt.alloc(), &mut eu, call_of(rt.alloc(), row)?)?;
    }
    Ok(())
}

/// How many cells and results the function has in the code with which a fiber of frame 1 is started, and whether it runs.
const CODES: &[(u32, u32, bool)] = &[
    (5, 1, true),
    (4, 1, false),
    (6, 1, false),
    (5, 0, false),
    (5, 2, false),
];

fn starts_with(
    rt: &impl Abort,
    alloc: Global,
    eu: &mut Eu,
    row: &(u32, u32, bool),
) -> Result<(), NoMemory> {
    let (cells, results, runs) = row;
    let fibers = fibers_with(alloc, List::new(alloc))?;
    let code = code_with(alloc, fibers, *cells, *results)?;
    went(rt, eu.entry(alloc, &code, start(1, 1))?);
    assert!(rt; eu.take_out().is_some() == *runs);
    Ok(())
}

#[test]
fn frames_that_suit_a_function(rt: HostRuntime) -> Result<(), NoMemory> {
    let mut eu = unit(&rt, rt.alloc())?;
    for row in CODES {
        starts_with(&rt, rt.alloc(), &mut eu, row)?;
    }
    Ok(())
}
