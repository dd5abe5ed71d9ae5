//! Execution units, step by step. A test is one instruction, or one entry, and what it leaves, says or traps with.
use ec_base::{Birth, Block, List, NoMemory, Span, Text, TrapKind, Value};
use ec_code::{Back, Call, Code, Entry, Fiber, Function, Instr, Message};
use ec_eu::{Eu, EuEnd};
use std::alloc::Global;
use std::process::Abort;

mod calls;
mod entries;
mod fibers;
mod memory;
mod messages;
mod nothing;
mod numbers;

const AT: Span = Span { from: 3, to: 5 };

/// The place of a copy's target.
const AT_TO: Span = Span { from: 8, to: 9 };

const ZERO: Value = Value::Int(0);

/// The block of the unit's own node.
const OWN: Value = Value::Ptr(Block { node: 1, number: 0 });

/// A block of another node, with the number of the own one.
const OTHER: Value = Value::Ptr(Block { node: 2, number: 0 });

/// Where memory answers to.
const BACK: Back = Back {
    node: 2,
    frame: 5,
    cell: Some(6),
    slot: 7,
};

fn cells(alloc: Global, numbers: &[u32]) -> Result<List<u32>, NoMemory> {
    Ok(List::from_slice(alloc, numbers)?)
}

fn values(alloc: Global, values: &[Value]) -> Result<List<Value>, NoMemory> {
    Ok(List::from_slice(alloc, values)?)
}

fn text(alloc: Global, bytes: &[u8]) -> Result<Text, NoMemory> {
    Ok(Text::from_slice(alloc, bytes)?)
}

fn same(a: Value, b: Value) -> bool {
    match a {
        Value::Int(m) => match b {
            Value::Int(n) => m == n,
            _ => false,
        },
        Value::Null => matches!(b, Value::Null),
        Value::Ptr(p) => match b {
            Value::Ptr(q) => p.node == q.node && p.number == q.number,
            _ => false,
        },
    }
}

fn are(rt: &impl Abort, found: &List<Value>, wanted: &[Value]) {
    assert_eq!(rt; found.len(), wanted.len());
    for (at, value) in wanted.iter().enumerate() {
        assert!(rt; found.get(at).is_some_and(|v| same(*v, *value)));
    }
}

fn same_kind(a: TrapKind, b: TrapKind) -> bool {
    match a {
        TrapKind::Null => matches!(b, TrapKind::Null),
        TrapKind::Bounds => matches!(b, TrapKind::Bounds),
        TrapKind::DivZero => matches!(b, TrapKind::DivZero),
        TrapKind::BadSize => matches!(b, TrapKind::BadSize),
    }
}

// ---- code

/// An instruction, and the end of its fiber.
fn single(alloc: Global, x: Instr) -> Result<List<Instr>, NoMemory> {
    let mut instrs = List::new(alloc);
    instrs.push(x)?;
    instrs.push(Instr::EndFiber)?;
    Ok(instrs)
}

/// The fibers of a function: the first has these instructions, the second syncs slot 9, and the third divides by 0.
fn fibers_with(alloc: Global, instrs: List<Instr>) -> Result<List<Fiber>, NoMemory> {
    let mut fibers = List::new(alloc);
    fibers.push(Fiber { instrs })?;
    fibers.push(Fiber {
        instrs: single(alloc, Instr::Sync(9))?,
    })?;
    fibers.push(Fiber {
        instrs: single(alloc, Instr::Rem(4, 4, 4, AT))?,
    })?;
    Ok(fibers)
}

/// One function, of four parameters, and of so many cells and results.
fn code_with(
    alloc: Global,
    fibers: List<Fiber>,
    cells: u32,
    results: u32,
) -> Result<Code, NoMemory> {
    let mut functions = List::new(alloc);
    functions.push(Function {
        name: text(alloc, b"f")?,
        params: 4,
        results,
        cells,
        slots: 10,
        fibers,
    })?;
    Ok(Code { main: 0, functions })
}

/// One function, of four parameters, one result and five cells, whose first fiber has these instructions.
fn code(alloc: Global, instrs: List<Instr>) -> Result<Code, NoMemory> {
    code_with(alloc, fibers_with(alloc, instrs)?, 5, 1)
}

fn code_of(alloc: Global, x: Instr) -> Result<Code, NoMemory> {
    code(alloc, single(alloc, x)?)
}

/// A call of the function with these arguments, whose result goes where memory answers to.
fn call(alloc: Global, args: &[Value]) -> Result<Entry, NoMemory> {
    let call = Call {
        function: 0,
        args: values(alloc, args)?,
        birth: Some(Birth {
            node: 2,
            frame: 5,
            number: 3,
        }),
        node: BACK.node,
        frame: BACK.frame,
        cells: cells(alloc, &[6])?,
        slot: BACK.slot,
    };
    Ok(Entry::Enter { call })
}

// ---- entries

/// Values for cells 4, 5 and 0 of a frame, then a sync of slot 3.
fn fill(alloc: Global, frame: u64) -> Result<Entry, NoMemory> {
    Ok(Entry::Fill {
        frame,
        slot: 3,
        cells: cells(alloc, &[4, 5, 0])?,
        values: values(alloc, &[OTHER, OTHER, Value::Null])?,
    })
}

/// A filled slot starts a fiber of a frame.
fn start(frame: u64, fiber: u32) -> Entry {
    Entry::Start {
        frame,
        fiber,
        slot: 0,
        filling: 1,
    }
}

// ---- units

fn went(rt: &impl Abort, end: EuEnd) {
    assert!(rt; matches!(end, EuEnd::Went));
}

fn trapped(rt: &impl Abort, end: EuEnd, kind: TrapKind, at: Span) {
    let EuEnd::Trapped(trap) = end else {
        panic!(rt; "the step traps");
    };
    assert!(rt; same_kind(trap.kind, kind));
    assert_eq!(rt; trap.at, at);
}

/// Calls the function with these arguments: a frame more, whose fiber 0 runs.
fn runs(alloc: Global, eu: &mut Eu, code: &Code, args: &[Value]) -> Result<EuEnd, NoMemory> {
    let call = call(alloc, args)?;
    eu.entry(alloc, code, call)
}

/// Node 1 of 3. Frame 1 lives, and has made block 0 of the cells 0, NULL, 0, NULL, 0, NULL.
fn unit(rt: &impl Abort, alloc: Global) -> Result<Eu, NoMemory> {
    let code = code_of(alloc, Instr::Alloc(4, 0, 2, 2, AT))?;
    let mut eu = Eu::new(alloc, 1, 3)?;
    went(
        rt,
        runs(alloc, &mut eu, &code, &[Value::Int(3), ZERO, ZERO, ZERO])?,
    );
    Ok(eu)
}

/// The unit after an instruction of frame 2, with these arguments in its cells 0 to 3.
fn after(rt: &impl Abort, alloc: Global, x: Instr, args: &[Value]) -> Result<Eu, NoMemory> {
    let code = code_of(alloc, x)?;
    let mut eu = unit(rt, alloc)?;
    went(rt, runs(alloc, &mut eu, &code, args)?);
    Ok(eu)
}

/// An instruction that says nothing and leaves a value in cell 4.
fn leaves(
    rt: &impl Abort,
    alloc: Global,
    x: Instr,
    args: &[Value],
    value: Value,
) -> Result<(), NoMemory> {
    let eu = after(rt, alloc, x, args)?;
    assert!(rt; same(eu.node().cell(2, 4), value));
    assert!(rt; !eu.has_out());
    Ok(())
}

/// An instruction that traps so, and neither sets its cell, nor makes a block, nor says anything.
fn traps(
    rt: &impl Abort,
    alloc: Global,
    x: Instr,
    args: &[Value],
    kind: TrapKind,
    at: Span,
) -> Result<(), NoMemory> {
    let code = code_of(alloc, x)?;
    let mut eu = unit(rt, alloc)?;
    trapped(rt, runs(alloc, &mut eu, &code, args)?, kind, at);
    assert!(rt; same(eu.node().cell(2, 4), ZERO));
    assert_eq!(rt; eu.node().births().blocks.len(), 1);
    assert!(rt; !eu.has_out());
    Ok(())
}

// ---- messages

/// The oldest message of the outbox.
fn said(rt: &impl Abort, eu: &mut Eu) -> Message {
    match eu.take_out() {
        Some(message) => message,
        None => panic!(rt; "a message is said"),
    }
}

/// The one message that is said.
fn only(rt: &impl Abort, eu: &mut Eu) -> Message {
    let message = said(rt, eu);
    assert!(rt; !eu.has_out());
    message
}

/// The answer of a value, or of a result.
fn answers(rt: &impl Abort, message: &Message, value: Value) {
    let Message::Work {
        node: 2,
        entry: Entry::Fill {
            frame: 5,
            slot: 7,
            cells,
            values,
        },
    } = message
    else {
        panic!(rt; "a value is answered");
    };
    assert_eq!(rt; cells.as_slice(), &[6u32][..]);
    are(rt, values, &[value]);
}

/// The answer that something is done.
fn is_done(message: &Message) -> bool {
    matches!(
        message,
        Message::Sync {
            node: 2,
            frame: 5,
            slot: 7,
        }
    )
}

/// The sync of fiber 1 in a frame.
fn is_second_fiber(message: &Message, n: u64) -> bool {
    match message {
        Message::Sync { node, frame, slot } => *node == 1 && *frame == n && *slot == 9,
        _ => false,
    }
}
