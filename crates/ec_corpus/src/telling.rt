//! What is printed of a meaning.
use ec_base::{MemCell, Memory, Trap, TrapKind};
use ec_meaning::{Meant, MeantEnd};
use std::alloc::{AllocError, Global};
use std::fmt::Write;

fn name(kind: TrapKind) -> &'static str {
    match kind {
        TrapKind::Null => "Null",
        TrapKind::Bounds => "Bounds",
        TrapKind::DivZero => "DivZero",
        TrapKind::BadSize => "BadSize",
    }
}

fn tell_ending(out: &mut String, ending: MeantEnd) -> Result<(), AllocError> {
    match ending {
        MeantEnd::Ended => out.push_str("ended"),
        MeantEnd::Trapped(Trap { kind, at }) => {
            write!(out, "trap {} at {}..{}", name(kind), at.from, at.to)
        }
        MeantEnd::OutOfTicks => out.push_str("out of ticks"),
        MeantEnd::TooDeep => out.push_str("too deep"),
    }
}

fn tell_path(out: &mut String, births: &[u64]) -> Result<(), AllocError> {
    let mut dot = "";
    for birth in births {
        write!(out, "{dot}{birth}")?;
        dot = ".";
    }
    Ok(())
}

fn tell_cell(out: &mut String, cell: &MemCell) -> Result<(), AllocError> {
    match cell {
        MemCell::Int(number) => write!(out, " {number}"),
        MemCell::Nil => out.push_str(" nil"),
        MemCell::To(path) => {
            out.push_str(" @")?;
            tell_path(out, path.as_slice())
        }
    }
}

/// A line a block: its path and its cells.
fn tell_memory(out: &mut String, memory: &Memory) -> Result<(), AllocError> {
    for (path, cells) in memory.blocks.as_slice() {
        tell_path(out, path.as_slice())?;
        out.push_str(" =")?;
        for cell in cells.as_slice() {
            tell_cell(out, cell)?;
        }
        out.push_str("\n")?;
    }
    Ok(())
}

/// How a meaning ends, its result and ticks on a line, and below that its output, where there is one, and its memory.
pub fn tell(alloc: Global, meant: &Meant) -> Result<String, AllocError> {
    let mut out = String::new(alloc);
    tell_ending(&mut out, meant.ending)?;
    writeln!(out, ", result {}, {} ticks", meant.result, meant.ticks)?;
    let output = str::from_utf8(meant.output.as_slice()).unwrap_or("no text");
    if !output.is_empty() {
        writeln!(out, "{output}")?;
    }
    tell_memory(&mut out, &meant.store)?;
    Ok(out)
}
