//! The lines for the error stream.
ghost use Rattle.std.specs.Prelude.{◌≡◌, ◌++◌, IfOk, OnOk, OnErr, List, ℕ};
ghost use Rattle.std.specs.Fmt.{decimal, signed_decimal};
ghost use Rattle.ec_base.specs.Reason.{name_numbered};
ghost use Rattle.ec_driver.specs.Lines.{line_of, place, refusal_line, result_line, trap_line, trap_name};

use crate::status::{Refusal, Status};
use ec_base::{Reason, Span, Text, Trap, TrapKind};
use itoa::Buffer;
use std::alloc::{AllocError, Global};

fn append_place(line: &mut Text, at: Span) -> Result<(), AllocError>
    ensures { OnOk result (line.new ≡ line.old ++ place at) }
{
    line.append(Buffer::new().format(at.from).as_bytes())?;
    line.append(b"..")?;
    line.append(Buffer::new().format(at.to).as_bytes())
}

/// The name of the refusal with this number, or nothing where there is none.
fn name(what: u8) -> &'static [u8]
    ensures { result.now ≡ name_numbered what }
{
    match Reason::numbered(what) {
        Some(reason) => reason.name(),
        None => b"",
    }
}

fn refusal_line(alloc: Global, refusal: &Refusal) -> Result<Text, AllocError>
    ensures { IfOk result (λ t. t ≡ refusal_line refusal.now) }
{
    let mut line = Text::from_slice(alloc, b"refused ")?;
    line.append(Buffer::new().format(refusal.what).as_bytes())?;
    line.append(b" at ")?;
    append_place(&mut line, refusal.at)?;
    line.append(b" ")?;
    line.append(name(refusal.what))?;
    line.append(b"\n")?;
    Ok(line)
}

fn result_line(alloc: Global, value: i64) -> Result<Text, AllocError>
    ensures { IfOk result (λ t. t ≡ result_line value) }
{
    let mut line = Text::from_slice(alloc, b"result ")?;
    line.append(Buffer::new().format(value).as_bytes())?;
    line.append(b"\n")?;
    Ok(line)
}

fn trap_name(kind: TrapKind) -> &'static [u8]
    ensures { result.now ≡ trap_name kind }
{
    match kind {
        TrapKind::Null => b"Null",
        TrapKind::Bounds => b"Bounds",
        TrapKind::DivZero => b"DivZero",
        TrapKind::BadSize => b"BadSize",
    }
}

fn trap_line(alloc: Global, trap: &Trap) -> Result<Text, AllocError>
    ensures { IfOk result (λ t. t ≡ trap_line trap.now) }
{
    let mut line = Text::from_slice(alloc, b"trap ")?;
    line.append(trap_name(trap.kind))?;
    line.append(b" at ")?;
    append_place(&mut line, trap.at)?;
    line.append(b"\n")?;
    Ok(line)
}

/// The line of a status, where a run that has ended has this value.
pub(crate) fn line(alloc: Global, status: &Status, value: i64) -> Result<Text, AllocError>
    ensures { IfOk result (λ t. t ≡ line_of status.now value) }
{
    match status {
        Status::Done => result_line(alloc, value),
        Status::WordsRefused => Text::from_slice(alloc, b"words refused\n"),
        Status::SourceRefused(refusal) => refusal_line(alloc, refusal),
        Status::Trapped(trap) => trap_line(alloc, trap),
        Status::StepsSpent => Text::from_slice(alloc, b"steps spent\n"),
        Status::ReadFault => Text::from_slice(alloc, b"read fault\n"),
        Status::WriteFault => Text::from_slice(alloc, b""),
        Status::NoMemory => Text::from_slice(alloc, b"no memory\n"),
        Status::TooDeep => Text::from_slice(alloc, b"too deep\n"),
    }
}
