//! From tokens to the tree of a program.
ghost use Rattle.ec_reader.specs.Refusals.{ReadsInto};

use crate::cursor::Cursor;
use crate::refusal::{ReadRefusal, refusal_at};
use ec_base::{Fail, MAX_NESTING, Tokens};
use ec_syntax::{Program, reading_decides};
use std::alloc::Global;

/// Reads a program. `Ok` has the tree of the tokens, which are a program within the limits. A refusal is of one token: those
/// before it begin a program, and it goes on with none, or passes a limit.
pub fn read(alloc: Global, tokens: &Tokens) -> Result<Program, Fail<ReadRefusal>>
    ensures { ReadsInto tokens.now result }
{
    let tokens = tokens.as_slice();
    let mut cursor = Cursor::new(tokens);
    reading_decides();
    match cursor.program(alloc, MAX_NESTING) {
        Ok(program) => Ok(program),
        Err(Fail::Memory) => Err(Fail::Memory),
        Err(Fail::Refused(fault)) => {
            let at = tokens.len() - cursor.left();
            Err(Fail::Refused(refusal_at(tokens, at, fault)))
        },
    }
}
