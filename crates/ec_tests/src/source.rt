//! From texts to what the crates below take.
ghost use Rattle.std.specs.Prelude.{IfOk};
ghost use Rattle.ec_small.specs.Sound.{Sound};

use ec_base::{Fail, MAX_SOURCE, Tokens};
use ec_lex::lex;
use ec_small::{Program, read};
use std::alloc::Global;

/// The tokens of a text, if it has some.
pub(crate) fn tokens_of(alloc: Global, text: &[u8]) -> Option<Tokens> {
    if text.len() > MAX_SOURCE as usize {
        return None;
    }
    lex(alloc, text).ok()
}

/// The small program of a text, or the number of the token that is refused: the first one where the text has no tokens.
pub(crate) fn program_of(alloc: Global, text: &[u8]) -> Result<Program, Fail<usize>>
    ensures { IfOk result Sound }
{
    match tokens_of(alloc, text) {
        Some(tokens) => read(alloc, tokens.as_slice()),
        None => Err(Fail::Refused(0)),
    }
}
