//! Why a program is refused.
ghost use Rattle.std.specs.Prelude.{◌≡◌, ◌<◌, length};
ghost use Rattle.ec_reader.specs.Refusals.{is_told_before, number_of, place_at, refusal_at, told_number};

use ec_base::{Span, Token};
use ec_syntax::{Fault, Quantity};
use thiserror::Error;

/// Why a program is refused, by its number, and where: 10 where no program goes on with a token, 11 where a token stands too
/// deep, and 12 where it passes another limit.
#[derive(Clone, Copy, Debug, PartialEq, Eq, Error)]
#[error("refused {what}")]
pub struct ReadRefusal {
    pub what: u8,
    pub at: Span,
}

/// The number that the fault has in refusals.
fn number(fault: Fault) -> u8
    ensures { result ≡ number_of fault }
{
    match fault {
        Fault::Expected => 10,
        Fault::Passes(Quantity::Nesting) => 11,
        Fault::Passes(_) => 12,
    }
}

/// Whether the fault is told at the token before the one at which reading stops: it is the name of one struct too many.
fn is_told_before(fault: Fault) -> bool
    ensures { result ≡ is_told_before fault }
{
    match fault {
        Fault::Passes(Quantity::Structs) => true,
        _ => false,
    }
}

/// The number of the token at which the fault is told, where reading stops at this one.
fn told_number(fault: Fault, at: usize) -> usize
    ensures { result ≡ told_number fault at }
{
    if is_told_before(fault) {
        at.saturating_sub(1)
    } else {
        at
    }
}

/// Where the token of this number stands.
fn place_at(tokens: &[Token], at: usize) -> Span
    ensures { result ≡ place_at tokens.now at }
{
    match tokens.get(at) {
        Some(token) => token.at,
        None => Span { from: 0, to: 0 },
    }
}

/// The refusal of tokens, where reading stops at the one of this number.
pub(crate) fn refusal_at(tokens: &[Token], at: usize, fault: Fault) -> ReadRefusal
    ensures { result ≡ refusal_at fault tokens.now at }
{
    ReadRefusal {
        what: number(fault),
        at: place_at(tokens, told_number(fault, at)),
    }
}
