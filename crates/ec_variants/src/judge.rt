//! How a text is taken.
ghost use Rattle.std.specs.Prelude.{◌≡◌, ◌≢◌, ◌≤◌, ◌↔◌, length, IfOk, OnOk, IsTrue};
ghost use Rattle.ec_print.specs.Canonical.{canonical};
ghost use Rattle.ec_variants.specs.Judged.{IsInside, IsNamed, IsProgram, Parses, PrintsAsItIs};
ghost use Rattle.ec_variants.specs.declared.judge.Verdict.TheVariants as Verdict;

use ec_base::{Fail, MAX_SOURCE, Span, Token, Tokens};
use ec_lex::{LexRefusal, lex};
use ec_print::print;
use ec_reader::ReadRefusal;
use ec_syntax::Program;
use std::alloc::Global;
use thiserror::Error;

/// How a text is taken.
#[derive(Clone, Copy)]
pub enum Verdict {
    Refused,
    Program,
    /// A program of the forms that are built.
    Small,
}

/// What no text may show.
#[derive(Clone, Copy, Debug, Error)]
pub enum Flaw {
    #[error("the file can't be read")]
    NoFile,
    #[error("a text is longer than a source may be")]
    TooLong,
    #[error("a text is refused by a number that has no name")]
    Unnamed,
    #[error("a text is refused at a place outside it")]
    Outside,
    #[error("a canonical text is refused")]
    Unreadable,
    #[error("a canonical text isn't printed as it is")]
    Unlike,
}

/// By which number a text is refused, and where.
#[derive(Clone, Copy, Debug, Error)]
#[error("refused {what}")]
struct Refusal {
    what: u8,
    at: Span,
}

/// The tokens of a text and the tree of its program.
#[derive(Drop)]
struct Parsed {
    tokens: Tokens,
    tree: Program,
}

/// The tokens of a text and the tree of its program, or why it has none.
fn parse(alloc: Global, text: &[u8]) -> Result<Parsed, Fail<Refusal>>
    requires { length text.now ≤ MAX_SOURCE }
    ensures { IfOk result (λ p. Parses text.now p.tokens p.tree) }
{
    let tokens = match lex(alloc, text) {
        Ok(tokens) => tokens,
        Err(Fail::Memory) => return Err(Fail::Memory),
        Err(Fail::Refused(LexRefusal { what, at })) => {
            return Err(Fail::Refused(Refusal { what, at }))
        }
    };
    match ec_reader::read(alloc, &tokens) {
        Ok(tree) => Ok(Parsed { tokens, tree }),
        Err(Fail::Memory) => Err(Fail::Memory),
        Err(Fail::Refused(ReadRefusal { what, at })) => Err(Fail::Refused(Refusal { what, at })),
    }
}

/// Whether a refusal of a text has this number.
fn is_named(number: u8) -> bool
    ensures { IsTrue result ↔ IsNamed number }
{
    matches!(number, 1..=6 | 10..=12)
}

/// Whether a place is inside a text of so many bytes.
fn is_inside(at: Span, count: usize) -> bool
    ensures { IsTrue result ↔ IsInside at count }
{
    at.from <= at.to && at.to as usize <= count
}

/// Sees that a refusal has a number with a name and a place inside the text.
fn see_refusal(refusal: Refusal, count: usize) -> Result<(), Flaw>
    ensures { OnOk result (IsNamed refusal.what × IsInside refusal.at count) }
{
    if !is_named(refusal.what) {
        return Err(Flaw::Unnamed);
    }
    if !is_inside(refusal.at, count) {
        return Err(Flaw::Outside);
    }
    Ok(())
}

/// Sees that the canonical text of a program is printed as it is.
fn see_printed(alloc: Global, tree: &Program) -> Result<(), Fail<Flaw>>
    ensures { OnOk result (PrintsAsItIs (canonical tree.now)) }
{
    let text = print(alloc, tree)?;
    if text.len() > MAX_SOURCE as usize {
        return Err(Fail::Refused(Flaw::TooLong));
    }
    match parse(alloc, text.as_slice()) {
        Ok(again) => {
            if print(alloc, &again.tree)? != text {
                return Err(Fail::Refused(Flaw::Unlike));
            }
            Ok(())
        }
        Err(Fail::Memory) => Err(Fail::Memory),
        Err(Fail::Refused(_)) => Err(Fail::Refused(Flaw::Unreadable)),
    }
}

/// Says whether the tokens are a small program, and sees that the one at which they leave those is inside the text.
fn extent(alloc: Global, tokens: &[Token], count: usize) -> Result<Verdict, Fail<Flaw>> {
    match ec_small::read(alloc, tokens) {
        Ok(_) => Ok(Verdict::Small),
        Err(Fail::Memory) => Err(Fail::Memory),
        Err(Fail::Refused(at)) => match tokens.get(at) {
            Some(token) if is_inside(token.at, count) => Ok(Verdict::Program),
            _ => Err(Fail::Refused(Flaw::Outside)),
        },
    }
}

/// How a text is taken, or what is wrong with that.
pub fn judge(alloc: Global, text: &[u8]) -> Result<Verdict, Fail<Flaw>>
    ensures { IfOk result (λ v. v ≢ Verdict.Refused → IsProgram text.now) }
{
    if text.len() > MAX_SOURCE as usize {
        return Err(Fail::Refused(Flaw::TooLong));
    }
    match parse(alloc, text) {
        Ok(parsed) => {
            see_printed(alloc, &parsed.tree)?;
            Ok(extent(alloc, parsed.tokens.as_slice(), text.len())?)
        }
        Err(Fail::Memory) => Err(Fail::Memory),
        Err(Fail::Refused(refusal)) => match see_refusal(refusal, text.len()) {
            Ok(()) => Ok(Verdict::Refused),
            Err(flaw) => Err(Fail::Refused(flaw)),
        },
    }
}
