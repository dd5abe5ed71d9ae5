//! Cuts a text into tokens.
ghost use Rattle.std.specs.Prelude.{◌≡◌, ◌≤◌, ◌+◌, true, IfOk, length, map};
ghost use Rattle.ec_base.specs.Lexical.{AllLexical};
ghost use Rattle.ec_lex.specs.Scan as spec;
ghost use Rattle.ec_lex.specs.Tokens.{Cuts, CutsInto, IsOnly, IsOnlyCut, refusal_at};

use crate::front::{Front, read_front};
use crate::refusal::LexRefusal;
use crate::tokens::Scan;
use ec_base::{Fail, List, MAX_SOURCE, NoMemory, Reason, Span, Token, TokenKind, Tokens};
use std::alloc::Global;

/// From the place `from` to the place `to` after the first `at` bytes of a text.
fn span(at: usize, from: usize, to: usize) -> Span
    requires from { at + from ≤ MAX_SOURCE }
    requires to { at + to ≤ MAX_SOURCE }
    ensures { result ≡ spec.span at from to }
{
    Span {
        from: (at + from) as u32,
        to: (at + to) as u32,
    }
}

fn token(at: usize, kind: TokenKind, count: usize) -> Token
    requires { at + count ≤ MAX_SOURCE }
    ensures { result ≡ spec.token at kind count }
{
    Token {
        kind,
        at: span(at, 0, count),
    }
}

fn refusal(at: usize, reason: Reason, from: usize, to: usize) -> LexRefusal
    requires from { at + from ≤ MAX_SOURCE }
    requires to { at + to ≤ MAX_SOURCE }
    ensures { result ≡ refusal_at reason (spec.span at from to) }
{
    LexRefusal {
        what: reason.number(),
        at: span(at, from, to),
    }
}

/// Cuts a text into tokens, up to its first refusal.
#[tactic(auto, using(crate::proofs::Cuts::Scanning::scanning), unfolding(crate::specs::Scan::scanned))]
fn scan(alloc: Global, text: &[u8]) -> Result<Scan, NoMemory>
    requires { length text.now ≤ MAX_SOURCE }
    ensures cuts { IfOk result (λ s. Cuts 0 true text.now s.tokens s.refusal) }
    ensures only { IfOk result (λ s. IsOnlyCut text.now s.tokens s.refusal) }
    ensures lexical { IfOk result (λ s. AllLexical (map (λ x. x.kind) s.tokens)) }
{
    let mut tokens = List::new(alloc);
    let mut at = 0usize;
    let mut fresh = true;
    loop {
        match read_front(alloc, fresh, &text[at..])? {
            Front::Over => {
                tokens.push(token(at, TokenKind::End, 0))?;
                return Ok(Scan {
                    tokens,
                    refusal: None,
                });
            }
            Front::Skips { count, fresh: now } => {
                at += count;
                fresh = now;
            }
            Front::Takes { kind, count } => {
                tokens.push(token(at, kind, count))?;
                at += count;
                fresh = false;
            }
            Front::Fails { reason, from, to } => {
                return Ok(Scan {
                    tokens,
                    refusal: Some(refusal(at, reason, from, to)),
                });
            }
        }
    }
}

/// The tokens of a text, or its first refusal.
#[tactic(auto, using(crate::proofs::Cuts::Whole::are_tokens))]
pub fn lex(alloc: Global, text: &[u8]) -> Result<Tokens, Fail<LexRefusal>>
    requires { length text.now ≤ MAX_SOURCE }
    ensures cuts { CutsInto text.now result }
    ensures only { IsOnly text.now result }
{
    let Scan { tokens, refusal } = scan(alloc, text)?;
    match refusal {
        None => Ok(Tokens::from_list(tokens)),
        Some(refusal) => Err(Fail::Refused(refusal)),
    }
}
