//! Declarations, read token by token.
ghost use Rattle.std.specs.Prelude.{◌≡◌, ◌≤◌, ◌<◌, [], None, Some, length, drop, MatchOption, OnSome};
ghost use Rattle.ec_small.specs.Grammar.{kinds};
ghost use Rattle.ec_small.specs.Descent.{AnswersAt, first, new_word, initialiser, decl, decls};

use crate::expression::read_sum;
use crate::names::Names;
use crate::tokens::{before_mark, mark_at, word_at};
use crate::tree::Expr;
use crate::words::is_name;
use ec_base::{Fail, List, MAX_MARKS, MAX_NESTING, MAX_VARIABLES, Mark, Text, Token, TokenKind};
use std::alloc::Global;

/// What was declared: the names, and for each its initialiser.
#[derive(Drop)]
pub(crate) struct Declared {
    pub(crate) names: Names,
    pub(crate) inits: List<Option<Expr>>,
}

/// The name at a place that may be declared.
#[tactic(auto, using(crate::proofs::Steps::first_at))]
fn new_word_at<'a>(names: &Names, tokens: &'a [Token], at: usize) -> Option<&'a Text>
    requires { at ≤ length tokens.now }
    ensures is { MatchOption result (first (new_word names.now) (kinds (drop at tokens.now)) ≡ None) (λ w. first (new_word names.now) (kinds (drop at tokens.now)) ≡ Some w.now) }
    ensures within { OnSome result (at < length tokens.now) }
{
    if at == tokens.len() {
        return None;
    }
    match &tokens[at].kind {
        TokenKind::Word(word) => {
            if is_name(word) && names.place(word).is_none() {
                Some(word)
            } else {
                None
            }
        }
        _ => None,
    }
}

/// The rest of a declaration behind its name, which is declared.
#[tactic(auto, using(crate::proofs::Steps::init_steps))]
fn read_init(
    alloc: Global,
    names: &Names,
    tokens: &[Token],
    at: usize,
) -> Result<(Option<Expr>, usize), Fail<usize>>
    requires { at ≤ length tokens.now }
    ensures { AnswersAt tokens.now result (initialiser names.now (kinds (drop at tokens.now))) }
{
    if !mark_at(tokens, at, Mark::Assign) {
        return before_mark(None, tokens, at, Mark::Semicolon);
    }
    let ((value, _), next) = read_sum(alloc, MAX_NESTING - 1, MAX_MARKS, names, tokens, at + 1)?;
    before_mark(Some(value), tokens, next, Mark::Semicolon)
}

/// A declaration behind the word `int`, after these.
#[tactic(auto, using(crate::proofs::Steps::decl_steps))]
fn read_decl(
    alloc: Global,
    declared: Declared,
    tokens: &[Token],
    at: usize,
) -> Result<(Declared, usize), Fail<usize>>
    requires room { length declared.names < 256 }
    requires within { at ≤ length tokens.now }
    ensures { AnswersAt tokens.now result (decl declared (kinds (drop at tokens.now))) }
{
    let Declared {
        mut names,
        mut inits,
    } = declared;
    let Some(word) = new_word_at(&names, tokens, at) else {
        return Err(Fail::Refused(at));
    };
    names.declare(alloc, word)?;
    let (init, next) = read_init(alloc, &names, tokens, at + 1)?;
    inits.push(init)?;
    Ok((Declared { names, inits }, next))
}

/// The declarations from a token on.
#[tactic(auto, using(crate::proofs::Steps::decls_steps))]
pub(crate) fn read_decls(
    alloc: Global,
    tokens: &[Token],
    at: usize,
) -> Result<(Declared, usize), Fail<usize>>
    requires { at ≤ length tokens.now }
    ensures { AnswersAt tokens.now result (decls (kinds (drop at tokens.now))) }
{
    let mut declared = Declared {
        names: Names::new(alloc),
        inits: List::new(alloc),
    };
    let mut next = at;
    for turn in 0..MAX_VARIABLES {
        if !word_at(tokens, next, b"int") {
            return Ok((declared, next));
        }
        let (more, after) = read_decl(alloc, declared, tokens, next + 1)?;
        declared = more;
        next = after;
    }
    if word_at(tokens, next, b"int") {
        Err(Fail::Refused(next))
    } else {
        Ok((declared, next))
    }
}
