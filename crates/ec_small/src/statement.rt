//! Statements, read token by token.
ghost use Rattle.std.specs.Prelude.{◌≡◌, ◌≤◌, ◌<◌, [], length, drop, OnSome};
ghost use Rattle.ec_small.specs.Grammar.{kinds};
ghost use Rattle.ec_small.specs.Descent.{AnswersAt, first, variable_of, format_count, format, args_on, printed, print_stmt, set_stmt, stmt, stmts};

use crate::expression::read_sum;
use crate::names::Names;
use crate::tokens::{before_mark, mark_at, word_at};
use crate::tree::{Expr, Stmt};
use ec_base::{
    Fail, List, MAX_MARKS, MAX_NESTING, MAX_PRINT_ARGUMENTS, MAX_STRING, Mark, Text, Token,
    TokenKind, conversions,
};
use std::alloc::Global;

/// A string that `printf` takes, and how many arguments it asks for.
#[derive(Drop)]
pub(crate) struct Format {
    string: Text,
    count: u32,
}

/// How many arguments a string asks for, where `printf` takes it.
fn format_count(string: &Text) -> Option<u32>
    ensures { result ≡ format_count string.now }
{
    if string.len() > MAX_STRING as usize {
        return None;
    }
    let count = conversions(string.as_slice())?;
    if count > MAX_PRINT_ARGUMENTS {
        None
    } else {
        Some(count)
    }
}

#[tactic(auto, using(crate::proofs::Steps::format_steps))]
fn read_format(alloc: Global, tokens: &[Token], at: usize) -> Result<(Format, usize), Fail<usize>>
    requires { at ≤ length tokens.now }
    ensures { AnswersAt tokens.now result (format (kinds (drop at tokens.now))) }
{
    if at == tokens.len() {
        return Err(Fail::Refused(at));
    }
    match &tokens[at].kind {
        TokenKind::Str(string) => match format_count(string) {
            Some(count) => {
                let string = string.copy(alloc)?;
                Ok((Format { string, count }, at + 1))
            }
            None => Err(Fail::Refused(at)),
        },
        _ => Err(Fail::Refused(at)),
    }
}

/// So many arguments, each behind its comma, and the closing bracket.
#[tactic(auto, using(crate::proofs::Steps::args_steps))]
fn read_args(
    alloc: Global,
    count: u32,
    names: &Names,
    tokens: &[Token],
    at: usize,
) -> Result<(List<Expr>, usize), Fail<usize>>
    requires { at ≤ length tokens.now }
    ensures { AnswersAt tokens.now result (args_on count names.now 254 [] (kinds (drop at tokens.now))) }
{
    let mut args = List::new(alloc);
    let mut room = MAX_MARKS - 2;
    let mut next = at;
    for turn in 0..count {
        if !mark_at(tokens, next, Mark::Comma) {
            return Err(Fail::Refused(next));
        }
        let ((arg, left), after) = read_sum(alloc, MAX_NESTING - 2, room, names, tokens, next + 1)?;
        args.push(arg)?;
        room = left;
        next = after;
    }
    before_mark(args, tokens, next, Mark::CloseParen)
}

/// A statement behind the word `printf`.
#[tactic(auto, using(crate::proofs::Steps::print_steps))]
fn read_print(
    alloc: Global,
    names: &Names,
    tokens: &[Token],
    at: usize,
) -> Result<(Stmt, usize), Fail<usize>>
    requires { at ≤ length tokens.now }
    ensures { AnswersAt tokens.now result (print_stmt names.now (kinds (drop at tokens.now))) }
{
    if !mark_at(tokens, at, Mark::OpenParen) {
        return Err(Fail::Refused(at));
    }
    let (format, next) = read_format(alloc, tokens, at + 1)?;
    read_printed(alloc, format, names, tokens, next)
}

/// The arguments of a string, and what ends the statement.
#[tactic(auto, using(crate::proofs::Steps::printed_steps))]
fn read_printed(
    alloc: Global,
    format: Format,
    names: &Names,
    tokens: &[Token],
    at: usize,
) -> Result<(Stmt, usize), Fail<usize>>
    requires { at ≤ length tokens.now }
    ensures { AnswersAt tokens.now result (printed names.now format (kinds (drop at tokens.now))) }
{
    let Format { string, count } = format;
    let (args, next) = read_args(alloc, count, names, tokens, at)?;
    before_mark(Stmt::Print(string, args), tokens, next, Mark::Semicolon)
}

/// A statement behind the variable that it sets.
#[tactic(auto, using(crate::proofs::Steps::set_steps))]
fn read_set(
    alloc: Global,
    variable: u32,
    names: &Names,
    tokens: &[Token],
    at: usize,
) -> Result<(Stmt, usize), Fail<usize>>
    requires { at ≤ length tokens.now }
    ensures { AnswersAt tokens.now result (set_stmt names.now variable (kinds (drop at tokens.now))) }
{
    if !mark_at(tokens, at, Mark::Assign) {
        return Err(Fail::Refused(at));
    }
    let ((value, _), next) = read_sum(
        alloc,
        MAX_NESTING - 1,
        MAX_MARKS - 1,
        names,
        tokens,
        at + 1,
    )?;
    before_mark(Stmt::Set(variable, value), tokens, next, Mark::Semicolon)
}

/// The variable that stands at a place.
#[tactic(auto, using(crate::proofs::Steps::first_at))]
fn variable_at(names: &Names, tokens: &[Token], at: usize) -> Option<u32>
    requires { at ≤ length tokens.now }
    ensures is { result ≡ first (variable_of names.now) (kinds (drop at tokens.now)) }
    ensures within { OnSome result (at < length tokens.now) }
{
    if at == tokens.len() {
        return None;
    }
    match &tokens[at].kind {
        TokenKind::Word(word) => names.place(word),
        _ => None,
    }
}

#[tactic(auto, using(crate::proofs::Steps::stmt_steps))]
fn read_stmt(
    alloc: Global,
    names: &Names,
    tokens: &[Token],
    at: usize,
) -> Result<(Stmt, usize), Fail<usize>>
    requires { at ≤ length tokens.now }
    ensures { AnswersAt tokens.now result (stmt names.now (kinds (drop at tokens.now))) }
{
    if word_at(tokens, at, b"printf") {
        return read_print(alloc, names, tokens, at + 1);
    }
    match variable_at(names, tokens, at) {
        Some(variable) => read_set(alloc, variable, names, tokens, at + 1),
        None => Err(Fail::Refused(at)),
    }
}

/// Statements up to the word `return`, which is read too.
#[tactic(auto, using(crate::proofs::Steps::stmts_steps))]
pub(crate) fn read_stmts(
    alloc: Global,
    names: &Names,
    tokens: &[Token],
    at: usize,
) -> Result<(List<Stmt>, usize), Fail<usize>>
    requires { at ≤ length tokens.now }
    ensures { AnswersAt tokens.now result (stmts names.now [] (kinds (drop at tokens.now))) }
{
    let mut stmts = List::new(alloc);
    let mut next = at;
    let most = tokens.len() - at + 1;
    for turn in 0..most {
        if word_at(tokens, next, b"return") {
            return Ok((stmts, next + 1));
        }
        let (stmt, after) = read_stmt(alloc, names, tokens, next)?;
        stmts.push(stmt)?;
        next = after;
    }
    Err(Fail::Refused(next))
}
