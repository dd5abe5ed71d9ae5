//! Whole programs, read token by token.
ghost use Rattle.std.specs.Prelude.{◌≡◌, ◌≤◌, ◌<◌, [], length, drop, IfOk};
ghost use Rattle.ec_small.specs.Grammar.{kinds, Answered};
ghost use Rattle.ec_small.specs.Sound.{Sound};
ghost use Rattle.ec_small.specs.Descent.{AnswersAt, opened, no_params, head, returned, body, main, end, program};

use crate::declaration::{Declared, read_decls};
use crate::expression::read_sum;
use crate::names::Names;
use crate::statement::read_stmts;
use crate::tokens::{before_mark, mark_at, word_at};
use crate::tree::{Expr, Program};
use ec_base::{Fail, MAX_MARKS, MAX_NESTING, Mark, Token, TokenKind};
use std::alloc::Global;

/// The tree of a small program, or the place of the first token after which no small program continues.
#[tactic(auto, using(crate::proofs::Reading::reads, crate::proofs::Reading::answered))]
pub fn read(alloc: Global, tokens: &[Token]) -> Result<Program, Fail<usize>>
    ensures answer { Answered tokens.now result }
    ensures sound { IfOk result Sound }
{
    let (program, _) = read_program(alloc, tokens)?;
    Ok(program)
}

#[tactic(auto, using(crate::proofs::Steps::refused_then))]
fn read_program(alloc: Global, tokens: &[Token]) -> Result<(Program, usize), Fail<usize>>
    ensures { AnswersAt tokens.now result (program (kinds tokens.now)) }
{
    let (program, next) = read_main(alloc, tokens)?;
    read_end(program, tokens, next)
}

/// The end, and nothing behind it.
#[tactic(auto, using(crate::proofs::Steps::end_behind))]
fn read_end(program: Program, tokens: &[Token], at: usize) -> Result<(Program, usize), Fail<usize>>
    requires { at ≤ length tokens.now }
    ensures { AnswersAt tokens.now result (end program (kinds (drop at tokens.now))) }
{
    if at == tokens.len() {
        return Err(Fail::Refused(at));
    }
    match &tokens[at].kind {
        TokenKind::End => {
            if at + 1 == tokens.len() {
                Ok((program, at + 1))
            } else {
                Err(Fail::Refused(at + 1))
            }
        }
        _ => Err(Fail::Refused(at)),
    }
}

/// A program before its end.
#[tactic(auto, using(crate::proofs::Steps::main_steps))]
fn read_main(alloc: Global, tokens: &[Token]) -> Result<(Program, usize), Fail<usize>>
    ensures { AnswersAt tokens.now result (main (kinds tokens.now)) }
{
    let (_, start) = read_head(tokens)?;
    let (declared, next) = read_decls(alloc, tokens, start)?;
    read_body(alloc, declared, tokens, next)
}

/// `int main(` and what opens the block.
#[tactic(auto, using(crate::proofs::Steps::head_steps))]
fn read_head(tokens: &[Token]) -> Result<((), usize), Fail<usize>>
    ensures { AnswersAt tokens.now result (head (kinds tokens.now)) }
{
    if !word_at(tokens, 0, b"int") {
        return Err(Fail::Refused(0));
    }
    if !word_at(tokens, 1, b"main") {
        return Err(Fail::Refused(1));
    }
    if !mark_at(tokens, 2, Mark::OpenParen) {
        return Err(Fail::Refused(2));
    }
    read_params(tokens, 3)
}

/// The brackets of `main` from behind the first one on, with or without `void`, and the opening brace.
#[tactic(auto, using(crate::proofs::Steps::params_steps))]
fn read_params(tokens: &[Token], at: usize) -> Result<((), usize), Fail<usize>>
    requires { at ≤ length tokens.now }
    ensures { AnswersAt tokens.now result (no_params (kinds (drop at tokens.now))) }
{
    if word_at(tokens, at, b"void") {
        read_opened(tokens, at + 1)
    } else {
        read_opened(tokens, at)
    }
}

#[tactic(auto, using(crate::proofs::Steps::opened_steps))]
fn read_opened(tokens: &[Token], at: usize) -> Result<((), usize), Fail<usize>>
    requires { at ≤ length tokens.now }
    ensures { AnswersAt tokens.now result (opened (kinds (drop at tokens.now))) }
{
    if !mark_at(tokens, at, Mark::CloseParen) {
        return Err(Fail::Refused(at));
    }
    before_mark((), tokens, at + 1, Mark::OpenBrace)
}

/// The statements and the result, behind the declarations.
#[tactic(auto, using(crate::proofs::Steps::body_steps))]
fn read_body(
    alloc: Global,
    declared: Declared,
    tokens: &[Token],
    at: usize,
) -> Result<(Program, usize), Fail<usize>>
    requires { at ≤ length tokens.now }
    ensures { AnswersAt tokens.now result (body declared (kinds (drop at tokens.now))) }
{
    let Declared { names, inits } = declared;
    let (stmts, after) = read_stmts(alloc, &names, tokens, at)?;
    let (result, next) = read_result(alloc, &names, tokens, after)?;
    Ok((
        Program {
            inits,
            stmts,
            result,
        },
        next,
    ))
}

/// What stands behind the word `return`.
#[tactic(auto, using(crate::proofs::Steps::returned_steps))]
fn read_result(
    alloc: Global,
    names: &Names,
    tokens: &[Token],
    at: usize,
) -> Result<(Expr, usize), Fail<usize>>
    requires { at ≤ length tokens.now }
    ensures { AnswersAt tokens.now result (returned names.now (kinds (drop at tokens.now))) }
{
    let ((value, _), next) = read_sum(alloc, MAX_NESTING - 1, MAX_MARKS, names, tokens, at)?;
    if !mark_at(tokens, next, Mark::Semicolon) {
        return Err(Fail::Refused(next));
    }
    before_mark(value, tokens, next + 1, Mark::CloseBrace)
}
