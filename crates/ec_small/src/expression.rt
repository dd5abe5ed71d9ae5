//! Sums of small programs, read token by token.
ghost use Rattle.std.specs.Prelude.{◌≡◌, ◌≤◌, ◌<◌, drop, length, IfSome};
ghost use Rattle.ec_small.specs.Grammar.{kinds};
ghost use Rattle.ec_small.specs.Descent.{factor_operator, term_operator, operator_at, item, product_by, sum, AnswersAt};

use crate::names::Names;
use crate::tokens::before_mark;
use crate::tree::{Expr, Operator};
use ec_base::{Boxed, Fail, Mark, Token, TokenKind};
use std::alloc::Global;

/// Reads a sum from a token on, for a statement that may have `room` more operators and brackets: the sum, the room that
/// it leaves, and the token behind it.
#[cycle(expression)]
pub(crate) fn read_sum(
    alloc: Global,
    nesting: u32,
    room: u32,
    names: &Names,
    tokens: &[Token],
    at: usize,
) -> Result<((Expr, u32), usize), Fail<usize>>
    requires { at ≤ length tokens.now }
    ensures answer { AnswersAt tokens.now result (sum nesting names.now room (kinds (drop at tokens.now))) }
{
    let ((mut sum, mut left), mut next) = read_product(alloc, nesting, room, names, tokens, at)?;
    while let Some(operator) = term_at(tokens, next, left) {
        let ((term, less), after) = read_product(
            alloc,
            nesting,
            left - 1,
            names,
            tokens,
            next + 1,
        )?;
        sum = Expr::Binary(operator, Boxed::new(alloc, sum)?, Boxed::new(alloc, term)?);
        left = less;
        next = after;
    }
    Ok(((sum, left), next))
}

#[cycle(expression)]
fn read_product(
    alloc: Global,
    nesting: u32,
    room: u32,
    names: &Names,
    tokens: &[Token],
    at: usize,
) -> Result<((Expr, u32), usize), Fail<usize>>
    requires { at ≤ length tokens.now }
    ensures answer { AnswersAt tokens.now result (product_by (item nesting names.now) room (kinds (drop at tokens.now))) }
{
    let ((mut product, mut left), mut next) = read_item(alloc, nesting, room, names, tokens, at)?;
    while let Some(operator) = factor_at(tokens, next, left) {
        let ((factor, less), after) = read_item(alloc, nesting, left - 1, names, tokens, next + 1)?;
        product = Expr::Binary(
            operator,
            Boxed::new(alloc, product)?,
            Boxed::new(alloc, factor)?,
        );
        left = less;
        next = after;
    }
    Ok(((product, left), next))
}

#[cycle(expression)]
fn read_item(
    alloc: Global,
    nesting: u32,
    room: u32,
    names: &Names,
    tokens: &[Token],
    at: usize,
) -> Result<((Expr, u32), usize), Fail<usize>>
    requires { at ≤ length tokens.now }
    ensures answer { AnswersAt tokens.now result (item nesting names.now room (kinds (drop at tokens.now))) }
{
    if at == tokens.len() {
        return Err(Fail::Refused(at));
    }
    match &tokens[at].kind {
        TokenKind::Number(value) => Ok(((Expr::Number(*value), room), at + 1)),
        TokenKind::Word(word) => match names.place(word) {
            Some(variable) => Ok(((Expr::Var(variable), room), at + 1)),
            None => Err(Fail::Refused(at)),
        },
        TokenKind::Mark(Mark::OpenParen) => {
            if nesting == 0 {
                return Err(Fail::Refused(at));
            }
            if room < 2 {
                return Err(Fail::Refused(at));
            }
            let (sum, next) = read_sum(alloc, nesting - 1, room - 2, names, tokens, at + 1)?;
            before_mark(sum, tokens, next, Mark::CloseParen)
        }
        _ => Err(Fail::Refused(at)),
    }
}

/// The operator that joins the factor behind it, where there is room for one.
fn factor_at(tokens: &[Token], at: usize, room: u32) -> Option<Operator>
    requires { at ≤ length tokens.now }
    ensures operator { result ≡ operator_at factor_operator room (kinds (drop at tokens.now)) }
    ensures within { IfSome result (λ o. (0 < room) × (at < length tokens.now)) }
{
    if room == 0 {
        return None;
    }
    if at == tokens.len() {
        return None;
    }
    factor_operator(&tokens[at].kind)
}

/// The operator that joins the term behind it, where there is room for one.
fn term_at(tokens: &[Token], at: usize, room: u32) -> Option<Operator>
    requires { at ≤ length tokens.now }
    ensures operator { result ≡ operator_at term_operator room (kinds (drop at tokens.now)) }
    ensures within { IfSome result (λ o. (0 < room) × (at < length tokens.now)) }
{
    if room == 0 {
        return None;
    }
    if at == tokens.len() {
        return None;
    }
    term_operator(&tokens[at].kind)
}

fn factor_operator(kind: &TokenKind) -> Option<Operator>
    ensures { result ≡ factor_operator kind.now }
{
    match kind {
        TokenKind::Mark(Mark::Star) => Some(Operator::Mul),
        _ => None,
    }
}

fn term_operator(kind: &TokenKind) -> Option<Operator>
    ensures { result ≡ term_operator kind.now }
{
    match kind {
        TokenKind::Mark(Mark::Plus) => Some(Operator::Add),
        TokenKind::Mark(Mark::Minus) => Some(Operator::Sub),
        _ => None,
    }
}
