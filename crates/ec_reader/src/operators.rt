//! Operators of expressions.
ghost use Rattle.std.specs.Prelude.{◌≡◌, option_map};
ghost use Rattle.ec_syntax.specs.Grammar.Expressions.{infix_of, at_level, of_mark, prefix_of, joined};
ghost use Rattle.ec_reader.specs.Operators.{makes, of_pair, prefixes};

use ec_base::{BinOp, Boxed, Mark, Token, TokenKind, UnOp};
use ec_syntax::{Expr, ExprKind};

/// An operator before its operand.
#[derive(Clone, Copy)]
pub(crate) enum Prefix {
    Unary(UnOp),
    Deref,
}

/// An operator between two operands.
#[derive(Clone, Copy)]
pub(crate) enum Infix {
    Binary(BinOp),
    And,
    Or,
}

impl Prefix {
    /// What the operator makes of its operand.
    pub(crate) fn apply(self, operand: Boxed<Expr>) -> ExprKind
        ensures { result ≡ prefixes self operand }
    {
        match self {
            Prefix::Unary(operator) => ExprKind::Unary(operator, operand),
            Prefix::Deref => ExprKind::Deref(operand),
        }
    }
}

impl Infix {
    /// What the operator makes of its operands.
    pub(crate) fn apply(self, left: Boxed<Expr>, right: Boxed<Expr>) -> ExprKind
        ensures { result ≡ makes self left right }
    {
        match self {
            Infix::Binary(operator) => ExprKind::Binary(operator, left, right),
            Infix::And => ExprKind::And(left, right),
            Infix::Or => ExprKind::Or(left, right),
        }
    }
}

/// The operator that a mark is before an operand.
fn prefix_mark(mark: Mark) -> Option<Prefix>
    ensures { option_map prefixes result ≡ prefix_of mark }
{
    match mark {
        Mark::Minus => Some(Prefix::Unary(UnOp::Neg)),
        Mark::Bang => Some(Prefix::Unary(UnOp::Not)),
        Mark::Tilde => Some(Prefix::Unary(UnOp::Inv)),
        Mark::Star => Some(Prefix::Deref),
        _ => None,
    }
}

/// The operator that a mark is between two operands, and its level: how many levels bind closer.
fn infix_mark(mark: Mark) -> Option<(u32, Infix)>
    ensures { option_map of_pair result ≡ infix_of mark }
{
    match mark {
        Mark::Star => Some((0, Infix::Binary(BinOp::Mul))),
        Mark::Slash => Some((0, Infix::Binary(BinOp::Div))),
        Mark::Percent => Some((0, Infix::Binary(BinOp::Rem))),
        Mark::Plus => Some((1, Infix::Binary(BinOp::Add))),
        Mark::Minus => Some((1, Infix::Binary(BinOp::Sub))),
        Mark::ShiftLeft => Some((2, Infix::Binary(BinOp::Shl))),
        Mark::ShiftRight => Some((2, Infix::Binary(BinOp::Shr))),
        Mark::Less => Some((3, Infix::Binary(BinOp::Lt))),
        Mark::LessEqual => Some((3, Infix::Binary(BinOp::Le))),
        Mark::Greater => Some((3, Infix::Binary(BinOp::Gt))),
        Mark::GreaterEqual => Some((3, Infix::Binary(BinOp::Ge))),
        Mark::Equal => Some((4, Infix::Binary(BinOp::Eq))),
        Mark::NotEqual => Some((4, Infix::Binary(BinOp::Ne))),
        Mark::And => Some((5, Infix::Binary(BinOp::And))),
        Mark::Caret => Some((6, Infix::Binary(BinOp::Xor))),
        Mark::Or => Some((7, Infix::Binary(BinOp::Or))),
        Mark::AndAnd => Some((8, Infix::And)),
        Mark::OrOr => Some((9, Infix::Or)),
        _ => None,
    }
}

/// The operator of this level that a mark is between two operands.
fn mark_at_level(mark: Mark, level: u32) -> Option<Infix>
    ensures { option_map makes result ≡ at_level level mark }
{
    match infix_mark(mark) {
        Some((its, infix)) => { if its == level { Some(infix) } else { None } }
        None => None,
    }
}

/// The operator that a token is before an operand.
pub(crate) fn prefix_at(token: &Token) -> Option<Prefix>
    ensures { option_map prefixes result ≡ of_mark prefix_of token.now }
{
    match &token.kind {
        TokenKind::Mark(mark) => prefix_mark(*mark),
        _ => None,
    }
}

/// The operator of this level that a token is between two operands.
pub(crate) fn infix_at(token: &Token, level: u32) -> Option<Infix>
    ensures { option_map makes result ≡ of_mark (at_level level) token.now }
{
    match &token.kind {
        TokenKind::Mark(mark) => mark_at_level(*mark, level),
        _ => None,
    }
}
