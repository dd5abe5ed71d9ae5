//! The first `printf` of a body.
ghost use Rattle.std.specs.Prelude.{◌≡◌, map, option_map};
ghost use Rattle.ec_calls.specs.Effects.{doing, statement_doing, all_of, or_nothing};
ghost use Rattle.ec_calls.specs.Seen as seen;

use crate::order::is_before;
use ec_base::{Boxed, Span};
use ec_syntax::{Body, Stmt, StmtKind};

/// The one that comes first, if there is any.
fn earlier(before: Option<Span>, other: Option<Span>) -> Option<Span>
    ensures { result ≡ seen.earlier before other }
{
    match (before, other) {
        (Some(a), Some(b)) => { if is_before(b, a) { other } else { before } }
        (None, _) => other,
        (_, None) => before,
    }
}

#[cycle(printed)]
pub(crate) fn first_of_body(body: &Body) -> Option<Span>
    ensures { result ≡ seen.earliest (doing body.now).prints }
{
    first_of_all(body.stmts.as_slice())
}

#[cycle(printed)]
fn first_of_all(statements: &[Stmt]) -> Option<Span>
    ensures { result ≡ seen.earliest (all_of (map statement_doing statements.now)).prints }
{
    let mut first = None;
    for s in statements {
        first = earlier(first, first_of(s));
    }
    first
}

#[cycle(printed)]
fn first_of(s: &Stmt) -> Option<Span>
    ensures { result ≡ seen.earliest (statement_doing s.now).prints }
{
    match &s.kind {
        StmtKind::Body(body) => first_of_body(body),
        StmtKind::Par(branches) => first_of_all(branches.as_slice()),
        StmtKind::If(_, a, b) => earlier(first_of(a.get()), first_of_other(b)),
        StmtKind::While(_, a) => first_of(a.get()),
        StmtKind::For(_, _, _, a) => first_of(a.get()),
        StmtKind::Forall(_, _, _, a) => first_of(a.get()),
        StmtKind::Print(_, _) => Some(s.at),
        StmtKind::Empty => None,
        StmtKind::Set(_) => None,
        StmtKind::Eval(_) => None,
        StmtKind::WriteTo(_, _) => None,
        StmtKind::AddTo(_, _) => None,
        StmtKind::Return(_) => None,
    }
}

#[cycle(printed)]
fn first_of_other(s: &Option<Boxed<Stmt>>) -> Option<Span>
    ensures { result ≡ seen.earliest (or_nothing (option_map statement_doing s.now)).prints }
{
    match s {
        None => None,
        Some(s) => first_of(s.get()),
    }
}
