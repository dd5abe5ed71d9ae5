//! The forms of the language that aren't built yet.
//! `specs/Built.antt` says which these are.
ghost use Rattle.std.specs.Prelude.{◌≡◌, map};
ghost use Rattle.ec_driver.specs.Built as built;

use ec_base::Span;
use ec_syntax::{Body, Item, Program, Stmt, StmtKind};

/// The first parallel sequence or `forall` of a program.
pub(crate) fn first_parallel(program: &Program) -> Option<Span>
    ensures { result ≡ built.first_parallel program.now }
{
    for item in program.items.as_slice() {
        if let Some(at) = in_item(item) {
            return Some(at);
        }
    }
    None
}

fn in_item(item: &Item) -> Option<Span>
    ensures { result ≡ built.in_item item.now }
{
    match item {
        Item::Struct(_) => None,
        Item::Func(f) => in_body(&f.body),
    }
}

#[cycle(statements)]
fn in_body(body: &Body) -> Option<Span>
    ensures { result ≡ built.in_body body.now }
{
    in_statements(body.stmts.as_slice())
}

#[cycle(statements)]
fn in_statements(statements: &[Stmt]) -> Option<Span>
    ensures { result ≡ built.first_of (map built.in_statement statements.now) }
{
    for statement in statements {
        if let Some(at) = in_statement(statement) {
            return Some(at);
        }
    }
    None
}

#[cycle(statements)]
fn in_statement(statement: &Stmt) -> Option<Span>
    ensures { result ≡ built.in_statement statement.now }
{
    match &statement.kind {
        StmtKind::Body(body) => in_body(body),
        StmtKind::Par(_) | StmtKind::Forall(_, _, _, _) => Some(statement.at),
        StmtKind::If(_, then, other) => match in_statement(then.get()) {
            Some(at) => Some(at),
            None => match other {
                Some(other) => in_statement(other.get()),
                None => None,
            },
        },
        StmtKind::While(_, inner) => in_statement(inner.get()),
        StmtKind::For(_, _, _, inner) => in_statement(inner.get()),
        _ => None,
    }
}
