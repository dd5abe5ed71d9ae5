//! How many temporaries a program needs.
ghost use Rattle.std.specs.Prelude.{◌≡◌, ◌+◌, ◌≤◌, true, length};
ghost use Rattle.std.specs.List.{list_all};
ghost use Rattle.ec_small.specs.Sound.{Sound, operators};
ghost use Rattle.ec_split.specs.Cut.{width, args_width, init_width, stmt_width, widest, temporaries};
ghost use Rattle.ec_split.specs.Building.{is_small, is_small_init, is_small_stmt};

use ec_base::{MAX_MARKS, MAX_PRINT_ARGUMENTS};
use ec_small::{Expr, Program, Stmt};

/// How many cells an expression needs from its base on.
fn width(e: &Expr) -> u32
    requires { operators e.now ≤ MAX_MARKS }
    ensures value { result ≡ width e.now }
    ensures few { result ≤ operators e.now + 1 }
{
    match e {
        Expr::Number(_) => 1,
        Expr::Var(_) => 1,
        Expr::Binary(_, a, b) => width(a.get()).max(width(b.get()) + 1),
    }
}

/// How many cells arguments need, the first from the base on, the next from the cell after it.
fn arguments_width(es: &[Expr]) -> u32
    requires small { list_all is_small es.now ≡ true }
    requires few { length es.now ≤ MAX_PRINT_ARGUMENTS }
    ensures value { result ≡ args_width es.now }
    ensures few { result ≤ MAX_MARKS + MAX_PRINT_ARGUMENTS }
{
    let mut most = 0u32;
    let mut before = 0u32;
    for e in es {
        most = most.max(before + width(e));
        before += 1;
    }
    most.max(before)
}

fn initialiser_width(init: &Option<Expr>) -> u32
    requires { is_small_init init.now ≡ true }
    ensures value { result ≡ init_width init.now }
    ensures few { result ≤ MAX_MARKS + MAX_PRINT_ARGUMENTS }
{
    match init {
        None => 0,
        Some(e) => width(e),
    }
}

fn initialisers_width(inits: &[Option<Expr>]) -> u32
    requires { list_all is_small_init inits.now ≡ true }
    ensures value { result ≡ widest init_width inits.now }
    ensures few { result ≤ MAX_MARKS + MAX_PRINT_ARGUMENTS }
{
    let mut most = 0u32;
    for init in inits {
        most = most.max(initialiser_width(init));
    }
    most
}

fn statement_width(stmt: &Stmt) -> u32
    requires { is_small_stmt stmt.now ≡ true }
    ensures value { result ≡ stmt_width stmt.now }
    ensures few { result ≤ MAX_MARKS + MAX_PRINT_ARGUMENTS }
{
    match stmt {
        Stmt::Set(_, e) => width(e),
        Stmt::Print(_, es) => arguments_width(es.as_slice()),
    }
}

fn statements_width(stmts: &[Stmt]) -> u32
    requires { list_all is_small_stmt stmts.now ≡ true }
    ensures value { result ≡ widest stmt_width stmts.now }
    ensures few { result ≤ MAX_MARKS + MAX_PRINT_ARGUMENTS }
{
    let mut most = 0u32;
    for stmt in stmts {
        most = most.max(statement_width(stmt));
    }
    most
}

/// How many cells a program needs behind those of its variables.
#[tactic(auto, using(crate::proofs::Small::small_inits, crate::proofs::Small::small_stmts))]
pub fn temporaries(p: &Program) -> u32
    requires { Sound p.now }
    ensures value { result ≡ temporaries p.now }
    ensures few { result ≤ MAX_MARKS + MAX_PRINT_ARGUMENTS }
{
    let inits = initialisers_width(p.inits.as_slice());
    let stmts = statements_width(p.stmts.as_slice());
    inits.max(stmts.max(width(&p.result)))
}
