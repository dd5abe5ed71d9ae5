//! What is printed of a simple form.
use ec_simple::{FuncKind, SFunc, SStmt, Simple};
use std::alloc::{AllocError, Global};
use std::fmt::Write;

fn name(kind: FuncKind) -> &'static str {
    match kind {
        FuncKind::Written => "Written",
        FuncKind::Branch => "Branch",
        FuncKind::Body => "Body",
    }
}

/// How many statements there are, with those that stand in others.
#[cycle(statements)]
fn count(all: &[SStmt]) -> usize {
    let mut sum = 0usize;
    for s in all {
        sum = sum.saturating_add(1).saturating_add(inside(s));
    }
    sum
}

/// How many stand in one.
#[cycle(statements)]
fn inside(s: &SStmt) -> usize {
    match s {
        SStmt::If(_, chosen, other) => {
            count(chosen.as_slice()).saturating_add(count(other.as_slice()))
        }
        SStmt::Loop(before, _, body) => {
            count(before.as_slice()).saturating_add(count(body.as_slice()))
        }
        SStmt::Par(_, branches) => {
            let mut sum = 0usize;
            for b in branches.as_slice() {
                sum = sum.saturating_add(count(b.before.as_slice()));
            }
            sum
        }
        SStmt::Forall(l) => count(l.get().init.as_slice())
            .saturating_add(count(l.get().before.as_slice()))
            .saturating_add(count(l.get().step.as_slice())),
        _ => 0,
    }
}

fn tell_numbers(out: &mut String, numbers: &[u32]) -> Result<(), AllocError> {
    let mut comma = "";
    out.push_str("[")?;
    for number in numbers {
        write!(out, "{comma}{number}")?;
        comma = ", ";
    }
    out.push_str("]")
}

fn tell_function(out: &mut String, f: &SFunc) -> Result<(), AllocError> {
    let called = str::from_utf8(f.name.as_slice()).unwrap_or("no text");
    write!(
        out,
        "{} {called}: {} variables, ",
        name(f.kind),
        f.vars.len()
    )?;
    tell_numbers(out, f.params.as_slice())?;
    out.push_str(" to ")?;
    tell_numbers(out, f.results.as_slice())?;
    writeln!(out, ", {} statements", count(f.body.as_slice()))
}

/// How many shapes and functions there are, and a line a function: what it stands for, its name, how many variables it has, its parameters and results, and how many
/// statements.
pub fn tell_form(alloc: Global, form: &Simple) -> Result<String, AllocError> {
    let mut out = String::new(alloc);
    let form = form.form();
    writeln!(
        out,
        "{} shapes, {} functions",
        form.shapes.len(),
        form.funcs.len()
    )?;
    for f in form.funcs.as_slice() {
        tell_function(&mut out, f)?;
    }
    Ok(out)
}
