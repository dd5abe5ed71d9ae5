//! Which variables the parts of a resolved tree read, set and declare.
ghost use Rattle.std.specs.Prelude.{◌≡◌, [], ◌∷◌, ◌++◌, OnOk};
ghost use Rattle.ec_resolve.specs.Erased as erased;
ghost use Rattle.ec_simple.specs.Used.{used};
ghost use Rattle.ec_simple.specs.Uses as uses;

use crate::form::VarUse;
use crate::numbered::narrow;
use ec_base::{Boxed, List, Span};
use ec_resolve::{Assignment, Invocation, Place, Placing, Term};
use std::alloc::AllocError;

fn use_variable(at: Span, x: usize, found: &mut List<VarUse>) -> Result<(), AllocError>
    ensures { OnOk result (used found.new ≡ used found.old ++ record { var = x; at = at } ∷ []) }
{
    let var = narrow(x)?;
    found.push(VarUse { var, at })
}

#[cycle(reads)]
pub(crate) fn reads(e: &Term, found: &mut List<VarUse>) -> Result<(), AllocError>
    ensures { OnOk result (used found.new ≡ used found.old ++ uses.reads (erased.expression e.now)) }
{
    match e {
        Term::Number(_, _) | Term::Nil(_) => Ok(()),
        Term::Var(at, x) => use_variable(*at, *x, found),
        Term::Unary(_, _, a) => reads(a.get(), found),
        Term::Binary(_, _, a, b) => {
            reads(a.get(), found)?;
            reads(b.get(), found)
        }
        Term::And(_, a, b) | Term::Or(_, a, b) => {
            reads(a.get(), found)?;
            reads(b.get(), found)
        }
        Term::Load(_, p) => place_reads(p, found),
        Term::Call(i) => call_reads(i, found),
        Term::New(a) => part_reads(&a.count, found),
        Term::ValueOf(_, a) => reads(a.get(), found),
    }
}

#[cycle(reads)]
pub(crate) fn part_reads(
    e: &Option<Boxed<Term>>,
    found: &mut List<VarUse>,
) -> Result<(), AllocError>
    ensures { OnOk result (used found.new ≡ used found.old ++ uses.part_reads (erased.optional e.now)) }
{
    match e {
        None => Ok(()),
        Some(e) => reads(e.get(), found),
    }
}

#[cycle(reads)]
pub(crate) fn place_reads(p: &Place, found: &mut List<VarUse>) -> Result<(), AllocError>
    ensures { OnOk result (used found.new ≡ used found.old ++ uses.place_reads (erased.place p.now)) }
{
    match p {
        Place::Element(_, _, pointer, index) => {
            reads(pointer.get(), found)?;
            part_reads(index, found)
        }
        Place::Behind(_, _, _, pointer) => reads(pointer.get(), found),
        Place::Field(_, _, p) => place_reads(p.get(), found),
        Place::Item(_, p, index) => {
            place_reads(p.get(), found)?;
            reads(index.get(), found)
        }
    }
}

#[cycle(reads)]
pub(crate) fn call_reads(i: &Invocation, found: &mut List<VarUse>) -> Result<(), AllocError>
    ensures { OnOk result (used found.new ≡ used found.old ++ uses.call_reads (erased.invocation i.now)) }
{
    list_reads(i.args.as_slice(), found)?;
    placing_reads(&i.placing, found)
}

#[cycle(reads)]
pub(crate) fn list_reads(all: &[Term], found: &mut List<VarUse>) -> Result<(), AllocError>
    ensures { OnOk result (used found.new ≡ used found.old ++ uses.list_reads (erased.expressions all.now)) }
{
    for e in all {
        reads(e, found)?;
    }
    Ok(())
}

#[cycle(reads)]
fn placing_reads(p: &Placing, found: &mut List<VarUse>) -> Result<(), AllocError>
    ensures { OnOk result (used found.new ≡ used found.old ++ uses.placing_reads (erased.placing p.now)) }
{
    match p {
        Placing::OwnerOf(e) | Placing::Node(e) => reads(e.get(), found),
        Placing::Here | Placing::Home | Placing::Anywhere => Ok(()),
    }
}

pub(crate) fn assignment_reads(a: &Assignment, found: &mut List<VarUse>) -> Result<(), AllocError>
    ensures { OnOk result (used found.new ≡ used found.old ++ uses.assignment_reads (erased.assignment a.now)) }
{
    match a {
        Assignment::SetVar(_, _, e) => reads(e, found),
        Assignment::Store(p, e) => {
            place_reads(p, found)?;
            reads(e, found)
        }
        Assignment::Copy(p, q) => {
            place_reads(p, found)?;
            place_reads(q, found)
        }
    }
}

pub(crate) fn assignment_writes(a: &Assignment, found: &mut List<VarUse>) -> Result<(), AllocError>
    ensures { OnOk result (used found.new ≡ used found.old ++ uses.assignment_writes (erased.assignment a.now)) }
{
    match a {
        Assignment::SetVar(at, x, _) => use_variable(*at, *x, found),
        Assignment::Store(_, _) | Assignment::Copy(_, _) => Ok(()),
    }
}
