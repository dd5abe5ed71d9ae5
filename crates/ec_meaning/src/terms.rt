//! Expressions, accesses, calls and assignments are opened: their parts are evaluated first, from left to right.
ghost use Rattle.std.specs.Prelude.{◌≡◌, option_map, OnOk};
ghost use Rattle.ec_resolve.specs.Erased as erased;
ghost use Rattle.ec_meaning.specs.Opened as opened;
ghost use Rattle.ec_meaning.specs.Handled.{Puts};
ghost use Rattle.ec_meaning.specs.Seen as seen;
ghost use Rattle.ec_meaning.specs.Seen.{Untold, val};
ghost use Rattle.ec_meaning.specs.Works as works;

use crate::hand::Frame;
use crate::value::Value;
use crate::work::{Placement, Work};
use ec_base::Boxed;
use ec_resolve::{Assignment, Invocation, Place, Placing, Term};
use std::alloc::AllocError;

/// The value of a term.
pub(crate) fn valued<'a>(e: &'a Boxed<Term>) -> Work<'a>
    ensures { (u : Untold) → seen.work u result ≡ works.Value (erased.expression e.now) }
{
    Work::Value(e.get())
}

/// The value of a part, or of what is missing.
pub(crate) fn part<'a>(missing: Value, part: &'a Option<Boxed<Term>>) -> Work<'a>
    ensures { (u : Untold) → seen.work u result ≡ opened.part (val u missing) (erased.optional part.now) }
{
    match part {
        Some(e) => Work::Value(e.get()),
        None => Work::Constant(missing),
    }
}

/// The call, once its operands are evaluated.
#[tactic(auto, using(crate::proofs::Arguments::counted))]
fn enter<'a>(placement: Placement, call: &Invocation) -> Work<'a>
    ensures { (u : Untold) → seen.work u result ≡ works.Enter (seen.placement u placement) call.now.function (opened.count (erased.expressions call.now.args)) }
{
    Work::Enter(placement, call.function, call.args.len())
}

impl<'a> Frame<'a> {
    pub(crate) fn value(&mut self, e: &'a Term) -> Result<(), AllocError>
        ensures works { OnOk result (Puts (λ u h. opened.of_value (erased.expression e.now) h) self.old self.new) }
        ensures hand { OnOk result (self.new.hand ≡ self.old.hand) }
    {
        let works = &mut self.works;
        match e {
            Term::Number(_, number) => works.push(Work::Constant(Value::Int(*number))),
            Term::Nil(_) => works.push(Work::Constant(Value::Null)),
            Term::Var(_, number) => works.push(Work::Constant(self.hand.variable(*number))),
            Term::Unary(_, op, operand) => works.push_two(valued(operand), Work::Operate(*op)),
            Term::Binary(at, op, left, right) => works.push_three(
                valued(left),
                valued(right),
                Work::Combine(*at, *op),
            ),
            Term::And(_, left, right) => works.push_two(valued(left), Work::AndThen(right.get())),
            Term::Or(_, left, right) => works.push_two(valued(left), Work::OrElse(right.get())),
            Term::Load(_, place) => works.push_two(Work::Reach(place), Work::LoadFrom),
            Term::Call(call) => works.push(Work::Call(call)),
            Term::New(fresh) => works.push_two(
                part(Value::Int(1), &fresh.count),
                Work::Allocate(fresh.at, fresh.pointers.as_slice()),
            ),
            Term::ValueOf(at, variable) => works.push_two(valued(variable), Work::LoadShared(*at)),
        }
    }

    pub(crate) fn reach(&mut self, place: &'a Place) -> Result<(), AllocError>
        ensures works { OnOk result (Puts (λ u h. opened.of_place (erased.place place.now)) self.old self.new) }
        ensures hand { OnOk result (self.new.hand ≡ self.old.hand) }
    {
        let works = &mut self.works;
        match place {
            Place::Element(at, size, base, index) => works.push_three(
                valued(base),
                part(Value::Int(0), index),
                Work::ToElement(*at, *size),
            ),
            Place::Behind(at, size, field, base) => works.push_two(
                valued(base),
                Work::ToBehind(*at, *size, *field),
            ),
            Place::Field(at, field, element) => works.push_two(
                Work::Reach(element.get()),
                Work::ToField(*at, *field),
            ),
            Place::Item(at, field, index) => works.push_three(
                Work::Reach(field.get()),
                valued(index),
                Work::ToItem(*at),
            ),
        }
    }

    pub(crate) fn arguments(&mut self, es: &'a [Term]) -> Result<(), AllocError>
        ensures works { OnOk result (Puts (λ u h. opened.of_arguments (erased.expressions es.now)) self.old self.new) }
        ensures hand { OnOk result (self.new.hand ≡ self.old.hand) }
    {
        let works = &mut self.works;
        match es.split_first() {
            Some((first, rest)) => works.push_two(Work::Value(first), Work::Arguments(rest)),
            None => Ok(()),
        }
    }

    pub(crate) fn call(&mut self, call: &'a Invocation) -> Result<(), AllocError>
        ensures works { OnOk result (Puts (λ u h. opened.of_call (erased.invocation call.now)) self.old self.new) }
        ensures hand { OnOk result (self.new.hand ≡ self.old.hand) }
    {
        let works = &mut self.works;
        let arguments = Work::Arguments(call.args.as_slice());
        match &call.placing {
            Placing::Here => works.push_two(arguments, enter(Placement::Here, call)),
            Placing::OwnerOf(e) => works.push_three(
                arguments,
                valued(e),
                enter(Placement::OwnerOf, call),
            ),
            Placing::Home => works.push_two(arguments, enter(Placement::Home, call)),
            Placing::Node(e) => works.push_three(
                arguments,
                valued(e),
                enter(Placement::Node, call),
            ),
            Placing::Anywhere => works.push_two(arguments, enter(Placement::Anywhere, call)),
        }
    }

    pub(crate) fn assign(&mut self, a: &'a Assignment) -> Result<(), AllocError>
        ensures works { OnOk result (Puts (λ u h. opened.of_assignment (erased.assignment a.now)) self.old self.new) }
        ensures hand { OnOk result (self.new.hand ≡ self.old.hand) }
    {
        let works = &mut self.works;
        match a {
            Assignment::SetVar(_, number, e) => {
                works.push_two(Work::Value(e), Work::SetTo(*number))
            }
            Assignment::Store(place, e) => {
                works.push_three(Work::Reach(place), Work::Value(e), Work::SaveTo)
            }
            Assignment::Copy(target, source) => {
                works.push_three(Work::Reach(target), Work::Reach(source), Work::CopyTo)
            }
        }
    }
}
