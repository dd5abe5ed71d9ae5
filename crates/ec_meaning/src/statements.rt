//! Statements and declarations are opened.
ghost use Rattle.std.specs.Prelude.{◌≡◌, [], if◌then◌else◌, map, option_map, option_copied, OnOk};
ghost use Rattle.ec_resolve.specs.Erased as erased;
ghost use Rattle.ec_types.specs.Meaning.Tree as tree;
ghost use Rattle.ec_meaning.specs.Acts as acts;
ghost use Rattle.ec_meaning.specs.Opened as opened;
ghost use Rattle.ec_meaning.specs.Handled.{Becomes, Puts};
ghost use Rattle.ec_meaning.specs.Seen as seen;
ghost use Rattle.ec_meaning.specs.Seen.{Untold, val};
ghost use Rattle.ec_meaning.specs.Works as works;
ghost use Rattle.ec_types.specs.Meaning.Values as values;

use crate::hand::Frame;
use crate::terms::{part, valued};
use crate::value::Value;
use crate::work::{Loop, Work};
use ec_base::{Boxed, Text};
use ec_resolve::{Action, Declared, Term};
use std::alloc::AllocError;

/// What a cell or variable is at first.
pub(crate) fn first_value(pointer: bool) -> Value
    ensures { (u : Untold) → val u result ≡ erased.first_value pointer }
{
    if pointer { Value::Null } else { Value::Int(0) }
}

impl<'a> Frame<'a> {
    pub(crate) fn declare(&mut self, ds: &'a [Declared]) -> Result<(), AllocError>
        ensures works { OnOk result (Puts (λ u h. opened.of_declarations (map erased.declaration ds.now)) self.old self.new) }
        ensures hand { OnOk result (self.new.hand ≡ self.old.hand) }
    {
        let works = &mut self.works;
        match ds.split_first() {
            Some((Declared::Plain(number, pointer, init), rest)) => {
                let unset = first_value(*pointer);
                works.push_three(part(unset, init), Work::SetTo(*number), Work::Declare(rest))?;
                works.push_two(Work::Constant(unset), Work::SetTo(*number))
            }
            Some((Declared::Shared(number), rest)) => {
                works.push_three(Work::Share, Work::SetTo(*number), Work::Declare(rest))
            }
            None => Ok(()),
        }
    }

    /// `births` are those of the activation so far.
    pub(crate) fn statement(&mut self, s: &'a Action, births: u64) -> Result<(), AllocError>
        ensures works { OnOk result (Puts (λ u h. opened.of_statement (erased.statement s.now) births) self.old self.new) }
        ensures hand { OnOk result (self.new.hand ≡ self.old.hand) }
    {
        let works = &mut self.works;
        match s {
            Action::Skip => Ok(()),
            Action::Block(block) => {
                let statements = Work::Statements(block.actions.as_slice());
                works.push_two(Work::Declare(block.decls.as_slice()), statements)
            }
            Action::Par(_, branches) => {
                works.push_two(Work::Branches(branches.as_slice()), Work::Joined(births))
            }
            Action::If(e, chosen, otherwise) => {
                let decide = Work::Decide(chosen.get(), unboxed(otherwise));
                works.push_two(valued(e), decide)
            }
            Action::While(e, body) => works.push(Work::Turn(Loop::While(e.get(), body.get()))),
            Action::For(_, header, body) => {
                let turn = Work::Turn(Loop::For(header.get(), body.get()));
                match &header.get().first {
                    Some(first) => works.push_two(Work::Assign(first.get()), turn),
                    None => works.push(turn),
                }
            }
            Action::Forall(_, header, body) => {
                let turn = Work::Turn(Loop::Forall(header.get(), body.get()));
                let first = Work::Assign(header.get().first.get());
                works.push_three(first, turn, Work::Joined(births))
            }
            Action::Set(a) => works.push(Work::Assign(a.get())),
            Action::Eval(call) => works.push_two(Work::Call(call.get()), Work::Drop),
            Action::WriteTo(at, to, e) => {
                works.push_three(valued(to), valued(e), Work::SendTo(*at))
            }
            Action::AddTo(at, to, e) => works.push_three(valued(to), valued(e), Work::AddUp(*at)),
            Action::Print(string, es) => {
                let es = es.as_slice();
                works.push_two(Work::Arguments(es), print_out(string, es))
            }
            Action::Return(e) => works.push_two(part(Value::Int(0), e), Work::GiveBack),
        }
    }

    pub(crate) fn statements(&mut self, ss: &'a [Action]) -> Result<(), AllocError>
        ensures works { OnOk result (Puts (λ u h. opened.of_statements (erased.statements ss.now)) self.old self.new) }
        ensures hand { OnOk result (self.new.hand ≡ self.old.hand) }
    {
        match ss.split_first() {
            Some((first, rest)) => self
                .works
                .push_two(Work::Statement(first), Work::Statements(rest)),
            None => Ok(()),
        }
    }

    pub(crate) fn turn(&mut self, l: Loop<'a>) -> Result<(), AllocError>
        ensures works { OnOk result (Puts (λ u h. opened.of_turn (seen.loop u l.entry)) self.old self.new) }
        ensures hand { OnOk result (self.new.hand ≡ self.old.hand) }
    {
        self.works.push_two(test(l), Work::Again(l))
    }

    /// What an `if` does by the value at hand.
    pub(crate) fn decide(
        &mut self,
        chosen: &'a Action,
        otherwise: Option<&'a Action>,
    ) -> Result<(), AllocError>
        ensures works { OnOk result (Puts (λ u h. opened.of_decision (values.holds (acts.top h)) (erased.statement chosen.now) (tree.otherwise (option_map (λ z. erased.statement z.now) otherwise.entry))) self.old self.new) }
        ensures hand { OnOk result (Becomes (λ u h. acts.without 1 h) self.old.hand self.new.hand) }
    {
        if self.hand.pop_condition() {
            return self.works.push(Work::Statement(chosen));
        }
        match otherwise {
            Some(s) => self.works.push(Work::Statement(s)),
            None => Ok(()),
        }
    }

    /// What a loop does by the value at hand.
    pub(crate) fn again(&mut self, l: Loop<'a>) -> Result<(), AllocError>
        ensures works { OnOk result (Puts (λ u h. if values.holds (acts.top h) then opened.of_repetition (seen.loop u l.entry) else []) self.old self.new) }
        ensures hand { OnOk result (Becomes (λ u h. acts.without 1 h) self.old.hand self.new.hand) }
    {
        if self.hand.pop_condition() {
            self.repeat(l)
        } else {
            Ok(())
        }
    }

    fn repeat(&mut self, l: Loop<'a>) -> Result<(), AllocError>
        ensures works { OnOk result (Puts (λ u h. opened.of_repetition (seen.loop u l.entry)) self.old self.new) }
        ensures hand { OnOk result (self.new.hand ≡ self.old.hand) }
    {
        match l {
            Loop::While(_, body) => self.works.push_two(Work::Statement(body), Work::Turn(l)),
            Loop::For(header, body) => match &header.last {
                Some(last) => self.works.push_three(
                    Work::Statement(body),
                    Work::Assign(last.get()),
                    Work::Turn(l),
                ),
                None => self.works.push_two(Work::Statement(body), Work::Turn(l)),
            },
            Loop::Forall(header, body) => self.works.push_three(
                Work::Branch(body),
                Work::Assign(header.last.get()),
                Work::Turn(l),
            ),
        }
    }
}

/// The print, once its values are there.
#[tactic(auto, using(crate::proofs::Arguments::counted))]
fn print_out<'a>(string: &'a Text, es: &'a [Term]) -> Work<'a>
    ensures { (u : Untold) → seen.work u result ≡ works.PrintOut string.now (opened.count (erased.expressions es.now)) }
{
    Work::PrintOut(string, es.len())
}

/// A missing test holds.
fn test<'a>(l: Loop<'a>) -> Work<'a>
    ensures { (u : Untold) → seen.work u result ≡ opened.test (seen.loop u l.entry) }
{
    match l {
        Loop::While(e, _) => Work::Value(e),
        Loop::For(header, _) => match &header.test {
            Some(e) => Work::Value(e.get()),
            None => Work::Constant(Value::Int(1)),
        },
        Loop::Forall(header, _) => Work::Value(header.test.get()),
    }
}

fn unboxed<'a>(s: &'a Option<Boxed<Action>>) -> Option<&'a Action>
    ensures { option_copied result ≡ s.now }
{
    match s {
        Some(s) => Some(s.get()),
        None => None,
    }
}
