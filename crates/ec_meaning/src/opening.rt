//! Works that only open, or touch the hand, are taken.
ghost use Rattle.std.specs.Prelude.{◌≡◌, None, IsOk, IfOk};
ghost use Rattle.ec_resolve.specs.Erased as erased;
ghost use Rattle.ec_meaning.specs.Opened.{value_ticks, spends};
ghost use Rattle.ec_meaning.specs.Seen as seen;
ghost use Rattle.ec_meaning.specs.Seen.{Untold, Takes};

use crate::hand::Frame;
use crate::work::Work;
use ec_resolve::Term;
use std::alloc::AllocError;

/// An access spends the ticks of its nodes itself.
fn value_spends(e: &Term) -> bool
    ensures { result ≡ value_ticks (erased.expression e.now) }
{
    match e {
        Term::Load(_, _) => false,
        _ => true,
    }
}

impl<'a> Work<'a> {
    /// Whether taking it spends a tick.
    pub(crate) fn spends(self) -> bool
        ensures { (u : Untold) → result ≡ spends (seen.work u self.entry) }
    {
        match self {
            Work::Value(e) => value_spends(e),
            Work::Reach(_) | Work::Statement(_) | Work::Turn(_) => true,
            _ => false,
        }
    }
}

impl<'a> Frame<'a> {
    /// `None` where the work was opened; one that does more is handed back. `births` are those of the activation so far.
    pub(crate) fn take(&mut self, w: Work<'a>, births: u64) -> Result<Option<Work<'a>>, AllocError>
        ensures { IfOk result (λ back. Takes w.entry births self.old self.new back) }
    {
        match w {
            Work::Value(e) => opened(self.value(e)),
            Work::Constant(value) => opened(self.hand.push(value)),
            Work::Reach(place) => opened(self.reach(place)),
            Work::Arguments(es) => opened(self.arguments(es)),
            Work::Call(call) => opened(self.call(call)),
            Work::Operate(op) => opened(self.hand.operate(op)),
            Work::AndThen(e) => opened(self.and_then(e)),
            Work::OrElse(e) => opened(self.or_else(e)),
            Work::AsTruth => opened(self.hand.as_truth()),
            Work::ToElement(at, size) => opened(self.hand.to_element(at, size)),
            Work::ToBehind(at, size, field) => opened(self.hand.to_behind(at, size, field)),
            Work::ToField(at, field) => opened(self.hand.to_field(at, field)),
            Work::ToItem(at) => opened(self.hand.to_item(at)),
            Work::Drop => {
                let _ = self.hand.pop();
                Ok(None)
            }
            Work::Assign(a) => opened(self.assign(a)),
            Work::SetTo(number) => opened(self.hand.set_to(number)),
            Work::Declare(ds) => opened(self.declare(ds)),
            Work::Statement(s) => opened(self.statement(s, births)),
            Work::Statements(ss) => opened(self.statements(ss)),
            Work::Branches(ss) => opened(self.branches(ss)),
            Work::Decide(chosen, otherwise) => opened(self.decide(chosen, otherwise)),
            Work::Turn(l) => opened(self.turn(l)),
            Work::Again(l) => opened(self.again(l)),
            Work::Combine(_, _)
            | Work::LoadFrom
            | Work::LoadShared(_)
            | Work::Allocate(_, _)
            | Work::Share
            | Work::SaveTo
            | Work::CopyTo
            | Work::SendTo(_)
            | Work::AddUp(_)
            | Work::Enter(_, _, _)
            | Work::Branch(_)
            | Work::Joined(_)
            | Work::PrintOut(_, _)
            | Work::GiveBack => Ok(Some(w)),
        }
    }
}

/// Nothing is handed back.
fn opened<'a>(outcome: Result<(), AllocError>) -> Result<Option<Work<'a>>, AllocError>
    ensures { IfOk result (λ back. (back ≡ None) × IsOk outcome) }
{
    outcome?;
    Ok(None)
}
