//! Branches of parallel sequences: which of them are their calls' activations.
ghost use Rattle.std.specs.Prelude.{◌≡◌, OnOk};
ghost use Rattle.ec_resolve.specs.Erased as erased;
ghost use Rattle.ec_types.specs.Meaning.Branches as branches;
ghost use Rattle.ec_meaning.specs.Opened as opened;
ghost use Rattle.ec_meaning.specs.Handled.{Puts};
ghost use Rattle.ec_meaning.specs.Seen as seen;
ghost use Rattle.ec_meaning.specs.Seen.{Untold};

use crate::hand::Frame;
use crate::work::Work;
use ec_resolve::{Action, Assignment, Term};
use std::alloc::AllocError;

fn is_call(e: &Term) -> bool
    ensures { result ≡ branches.is_call (erased.expression e.now) }
{
    match e {
        Term::Call(call) => call.is_plain(),
        _ => false,
    }
}

/// One call statement, or one assignment of a call to a variable.
fn is_call_branch(s: &Action) -> bool
    ensures { result ≡ branches.is_call_branch (erased.statement s.now) }
{
    match s {
        Action::Eval(call) => call.get().is_plain(),
        Action::Set(a) => match a.get() {
            Assignment::SetVar(_, _, e) => is_call(e),
            Assignment::Store(_, _) | Assignment::Copy(_, _) => false,
        },
        _ => false,
    }
}

impl<'a> Frame<'a> {
    pub(crate) fn branches(&mut self, ss: &'a [Action]) -> Result<(), AllocError>
        ensures works { OnOk result (Puts (λ u h. opened.of_branches (erased.statements ss.now)) self.old self.new) }
        ensures hand { OnOk result (self.new.hand ≡ self.old.hand) }
    {
        match ss.split_first() {
            Some((first, rest)) => self.works.push_two(branch(first), Work::Branches(rest)),
            None => Ok(()),
        }
    }
}

fn branch<'a>(s: &'a Action) -> Work<'a>
    ensures { (u : Untold) → seen.work u result ≡ opened.branch (erased.statement s.now) }
{
    if is_call_branch(s) {
        Work::Statement(s)
    } else {
        Work::Branch(s)
    }
}
