//! Branches that are the activations of their calls.
ghost use Rattle.std.specs.Prelude.{◌≡◌, true, false, MatchOption, IfOk};
ghost use Rattle.ec_resolve.specs.Erased as erased;
ghost use Rattle.ec_simple.specs.Direct.{Receives, branch, set_by};
ghost use Rattle.ec_simple.specs.Puts.{PutsDirect};
ghost use Rattle.ec_simple.specs.Seen.{scope};
ghost use Rattle.ec_simple.specs.Statements as low;
ghost use Rattle.ec_types.specs.Meaning.Branches as branches;
ghost use Rattle.ec_types.specs.Meaning.Tree as tree;

use crate::form::{SBranch, SVar, VarUse};
use crate::numbered::{Numbered, narrow};
use crate::scope::Scope;
use crate::temporary::temporary;
use crate::uses::call_reads;
use ec_base::{List, Span};
use ec_resolve::{Action, Assignment, Invocation, Term};
use std::alloc::AllocError;

/// A branch that is a call, and the variable that is set to its result, with its place.
#[derive(Clone, Copy)]
pub(crate) struct Direct<'a> {
    pub(crate) call: &'a Invocation,
    pub(crate) to: Option<(Span, usize)>,
}

fn as_direct<'a>(call: &'a Invocation, to: Option<(Span, usize)>) -> Option<Direct<'a>>
    ensures { MatchOption result (branches.is_plain_call (erased.invocation call.now) ≡ false) (λ d. (branches.is_plain_call (erased.invocation call.now) ≡ true) × (d.call.now ≡ call.now) × (d.to ≡ to)) }
{
    if call.is_plain() {
        Some(Direct { call, to })
    } else {
        None
    }
}

fn direct_assignment<'a>(a: &'a Assignment) -> Option<Direct<'a>>
    ensures { MatchOption result (branches.is_call_branch (tree.Set (erased.assignment a.now)) ≡ false) (λ d. (branches.is_call_branch (tree.Set (erased.assignment a.now)) ≡ true) × (branch d ≡ tree.Set (erased.assignment a.now))) }
{
    match a {
        Assignment::SetVar(at, x, Term::Call(call)) => as_direct(call, Some((*at, *x))),
        _ => None,
    }
}

/// One call statement, or one assignment of a call to a variable.
pub(crate) fn direct_call<'a>(s: &'a Action) -> Option<Direct<'a>>
    ensures { MatchOption result (branches.is_call_branch (erased.statement s.now) ≡ false) (λ d. (branches.is_call_branch (erased.statement s.now) ≡ true) × (branch d ≡ erased.statement s.now)) }
{
    match s {
        Action::Eval(call) => as_direct(call.get(), None),
        Action::Set(a) => direct_assignment(a.get()),
        _ => None,
    }
}

impl Scope<'_, '_> {
    /// Where the result of a call goes: the variable, or a temporary where the function gives one.
    fn results(
        &self,
        d: &Direct,
        at: Span,
        vars: &mut Numbered<SVar>,
    ) -> Result<List<u32>, AllocError>
        ensures { IfOk result (λ to. Receives (scope self.now) d.now at to vars.old vars.new) }
    {
        let mut to = List::new(self.alloc);
        match d.to {
            Some((_, x)) => to.push(self.place(x)?)?,
            None => {
                let f = d.call.function;
                if !self.is_void(f) {
                    to.push(vars.push(temporary(at, self.gives(f)))?)?;
                }
            }
        }
        Ok(to)
    }

    /// The variable that is set is written.
    fn result_uses(&self, d: &Direct) -> Result<List<VarUse>, AllocError>
        ensures { IfOk result (λ l. l ≡ low.uses (scope self.now) (set_by d.now)) }
    {
        let mut all = List::new(self.alloc);
        if let Some((at, x)) = d.to {
            all.push(VarUse {
                var: narrow(x)?,
                at,
            })?;
        }
        self.uses(all.as_slice())
    }

    pub(crate) fn call_branch(
        &self,
        d: &Direct,
        vars: &mut Numbered<SVar>,
    ) -> Result<SBranch, AllocError>
        ensures { IfOk result (λ b. PutsDirect (low.low_call_branch (scope self.now) (branch d.now) vars.old.next) b vars.old vars.new) }
    {
        let mut before = List::new(self.alloc);
        let callee = self.call(d.call, &mut before, vars)?;
        let to = self.results(d, callee.at, vars)?;
        let mut reads = List::new(self.alloc);
        call_reads(d.call, &mut reads)?;
        let reads = self.uses(reads.as_slice())?;
        let call = callee.into_call(self.alloc, to, reads, self.result_uses(d)?)?;
        Ok(SBranch { before, call })
    }
}
