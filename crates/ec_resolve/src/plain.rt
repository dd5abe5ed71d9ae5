//! Calls whose operands make no access, no block and no call.
ghost use Rattle.std.specs.Prelude.{◌≡◌};
ghost use Rattle.ec_types.specs.Meaning.Branches as branches;
ghost use Rattle.ec_resolve.specs.Erased as erased;

use crate::term::{Invocation, Placing, Term};

/// Only variables, numbers, NULL, `&x` and operators on values.
fn is_plain(e: &Term) -> bool
    ensures { result ≡ branches.is_plain (erased.expression e.now) }
{
    match e {
        Term::Number(_, _) | Term::Nil(_) | Term::Var(_, _) => true,
        Term::Unary(_, _, operand) => is_plain(operand.get()),
        Term::Binary(_, _, left, right) => is_plain(left.get()) && is_plain(right.get()),
        Term::And(_, left, right) => is_plain(left.get()) && is_plain(right.get()),
        Term::Or(_, left, right) => is_plain(left.get()) && is_plain(right.get()),
        Term::Load(_, _) | Term::Call(_) | Term::New(_) | Term::ValueOf(_, _) => false,
    }
}

fn are_plain(es: &[Term]) -> bool
    ensures { result ≡ branches.are_plain (erased.expressions es.now) }
{
    for e in es {
        if !is_plain(e) {
            return false;
        }
    }
    true
}

fn is_plain_place(placing: &Placing) -> bool
    ensures { result ≡ branches.is_plain_place (erased.placing placing.now) }
{
    match placing {
        Placing::OwnerOf(e) | Placing::Node(e) => is_plain(e.get()),
        Placing::Here | Placing::Home | Placing::Anywhere => true,
    }
}

impl Invocation {
    /// Whether its arguments and its placement's operand are only variables, numbers, NULL, `&x` and operators on values.
    pub fn is_plain(&self) -> bool
        ensures { result ≡ branches.is_plain_call (erased.invocation self.now) }
    {
        are_plain(self.args.as_slice()) && is_plain_place(&self.placing)
    }
}
