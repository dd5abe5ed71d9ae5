//! Assignments and conditions.
ghost use Rattle.ec_types.specs.Assignments.{no_array, element, set_place, sides, fits_into, assigned, condition};
ghost use Rattle.ec_types.specs.Expressions.{judged, value};
ghost use Rattle.ec_types.specs.Judged.{Gives, optional};
ghost use Rattle.ec_types.specs.Seen.{context};

use crate::judge::Judge;
use crate::judged::{Judged, also, both, must, refused};
use crate::operators::is_assignable;
use crate::rules::{stays_local, valued};
use crate::value_type::ExprType;
use ec_base::{Boxed, Reason, Span};
use ec_syntax::{Assign, Expr};

/// An array field wants an index.
fn no_array(at: Span, t: ExprType) -> Judged<ExprType>
    ensures { Gives result (no_array at t) }
{
    match t {
        ExprType::Array => refused(Reason::Mismatch, at),
        t => Ok(t),
    }
}

impl Judge<'_> {
    /// An expression where no shared name may stand.
    pub(crate) fn value(&self, e: &Expr) -> Judged<ExprType>
        ensures { Gives result (value (context self.now) e.now) }
    {
        valued(self, e, self.expression(e))
    }

    /// What stands left of `=`, with an index where it is an array.
    #[tactic(auto, using(crate::proofs::Judgements::gives_up, crate::proofs::Judgements::goes_on))]
    fn element(&self, left: &Expr) -> Judged<ExprType>
        ensures { Gives result (element (judged (context self.now) left.now)) }
    {
        match self.value(left) {
            Err(fail) => Err(fail),
            Ok(t) => no_array(self.place(left), t),
        }
    }

    /// What stands left of `=`.
    fn set_place(&self, left: &Expr) -> Judged<ExprType>
        ensures { Gives result (set_place (judged (context self.now) left.now)) }
    {
        let place = must(self.is_place(left), Reason::Mismatch, self.place(left));
        also(self.element(left), place)
    }

    /// The value `e`, of the second type, fits what it is put into, and is local where that is asked.
    pub(crate) fn fits_into(
        &self,
        at: Span,
        to: &ExprType,
        asks: bool,
        e: &Expr,
        t: &ExprType,
    ) -> Judged<()>
        ensures { Gives result (fits_into (context self.now) at to.now asks (judged (context self.now) e.now) t.now) }
    {
        let fits = must(is_assignable(to, t), Reason::Mismatch, at);
        let local = stays_local(!asks || self.is_local(e), self.place(e), t);
        also(fits, local)
    }

    /// Both sides of an assignment.
    fn sides(&self, a: &Assign) -> Judged<(ExprType, ExprType)>
        ensures { Gives result (sides (judged (context self.now) a.now.left) (judged (context self.now) a.now.right)) }
    {
        both(self.set_place(&a.left), self.value(&a.right))
    }

    #[tactic(auto, using(crate::proofs::Judgements::gives_up, crate::proofs::Judgements::goes_on))]
    pub(crate) fn assigned(&self, at: Span, a: &Assign) -> Judged<()>
        ensures { Gives result (assigned (context self.now) at a.now) }
    {
        match self.sides(a) {
            Err(fail) => Err(fail),
            Ok((target, t)) => {
                let asks = self.is_local_variable(&a.left);
                self.fits_into(at, &target, asks, &a.right, &t)
            }
        }
    }

    pub(crate) fn optional_assigned(&self, at: Span, a: &Option<Boxed<Assign>>) -> Judged<()>
        ensures { Gives result (optional (assigned (context self.now) at) a.now) }
    {
        match a {
            None => Ok(()),
            Some(a) => self.assigned(at, a.get()),
        }
    }

    #[tactic(auto, using(crate::proofs::Judgements::gives_up, crate::proofs::Judgements::goes_on))]
    pub(crate) fn condition(&self, at: Span, e: &Expr) -> Judged<()>
        ensures { Gives result (condition (context self.now) at e.now) }
    {
        match self.value(e) {
            Err(fail) => Err(fail),
            Ok(t) => must(t.is_scalar(), Reason::Mismatch, at),
        }
    }

    pub(crate) fn optional_condition(&self, at: Span, e: &Option<Boxed<Expr>>) -> Judged<()>
        ensures { Gives result (optional (condition (context self.now) at) e.now) }
    {
        match e {
            None => Ok(()),
            Some(e) => self.condition(at, e.get()),
        }
    }
}
