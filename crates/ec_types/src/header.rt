//! Headers of `forall`s.
ghost use Rattle.std.specs.Prelude.{map};
ghost use Rattle.ec_calls.specs.Effects.{effects, call_effects, placement_effects, joined};
ghost use Rattle.ec_types.specs.Expressions.{judged};
ghost use Rattle.ec_types.specs.Headers.{no_effects, sets_variable, sets_the_same, still, header};
ghost use Rattle.ec_types.specs.Judged.{Gives};
ghost use Rattle.ec_types.specs.Seen.{context};

use crate::judge::Judge;
use crate::judged::{Judged, also, must, refused};
use ec_base::Reason;
use ec_syntax::{Assign, Call, Expr, ExprKind, Placement};

/// Nothing is called or allocated in an expression.
#[cycle(still)]
fn is_still(e: &Expr) -> Judged<()>
    ensures { Gives result (no_effects (effects e.now)) }
{
    match &e.kind {
        ExprKind::Number(_) => Ok(()),
        ExprKind::Null => Ok(()),
        ExprKind::Var(_) => Ok(()),
        ExprKind::Paren(a) => is_still(a.get()),
        ExprKind::Unary(_, a) => is_still(a.get()),
        ExprKind::Binary(_, a, b) => also(is_still(a.get()), is_still(b.get())),
        ExprKind::And(a, b) => also(is_still(a.get()), is_still(b.get())),
        ExprKind::Or(a, b) => also(is_still(a.get()), is_still(b.get())),
        ExprKind::Deref(a) => is_still(a.get()),
        ExprKind::Index(a, i) => also(is_still(a.get()), is_still(i.get())),
        ExprKind::Arrow(a, _) => is_still(a.get()),
        ExprKind::Dot(a, _) => is_still(a.get()),
        ExprKind::Call(call) => is_still_call(call),
        ExprKind::New(_, count, _) => {
            let here = refused(Reason::HeaderForm, e.at);
            match count {
                None => here,
                Some(count) => also(here, is_still(count.get())),
            }
        }
        ExprKind::ValueOf(a) => is_still(a.get()),
        ExprKind::Address(_) => Ok(()),
    }
}

#[cycle(still)]
fn is_still_call(call: &Call) -> Judged<()>
    ensures { Gives result (no_effects (call_effects call.now)) }
{
    let parts = also(
        are_still(call.args.as_slice()),
        is_still_placement(&call.place),
    );
    also(refused(Reason::HeaderForm, call.at), parts)
}

#[cycle(still)]
fn is_still_placement(place: &Placement) -> Judged<()>
    ensures { Gives result (no_effects (placement_effects place.now)) }
{
    match place {
        Placement::OwnerOf(a) => is_still(a.get()),
        Placement::Node(a) => is_still(a.get()),
        _ => Ok(()),
    }
}

#[cycle(still)]
fn are_still(all: &[Expr]) -> Judged<()>
    ensures { Gives result (no_effects (joined (map effects all.now))) }
{
    let mut so_far: Judged<()> = Ok(());
    for e in all {
        so_far = also(so_far, is_still(e));
    }
    so_far
}

/// Nothing is called or allocated in a header.
fn is_still_header(first: &Assign, test: &Expr, last: &Assign) -> Judged<()>
    ensures { Gives result (still first.now test.now last.now) }
{
    let first = also(is_still(&first.left), is_still(&first.right));
    let last = also(is_still(&last.left), is_still(&last.right));
    also(first, also(is_still(test), last))
}

impl Judge<'_> {
    /// The left side is a variable.
    fn sets_variable(&self, left: &Expr) -> Judged<()>
        ensures { Gives result (sets_variable (judged (context self.now) left.now)) }
    {
        must(self.is_variable(left), Reason::HeaderForm, self.place(left))
    }

    /// The second left side is no other variable than the first.
    fn sets_the_same(&self, a: &Expr, b: &Expr) -> Judged<()>
        ensures { Gives result (sets_the_same (judged (context self.now) a.now) (judged (context self.now) b.now)) }
    {
        let are_variables = self.is_variable(a) && self.is_variable(b);
        let fits = !are_variables || self.is_same_variable(a, b);
        must(fits, Reason::HeaderForm, self.place(b))
    }

    pub(crate) fn header(&self, first: &Assign, test: &Expr, last: &Assign) -> Judged<()>
        ensures { Gives result (header (context self.now) first.now test.now last.now) }
    {
        let same = self.sets_the_same(&first.left, &last.left);
        let still = is_still_header(first, test, last);
        also(
            self.sets_variable(&first.left),
            also(self.sets_variable(&last.left), also(same, still)),
        )
    }
}
