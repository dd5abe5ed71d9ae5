//! What expressions are, or the first thing that they are refused for.
ghost use Rattle.std.specs.Prelude.{◌≡◌, map, option_copied};
ghost use Rattle.ec_types.specs.Arguments as parameters;
ghost use Rattle.ec_types.specs.Expressions as expressions;
ghost use Rattle.ec_types.specs.Judged.{Gives};
ghost use Rattle.ec_types.specs.Seen.{context};

use crate::judge::Judge;
use crate::judged::Judged;
use crate::rules::{and, binary, counts, dereferenced, fits, indexed, logic, points, read, unary};
use crate::value_type::{ExprType, number};
use ec_syntax::{Call, Decl, Expr, ExprKind, Func, Placement};

fn params_of<'a>(f: Option<&'a Func>) -> &'a [Decl]
    ensures { result.now ≡ parameters.params_of (option_copied f.entry) }
{
    match f {
        None => &[],
        Some(f) => f.params.as_slice(),
    }
}

impl Judge<'_> {
    #[cycle(expression)]
    pub(crate) fn expression(&self, e: &Expr) -> Judged<ExprType>
        ensures { Gives result (expressions.judged (context self.now) e.now).is }
    {
        let at = e.at;
        match &e.kind {
            ExprKind::Number(_) => Ok(number()),
            ExprKind::Null => Ok(ExprType::Null),
            ExprKind::Var(name) => self.variable(name, at),
            ExprKind::Paren(inside) => self.expression(inside.get()),
            ExprKind::Unary(operator, a) => {
                let a = a.get();
                unary(self, *operator, at, a, self.expression(a))
            }
            ExprKind::Binary(operator, a, b) => {
                let a = a.get();
                let b = b.get();
                let left = self.expression(a);
                let right = self.expression(b);
                binary(self, *operator, at, a, left, b, right)
            }
            ExprKind::And(a, b) => {
                let a = a.get();
                let b = b.get();
                let left = self.expression(a);
                let right = self.expression(b);
                logic(self, at, a, left, b, right)
            }
            ExprKind::Or(a, b) => {
                let a = a.get();
                let b = b.get();
                let left = self.expression(a);
                let right = self.expression(b);
                logic(self, at, a, left, b, right)
            }
            ExprKind::Deref(a) => {
                let a = a.get();
                dereferenced(self, at, a, self.expression(a))
            }
            ExprKind::Index(a, i) => {
                let a = a.get();
                let i = i.get();
                let pointer = self.expression(a);
                let index = self.expression(i);
                indexed(self, at, a, pointer, i, index)
            }
            ExprKind::Arrow(a, f) => {
                let a = a.get();
                self.selected(1, a, self.expression(a), f, at)
            }
            ExprKind::Dot(a, f) => {
                let a = a.get();
                self.selected(0, a, self.expression(a), f, at)
            }
            ExprKind::Call(call) => self.call(call),
            ExprKind::New(to, count, element) => match count {
                None => self.new(to, element, at, Ok(true)),
                Some(count) => {
                    let count = count.get();
                    let counts = counts(self, count, self.expression(count));
                    self.new(to, element, at, counts)
                }
            },
            ExprKind::ValueOf(a) => {
                let a = a.get();
                read(self, at, a, self.expression(a))
            }
            ExprKind::Address(name) => self.address(name, at),
        }
    }

    #[cycle(expression)]
    pub(crate) fn call(&self, call: &Call) -> Judged<ExprType>
        ensures { Gives result (expressions.judged_call (context self.now) call.now) }
    {
        let f = self.functions.named(&call.name.text);
        let fit = self.arguments(call.args.as_slice(), params_of(f), &call.place);
        let fit = and(fit, self.placement(&call.place));
        self.called(f, call.name.at, fit, call.at)
    }

    /// Whether the operand of a placement fits it.
    #[cycle(expression)]
    fn placement(&self, place: &Placement) -> Judged<bool>
        ensures { Gives result (expressions.placed (context self.now) place.now).fits }
    {
        match place {
            Placement::OwnerOf(a) => {
                let a = a.get();
                points(self, a, self.expression(a))
            }
            Placement::Node(a) => {
                let a = a.get();
                counts(self, a, self.expression(a))
            }
            _ => Ok(true),
        }
    }

    /// Whether the arguments of a call fit its parameters.
    #[cycle(expression)]
    fn arguments(&self, all: &[Expr], params: &[Decl], place: &Placement) -> Judged<bool>
        ensures { Gives result (parameters.arguments (expressions.placed (context self.now) place.now).lets params.now (map (expressions.judged (context self.now)) all.now)) }
    {
        let mut so_far: Judged<bool> = Ok(params.len() <= all.len());
        let mut at = all.len();
        while at > 0 {
            at -= 1;
            let e = &all[at];
            let fit = fits(
                self,
                params.get(at),
                self.lets(place, e),
                e,
                self.expression(e),
            );
            so_far = and(fit, so_far);
        }
        so_far
    }
}
