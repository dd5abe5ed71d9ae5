//! Expressions.
ghost use Rattle.std.specs.Prelude.{◌≡◌, map, IfOk};
ghost use Rattle.ec_types.specs.Meaning.Resolution as resolution;
ghost use Rattle.ec_resolve.specs.Erased as erased;
ghost use Rattle.ec_resolve.specs.Operands.{operand};
ghost use Rattle.ec_resolve.specs.Seen.{scope};

use crate::operand::{Operand, numbered, valued};
use crate::scope::Scope;
use crate::term::{Invocation, Placing, Term};
use ec_base::{Boxed, List, Span, Text};
use ec_syntax::{Call, Expr, ExprKind, Placement};
use ec_types::ExprType;
use std::alloc::AllocError;

impl Scope<'_> {
    /// A variable, as an expression of this type.
    fn named(&self, at: Span, ty: ExprType, name: &Text) -> Result<Operand, AllocError>
        ensures { IfOk result (λ o. operand o ≡ resolution.named (scope self.now) at ty name.now) }
    {
        valued(self.alloc, ty, Term::Var(at, self.variable_number(name)))
    }

    #[cycle(expression)]
    pub(crate) fn expression(&self, e: &Expr) -> Result<Operand, AllocError>
        ensures { IfOk result (λ o. operand o ≡ resolution.resolved (scope self.now) e.now) }
    {
        let at = e.at;
        match &e.kind {
            ExprKind::Number(n) => numbered(self.alloc, Term::Number(at, *n)),
            ExprKind::Null => valued(self.alloc, ExprType::Null, Term::Nil(at)),
            ExprKind::Var(name) => self.named(at, self.variable_type(name)?, name),
            ExprKind::Paren(inside) => self.expression(inside.get()),
            ExprKind::Unary(operator, a) => {
                let a = self.value(a.get())?;
                numbered(self.alloc, Term::Unary(at, *operator, a))
            }
            ExprKind::Binary(operator, a, b) => {
                let a = self.value(a.get())?;
                let b = self.value(b.get())?;
                numbered(self.alloc, Term::Binary(at, *operator, a, b))
            }
            ExprKind::And(a, b) => {
                let a = self.value(a.get())?;
                let b = self.value(b.get())?;
                numbered(self.alloc, Term::And(at, a, b))
            }
            ExprKind::Or(a, b) => {
                let a = self.value(a.get())?;
                let b = self.value(b.get())?;
                numbered(self.alloc, Term::Or(at, a, b))
            }
            ExprKind::Deref(a) => self.element_at(at, self.expression(a.get())?, None),
            ExprKind::Index(a, i) => {
                let i = self.value(i.get())?;
                self.indexed(at, self.expression(a.get())?, i)
            }
            ExprKind::Arrow(a, f) => self.arrow(at, self.expression(a.get())?, f),
            ExprKind::Dot(a, f) => self.dot(at, self.expression(a.get())?, f),
            ExprKind::Call(call) => {
                let invocation = self.call(call)?;
                let ty = self.function_type(&call.name.text)?;
                valued(self.alloc, ty, Term::Call(invocation.into_inner()))
            }
            ExprKind::New(_, count, element) => self.new(at, element, self.optional(count)?),
            ExprKind::ValueOf(a) => {
                let a = self.value(a.get())?;
                numbered(self.alloc, Term::ValueOf(at, a))
            }
            ExprKind::Address(name) => self.named(at, ExprType::Shared, name),
        }
    }

    /// The value of an expression.
    #[cycle(expression)]
    pub(crate) fn value(&self, e: &Expr) -> Result<Boxed<Term>, AllocError>
        ensures { IfOk result (λ t. erased.expression t ≡ resolution.valued_as (scope self.now) e.now) }
    {
        self.expression(e)?.form.into_value(self.alloc)
    }

    #[cycle(expression)]
    pub(crate) fn optional(
        &self,
        e: &Option<Boxed<Expr>>,
    ) -> Result<Option<Boxed<Term>>, AllocError>
        ensures { IfOk result (λ t. erased.optional t ≡ resolution.initial (scope self.now) e.now) }
    {
        match e {
            None => Ok(None),
            Some(e) => Ok(Some(self.value(e.get())?)),
        }
    }

    #[cycle(expression)]
    pub(crate) fn call(&self, call: &Call) -> Result<Boxed<Invocation>, AllocError>
        ensures { IfOk result (λ i. erased.invocation i ≡ (resolution.resolved_call (scope self.now) call.now).0) }
    {
        let function = self.function_number(&call.name.text);
        let args = self.values(call.args.as_slice())?;
        let placing = self.placement(&call.place)?;
        Boxed::new(
            self.alloc,
            Invocation {
                at: call.at,
                function,
                args,
                placing,
            },
        )
    }

    #[cycle(expression)]
    fn placement(&self, place: &Placement) -> Result<Placing, AllocError>
        ensures { IfOk result (λ p. erased.placing p ≡ resolution.placed (scope self.now) place.now) }
    {
        match place {
            Placement::Here => Ok(Placing::Here),
            Placement::OwnerOf(a) => Ok(Placing::OwnerOf(self.value(a.get())?)),
            Placement::Home => Ok(Placing::Home),
            Placement::Node(a) => Ok(Placing::Node(self.value(a.get())?)),
            Placement::Anywhere => Ok(Placing::Anywhere),
        }
    }

    /// The values of expressions.
    #[cycle(expression)]
    pub(crate) fn values(&self, all: &[Expr]) -> Result<List<Term>, AllocError>
        ensures { IfOk result (λ l. map erased.expression l ≡ map resolution.value (map (resolution.resolved (scope self.now)) all.now)) }
    {
        let mut values = List::new(self.alloc);
        for e in all {
            values.push(self.value(e)?.into_inner())?;
        }
        Ok(values)
    }
}
