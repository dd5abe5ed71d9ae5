//! The functions that expressions call, in source order.
ghost use Rattle.std.specs.Prelude.{◌≡◌, [], ◌∷◌, ◌++◌, map, OnOk};
ghost use Rattle.ec_calls.specs.Effects.{effects, placement_effects, call_effects, assign_effects, joined, of_option};
ghost use Rattle.ec_calls.specs.Seen.{callees};

use ec_base::{List, Text};
use ec_syntax::{Assign, Call, Expr, ExprKind, Placement};
use std::alloc::{AllocError, Global};
use std::marker::Model;

/// Names of functions that are called. Contracts see their list.
#[derive(Drop)]
pub(crate) struct Called<'a> {
    names: Vec<&'a Text>,
}

impl<'a> Model for Called<'a> {
    ghost use Rattle.std.specs.Prelude.{List, ℕ, map};

    ghost Value = { List (List ℕ) };

    ghost view = { λ c. map (λ n. n.now) c.names.items };
}

impl<'a> Called<'a> {
    pub(crate) fn new(alloc: Global) -> Called<'a>
        ensures { result ≡ [] }
    {
        Called {
            names: Vec::new(alloc),
        }
    }

    pub(crate) fn as_slice(&self) -> &[&'a Text]
        ensures { map (λ n. n.now) result.now ≡ self.now }
    {
        self.names.as_slice()
    }

    fn add(&mut self, name: &'a Text) -> Result<(), AllocError>
        ensures { OnOk result (self.new ≡ self.old ++ name.now ∷ []) }
    {
        self.names.push(name)?;
        Ok(())
    }

    #[cycle(expressions)]
    pub(crate) fn expression(&mut self, e: &'a Expr) -> Result<(), AllocError>
        ensures { OnOk result (self.new ≡ self.old ++ callees (effects e.now)) }
    {
        match &e.kind {
            ExprKind::Number(_) | ExprKind::Null | ExprKind::Var(_) | ExprKind::Address(_) => Ok(
                (),
            ),
            ExprKind::Paren(a) => self.expression(a.get()),
            ExprKind::Unary(_, a) => self.expression(a.get()),
            ExprKind::Binary(_, a, b) => {
                self.expression(a.get())?;
                self.expression(b.get())
            }
            ExprKind::And(a, b) => {
                self.expression(a.get())?;
                self.expression(b.get())
            }
            ExprKind::Or(a, b) => {
                self.expression(a.get())?;
                self.expression(b.get())
            }
            ExprKind::Deref(a) => self.expression(a.get()),
            ExprKind::Index(a, b) => {
                self.expression(a.get())?;
                self.expression(b.get())
            }
            ExprKind::Arrow(a, _) => self.expression(a.get()),
            ExprKind::Dot(a, _) => self.expression(a.get()),
            ExprKind::Call(call) => self.call(call),
            ExprKind::New(_, None, _) => Ok(()),
            ExprKind::New(_, Some(count), _) => self.expression(count.get()),
            ExprKind::ValueOf(a) => self.expression(a.get()),
        }
    }

    #[tactic(auto, using(crate::proofs::Callees::two))]
    pub(crate) fn both(&mut self, a: &'a Expr, b: &'a Expr) -> Result<(), AllocError>
        ensures { OnOk result (self.new ≡ self.old ++ callees (effects a.now ++ effects b.now)) }
    {
        self.expression(a)?;
        self.expression(b)
    }

    #[cycle(expressions)]
    pub(crate) fn call(&mut self, call: &'a Call) -> Result<(), AllocError>
        ensures { OnOk result (self.new ≡ self.old ++ callees (call_effects call.now)) }
    {
        self.add(&call.name.text)?;
        self.all(call.args.as_slice())?;
        self.placement(&call.place)
    }

    #[cycle(expressions)]
    pub(crate) fn all(&mut self, expressions: &'a [Expr]) -> Result<(), AllocError>
        ensures { OnOk result (self.new ≡ self.old ++ callees (joined (map effects expressions.now))) }
    {
        for e in expressions {
            self.expression(e)?;
        }
        Ok(())
    }

    #[cycle(expressions)]
    fn placement(&mut self, place: &'a Placement) -> Result<(), AllocError>
        ensures { OnOk result (self.new ≡ self.old ++ callees (placement_effects place.now)) }
    {
        match place {
            Placement::Here | Placement::Home | Placement::Anywhere => Ok(()),
            Placement::OwnerOf(e) => self.expression(e.get()),
            Placement::Node(e) => self.expression(e.get()),
        }
    }
}
