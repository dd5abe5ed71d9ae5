//! What stands inside the parentheses round an expression.
ghost use Rattle.std.specs.Prelude.{◌≡◌, option_copied};
ghost use Rattle.ec_types.specs.Expressions.{judged};
ghost use Rattle.ec_types.specs.Parts as parts;
ghost use Rattle.ec_types.specs.Seen.{context};

use crate::judge::Judge;
use ec_base::{Span, Text};
use ec_syntax::{Expr, ExprKind};

impl Judge<'_> {
    /// Where the expression stands, without the parentheses.
    pub(crate) fn place(&self, e: &Expr) -> Span
        ensures { result ≡ (judged (context self.now) e.now).at }
    {
        match &e.kind {
            ExprKind::Paren(inside) => self.place(inside.get()),
            _ => e.at,
        }
    }

    /// The variable that the expression is.
    pub(crate) fn variable_of<'e>(&self, e: &'e Expr) -> Option<&'e Text>
        ensures { option_copied result ≡ parts.named (judged (context self.now) e.now).form }
    {
        match &e.kind {
            ExprKind::Paren(inside) => self.variable_of(inside.get()),
            ExprKind::Var(name) => Some(name),
            _ => None,
        }
    }

    pub(crate) fn is_variable(&self, e: &Expr) -> bool
        ensures { result ≡ parts.is_variable (judged (context self.now) e.now).form }
    {
        match self.variable_of(e) {
            None => false,
            Some(_) => true,
        }
    }

    /// Whether the expression is a variable or an access.
    pub(crate) fn is_place(&self, e: &Expr) -> bool
        ensures { result ≡ parts.is_place (judged (context self.now) e.now).form }
    {
        match &e.kind {
            ExprKind::Paren(inside) => self.is_place(inside.get()),
            ExprKind::Var(_) => true,
            ExprKind::Deref(_) => true,
            ExprKind::Index(_, _) => true,
            ExprKind::Arrow(_, _) => true,
            ExprKind::Dot(_, _) => true,
            _ => false,
        }
    }

    /// Whether both are one and the same variable.
    pub(crate) fn is_same_variable(&self, a: &Expr, b: &Expr) -> bool
        ensures { result ≡ parts.same_variable (judged (context self.now) a.now).form (judged (context self.now) b.now).form }
    {
        match self.variable_of(a) {
            None => false,
            Some(name) => match self.variable_of(b) {
                None => false,
                Some(other) => name == other,
            },
        }
    }
}
