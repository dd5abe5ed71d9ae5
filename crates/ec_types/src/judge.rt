//! What is known where a part of a program stands.
ghost use Rattle.std.specs.Prelude.{◌≡◌, [], ◌∷◌, option_copied, IfOk};
ghost use Rattle.ec_types.specs.Context as known;
ghost use Rattle.ec_types.specs.Expressions.{judged};
ghost use Rattle.ec_types.specs.Names as names;
ghost use Rattle.ec_types.specs.Seen.{context};

use crate::items::{Functions, Structs};
use crate::names::variable_named;
use crate::value_type::ValueType;
use ec_base::{Span, Text};
use ec_calls::FirstPrints;
use ec_syntax::{Decl, Expr, ExprKind, Mode};
use std::alloc::{AllocError, Global};

/// What is known where a part of a program stands.
#[derive(Drop)]
pub(crate) struct Judge<'a> {
    pub(crate) alloc: Global,
    pub(crate) functions: &'a Functions<'a>,
    pub(crate) structs: &'a Structs<'a>,
    pub(crate) prints: &'a FirstPrints,
    pub(crate) result: &'a ValueType,
    pub(crate) inside: bool,
    pub(crate) scope: Vec<&'a Decl>,
}

impl<'a> Judge<'a> {
    /// The first variable of this name.
    pub(crate) fn variable_named(&self, name: &Text) -> Option<&'a Decl>
        ensures { option_copied result ≡ names.variable_named (context self.now).scope name.now }
    {
        variable_named(self.scope.as_slice(), name)
    }

    /// The first `printf` to which calls of a function come.
    pub(crate) fn print_of(&self, name: &Text) -> Option<Span>
        ensures { result ≡ (context self.now).prints name.now }
    {
        self.prints.first_print(name)
    }

    /// The same inside a branch or the body of a `forall`.
    pub(crate) fn inside(&self) -> Result<Judge<'a>, AllocError>
        ensures { IfOk result (λ j. context j ≡ known.inside_of (context self.now)) }
    {
        Ok(Judge {
            alloc: self.alloc,
            functions: self.functions,
            structs: self.structs,
            prints: self.prints,
            result: self.result,
            inside: true,
            scope: Vec::from_slice(self.alloc, self.scope.as_slice())?,
        })
    }

    /// The same with one more variable in scope.
    pub(crate) fn with(&self, d: &'a Decl) -> Result<Judge<'a>, AllocError>
        ensures { IfOk result (λ j. context j ≡ known.with_scope (d.now ∷ []) (context self.now)) }
    {
        let mut scope = Vec::from_slice(self.alloc, self.scope.as_slice())?;
        scope.push(d)?;
        Ok(Judge {
            alloc: self.alloc,
            functions: self.functions,
            structs: self.structs,
            prints: self.prints,
            result: self.result,
            inside: self.inside,
            scope,
        })
    }

    /// The same with more variables in scope.
    pub(crate) fn with_all(&self, decls: &'a [Decl]) -> Result<Judge<'a>, AllocError>
        ensures { IfOk result (λ j. context j ≡ known.with_scope decls.now (context self.now)) }
    {
        let mut scope = Vec::from_slice(self.alloc, self.scope.as_slice())?;
        for d in decls {
            scope.push(d)?;
        }
        Ok(Judge {
            alloc: self.alloc,
            functions: self.functions,
            structs: self.structs,
            prints: self.prints,
            result: self.result,
            inside: self.inside,
            scope,
        })
    }

    /// Whether the expression is a local variable.
    pub(crate) fn is_local_variable(&self, e: &Expr) -> bool
        ensures { result ≡ known.is_local_variable (context self.now) (judged (context self.now) e.now).form }
    {
        match &e.kind {
            ExprKind::Paren(inside) => self.is_local_variable(inside.get()),
            ExprKind::Var(name) => match self.variable_named(name) {
                None => false,
                Some(d) => is_local_mode(d.mode),
            },
            _ => false,
        }
    }

    /// Whether the expression is `NULL`, a `malloc` or a local variable.
    pub(crate) fn is_local(&self, e: &Expr) -> bool
        ensures { result ≡ known.is_local (context self.now) (judged (context self.now) e.now).form }
    {
        match &e.kind {
            ExprKind::Paren(inside) => self.is_local(inside.get()),
            ExprKind::Var(name) => match self.variable_named(name) {
                None => false,
                Some(d) => is_local_mode(d.mode),
            },
            ExprKind::Null => true,
            ExprKind::New(_, _, _) => true,
            _ => false,
        }
    }
}

pub(crate) fn is_local_mode(mode: Mode) -> bool
    ensures { result ≡ known.is_local_mode mode }
{
    match mode {
        Mode::Local => true,
        _ => false,
    }
}

pub(crate) fn is_shared_mode(mode: Mode) -> bool
    ensures { result ≡ known.is_shared_mode mode }
{
    match mode {
        Mode::Shared => true,
        _ => false,
    }
}
