//! What is known where a function is lowered.
ghost use Rattle.std.specs.Prelude.{◌≡◌, not, ◌&&◌, ◌||◌, map, IfOk};
ghost use Rattle.ec_resolve.specs.Erased as erased;
ghost use Rattle.ec_simple.specs.Expressions as low;
ghost use Rattle.ec_simple.specs.Seen.{scope, place_of};
ghost use Rattle.ec_simple.specs.Statements.{index};
ghost use Rattle.ec_simple.specs.Uses.{member};

use crate::numbered::narrow;
use crate::places::Places;
use ec_base::{Span, Text};
use ec_resolve::{Function, Term, Variable};
use std::alloc::{AllocError, Global};

/// How the variables of the written function are numbered: as they are there, or by their places among some of them.
#[derive(Clone, Copy)]
pub(crate) enum Numbering<'p> {
    Same,
    Inside(&'p Places),
}

/// What is known where a function, or a branch or body in it, is lowered: the functions of the program, the function's name,
/// parameters and variables, the number of its first branch or body, and how its variables are numbered.
#[derive(Clone, Copy)]
pub(crate) struct Scope<'a, 'p> {
    pub(crate) alloc: Global,
    pub(crate) functions: &'a [Function],
    pub(crate) name: &'a Text,
    pub(crate) params: &'a [usize],
    pub(crate) variables: &'a [Variable],
    pub(crate) first: u32,
    pub(crate) numbering: Numbering<'p>,
}

fn is_among(x: usize, all: &[usize]) -> bool
    ensures { result ≡ member x all.now }
{
    for y in all {
        if *y == x {
            return true;
        }
    }
    false
}

impl Numbering<'_> {
    fn place(&self, x: usize) -> Result<u32, AllocError>
        ensures { IfOk result (λ n. n ≡ place_of self.now x) }
    {
        match self {
            Numbering::Same => narrow(x),
            Numbering::Inside(places) => places.place(x),
        }
    }
}

impl<'a> Scope<'a, '_> {
    /// What is known inside a branch or body that has these variables.
    pub(crate) fn inside<'p>(&self, places: &'p Places) -> Scope<'a, 'p>
        ensures { scope result ≡ record (scope self.now) { place = index places.now } }
    {
        Scope {
            alloc: self.alloc,
            functions: self.functions,
            name: self.name,
            params: self.params,
            variables: self.variables,
            first: self.first,
            numbering: Numbering::Inside(places),
        }
    }
}

impl Scope<'_, '_> {
    /// The number of a variable.
    pub(crate) fn place(&self, x: usize) -> Result<u32, AllocError>
        ensures { IfOk result (λ n. n ≡ (scope self.now).place x) }
    {
        self.numbering.place(x)
    }

    /// A variable of the written function.
    pub(crate) fn variable(&self, x: usize) -> Variable
        ensures { erased.variable result ≡ low.variable_at (scope self.now) x }
    {
        match self.variables.get(x) {
            Some(v) => *v,
            None => Variable {
                at: Span { from: 0, to: 0 },
                shared: false,
                local: false,
                pointer: None,
            },
        }
    }

    /// Whether a variable is shared and no parameter.
    pub(crate) fn is_own_shared(&self, x: usize) -> bool
        ensures { result ≡ ((low.variable_at (scope self.now) x).shared && not (member x (scope self.now).params)) }
    {
        self.variable(x).shared && !is_among(x, self.params)
    }

    /// Whether a function gives nothing.
    pub(crate) fn is_void(&self, f: usize) -> bool
        ensures { result ≡ (low.function_at (scope self.now) f).void }
    {
        match self.functions.get(f) {
            Some(f) => f.void,
            None => true,
        }
    }

    /// The shape behind what a function gives.
    pub(crate) fn gives(&self, f: usize) -> Option<u32>
        ensures { result ≡ low.gives (low.function_at (scope self.now) f) }
    {
        match self.functions.get(f) {
            Some(f) => { if f.pointer { Some(f.shape) } else { None } }
            None => None,
        }
    }

    /// The shape behind an expression that is a pointer.
    pub(crate) fn pointer(&self, e: &Term) -> Option<u32>
        ensures { result ≡ low.pointer (scope self.now) (erased.expression e.now) }
    {
        match e {
            Term::Nil(_) => Some(0),
            Term::Var(_, x) => self.variable(*x).pointer,
            Term::Load(pointer, _) => *pointer,
            Term::Call(i) => self.gives(i.function),
            Term::New(a) => Some(a.shape),
            _ => None,
        }
    }

    pub(crate) fn points(&self, e: &Term) -> bool
        ensures { result ≡ low.points (scope self.now) (erased.expression e.now) }
    {
        self.pointer(e).is_some()
    }

    /// Whether one of two expressions is a pointer.
    pub(crate) fn any_points(&self, a: &Term, b: &Term) -> bool
        ensures { result ≡
            (low.points (scope self.now) (erased.expression a.now) || low.points (scope self.now) (erased.expression b.now)) }
    {
        self.points(a) || self.points(b)
    }
}
