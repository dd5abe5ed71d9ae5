//! What expressions are.
ghost use Rattle.std.specs.Prelude.{◌≡◌, Bool, Option, map, option_copied, IfOk};
ghost use Rattle.ec_syntax.specs.declared.item.Func.{Func};
ghost use Rattle.ec_types.specs.declared.value_type.ExprType.{ExprType};
ghost use Rattle.ec_types.specs.Arguments as arguments;
ghost use Rattle.ec_types.specs.Expressions as expressions;
ghost use Rattle.ec_types.specs.Parts as parts;
ghost use Rattle.ec_types.specs.Judged.{Fine, Judged, Gives, ◌and_then◌, ◌and◌, ◌also◌, both, optional};
ghost use Rattle.ec_types.specs.Names as names;
ghost use Rattle.ec_types.specs.Operators as operators;
ghost use Rattle.ec_types.specs.Seen.{context};
ghost use Rattle.ec_types.specs.Types as types;

use crate::judge::{Judge, is_shared_mode};
use crate::judged::{Judged, also, refused, refused_beside};
use crate::names::{ending, known, member};
use crate::operators::{allocated, struct_behind, variable_type};
use crate::rules::{typed, valued};
use crate::value_type::{ExprType, number, written_type};
use ec_base::{Reason, Span, Text};
use ec_syntax::{Call, Decl, Expr, ExprKind, Func, Placement, Ty};
use std::alloc::AllocError;

impl<'a> Judge<'a> {
    pub(crate) fn variable(&self, name: &Text, at: Span) -> Judged<ExprType>
        ensures { Gives result (expressions.named_variable (names.variable_named (context self.now).scope name.now) at) }
    {
        match self.variable_named(name) {
            None => refused(Reason::Unknown, at),
            Some(d) => Ok(variable_type(self.alloc, d)?),
        }
    }

    /// `&` and a name.
    pub(crate) fn address(&self, name: &Text, at: Span) -> Judged<ExprType>
        ensures { Gives result (expressions.address (names.variable_named (context self.now).scope name.now) name.now at) }
    {
        match self.variable_named(name) {
            None => refused(Reason::Unknown, ending(at, name)),
            Some(d) => {
                if is_shared_mode(d.mode) && d.ty.stars == 0 {
                    Ok(ExprType::Shared)
                } else {
                    refused(Reason::SharedEscapes, at)
                }
            }
        }
    }

    fn known_field(&self, s: &Text, f: &Text, at: Span) -> Judged<ExprType>
        ensures { Gives result (expressions.known_field (operators.member (context self.now).structs s.now f.now) f.now at) }
    {
        match member(self.alloc, self.structs, s, f)? {
            None => refused(Reason::Unknown, ending(at, f)),
            Some(t) => Ok(t),
        }
    }

    fn field_of(&self, s: Option<&Text>, f: &Text, at: Span) -> Judged<ExprType>
        ensures { Gives result (expressions.field_of (context self.now) (option_copied s.entry) f.now at) }
    {
        match s {
            None => refused(Reason::Mismatch, at),
            Some(s) => self.known_field(s, f, at),
        }
    }

    /// The field of a struct that stands behind so many pointers.
    #[tactic(auto, using(crate::proofs::Judgements::gives_up, crate::proofs::Judgements::goes_on))]
    pub(crate) fn selected(
        &self,
        stars: u64,
        a: &Expr,
        seen: Judged<ExprType>,
        f: &Text,
        at: Span,
    ) -> Judged<ExprType>
        ensures { Gives seen (expressions.judged (context self.now) a.now).is → Gives result (expressions.selected (context self.now) stars (expressions.judged (context self.now) a.now) f.now at) }
    {
        match valued(self, a, seen) {
            Err(fail) => Err(fail),
            Ok(t) => self.field_of(struct_behind(stars, &t), f, at),
        }
    }

    fn known_cast(&self, to: &Option<Ty>) -> Judged<()>
        ensures { Gives result (optional (names.known (context self.now).structs) to.now) }
    {
        match to {
            None => Ok(()),
            Some(ty) => known(self.structs, ty),
        }
    }

    /// Whether a `malloc` has an int as its count, where its types are known.
    fn known_new(&self, to: &Option<Ty>, element: &Ty, counts: Judged<bool>) -> Judged<bool>
        ensures { (x : Judged Bool) → Gives counts x → Gives result (x also optional (names.known (context self.now).structs) to.now also names.known (context self.now).structs element.now) }
    {
        let types = also(self.known_cast(to), known(self.structs, element));
        also(counts, types)
    }

    /// A `malloc`.
    #[tactic(auto, using(crate::proofs::Judgements::gives_up, crate::proofs::Judgements::goes_on))]
    pub(crate) fn new(
        &self,
        to: &Option<Ty>,
        element: &Ty,
        at: Span,
        counts: Judged<bool>,
    ) -> Judged<ExprType>
        ensures { (x : Judged Bool) → Gives counts x → Gives result (x also optional (names.known (context self.now).structs) to.now also names.known (context self.now).structs element.now and_then (λ b. parts.typed at (operators.allocated to.now (types.value_type element.now) b))) }
    {
        match self.known_new(to, element, counts) {
            Err(fail) => Err(fail),
            Ok(counts) => typed(at, allocated(self.alloc, to, element, counts)?),
        }
    }

    /// Whether a placement lets a local parameter have the expression.
    pub(crate) fn lets(&self, place: &Placement, e: &Expr) -> bool
        ensures { result ≡ (expressions.placed (context self.now) place.now).lets (expressions.judged (context self.now) e.now).form }
    {
        match place {
            Placement::Here => self.is_local(e),
            Placement::OwnerOf(owner) => self.is_same_variable(owner.get(), e),
            _ => false,
        }
    }

    /// A call that comes to a `printf` stands in no branch and no body of a `forall`.
    fn quiet(&self, name: &Text, at: Span) -> Judged<()>
        ensures { Gives result (arguments.quiet (context self.now).inside ((context self.now).prints name.now) at) }
    {
        if self.inside {
            match self.print_of(name) {
                None => Ok(()),
                Some(first) => refused_beside(Reason::PrintInside, at, first),
            }
        } else {
            Ok(())
        }
    }

    fn result_type(&self, f: &Func, fits: bool) -> Result<Option<ExprType>, AllocError>
        ensures { IfOk result (λ t. t ≡ arguments.result_type f.now fits) }
    {
        if fits {
            Ok(Some(ExprType::Value(written_type(self.alloc, &f.result)?)))
        } else {
            Ok(None)
        }
    }

    /// A call of a function, where its arguments and its placement fit or not.
    fn declared_call(&self, f: &Func, fits: bool, at: Span) -> Judged<ExprType>
        ensures { Gives result (parts.typed at (arguments.result_type f.now fits) also arguments.quiet (context self.now).inside ((context self.now).prints f.now.name.text) at) }
    {
        let ty = typed(at, self.result_type(f, fits)?);
        also(ty, self.quiet(&f.name.text, at))
    }

    /// A call of the function, if there is one.
    #[tactic(auto, using(crate::proofs::Judgements::gives_up, crate::proofs::Judgements::goes_on))]
    pub(crate) fn called(
        &self,
        f: Option<&Func>,
        name: Span,
        fits: Judged<bool>,
        at: Span,
    ) -> Judged<ExprType>
        ensures { (x : Judged Bool) → Gives fits x → Gives result (expressions.called (context self.now) (option_copied f.entry) name x at) }
    {
        match f {
            None => also(refused(Reason::Unknown, name), fits),
            Some(f) => match fits {
                Err(fail) => Err(fail),
                Ok(fits) => self.declared_call(f, fits, at),
            },
        }
    }
}
