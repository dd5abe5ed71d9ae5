//! What an expression is, by what its parts are.
ghost use Rattle.std.specs.Prelude.{◌≡◌, Bool, false, if◌then◌else◌, None, option_copied};
ghost use Rattle.ec_types.specs.declared.value_type.ExprType.{ExprType};
ghost use Rattle.ec_types.specs.Arguments as arguments;
ghost use Rattle.ec_types.specs.Expressions.{judged};
ghost use Rattle.ec_types.specs.Parts as parts;
ghost use Rattle.ec_types.specs.Parts.{Form};
ghost use Rattle.ec_types.specs.Judged.{Judged, Gives, ◌and_then◌, ◌and◌, ◌also◌, both};
ghost use Rattle.ec_types.specs.Operators as operators;
ghost use Rattle.ec_types.specs.Seen.{context};
ghost use Rattle.ec_types.specs.Types as types;

use crate::judge::{Judge, is_local_mode, is_shared_mode};
use crate::judged::{Judged, also, both, must, refused};
use crate::operators::{binary_type, element_type, logic_type, passes, pointee, unary_type};
use crate::value_type::{ExprType, number};
use ec_base::{BinOp, Reason, Span, UnOp};
use ec_syntax::{Decl, Expr};
use std::alloc::Global;

/// What a rule gives, if it gives anything.
pub(crate) fn typed(at: Span, rule: Option<ExprType>) -> Judged<ExprType>
    ensures { Gives result (parts.typed at rule) }
{
    match rule {
        None => refused(Reason::Mismatch, at),
        Some(t) => Ok(t),
    }
}

fn unshared(at: Span, t: ExprType) -> Judged<ExprType>
    ensures { Gives result (parts.unshared at t) }
{
    match t {
        ExprType::Shared => refused(Reason::SharedEscapes, at),
        ExprType::SharedName => refused(Reason::SharedEscapes, at),
        t => Ok(t),
    }
}

fn sharing(at: Span, t: ExprType) -> Judged<ExprType>
    ensures { Gives result (parts.sharing at t) }
{
    match t {
        ExprType::SharedName => refused(Reason::SharedEscapes, at),
        t => Ok(t),
    }
}

/// An expression where no shared name may stand.
#[tactic(auto, using(crate::proofs::Judgements::gives_up, crate::proofs::Judgements::goes_on))]
pub(crate) fn valued(judge: &Judge, e: &Expr, seen: Judged<ExprType>) -> Judged<ExprType>
    ensures { Gives seen (judged (context judge.now) e.now).is → Gives result (parts.valued (judged (context judge.now) e.now)) }
{
    match seen {
        Err(fail) => Err(fail),
        Ok(t) => unshared(judge.place(e), t),
    }
}

/// An expression where one that is shared is asked.
#[tactic(auto, using(crate::proofs::Judgements::gives_up, crate::proofs::Judgements::goes_on))]
pub(crate) fn shared(judge: &Judge, e: &Expr, seen: Judged<ExprType>) -> Judged<ExprType>
    ensures { Gives seen (judged (context judge.now) e.now).is → Gives result (parts.shared (judged (context judge.now) e.now)) }
{
    match seen {
        Err(fail) => Err(fail),
        Ok(t) => sharing(judge.place(e), t),
    }
}

#[tactic(auto, using(crate::proofs::Judgements::gives_up, crate::proofs::Judgements::goes_on))]
pub(crate) fn unary(
    judge: &Judge,
    operator: UnOp,
    at: Span,
    a: &Expr,
    seen: Judged<ExprType>,
) -> Judged<ExprType>
    ensures { Gives seen (judged (context judge.now) a.now).is → Gives result (parts.by_one at (operators.unary_type operator) (judged (context judge.now) a.now)) }
{
    match valued(judge, a, seen) {
        Err(fail) => Err(fail),
        Ok(t) => typed(at, unary_type(operator, &t)),
    }
}

/// `*e`
#[tactic(auto, using(crate::proofs::Judgements::gives_up, crate::proofs::Judgements::goes_on))]
pub(crate) fn dereferenced(
    judge: &Judge,
    at: Span,
    a: &Expr,
    seen: Judged<ExprType>,
) -> Judged<ExprType>
    ensures { Gives seen (judged (context judge.now) a.now).is → Gives result (parts.by_one at operators.pointee (judged (context judge.now) a.now)) }
{
    match valued(judge, a, seen) {
        Err(fail) => Err(fail),
        Ok(t) => typed(at, pointee(t)),
    }
}

/// Two expressions where no shared name may stand.
fn both_valued(
    judge: &Judge,
    a: &Expr,
    left: Judged<ExprType>,
    b: &Expr,
    right: Judged<ExprType>,
) -> Judged<(ExprType, ExprType)>
    ensures { Gives left (judged (context judge.now) a.now).is → Gives right (judged (context judge.now) b.now).is → Gives result (both (parts.valued (judged (context judge.now) a.now)) (parts.valued (judged (context judge.now) b.now))) }
{
    both(valued(judge, a, left), valued(judge, b, right))
}

#[tactic(auto, using(crate::proofs::Judgements::gives_up, crate::proofs::Judgements::goes_on))]
pub(crate) fn binary(
    judge: &Judge,
    operator: BinOp,
    at: Span,
    a: &Expr,
    left: Judged<ExprType>,
    b: &Expr,
    right: Judged<ExprType>,
) -> Judged<ExprType>
    ensures { Gives left (judged (context judge.now) a.now).is → Gives right (judged (context judge.now) b.now).is → Gives result (parts.by_two at (operators.binary_type operator) (judged (context judge.now) a.now) (judged (context judge.now) b.now)) }
{
    match both_valued(judge, a, left, b, right) {
        Err(fail) => Err(fail),
        Ok((t, u)) => typed(at, binary_type(operator, &t, &u)),
    }
}

/// `&&` and `||`
#[tactic(auto, using(crate::proofs::Judgements::gives_up, crate::proofs::Judgements::goes_on))]
pub(crate) fn logic(
    judge: &Judge,
    at: Span,
    a: &Expr,
    left: Judged<ExprType>,
    b: &Expr,
    right: Judged<ExprType>,
) -> Judged<ExprType>
    ensures { Gives left (judged (context judge.now) a.now).is → Gives right (judged (context judge.now) b.now).is → Gives result (parts.by_two at operators.logic_type (judged (context judge.now) a.now) (judged (context judge.now) b.now)) }
{
    match both_valued(judge, a, left, b, right) {
        Err(fail) => Err(fail),
        Ok((t, u)) => typed(at, logic_type(&t, &u)),
    }
}

/// `a[b]`
#[tactic(auto, using(crate::proofs::Judgements::gives_up, crate::proofs::Judgements::goes_on))]
pub(crate) fn indexed(
    judge: &Judge,
    at: Span,
    a: &Expr,
    pointer: Judged<ExprType>,
    b: &Expr,
    index: Judged<ExprType>,
) -> Judged<ExprType>
    ensures { Gives pointer (judged (context judge.now) a.now).is → Gives index (judged (context judge.now) b.now).is → Gives result (parts.by_two at operators.element_type (judged (context judge.now) a.now) (judged (context judge.now) b.now)) }
{
    match both_valued(judge, a, pointer, b, index) {
        Err(fail) => Err(fail),
        Ok((t, u)) => typed(at, element_type(t, &u)),
    }
}

fn read_type(t: &ExprType) -> Option<ExprType>
    ensures { result ≡ (if types.is_shared t.now then Some types.number else None) }
{
    if t.is_shared() { Some(number()) } else { None }
}

/// `valueof`
#[tactic(auto, using(crate::proofs::Judgements::gives_up, crate::proofs::Judgements::goes_on))]
pub(crate) fn read(judge: &Judge, at: Span, a: &Expr, seen: Judged<ExprType>) -> Judged<ExprType>
    ensures { Gives seen (judged (context judge.now) a.now).is → Gives result (parts.shared (judged (context judge.now) a.now) and_then (λ t. parts.typed at (if types.is_shared t then Some types.number else None))) }
{
    match shared(judge, a, seen) {
        Err(fail) => Err(fail),
        Ok(t) => typed(at, read_type(&t)),
    }
}

/// Whether an expression is an int.
#[tactic(auto, using(crate::proofs::Judgements::gives_up, crate::proofs::Judgements::goes_on))]
pub(crate) fn counts(judge: &Judge, a: &Expr, seen: Judged<ExprType>) -> Judged<bool>
    ensures { Gives seen (judged (context judge.now) a.now).is → Gives result (parts.tested types.is_number (Some (judged (context judge.now) a.now))) }
{
    match valued(judge, a, seen) {
        Err(fail) => Err(fail),
        Ok(t) => Ok(t.is_number()),
    }
}

/// Whether an expression is a pointer or `NULL`.
#[tactic(auto, using(crate::proofs::Judgements::gives_up, crate::proofs::Judgements::goes_on))]
pub(crate) fn points(judge: &Judge, a: &Expr, seen: Judged<ExprType>) -> Judged<bool>
    ensures { Gives seen (judged (context judge.now) a.now).is → Gives result (parts.tested types.points (Some (judged (context judge.now) a.now))) }
{
    match valued(judge, a, seen) {
        Err(fail) => Err(fail),
        Ok(t) => Ok(t.points()),
    }
}

/// Both tests hold.
#[tactic(auto, using(crate::proofs::Judgements::gives_up, crate::proofs::Judgements::goes_on))]
pub(crate) fn and(left: Judged<bool>, right: Judged<bool>) -> Judged<bool>
    ensures { (x y : Judged Bool) → Gives left x → Gives right y → Gives result (x and y) }
{
    match both(left, right) {
        Err(fail) => Err(fail),
        Ok((a, b)) => Ok(a && b),
    }
}

/// A pointer that a local parameter or variable gets is local.
pub(crate) fn stays_local(local: bool, at: Span, t: &ExprType) -> Judged<()>
    ensures { Gives result (arguments.stays_local local at t.now) }
{
    must(local || !t.is_pointer(), Reason::NotLocal, at)
}

/// A pointer for a parameter, which is to be local.
fn kept_local(local: bool, at: Span, t: ExprType) -> Judged<ExprType>
    ensures { Gives result (Ok t also arguments.stays_local local at t) }
{
    let stays = stays_local(local, at, &t);
    also(Ok(t), stays)
}

/// An argument for a parameter, which lets it stand there if it is local.
#[tactic(auto, using(crate::proofs::Judgements::gives_up, crate::proofs::Judgements::goes_on))]
fn argument(
    judge: &Judge,
    d: &Decl,
    local: bool,
    e: &Expr,
    seen: Judged<ExprType>,
) -> Judged<ExprType>
    ensures { (lets : Form → Bool) → local ≡ lets (judged (context judge.now) e.now).form → Gives seen (judged (context judge.now) e.now).is → Gives result (arguments.argument lets d.now (judged (context judge.now) e.now)) }
{
    if is_shared_mode(d.mode) {
        shared(judge, e, seen)
    } else {
        match valued(judge, e, seen) {
            Err(fail) => Err(fail),
            Ok(t) => kept_local(!is_local_mode(d.mode) || local, judge.place(e), t),
        }
    }
}

/// An argument that has no parameter.
#[tactic(auto, using(crate::proofs::Judgements::gives_up, crate::proofs::Judgements::goes_on))]
fn surplus(judge: &Judge, e: &Expr, seen: Judged<ExprType>) -> Judged<bool>
    ensures { (lets : Form → Bool) → Gives seen (judged (context judge.now) e.now).is → Gives result (arguments.fits lets None (judged (context judge.now) e.now)) }
{
    match valued(judge, e, seen) {
        Err(fail) => Err(fail),
        Ok(_) => Ok(false),
    }
}

/// Whether the argument of a parameter, as it is, fits it.
#[tactic(auto, using(crate::proofs::Judgements::gives_up, crate::proofs::Judgements::goes_on))]
fn of_parameter(alloc: Global, d: &Decl, e: Judged<ExprType>) -> Judged<bool>
    ensures { (x : Judged ExprType) → Gives e x → Gives result (x and_then (λ t. Ok (operators.passes d.now t))) }
{
    match e {
        Err(fail) => Err(fail),
        Ok(t) => Ok(passes(alloc, d, &t)?),
    }
}

/// Whether an argument fits its parameter, if it has one.
pub(crate) fn fits(
    judge: &Judge,
    d: Option<&Decl>,
    local: bool,
    e: &Expr,
    seen: Judged<ExprType>,
) -> Judged<bool>
    ensures { (lets : Form → Bool) → local ≡ lets (judged (context judge.now) e.now).form → Gives seen (judged (context judge.now) e.now).is → Gives result (arguments.fits lets (option_copied d.entry) (judged (context judge.now) e.now)) }
{
    match d {
        None => surplus(judge, e, seen),
        Some(d) => of_parameter(judge.alloc, d, argument(judge, d, local, e, seen)),
    }
}
