//! Judgements: what a part of a program is, or the first thing that it is refused for.
ghost use Rattle.std.specs.Prelude.{◌≡◌, Some};
ghost use Rattle.ec_types.specs.Judged as spec;
ghost use Rattle.ec_base.specs.declared.fail.Fail.TheVariants.{Refused};
ghost use Rattle.ec_types.specs.Judged.{Gives, ◌also◌};
ghost use Rattle.ec_types.specs.Refusals.{is_before, refusal, refusal_beside, sooner as first_of_two};
ghost use Rattle.ec_types.specs.declared.refusal.TypeRefusal.{TypeRefusal};

use crate::refusal::TypeRefusal;
use ec_base::{Fail, Reason, Span};

/// What a part of a program is, or the first refusal of it.
pub(crate) type Judged<A> = Result<A, Fail<TypeRefusal>>;

fn refusal(fault: Reason, at: Span) -> TypeRefusal
    ensures { result ≡ refusal fault at }
{
    TypeRefusal {
        what: fault.number(),
        at,
        other: None,
    }
}

pub(crate) fn refused<A>(fault: Reason, at: Span) -> Judged<A>
    ensures { Gives result (spec.refused fault at) }
{
    Err(Fail::Refused(refusal(fault, at)))
}

/// A refusal that names another place too.
pub(crate) fn refused_beside<A>(fault: Reason, at: Span, other: Span) -> Judged<A>
    ensures { Gives result (spec.refused_beside fault at other) }
{
    Err(Fail::Refused(TypeRefusal {
        what: fault.number(),
        at,
        other: Some(other),
    }))
}

/// Refused unless the test holds.
pub(crate) fn must(test: bool, fault: Reason, at: Span) -> Judged<()>
    ensures { Gives result (spec.must test fault at) }
{
    if test { Ok(()) } else { refused(fault, at) }
}

/// Whether the first comes before the second.
fn is_before(a: TypeRefusal, b: TypeRefusal) -> bool
    ensures { result ≡ is_before a b }
{
    a.at.from < b.at.from
        || (a.at.from == b.at.from && (a.what < b.what || (a.what == b.what && a.at.to < b.at.to)))
}

/// The one of two refusals that comes first.
fn sooner(a: TypeRefusal, b: TypeRefusal) -> TypeRefusal
    ensures { result ≡ first_of_two a (Some b) }
{
    if is_before(b, a) { b } else { a }
}

/// Two refused judgements together.
fn both_refused<A, B>(a: TypeRefusal, b: TypeRefusal) -> Judged<(A, B)>
    ensures { (x : spec.Judged A) (y : spec.Judged B) → Gives (Err (Refused a)) x → Gives (Err (Refused b)) y → Gives result (spec.both x y) }
{
    Err(Fail::Refused(sooner(a, b)))
}

/// Two judgements together.
pub(crate) fn both<A: Drop, B: Drop>(first: Judged<A>, second: Judged<B>) -> Judged<(A, B)>
    ensures { (x : spec.Judged A) (y : spec.Judged B) → Gives first x → Gives second y → Gives result (spec.both x y) }
{
    match first {
        Err(Fail::Memory) => Err(Fail::Memory),
        Err(Fail::Refused(a)) => match second {
            Err(Fail::Memory) => Err(Fail::Memory),
            Err(Fail::Refused(b)) => both_refused(a, b),
            Ok(_) => Err(Fail::Refused(a)),
        },
        Ok(a) => match second {
            Err(fail) => Err(fail),
            Ok(b) => Ok((a, b)),
        },
    }
}

/// The first of two judgements, where neither is refused.
pub(crate) fn also<A: Drop, B: Drop>(first: Judged<A>, second: Judged<B>) -> Judged<A>
    ensures { (x : spec.Judged A) (y : spec.Judged B) → Gives first x → Gives second y → Gives result (x also y) }
{
    match both(first, second) {
        Err(fail) => Err(fail),
        Ok((a, _)) => Ok(a),
    }
}
