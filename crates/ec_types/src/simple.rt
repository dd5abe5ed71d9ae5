//! What simple statements are refused for.
ghost use Rattle.std.specs.Prelude.{◌≡◌, ◌<◌, ◌^◌, length, map};
ghost use Rattle.ec_base.specs.Format.{conversions};
ghost use Rattle.ec_base.specs.declared.reason.Reason.TheVariants.{Mismatch};
ghost use Rattle.ec_types.specs.Judged as known;
ghost use Rattle.ec_types.specs.Judged.{Gives, every};
ghost use Rattle.ec_types.specs.Seen.{context};
ghost use Rattle.ec_types.specs.Statements as statements;

use crate::judge::Judge;
use crate::judged::{Judged, also, must, refused, refused_beside};
use crate::operators::is_value_for;
use crate::rules::shared;
use ec_base::{Boxed, Fail, Reason, Span, Text, conversions};
use ec_syntax::{Call, Expr};

/// Whether the string has so many conversions.
fn has_conversions(string: &Text, count: usize) -> bool
    requires { length string.now < 2 ^ 32 }
    ensures { result ≡ statements.asks (conversions string.now) count }
{
    match conversions(string.as_slice()) {
        None => false,
        Some(asked) => asked as usize == count,
    }
}

/// The string asks for so many values. A string of 4 GB, which no source has, is as if memory was wanted.
fn asks(at: Span, string: &Text, count: usize) -> Judged<()>
    ensures { Gives result (known.must (statements.asks (conversions string.now) count) Mismatch at) }
{
    if string.len() <= u32::MAX as usize {
        must(has_conversions(string, count), Reason::Mismatch, at)
    } else {
        Err(Fail::Memory)
    }
}

impl Judge<'_> {
    /// An int is asked.
    #[tactic(auto, using(crate::proofs::Judgements::gives_up, crate::proofs::Judgements::goes_on))]
    fn counts(&self, at: Span, e: &Expr) -> Judged<()>
        ensures { Gives result (statements.counts (context self.now) at e.now) }
    {
        match self.value(e) {
            Err(fail) => Err(fail),
            Ok(t) => must(t.is_number(), Reason::Mismatch, at),
        }
    }

    /// What is shared is asked.
    #[tactic(auto, using(crate::proofs::Judgements::gives_up, crate::proofs::Judgements::goes_on))]
    fn shares(&self, at: Span, to: &Expr) -> Judged<()>
        ensures { Gives result (statements.shares (context self.now) at to.now) }
    {
        match shared(self, to, self.expression(to)) {
            Err(fail) => Err(fail),
            Ok(t) => must(t.is_shared(), Reason::Mismatch, at),
        }
    }

    /// `writeto` and `addto`
    pub(crate) fn sends(&self, at: Span, to: &Expr, e: &Expr) -> Judged<()>
        ensures { Gives result (statements.sends (context self.now) at to.now e.now) }
    {
        also(self.shares(at, to), self.counts(at, e))
    }

    /// Ints are asked.
    fn all_count(&self, at: Span, all: &[Expr]) -> Judged<()>
        ensures { Gives result (every (map (statements.counts (context self.now) at) all.now)) }
    {
        let mut so_far: Judged<()> = Ok(());
        for e in all {
            so_far = also(so_far, self.counts(at, e));
        }
        so_far
    }

    /// `printf`
    pub(crate) fn prints(&self, at: Span, string: &Text, all: &[Expr]) -> Judged<()>
        ensures { Gives result (statements.prints (context self.now) at string.now all.now) }
    {
        let fits = asks(at, string, all.len());
        let quiet = if self.inside {
            refused_beside(Reason::PrintInside, at, at)
        } else {
            Ok(())
        };
        also(fits, also(self.all_count(at, all), quiet))
    }

    /// A value is returned.
    #[tactic(auto, using(crate::proofs::Judgements::gives_up, crate::proofs::Judgements::goes_on))]
    fn returned_value(&self, at: Span, e: &Expr) -> Judged<()>
        ensures { Gives result (statements.returned (context self.now) at (Some e.now)) }
    {
        if self.result.is_void() {
            also(refused(Reason::Mismatch, at), self.value(e))
        } else {
            match self.value(e) {
                Err(fail) => Err(fail),
                Ok(t) => must(is_value_for(self.result, &t), Reason::Mismatch, at),
            }
        }
    }

    fn returned(&self, at: Span, e: &Option<Boxed<Expr>>) -> Judged<()>
        ensures { Gives result (statements.returned (context self.now) at e.now) }
    {
        match e {
            None => must(self.result.is_void(), Reason::Mismatch, at),
            Some(e) => self.returned_value(at, e.get()),
        }
    }

    /// `return`
    pub(crate) fn returns(&self, at: Span, e: &Option<Boxed<Expr>>) -> Judged<()>
        ensures { Gives result (statements.returns (context self.now) at e.now) }
    {
        let outside = if self.inside {
            refused(Reason::ReturnInside, at)
        } else {
            Ok(())
        };
        also(self.returned(at, e), outside)
    }

    /// A call, whatever it gives.
    pub(crate) fn evaluated(&self, call: &Call) -> Judged<()>
        ensures { Gives result (statements.evaluated (context self.now) call.now) }
    {
        also(Ok(()), self.call(call))
    }
}
