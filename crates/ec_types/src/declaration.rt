//! Declarations of variables and parameters.
ghost use Rattle.ec_types.specs.Declarations as declarations;
ghost use Rattle.ec_types.specs.Judged.{Gives, optional};
ghost use Rattle.ec_types.specs.Seen.{context};

use crate::declared_type::{is_parameter, is_variable};
use crate::judge::{Judge, is_local_mode, is_shared_mode};
use crate::judged::{Judged, also, must};
use crate::names::known;
use crate::value_type::{ExprType, written_type};
use ec_base::Reason;
use ec_syntax::{Decl, Expr};

impl Judge<'_> {
    /// The value of an initialiser fits the variable.
    #[tactic(auto, using(crate::proofs::Judgements::gives_up, crate::proofs::Judgements::goes_on))]
    fn initial(&self, d: &Decl, e: &Expr) -> Judged<()>
        ensures { Gives result (declarations.initial (context self.now) d.now e.now) }
    {
        let target = ExprType::Value(written_type(self.alloc, &d.ty)?);
        match self.value(e) {
            Err(fail) => Err(fail),
            Ok(t) => self.fits_into(d.name.at, &target, is_local_mode(d.mode), e, &t),
        }
    }

    fn initialised(&self, d: &Decl, e: &Expr) -> Judged<()>
        ensures { Gives result (declarations.initialised (context self.now) d.now e.now) }
    {
        let unshared = must(!is_shared_mode(d.mode), Reason::Mismatch, d.name.at);
        also(self.initial(d, e), unshared)
    }

    fn optional_initialised(&self, d: &Decl) -> Judged<()>
        ensures { Gives result (optional (declarations.initialised (context self.now) d.now) d.now.init) }
    {
        match &d.init {
            None => Ok(()),
            Some(e) => self.initialised(d, e.get()),
        }
    }

    pub(crate) fn declaration(&self, d: &Decl) -> Judged<()>
        ensures { Gives result (declarations.declaration (context self.now) d.now) }
    {
        let allowed = must(is_variable(d), Reason::Mismatch, d.name.at);
        let rest = also(allowed, self.optional_initialised(d));
        also(known(self.structs, &d.ty), rest)
    }

    pub(crate) fn parameter(&self, d: &Decl) -> Judged<()>
        ensures { Gives result (declarations.parameter (context self.now) d.now) }
    {
        let allowed = must(is_parameter(d), Reason::Mismatch, d.name.at);
        also(known(self.structs, &d.ty), allowed)
    }
}
