//! Calls that are about to be made.
ghost use Rattle.std.specs.Prelude.{◌≡◌, [], ◌∷◌, IfOk};
ghost use Rattle.ec_simple.specs.Expressions as low;
ghost use Rattle.ec_simple.specs.declared.form.SStmt.TheVariants as s;
ghost use Rattle.ec_simple.specs.Puts.{Sets, call_of};

use crate::form::{SCall, SPlace, SStmt, SVar, VarUse};
use crate::numbered::Numbered;
use crate::temporary::temporary;
use ec_base::{Boxed, List, Span};
use std::alloc::{AllocError, Global};

/// A call that is about to be made: the function, its arguments, and its placement.
#[derive(Drop)]
pub(crate) struct Callee {
    pub(crate) func: u32,
    pub(crate) args: List<u32>,
    pub(crate) place: SPlace,
    pub(crate) at: Span,
}

impl Callee {
    /// The call whose results go to these variables, and which has these uses.
    pub(crate) fn into_call(
        self,
        alloc: Global,
        to: List<u32>,
        reads: List<VarUse>,
        writes: List<VarUse>,
    ) -> Result<Boxed<SCall>, AllocError>
        ensures { IfOk result (λ c. c ≡ call_of self to reads writes) }
    {
        Boxed::new(
            alloc,
            SCall {
                func: self.func,
                args: self.args,
                to,
                place: self.place,
                at: self.at,
                reads,
                writes,
            },
        )
    }

    /// The call whose results go to these variables, without uses.
    pub(crate) fn into_plain(self, alloc: Global, to: List<u32>) -> Result<Boxed<SCall>, AllocError>
        ensures { IfOk result (λ c. c ≡ call_of self to [] []) }
    {
        self.into_call(alloc, to, List::new(alloc), List::new(alloc))
    }
}

/// The call's value has a temporary.
pub(crate) fn called(
    alloc: Global,
    pointer: Option<u32>,
    callee: Callee,
    code: &mut List<SStmt>,
    vars: &mut Numbered<SVar>,
) -> Result<u32, AllocError>
    ensures { IfOk result (λ x. Sets (low.temporary callee.at pointer) (λ y. s.Call (call_of callee (y ∷ []) [] [])) code.old code.new vars.old vars.new x) }
{
    let x = vars.push(temporary(callee.at, pointer))?;
    let to = List::from_slice(alloc, &[x])?;
    code.push(SStmt::Call(callee.into_plain(alloc, to)?))?;
    Ok(x)
}
