//! The functions that branches and bodies become, and their calls.
ghost use Rattle.std.specs.Prelude.{◌≡◌, length, map, IfOk};
ghost use Rattle.ec_resolve.specs.Erased as erased;
ghost use Rattle.ec_simple.specs.Expressions.{of_variable as of, variable_at};
ghost use Rattle.ec_simple.specs.Seen.{scope};
ghost use Rattle.ec_simple.specs.Statements as low;
ghost use Rattle.ec_simple.specs.Around.{call_around, function_around};
ghost use Rattle.ec_simple.specs.Used.{used};

use crate::around::Around;
use crate::form::{FuncKind, SCall, SFunc, SPlace, SStmt, SVar, VarUse};
use crate::numbered::{Numbered, narrow};
use crate::scope::Scope;
use ec_base::{Boxed, List, Span, Text};
use ec_resolve::Variable;
use itoa::Buffer;
use std::alloc::AllocError;

/// A variable of the simple form.
pub(crate) fn of_variable(v: Variable) -> SVar
    ensures { result ≡ of (erased.variable v) }
{
    SVar {
        at: v.at,
        local: v.local,
        pointer: v.pointer.is_some(),
        shape: v.pointer.unwrap_or(0),
    }
}

impl Scope<'_, '_> {
    /// The numbers of variables.
    fn places(&self, all: &[u32]) -> Result<List<u32>, AllocError>
        ensures { IfOk result (λ l. l ≡ map (scope self.now).place all.now) }
    {
        let mut places = List::new(self.alloc);
        for x in all {
            places.push(self.place(*x as usize)?)?;
        }
        Ok(places)
    }

    /// Shared names are no uses.
    pub(crate) fn uses(&self, all: &[VarUse]) -> Result<List<VarUse>, AllocError>
        ensures { IfOk result (λ l. l ≡ low.uses (scope self.now) (used all.now)) }
    {
        let mut kept = List::new(self.alloc);
        for u in all {
            let x = u.var as usize;
            if !self.variable(x).shared {
                let var = self.place(x)?;
                kept.push(VarUse { var, at: u.at })?;
            }
        }
        Ok(kept)
    }

    /// The variables of a branch or body.
    pub(crate) fn own_variables(&self, own: &[u32]) -> Result<Numbered<SVar>, AllocError>
        ensures all { IfOk result (λ n. n.all ≡ map (λ y. of (variable_at (scope self.now) y)) own.now) }
        ensures next { IfOk result (λ n. n.next ≡ length own.now) }
    {
        let mut all = List::new(self.alloc);
        for x in own {
            all.push(of_variable(self.variable(*x as usize)))?;
        }
        Ok(Numbered {
            all,
            next: narrow(own.len())?,
        })
    }

    /// The name of the branch or body of this number.
    fn outlined_name(&self, number: u32) -> Result<Text, AllocError>
        ensures { IfOk result (λ t. t ≡ low.outlined_name (scope self.now) number) }
    {
        let mut buffer = Buffer::new();
        let place = number.saturating_sub(self.first) as i64 + 1;
        let mut name = self.name.copy(self.alloc)?;
        name.append(b".")?;
        name.append(buffer.format(place).as_bytes())?;
        Ok(name)
    }

    /// The call of a branch or body of this number.
    pub(crate) fn outlined_call(
        &self,
        at: Span,
        number: u32,
        around: &Around,
    ) -> Result<Boxed<SCall>, AllocError>
        ensures { IfOk result (λ c. c ≡ call_around (scope self.now) at number around.now) }
    {
        let args = self.places(around.copied_in.as_slice())?;
        let to = self.places(around.copied_out.as_slice())?;
        let reads = self.uses(around.reads.as_slice())?;
        let writes = self.uses(around.writes.as_slice())?;
        Boxed::new(
            self.alloc,
            SCall {
                func: number,
                args,
                to,
                place: SPlace::Here,
                at,
                reads,
                writes,
            },
        )
    }

    /// The function of a branch or body of this number, in whose scope this is called.
    pub(crate) fn outlined(
        &self,
        kind: FuncKind,
        number: u32,
        around: &Around,
        vars: List<SVar>,
        body: List<SStmt>,
    ) -> Result<SFunc, AllocError>
        ensures { IfOk result (λ f. f ≡ function_around (scope self.now) kind number around.now vars body) }
    {
        let name = self.outlined_name(number)?;
        let params = self.places(around.copied_in.as_slice())?;
        let results = self.places(around.copied_out.as_slice())?;
        Ok(SFunc {
            name,
            kind,
            vars,
            params,
            results,
            body,
        })
    }
}
