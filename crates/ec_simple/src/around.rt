//! What a branch or body uses of the function around it.
ghost use Rattle.std.specs.Prelude.{◌≡◌, ◌++◌, filter, length, map, IfOk};
ghost use Rattle.std.specs.List.{range_with_len};
ghost use Rattle.ec_resolve.specs.Erased as erased;
ghost use Rattle.ec_simple.specs.Seen.{scope};
ghost use Rattle.ec_simple.specs.Statements as low;
ghost use Rattle.ec_simple.specs.Used.{used};
ghost use Rattle.ec_simple.specs.Uses as uses;

use crate::form::VarUse;
use crate::found::{Found, found_in};
use crate::numbered::narrow;
use crate::places::Places;
use crate::scope::Scope;
use ec_base::List;
use ec_resolve::Action;
use std::alloc::{AllocError, Global};

/// What a branch or body uses of the variables around it, which of them it copies in and out, and its own variables: the
/// copies, and those that it declares.
#[derive(Drop)]
pub(crate) struct Around {
    pub(crate) reads: List<VarUse>,
    pub(crate) writes: List<VarUse>,
    pub(crate) copied_in: List<u32>,
    pub(crate) copied_out: List<u32>,
    pub(crate) own: List<u32>,
}

/// Those whose variables aren't among these.
fn outside(alloc: Global, own: &Places, all: &[VarUse]) -> Result<List<VarUse>, AllocError>
    ensures { IfOk result (λ l. used l ≡ uses.outside own.now (used all.now)) }
{
    let mut kept = List::new(alloc);
    for u in all {
        if !own.has(u.var)? {
            kept.push(*u)?;
        }
    }
    Ok(kept)
}

fn variables(alloc: Global, all: &[VarUse]) -> Result<List<u32>, AllocError>
    ensures { IfOk result (λ l. l ≡ map (λ u. u.var) (used all.now)) }
{
    let mut variables = List::new(alloc);
    for u in all {
        variables.push(u.var)?;
    }
    Ok(variables)
}

/// The variables below the count that are among these.
fn below(alloc: Global, count: usize, among: &Places) -> Result<List<u32>, AllocError>
    ensures { IfOk result (λ l. l ≡ filter (λ x. uses.member x among.now) (range_with_len 0 count)) }
{
    let mut kept = List::new(alloc);
    for n in 0..count {
        let x = narrow(n)?;
        if among.has(x)? {
            kept.push(x)?;
        }
    }
    Ok(kept)
}

/// The variables below the count that are used, each once.
fn numbers_below(alloc: Global, count: usize, all: &[VarUse]) -> Result<List<u32>, AllocError>
    ensures { IfOk result (λ l. l ≡ uses.numbers_below count (used all.now)) }
{
    let variables = variables(alloc, all)?;
    let among = Places::of(alloc, count, variables)?;
    below(alloc, count, &among)
}

/// One list behind the other.
fn joined<T: Copy + Drop>(alloc: Global, a: &[T], b: &[T]) -> Result<List<T>, AllocError>
    ensures { IfOk result (λ l. l ≡ a.now ++ b.now) }
{
    let mut all = List::from_slice(alloc, a)?;
    all.append(List::from_slice(alloc, b)?)?;
    Ok(all)
}

impl Scope<'_, '_> {
    /// The variables that are copied in: these, and those that are read or written.
    fn copied_in(
        &self,
        more: &[VarUse],
        reads: &[VarUse],
        writes: &[VarUse],
    ) -> Result<List<u32>, AllocError>
        ensures { IfOk result (λ l. l ≡ uses.numbers_below (length (scope self.now).variables) (used more.now ++ (used reads.now ++ used writes.now))) }
    {
        let both = joined(self.alloc, reads, writes)?;
        let all = joined(self.alloc, more, both.as_slice())?;
        numbers_below(self.alloc, self.variables.len(), all.as_slice())
    }

    /// What a statement uses of the variables around it, where these are used too.
    fn seen_around(&self, more: &[VarUse], found: Found) -> Result<Around, AllocError>
        ensures reads { IfOk result (λ a. used a.reads ≡ uses.outside found.declared (used found.reads)) }
        ensures writes { IfOk result (λ a. used a.writes ≡ uses.outside found.declared (used found.writes)) }
        ensures copied_in { IfOk result (λ a. a.copied_in ≡ uses.numbers_below (length (scope self.now).variables) (used more.now ++ (uses.outside found.declared (used found.reads) ++ uses.outside found.declared (used found.writes)))) }
        ensures copied_out { IfOk result (λ a. a.copied_out ≡ uses.numbers_below (length (scope self.now).variables) (uses.outside found.declared (used found.writes))) }
        ensures own { IfOk result (λ a. a.own ≡ a.copied_in ++ found.declared) }
    {
        let count = self.variables.len();
        let declared = Places::of(self.alloc, count, found.declared)?;
        let reads = outside(self.alloc, &declared, found.reads.as_slice())?;
        let writes = outside(self.alloc, &declared, found.writes.as_slice())?;
        let copied_in = self.copied_in(more, reads.as_slice(), writes.as_slice())?;
        let copied_out = numbers_below(self.alloc, count, writes.as_slice())?;
        let own = joined(self.alloc, copied_in.as_slice(), declared.all())?;
        Ok(Around {
            reads,
            writes,
            copied_in,
            copied_out,
            own,
        })
    }

    /// What a branch or body uses of the variables around it, where its header uses these.
    pub(crate) fn around(&self, more: &[VarUse], s: &Action) -> Result<Around, AllocError>
        ensures reads { IfOk result (λ a. used a.reads ≡ uses.outside (uses.declares (erased.statement s.now)) (uses.stmt_reads (erased.statement s.now))) }
        ensures writes { IfOk result (λ a. used a.writes ≡ uses.outside (uses.declares (erased.statement s.now)) (uses.stmt_writes (erased.statement s.now))) }
        ensures copied_in { IfOk result (λ a. a.copied_in ≡ low.copied_in (scope self.now) (used more.now) (erased.statement s.now)) }
        ensures copied_out { IfOk result (λ a. a.copied_out ≡ low.copied_out (scope self.now) (erased.statement s.now)) }
        ensures own { IfOk result (λ a. a.own ≡ low.own (scope self.now) (used more.now) (erased.statement s.now)) }
    {
        let found = found_in(self.alloc, s)?;
        self.seen_around(more, found)
    }
}
