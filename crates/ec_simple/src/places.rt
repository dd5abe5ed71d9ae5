//! The places of variables in lists of them.
ghost use Rattle.std.specs.Prelude.{◌≡◌, ℕ, ◌<◌, length, replicate, slice_get, slice_set, Some, IfOk, OnOk};
ghost use Rattle.ec_simple.specs.Statements.{index};
ghost use Rattle.ec_simple.specs.Uses.{member};

use crate::numbered::narrow;
use ec_base::List;
use std::alloc::{AllocError, Global};
use std::marker::Model;

/// Numbers, and for each variable its place among them. Contracts see the numbers.
#[derive(Drop)]
pub(crate) struct Places {
    own: List<u32>,
    table: List<u32>,
}

impl Model for Places {
    ghost use Rattle.std.specs.Prelude.{◌≡◌, ℕ, List, slice_get, Some};
    ghost use Rattle.ec_simple.specs.Statements.{index};

    ghost Value = { List ℕ };

    ghost view = { λ p. p.own };

    ghost invariant = { λ p. (x n : ℕ) → slice_get p.table x ≡ Some n → n ≡ index p.own x };
}

/// So many copies of a number.
fn copies(alloc: Global, count: usize, n: u32) -> Result<List<u32>, AllocError>
    ensures { IfOk result (λ l. l ≡ replicate count n) }
{
    let mut all = List::new(alloc);
    for _ in 0..count {
        all.push(n)?;
    }
    Ok(all)
}

fn note(table: &mut List<u32>, x: u32, n: u32) -> Result<(), AllocError>
    ensures noted { OnOk result (table.new ≡ slice_set table.old x n) }
    ensures within { OnOk result (x < length table.old) }
{
    let at = x as usize;
    if at < table.len() {
        table.set(at, n);
        Ok(())
    } else {
        Err(AllocError)
    }
}

/// Where each of so many variables stands first among these. One that isn't there has the place behind them.
fn places_in(alloc: Global, count: usize, own: &[u32]) -> Result<List<u32>, AllocError>
    ensures { IfOk result (λ l. (x m : ℕ) → slice_get l x ≡ Some m → m ≡ index own.now x) }
{
    let end = own.len();
    let mut table = copies(alloc, count, narrow(end)?)?;
    for i in 0..end {
        let at = end - 1 - i;
        note(&mut table, own[at], narrow(at)?)?;
    }
    Ok(table)
}

impl Places {
    /// Those of these variables, whose numbers are below the count.
    pub(crate) fn of(alloc: Global, count: usize, own: List<u32>) -> Result<Places, AllocError>
        ensures { IfOk result (λ p. p ≡ own) }
    {
        let table = places_in(alloc, count, own.as_slice())?;
        Ok(Places { own, table })
    }

    pub(crate) fn all(&self) -> &[u32]
        ensures { result.now ≡ self.now }
    {
        self.own.as_slice()
    }

    pub(crate) fn place(&self, x: usize) -> Result<u32, AllocError>
        ensures { IfOk result (λ n. n ≡ index self.now x) }
    {
        match self.table.get(x) {
            Some(n) => Ok(*n),
            None => Err(AllocError),
        }
    }

    pub(crate) fn has(&self, x: u32) -> Result<bool, AllocError>
        ensures { IfOk result (λ b. b ≡ member x self.now) }
    {
        let place = self.place(x as usize)?;
        Ok((place as usize) < self.own.len())
    }
}
