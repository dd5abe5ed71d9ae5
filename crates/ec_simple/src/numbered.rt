//! Things in order, with the number of the next.
ghost use Rattle.std.specs.Prelude.{◌≡◌, ◌+◌, [], ◌∷◌, IfOk, OnOk};
ghost use Rattle.ec_simple.specs.Puts.{more};

use ec_base::List;
use std::alloc::{AllocError, Global};

/// Things in order, and the number that the next of them has.
#[derive(Drop)]
pub(crate) struct Numbered<T> {
    pub(crate) all: List<T>,
    pub(crate) next: u32,
}

/// Numbers have 32 bits: where one doesn't fit, there are more things than any memory holds.
pub(crate) fn narrow(n: usize) -> Result<u32, AllocError>
    ensures { IfOk result (λ m. m ≡ n) }
{
    match u32::try_from(n) {
        Ok(m) => Ok(m),
        Err(_) => Err(AllocError),
    }
}

/// All of these numbers.
pub(crate) fn narrow_all(alloc: Global, all: &[usize]) -> Result<List<u32>, AllocError>
    ensures { IfOk result (λ l. l ≡ all.now) }
{
    let mut numbers = List::new(alloc);
    for n in all {
        numbers.push(narrow(*n)?)?;
    }
    Ok(numbers)
}

pub(crate) fn sum(m: u32, n: u32) -> Result<u32, AllocError>
    ensures { IfOk result (λ s. s ≡ m + n) }
{
    match m.checked_add(n) {
        Some(s) => Ok(s),
        None => Err(AllocError),
    }
}

impl<T: Drop> Numbered<T> {
    /// Gives the number of what is put behind the others.
    pub(crate) fn push(&mut self, item: T) -> Result<u32, AllocError>
        ensures number { IfOk result (λ x. x ≡ self.old.next) }
        ensures behind { OnOk result (self.new ≡ more self.old (item ∷ [])) }
    {
        let number = self.next;
        let next = sum(number, 1)?;
        self.all.push(item)?;
        self.next = next;
        Ok(number)
    }

    pub(crate) fn append(&mut self, items: List<T>) -> Result<(), AllocError>
        ensures { OnOk result (self.new ≡ more self.old items) }
    {
        let count = narrow(items.len())?;
        let next = sum(self.next, count)?;
        self.all.append(items)?;
        self.next = next;
        Ok(())
    }
}
