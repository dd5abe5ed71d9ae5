//! Stacks.
ghost use Rattle.std.specs.Prelude.{◌≡◌, slice_get, length, option_copied, [], ◌∷◌, take, drop, reverse, IfOk, OnOk, MatchOption};

use std::alloc::{AllocError, Global};
use std::marker::Model;

/// A `Vec` that contracts see with its last item first.
#[derive(Drop)]
pub(crate) struct Stack<T> {
    items: Vec<T>,
}

impl<T> Model for Stack<T> {
    ghost use Rattle.std.specs.Prelude.{List, reverse};
    ghost use Rattle.std.specs.Coded.{coded_list};

    ghost Value = { List T };

    ghost coded = { coded_list T.code };

    ghost view = { λ s. reverse s.items.items };
}

impl<T: Drop> Stack<T> {
    pub(crate) fn new(alloc: Global) -> Stack<T>
        ensures { result ≡ [] }
    {
        Stack {
            items: Vec::new(alloc),
        }
    }

    pub(crate) fn push(&mut self, item: T) -> Result<(), AllocError>
        ensures { OnOk result (self.new ≡ item ∷ self.old) }
    {
        self.items.push(item)?;
        Ok(())
    }

    /// The first of these ends as the last item.
    pub(crate) fn push_two(&mut self, first: T, second: T) -> Result<(), AllocError>
        ensures { OnOk result (self.new ≡ first ∷ second ∷ self.old) }
    {
        self.push(second)?;
        self.push(first)
    }

    /// The first of these ends as the last item.
    pub(crate) fn push_three(&mut self, first: T, second: T, third: T) -> Result<(), AllocError>
        ensures { OnOk result (self.new ≡ first ∷ second ∷ third ∷ self.old) }
    {
        self.push(third)?;
        self.push_two(first, second)
    }

    /// The last item.
    pub(crate) fn top(&self) -> Option<&T>
        ensures { option_copied result ≡ slice_get self.now 0 }
    {
        self.items.last()
    }

    pub(crate) fn len(&self) -> usize
        ensures { result ≡ length self.now }
    {
        self.items.len()
    }

    pub(crate) fn pop(&mut self) -> Option<T>
        ensures { MatchOption result ((self.old ≡ []) × (self.new ≡ [])) (λ top. self.old ≡ top ∷ self.new) }
    {
        self.items.pop()
    }

    /// The items as they came, the last one last.
    pub(crate) fn in_order(&self) -> &[T]
        ensures { result.now ≡ reverse self.now }
    {
        self.items.as_slice()
    }

    /// Takes the last items, so many or all, in the order in which they came.
    pub(crate) fn take_last(&mut self, count: usize) -> Result<Vec<T>, AllocError>
        ensures taken { IfOk result (λ items. items.items ≡ reverse (take count self.old)) }
        ensures left { OnOk result (self.new ≡ drop count self.old) }
    {
        let left = self.items.len().saturating_sub(count);
        self.items.split_off(left)
    }
}
