//! Works on what is at hand: values become other values, accesses, or variables.
ghost use Rattle.std.specs.Prelude.{◌≡◌, if◌then◌else◌, ◌∷◌, [], pos, OnOk};
ghost use Rattle.ec_resolve.specs.Erased as erased;
ghost use Rattle.ec_types.specs.Meaning.State.{set};
ghost use Rattle.ec_types.specs.Meaning.Values.{Num, zero_value, holds as condition, truth as truth_of, unary_value};
ghost use Rattle.ec_types.specs.Meaning.Evaluation.{element_of, field_of, item_of};
ghost use Rattle.ec_meaning.specs.Acts as acts;
ghost use Rattle.ec_meaning.specs.Acts.{top, second, without, replaced, reached, left_behind, with_vars};
ghost use Rattle.ec_meaning.specs.Handled.{Becomes, Puts};
ghost use Rattle.ec_meaning.specs.Seen.{Untold, val, hand};
ghost use Rattle.ec_meaning.specs.Opened as opened;
ghost use Rattle.ec_meaning.specs.Opened.{behind};

use crate::hand::{Frame, Hand};
use crate::operators::{truth, unary};
use crate::value::{Access, Value};
use crate::work::Work;
use ec_base::{Span, UnOp};
use ec_resolve::{Extent, Term};
use std::alloc::AllocError;

/// The last two values.
#[derive(Clone, Copy)]
pub(crate) struct Pair {
    pub(crate) left: Value,
    pub(crate) right: Value,
}

impl Hand {
    pub(crate) fn pop_pair(&mut self) -> Pair
        ensures left { (u : Untold) → val u result.left ≡ second (hand u self.old) }
        ensures right { (u : Untold) → val u result.right ≡ top (hand u self.old) }
        ensures rest { Becomes (λ u h. without 2 h) self.old self.new }
    {
        let right = self.pop();
        let left = self.pop();
        Pair { left, right }
    }

    pub(crate) fn operate(&mut self, op: UnOp) -> Result<(), AllocError>
        ensures { OnOk result (Becomes (λ u h. replaced 1 (unary_value op (top h)) h) self.old self.new) }
    {
        let operand = self.pop();
        self.push(unary(op, operand))
    }

    pub(crate) fn as_truth(&mut self) -> Result<(), AllocError>
        ensures { OnOk result (Becomes (λ u h. replaced 1 (truth_of (condition (top h))) h) self.old self.new) }
    {
        let holds = self.pop_condition();
        self.push(truth(holds))
    }

    pub(crate) fn to_element(&mut self, at: Span, size: u32) -> Result<(), AllocError>
        ensures { OnOk result (Becomes (λ u h. reached (element_of at size (second h) (top h)) (without 2 h)) self.old self.new) }
    {
        let pair = self.pop_pair();
        self.reach(Access::element(at, size, pair.left, pair.right))
    }

    pub(crate) fn to_behind(&mut self, at: Span, size: u32, field: Extent) -> Result<(), AllocError>
        ensures { OnOk result (Becomes (λ u h. reached (behind at size (erased.field field) (top h)) (without 1 h)) self.old self.new) }
    {
        let base = self.pop();
        let element = Access::element(at, size, base, Value::Int(0));
        self.reach(element.field(at, field))
    }

    pub(crate) fn to_field(&mut self, at: Span, field: Extent) -> Result<(), AllocError>
        ensures { OnOk result (Becomes (λ u h. reached (field_of at (erased.field field) (acts.access h)) (left_behind 1 h)) self.old self.new) }
    {
        let element = self.pop_access();
        self.reach(element.field(at, field))
    }

    pub(crate) fn to_item(&mut self, at: Span) -> Result<(), AllocError>
        ensures { OnOk result (Becomes (λ u h. reached (item_of at (acts.access h) (top h)) (left_behind 1 (without 1 h))) self.old self.new) }
    {
        let index = self.pop();
        let field = self.pop_access();
        self.reach(field.item(at, index))
    }

    pub(crate) fn set_to(&mut self, number: usize) -> Result<(), AllocError>
        ensures { OnOk result (Becomes (λ u h. with_vars (set number (top h) h.vars) (without 1 h)) self.old self.new) }
    {
        let value = self.pop();
        self.set_variable(number, value)
    }
}

impl<'a> Frame<'a> {
    /// The right side of `&&`, where the left one holds.
    pub(crate) fn and_then(&mut self, right: &'a Term) -> Result<(), AllocError>
        ensures works { OnOk result (Puts (λ u h. opened.of_conjunction (condition (top h)) (erased.expression right.now)) self.old self.new) }
        ensures hand { OnOk result (Becomes (λ u h. without 1 h) self.old.hand self.new.hand) }
    {
        if self.hand.pop_condition() {
            self.works.push_two(Work::Value(right), Work::AsTruth)
        } else {
            self.works.push(Work::Constant(Value::Int(0)))
        }
    }

    /// The right side of `||`, where the left one doesn't hold.
    pub(crate) fn or_else(&mut self, right: &'a Term) -> Result<(), AllocError>
        ensures works { OnOk result (Puts (λ u h. opened.of_disjunction (condition (top h)) (erased.expression right.now)) self.old self.new) }
        ensures hand { OnOk result (Becomes (λ u h. without 1 h) self.old.hand self.new.hand) }
    {
        if self.hand.pop_condition() {
            self.works.push(Work::Constant(Value::Int(1)))
        } else {
            self.works.push_two(Work::Value(right), Work::AsTruth)
        }
    }
}
