//! Values and accesses are put into the hand and taken from it; what is missing there is 0.
ghost use Rattle.std.specs.Prelude.{◌≡◌, ◌≤◌, length, OnOk};
ghost use Rattle.ec_types.specs.Meaning.State as state;
ghost use Rattle.ec_types.specs.Meaning.Values as values;
ghost use Rattle.ec_meaning.specs.Acts as acts;
ghost use Rattle.ec_meaning.specs.Handled.{Becomes};
ghost use Rattle.ec_meaning.specs.Seen as seen;
ghost use Rattle.ec_meaning.specs.Seen.{Untold, val, hand};

use crate::hand::Hand;
use crate::value::{Access, Value};
use ec_base::Span;
use std::alloc::AllocError;

impl Hand {
    pub(crate) fn push(&mut self, value: Value) -> Result<(), AllocError>
        ensures { OnOk result (Becomes (λ u h. acts.push (val u value) h) self.old self.new) }
    {
        self.values.push(value)
    }

    pub(crate) fn pop(&mut self) -> Value
        ensures value { (u : Untold) → val u result ≡ acts.top (hand u self.old) }
        ensures rest { Becomes (λ u h. acts.without 1 h) self.old self.new }
    {
        match self.values.pop() {
            Some(value) => value,
            None => Value::Int(0),
        }
    }

    /// Whether the last value holds.
    pub(crate) fn pop_condition(&mut self) -> bool
        ensures value { (u : Untold) → result ≡ values.holds (acts.top (hand u self.old)) }
        ensures rest { Becomes (λ u h. acts.without 1 h) self.old self.new }
    {
        self.pop().holds()
    }

    pub(crate) fn reach(&mut self, access: Access) -> Result<(), AllocError>
        ensures { OnOk result (Becomes (λ u h. acts.reached (seen.access u access) h) self.old self.new) }
    {
        self.accesses.push(access)
    }

    pub(crate) fn pop_access(&mut self) -> Access
        ensures value { (u : Untold) → seen.access u result ≡ acts.access (hand u self.old) }
        ensures rest { Becomes (λ u h. acts.left_behind 1 h) self.old self.new }
    {
        match self.accesses.pop() {
            Some(access) => access,
            None => Access::shared(Span { from: 0, to: 0 }, Value::Int(0)),
        }
    }

    pub(crate) fn variable(&self, number: usize) -> Value
        ensures { (u : Untold) → val u result ≡ (hand u self.now).vars number }
    {
        match self.vars.get(number) {
            Some(value) => *value,
            None => Value::Int(0),
        }
    }

    pub(crate) fn set_variable(&mut self, number: usize, value: Value) -> Result<(), AllocError>
        ensures { OnOk result (Becomes (λ u h. acts.with_vars (state.set number (val u value) h.vars) h) self.old self.new) }
    {
        reach_to(&mut self.vars, number)?;
        put(&mut self.vars, number, value)
    }
}

/// Variables behind the last one are 0, so that they may be kept as such.
fn reach_to(vars: &mut Vec<Value>, number: usize) -> Result<(), AllocError>
    ensures same { OnOk result ((u : Untold) → seen.table u vars.new.items ≡ seen.table u vars.old.items) }
    ensures reaches { OnOk result (number ≤ length vars.new.items) }
{
    while vars.len() < number {
        vars.push(Value::Int(0))?;
    }
    Ok(())
}

fn put(vars: &mut Vec<Value>, number: usize, value: Value) -> Result<(), AllocError>
    requires { number ≤ length vars.old.items }
    ensures { OnOk result ((u : Untold) → seen.table u vars.new.items ≡ state.set number (val u value) (seen.table u vars.old.items)) }
{
    if number < vars.len() {
        vars[number] = value;
        return Ok(());
    }
    vars.push(value)?;
    Ok(())
}
