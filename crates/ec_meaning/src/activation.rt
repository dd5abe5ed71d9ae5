//! How activations start and end.
ghost use Rattle.std.specs.Prelude.{◌≡◌, ◌∷◌, [], map, drop, get_or, IfOk, OnOk};
ghost use Rattle.ec_resolve.specs.Erased as erased;
ghost use Rattle.ec_types.specs.Meaning.State as state;
ghost use Rattle.ec_meaning.specs.Activations.{Enters};
ghost use Rattle.ec_meaning.specs.Acts as acts;
ghost use Rattle.ec_meaning.specs.Handled.{Becomes};
ghost use Rattle.ec_meaning.specs.Opened as opened;
ghost use Rattle.ec_meaning.specs.Seen as seen;
ghost use Rattle.ec_meaning.specs.Seen.{Untold, val};
ghost use Rattle.ec_meaning.specs.Works as works;

use crate::hand::{Frame, Hand};
use crate::shared_state::Core;
use crate::stack::Stack;
use crate::value::Value;
use crate::work::{Placement, Work};
use ec_resolve::{Action, Function};
use std::alloc::{AllocError, Global};

impl Core {
    /// How many births the activation that runs has made.
    pub(crate) fn births(&self) -> u64
        ensures { result ≡ get_or self.now.births 0 0 }
    {
        match self.births.top() {
            Some(births) => *births,
            None => 0,
        }
    }

    /// An activation starts at the next birth of the one that runs. Births are numbered by what a `u64` holds.
    pub(crate) fn enter(&mut self) -> Result<(), AllocError>
        ensures { OnOk result (Enters self.old self.new) }
    {
        let births = self.births.pop().unwrap_or(0);
        let next = births.checked_add(1).ok_or(AllocError)?;
        self.births.push_two(0, next)?;
        self.most = self.most.max(self.births.len());
        Ok(())
    }

    /// The activation that runs ends.
    pub(crate) fn leave(&mut self)
        ensures { self.new ≡ record self.old { births = drop 1 self.old.births } }
    {
        self.births.pop();
    }
}

impl Hand {
    /// Nothing is at hand, and the variables have these values.
    fn with_vars(alloc: Global, vars: Vec<Value>) -> Hand
        ensures { (u : Untold) → seen.hand u result ≡ record { values = []; accesses = []; vars = seen.table u vars.items } }
    {
        Hand {
            values: Stack::new(alloc),
            accesses: Stack::new(alloc),
            vars,
        }
    }

    pub(crate) fn into_vars(self) -> Vec<Value>
        ensures { result ≡ self.vars }
    {
        self.vars
    }

    /// Without the placement's operand, where there is one.
    fn pop_operand(&mut self, placement: Placement)
        ensures { Becomes (λ u h. acts.below_operand (seen.placement u placement) h) self.old self.new }
    {
        if placement.has_operand() {
            self.pop();
        }
    }

    /// Takes the last values, so many, in the order in which they came.
    fn take_values(&mut self, count: usize) -> Result<Vec<Value>, AllocError>
        ensures args { IfOk result (λ vs. (u : Untold) → map (val u) vs.items ≡ acts.last_values count (seen.hand u self.old)) }
        ensures rest { OnOk result (Becomes (λ u h. acts.without count h) self.old self.new) }
    {
        self.values.take_last(count)
    }

    /// The last values of so many, below that of the placement where there is one.
    pub(crate) fn take_arguments(
        &mut self,
        placement: Placement,
        count: usize,
    ) -> Result<Vec<Value>, AllocError>
        ensures args { IfOk result (λ vs. (u : Untold) → map (val u) vs.items ≡ acts.last_values count (acts.below_operand (seen.placement u placement) (seen.hand u self.old))) }
        ensures rest { OnOk result (Becomes (λ u h. acts.without count (acts.below_operand (seen.placement u placement) h)) self.old self.new) }
    {
        self.pop_operand(placement);
        self.take_values(count)
    }

    /// Parameters have the values of their arguments; those without one are 0.
    fn with_arguments(alloc: Global, params: &[usize], args: &[Value]) -> Result<Hand, AllocError>
        ensures { IfOk result (λ h. (u : Untold) → seen.hand u h ≡ acts.entered params.now (map (val u) args.now)) }
    {
        let mut hand = Hand::with_vars(alloc, Vec::new(alloc));
        for i in 0..params.len().min(args.len()) {
            hand.set_variable(params[i], args[i])?;
        }
        Ok(hand)
    }
}

impl<'a> Frame<'a> {
    /// A function's body, with these arguments.
    pub(crate) fn of_function(
        alloc: Global,
        function: &'a Function,
        args: &[Value],
    ) -> Result<Frame<'a>, AllocError>
        ensures works { IfOk result (λ f. (u : Untold) → seen.works u f.works ≡ opened.of_function (erased.function function.now)) }
        ensures hand { IfOk result (λ f. (u : Untold) → seen.hand u f.hand ≡ acts.entered function.now.params (map (val u) args.now)) }
    {
        let hand = Hand::with_arguments(alloc, function.params.as_slice(), args)?;
        let mut works = Stack::new(alloc);
        works.push_two(
            Work::Declare(function.body.decls.as_slice()),
            Work::Statements(function.body.actions.as_slice()),
        )?;
        Ok(Frame { works, hand })
    }

    /// A branch or body, with the variables of the activation in which it stands.
    pub(crate) fn of_branch(
        alloc: Global,
        action: &'a Action,
        vars: &[Value],
    ) -> Result<Frame<'a>, AllocError>
        ensures works { IfOk result (λ f. (u : Untold) → seen.works u f.works ≡ works.Statement (erased.statement action.now) ∷ []) }
        ensures hand { IfOk result (λ f. (u : Untold) → seen.hand u f.hand ≡ record { values = []; accesses = []; vars = seen.table u vars.now }) }
    {
        let hand = Hand::with_vars(alloc, Vec::from_slice(alloc, vars)?);
        let mut works = Stack::new(alloc);
        works.push(Work::Statement(action))?;
        Ok(Frame { works, hand })
    }
}
