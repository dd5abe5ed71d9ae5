//! The evaluator: it takes works one by one, until the meaning ends or its ticks are spent.
ghost use Rattle.std.specs.Prelude.{◌≡◌, ◌≢◌, [], ℕ, ℤ, Bool, true, false, List, suc, IfOk, OnOk, OnSome};
ghost use Rattle.ec_syntax.specs.declared.item.Program.{Program as Source};
ghost use Rattle.ec_meaning.specs.Activations.{Activates, Waits};
ghost use Rattle.ec_meaning.specs.Machine as m;
ghost use Rattle.ec_meaning.specs.Seen as seen;
ghost use Rattle.ec_meaning.specs.Seen.{Untold};
ghost use Rattle.ec_meaning.specs.Steps.{StepsAlways, before, RunsTo};
ghost use Rattle.ec_meaning.specs.declared.machine.Step.TheVariants as step;
ghost use Rattle.ec_meaning.specs.declared.work.Work.TheVariants as todo;

use crate::hand::{Awaits, Frame, Waiting};
use crate::performing::perform;
use crate::shared_state::Core;
use crate::stack::Stack;
use crate::value::Value;
use crate::work::{Placement, Work};
use ec_base::{Fail, MAX_ACTIVATIONS, Trap};
use ec_resolve::{Action, Function};
use std::alloc::{AllocError, Global};
use std::mem::replace;

/// The activation that runs, those that wait for it, what they share, and the ticks that are left.
#[derive(Drop)]
pub(crate) struct Machine<'a> {
    pub(crate) functions: &'a [Function],
    pub(crate) running: Frame<'a>,
    pub(crate) waiting: Stack<Waiting<'a>>,
    pub(crate) core: Core,
    pub(crate) ticks: u64,
}

/// What a step comes to.
#[derive(Clone, Copy)]
pub(crate) enum Step {
    On,
    OutOfTicks,
    TooDeep,
    Trapped(Trap),
    /// Main's activation has ended, or has returned a value.
    Ended(Option<Value>),
}

/// What a function gives that ends without `return`.
fn missing(pointer: bool) -> Value
    ensures { (u : Untold) → seen.val u result ≡ m.missing pointer }
{
    if pointer { Value::Null } else { Value::Int(0) }
}

impl<'a> Machine<'a> {
    /// Takes works until the meaning ends, its ticks are spent, or it is too deep. 2^64 steps are never made; past them
    /// memory is wanted.
    pub(crate) fn run(&mut self, alloc: Global) -> Result<Step, AllocError>
        ensures { IfOk result (λ last. RunsTo self.old self.new last) }
    {
        for _ in 0..u64::MAX {
            match self.step(alloc)? {
                Step::On => {}
                other => return Ok(other),
            }
        }
        Err(AllocError)
    }

    /// Takes the next work.
    fn step(&mut self, alloc: Global) -> Result<Step, AllocError>
        ensures { IfOk result (StepsAlways self.old self.new) }
    {
        match self.running.works.pop() {
            None => self.complete(),
            Some(work) => self.take(alloc, work),
        }
    }

    /// Spends a tick where one is due, and says whether there was one.
    fn pay(&mut self, due: bool) -> bool
        ensures paid { result ≡ true → self.old ≡ record self.new { ticks = m.ticked due self.new.ticks } }
        ensures waits { result ≡ false → (due ≡ true) × Waits self.old self.new }
    {
        if !due {
            return true;
        }
        if self.ticks == 0 {
            return false;
        }
        self.ticks -= 1;
        true
    }

    fn take(&mut self, alloc: Global, work: Work<'a>) -> Result<Step, AllocError>
        ensures { IfOk result (StepsAlways (before work.entry self.old) self.new) }
    {
        if !self.pay(work.spends()) {
            return Ok(Step::OutOfTicks);
        }
        let births = self.core.births();
        match self.running.take(work, births)? {
            None => Ok(Step::On),
            Some(work) => self.perform(alloc, work),
        }
    }

    /// Does a work that does more than to open or to touch the hand.
    fn perform(&mut self, alloc: Global, work: Work<'a>) -> Result<Step, AllocError>
        ensures { IfOk result (StepsAlways (before work.entry self.old) self.new) }
    {
        match work {
            Work::Enter(placement, function, count) => {
                self.call(alloc, placement, function, count)
            }
            Work::Branch(action) => self.branch(alloc, action),
            Work::GiveBack => self.give_back(),
            Work::Joined(_) => Ok(Step::On),
            _ => self.perform_here(alloc, work),
        }
    }

    /// Does a work within the activation that runs.
    fn perform_here(&mut self, alloc: Global, work: Work<'a>) -> Result<Step, AllocError>
        ensures { IfOk result (StepsAlways (before work.entry self.old) self.new) }
    {
        match perform(alloc, &mut self.running.hand, &mut self.core, work) {
            Some(Ok(())) => Ok(Step::On),
            Some(Err(Fail::Refused(trap))) => Ok(Step::Trapped(trap)),
            // Works of other kinds are taken before.
            Some(Err(Fail::Memory)) | None => Err(AllocError),
        }
    }

    /// A call with the arguments at hand. One of no function gives 0.
    fn call(
        &mut self,
        alloc: Global,
        placement: Placement,
        function: usize,
        count: usize,
    ) -> Result<Step, AllocError>
        ensures { IfOk result (StepsAlways (before (todo.Enter placement function count) self.old) self.new) }
    {
        let args = self.running.hand.take_arguments(placement, count)?;
        match self.functions.get(function) {
            None => {
                self.running.hand.push(Value::Int(0))?;
                Ok(Step::On)
            }
            Some(function) => {
                let frame = Frame::of_function(alloc, function, args.as_slice())?;
                self.activate(frame, Awaits::Value(function.pointer))
            }
        }
    }

    /// A branch or body that is no call branch.
    fn branch(&mut self, alloc: Global, action: &'a Action) -> Result<Step, AllocError>
        ensures { IfOk result (StepsAlways (before (todo.Branch action.entry) self.old) self.new) }
    {
        let frame = Frame::of_branch(alloc, action, self.running.hand.vars.as_slice())?;
        self.activate(frame, Awaits::Vars)
    }

    /// An activation starts: a tick comes before the depth is looked at.
    fn activate(&mut self, frame: Frame<'a>, awaits: Awaits) -> Result<Step, AllocError>
        ensures { IfOk result (Activates frame.entry awaits self.old self.new) }
    {
        if !self.pay(true) {
            return Ok(Step::OutOfTicks);
        }
        if self.core.births.len() >= MAX_ACTIVATIONS as usize {
            return Ok(Step::TooDeep);
        }
        self.core.enter()?;
        let frame = replace(&mut self.running, frame);
        self.waiting.push(Waiting { awaits, frame })?;
        Ok(Step::On)
    }

    /// The activation that runs has no work left.
    fn complete(&mut self) -> Result<Step, AllocError>
        ensures { self.old.running.works ≡ [] → IfOk result (StepsAlways self.old self.new) }
    {
        let Some(Waiting { awaits, frame }) = self.waiting.pop() else {
            return Ok(Step::Ended(None));
        };
        self.core.leave();
        let Frame { hand: child, .. } = replace(&mut self.running, frame);
        match awaits {
            Awaits::Value(pointer) => self.running.hand.push(missing(pointer))?,
            Awaits::Vars => self.running.hand.vars = child.into_vars(),
        }
        Ok(Step::On)
    }

    /// The activation that runs returns the value at hand.
    fn give_back(&mut self) -> Result<Step, AllocError>
        ensures { IfOk result (StepsAlways (before todo.GiveBack self.old) self.new) }
    {
        let value = self.running.hand.pop();
        let Some(Waiting { awaits, frame }) = self.waiting.pop() else {
            return Ok(Step::Ended(Some(value)));
        };
        self.core.leave();
        self.running = frame;
        match awaits {
            Awaits::Value(_) => self.running.hand.push(value)?,
            Awaits::Vars => {}
        }
        Ok(Step::On)
    }
}
