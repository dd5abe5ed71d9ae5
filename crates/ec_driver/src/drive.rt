//! The loop that runs a world: it chooses the steps and keeps them.
ghost use Rattle.std.specs.Prelude.{◌≡◌, ◌<◌, ◌+◌, ◌*◌, false, OnOk, IfOk, IsTrue};
ghost use Rattle.ec_driver.specs.Kept.{is_eu};
ghost use Rattle.ec_driver.specs.Drive.{Chosen, IsGoing, IsMade, IsProgress, IsStopped, kept};
ghost use Rattle.ec_agree.specs.Agree.{own};

use ec_agree::unended_runs_go_on;
use ec_base::{Fail, List, MAX_STEPS, NoMemory};
use ec_core::{Act, Choice, Code, Stamped, World, enabled_exactly};
use std::alloc::Global;

/// A world under way: the choices that led to it, and how many each of its two units made.
#[derive(Drop)]
pub(crate) struct Progress {
    pub world: World,
    pub list: List<Stamped>,
    pub eu: u64,
    pub su: u64,
}

/// A step of node 0 that no peer takes part in.
fn own(act: Act) -> Choice
    ensures { result ≡ own act }
{
    Choice {
        node: 0,
        act,
        peer: 0,
        pick: 0,
    }
}

/// Whether an act is the execution unit's.
fn is_eu(act: Act) -> bool
    ensures { result ≡ is_eu act }
{
    match act {
        Act::EuReady | Act::EuSpawn | Act::EuEvent | Act::EuHungry => true,
        Act::SuEvent | Act::SuNet | Act::SuReady | Act::SuSend => false,
    }
}

/// An enabled act of node 0: what is under way goes first, so that queues stay short.
fn next_act(world: &World) -> Option<Act>
    ensures { Chosen world.now.nodes result }
{
    if world.enabled(own(Act::SuEvent)) {
        return Some(Act::SuEvent);
    }
    if world.enabled(own(Act::SuReady)) {
        return Some(Act::SuReady);
    }
    if world.enabled(own(Act::EuEvent)) {
        return Some(Act::EuEvent);
    }
    if world.enabled(own(Act::EuSpawn)) {
        return Some(Act::EuSpawn);
    }
    if world.enabled(own(Act::EuReady)) {
        return Some(Act::EuReady);
    }
    None
}

impl Progress {
    /// The start.
    fn new(alloc: Global, code: &Code) -> Result<Progress, NoMemory>
        ensures { IfOk result (IsProgress code.now) }
    {
        Ok(Progress {
            world: World::start(alloc, code, 1, &[])?,
            list: List::new(alloc),
            eu: 0,
            su: 0,
        })
    }

    /// Whether no further step is to be made: the world has ended, or a unit's steps are spent.
    fn is_stopped(&self) -> bool
        ensures stopped { IsTrue result → IsStopped self.now }
        ensures goes_on { (result ≡ false) → IsGoing self.now }
    {
        self.world.ended() || self.eu >= MAX_STEPS as u64 || self.su >= MAX_STEPS as u64
    }

    /// Makes one step and keeps it.
    fn advance(&mut self, alloc: Global, code: &Code) -> Result<(), NoMemory>
        requires made { IsMade code.now }
        requires progress { IsProgress code.now self.old }
        requires going { IsGoing self.old }
        ensures progress { OnOk result (IsProgress code.now self.new) }
        ensures more { OnOk result (self.new.eu + self.new.su ≡ self.old.eu + self.old.su + 1) }
    {
        let Some(act) = next_act(&self.world) else {
            unended_runs_go_on();
            unreachable!()
        };
        let choice = own(act);
        enabled_exactly();
        match self.world.step(alloc, code, choice) {
            Ok(()) => self.keep(choice),
            Err(Fail::Memory) => Err(NoMemory),
            Err(Fail::Refused(_)) => unreachable!(),
        }
    }

    /// Keeps a choice that was made, with its place as its stamp.
    fn keep(&mut self, choice: Choice) -> Result<(), NoMemory>
        requires { self.old.eu + self.old.su < 2 * MAX_STEPS }
        ensures { OnOk result (self.new ≡ kept choice self.old) }
    {
        let stamp = self.eu + self.su + 1;
        self.list.push(Stamped { stamp, choice })?;
        if is_eu(choice.act) {
            self.eu += 1;
        } else {
            self.su += 1;
        }
        Ok(())
    }
}

/// Runs a program's code on one node from the start until it has ended or a unit's steps are spent.
pub(crate) fn drive(alloc: Global, code: &Code) -> Result<Progress, NoMemory>
    requires { IsMade code.now }
    ensures progress { IfOk result (IsProgress code.now) }
    ensures stopped { IfOk result IsStopped }
{
    let mut progress = Progress::new(alloc, code)?;
    'steps: while !progress.is_stopped() {
        progress.advance(alloc, code)?;
    }
    Ok(progress)
}
