//! A node: an execution unit, a synchronisation unit, and the rings that end in them.
ghost use Rattle.std.specs.Prelude.{◌≡◌, ◌<◌, ◌^◌, slice_get, IfOk};
ghost use Rattle.ec_queue.specs.Queues.{taken, taken_at};
ghost use Rattle.ec_world.specs.declared.choice.Act.TheVariants.{EuReady, EuSpawn};
ghost use Rattle.ec_world.specs.Answers.{Stepped};
ghost use Rattle.ec_world.specs.Run.{fresh_node, queue_held};
ghost use Rattle.ec_world.specs.Step as step;

use crate::choice::{Act, Choice};
use ec_base::{Fail, NoMemory};
use ec_code::{Code, Entry, Message};
use ec_eu::Eu;
use ec_queue::{Queue, Queues};
use ec_su::Su;
use std::alloc::Global;
use thiserror::Error;

/// The choice isn't enabled.
#[derive(Clone, Copy, Debug, Error)]
#[error("not enabled")]
pub struct NotEnabled;

/// A node: entries for its execution unit, messages for its synchronisation unit, and messages from each peer.
#[derive(Drop)]
pub struct Node {
    pub eu: Eu,
    pub su: Su,
    pub ready: Queue<Entry>,
    pub events: Queue<Message>,
    pub net: Queues<Message>,
}

impl Node {
    /// A node of so many, with these ready entries and nothing else.
    pub fn new(
        alloc: Global,
        nodes: u32,
        number: u32,
        ready: Queue<Entry>,
    ) -> Result<Node, NoMemory>
        requires { 0 < nodes }
        ensures { IfOk result (λ s. s ≡ fresh_node nodes number ready) }
    {
        let net = Queues::new(alloc, nodes)?;
        let su = Su::new(alloc, number, nodes)?;
        Ok(Node {
            eu: Eu::new(alloc, number, nodes)?,
            su,
            ready,
            events: Queue::new(alloc),
            net,
        })
    }

    fn run_ready(&mut self, alloc: Global, code: &Code) -> Result<(), Fail<NotEnabled>>
        ensures { Stepped (step.acts code.now EuReady 0 0 self.old) self.old result self.new }
    {
        if self.eu.trap().is_some() {
            return Err(Fail::Refused(NotEnabled));
        }
        match self.ready.pop() {
            None => Err(Fail::Refused(NotEnabled)),
            Some(x) => {
                self.eu.entry(alloc, code, x)?;
                Ok(())
            }
        }
    }

    fn run_spawned(&mut self, alloc: Global, code: &Code) -> Result<(), Fail<NotEnabled>>
        ensures { Stepped (step.acts code.now EuSpawn 0 0 self.old) self.old result self.new }
    {
        if self.eu.trap().is_some() || !self.eu.waiting() {
            return Err(Fail::Refused(NotEnabled));
        }
        self.eu.spawned(alloc, code)?;
        Ok(())
    }

    fn put_event(&mut self) -> Result<(), Fail<NotEnabled>>
        ensures { Stepped (step.eu_event (taken self.old.eu.outbox) self.old) self.old result self.new }
    {
        match self.eu.take_out() {
            None => Err(Fail::Refused(NotEnabled)),
            Some(x) => Ok(self.events.push(x)?),
        }
    }

    fn take_event(&mut self, alloc: Global, pick: u64) -> Result<(), Fail<NotEnabled>>
        requires { self.old.su.handled < 2 ^ 32 }
        ensures { Stepped (step.su_event pick (taken self.old.events) self.old) self.old result self.new }
    {
        if pick >= self.picks(Act::SuEvent, 0) {
            return Err(Fail::Refused(NotEnabled));
        }
        match self.events.pop() {
            None => Err(Fail::Refused(NotEnabled)),
            Some(x) => {
                self.su.handle(alloc, x, pick)?;
                Ok(())
            }
        }
    }

    fn take_net(&mut self, alloc: Global, peer: u32, pick: u64) -> Result<(), Fail<NotEnabled>>
        requires { self.old.su.handled < 2 ^ 32 }
        ensures { Stepped (step.su_net pick (taken_at peer self.old.net) self.old) self.old result self.new }
    {
        if pick >= self.picks(Act::SuNet, peer) {
            return Err(Fail::Refused(NotEnabled));
        }
        match self.net.take(peer as usize) {
            None => Err(Fail::Refused(NotEnabled)),
            Some(x) => {
                self.su.handle(alloc, x, pick)?;
                Ok(())
            }
        }
    }

    fn put_ready(&mut self) -> Result<(), Fail<NotEnabled>>
        ensures { Stepped (step.su_ready (taken self.old.su.ready) self.old) self.old result self.new }
    {
        match self.su.take_ready() {
            None => Err(Fail::Refused(NotEnabled)),
            Some(x) => Ok(self.ready.push(x)?),
        }
    }

    /// One act of this node alone. After want of memory the node may hold a part of it.
    pub fn act(&mut self, alloc: Global, code: &Code, c: Choice) -> Result<(), Fail<NotEnabled>>
        requires { self.old.su.handled < 2 ^ 32 }
        ensures { Stepped (step.acts code.now c.act c.peer c.pick self.old) self.old result self.new }
    {
        match c.act {
            Act::EuReady => self.run_ready(alloc, code),
            Act::EuSpawn => self.run_spawned(alloc, code),
            Act::EuEvent => self.put_event(),
            Act::EuHungry => Err(Fail::Refused(NotEnabled)),
            Act::SuEvent => self.take_event(alloc, c.pick),
            Act::SuNet => self.take_net(alloc, c.peer, c.pick),
            Act::SuReady => self.put_ready(),
            Act::SuSend => Err(Fail::Refused(NotEnabled)),
        }
    }

    /// How many picks an act leaves open.
    pub fn picks(&self, act: Act, peer: u32) -> u64
        ensures { result ≡ step.picks act peer self.now }
    {
        match act {
            Act::SuEvent => self.candidates(&self.events),
            Act::SuNet => match self.net.queue(peer as usize) {
                None => 1,
                Some(messages) => self.candidates(messages),
            },
            _ => 1,
        }
    }

    /// How many picks the oldest of these messages leaves open, and 1 where there is none.
    fn candidates(&self, messages: &Queue<Message>) -> u64
        ensures { result ≡ step.candidates_of messages.now self.now.su }
    {
        match messages.first() {
            None => 1,
            Some(m) => self.su.candidates(m),
        }
    }

    /// Whether there is what an act takes or moves.
    pub fn offers(&self, act: Act, peer: u32) -> bool
        ensures { result ≡ step.offers act peer self.now }
    {
        match act {
            Act::EuReady => self.eu.trap().is_none() && self.ready.has_some(),
            Act::EuSpawn => self.eu.trap().is_none() && self.eu.waiting(),
            Act::EuEvent => self.eu.has_out(),
            Act::EuHungry => false,
            Act::SuEvent => self.events.has_some(),
            Act::SuNet => self.net.has_some(peer as usize),
            Act::SuReady => self.su.has_ready(),
            Act::SuSend => self.su.has_peer(peer),
        }
    }

    /// How many messages the ring from a peer holds.
    pub fn net_held(&self, from: u32) -> usize
        ensures { result ≡ queue_held (slice_get self.now.net from) }
    {
        match self.net.queue(from as usize) {
            None => 0,
            Some(messages) => messages.count(),
        }
    }
}
