//! A node: an execution unit, a synchronisation unit, and the rings that end in them.
ghost use Rattle.std.specs.Prelude.{◌≡◌, IfOk};
ghost use Rattle.ec_core.specs.Step.{acts, offers, Stepped};
ghost use Rattle.ec_core.specs.Run.{fresh_node};

use crate::choice::Act;
use crate::code::Code;
use crate::eu::Eu;
use crate::message::{Entry, Message};
use crate::queue::{Queue, Queues};
use crate::slots::Slots;
use crate::su::Su;
use ec_base::{Fail, NoMemory};
use std::alloc::Global;
use thiserror::Error;

/// The choice isn't enabled.
#[derive(Clone, Copy, Debug, Error)]
#[error("not enabled")]
pub struct NotEnabled;

/// A node: entries for its execution unit, messages for its synchronisation unit, and messages from each peer.
#[derive(Drop)]
pub struct Node {
    pub eu: Eu,
    pub su: Su,
    pub ready: Queue<Entry>,
    pub events: Queue<Message>,
    pub net: Queues<Message>,
}

impl Node {
    /// A node of so many, with these slots and ready entries and nothing else.
    pub fn new(
        alloc: Global,
        nodes: u32,
        slots: Slots,
        ready: Queue<Entry>,
    ) -> Result<Node, NoMemory>
        ensures { IfOk result (λ s. s ≡ fresh_node nodes slots ready) }
    {
        let peers = Queues::new(alloc, nodes)?;
        let net = Queues::new(alloc, nodes)?;
        let eu = Eu::new(alloc)?;
        let su = Su {
            slots,
            ready: Queue::new(alloc),
            peers,
            handled: 0,
        };
        Ok(Node {
            eu,
            su,
            ready,
            events: Queue::new(alloc),
            net,
        })
    }

    /// One act of this node alone. After want of memory the node may hold a part of it.
    pub fn act(
        &mut self,
        alloc: Global,
        code: &Code,
        me: u32,
        act: Act,
        peer: u32,
    ) -> Result<(), Fail<NotEnabled>>
        ensures { Stepped (acts code.now me act peer self.old) self.old result self.new }
    {
        match act {
            Act::EuReady => match self.ready.pop() {
                None => Err(Fail::Refused(NotEnabled)),
                Some(x) => Ok(self.eu.entry(alloc, code, me, x)?),
            },
            Act::EuSpawn => {
                if self.eu.spawned(alloc, code, me)? {
                    Ok(())
                } else {
                    Err(Fail::Refused(NotEnabled))
                }
            }
            Act::EuEvent => match self.eu.take_out() {
                None => Err(Fail::Refused(NotEnabled)),
                Some(x) => Ok(self.events.push(x)?),
            },
            Act::EuHungry => Err(Fail::Refused(NotEnabled)),
            Act::SuEvent => match self.events.pop() {
                None => Err(Fail::Refused(NotEnabled)),
                Some(x) => Ok(self.su.handle(alloc, me, x)?),
            },
            Act::SuNet => match self.net.take(peer as usize) {
                None => Err(Fail::Refused(NotEnabled)),
                Some(x) => Ok(self.su.handle(alloc, me, x)?),
            },
            Act::SuReady => match self.su.ready.pop() {
                None => Err(Fail::Refused(NotEnabled)),
                Some(x) => Ok(self.ready.push(x)?),
            },
            Act::SuSend => Err(Fail::Refused(NotEnabled)),
        }
    }

    /// Whether there is what an act takes or moves.
    pub fn offers(&self, act: Act, peer: u32) -> bool
        ensures { result ≡ offers act peer self.now }
    {
        match act {
            Act::EuReady => self.ready.has_some(),
            Act::EuSpawn => self.eu.has_spawned(),
            Act::EuEvent => self.eu.has_out(),
            Act::EuHungry => false,
            Act::SuEvent => self.events.has_some(),
            Act::SuNet => self.net.has_some(peer as usize),
            Act::SuReady => self.su.ready.has_some(),
            Act::SuSend => self.su.peers.has_some(peer as usize),
        }
    }
}
