//! The synchronisation unit.
ghost use Rattle.std.specs.Prelude.{◌≡◌, ◌<◌, ◌^◌, Some, is_some, nat_lt, slice_get, IfOk, OnErr, OnOk};
ghost use Rattle.ec_code.specs.declared.message.Message.TheVariants.{Init, Sync, Work};
ghost use Rattle.ec_queue.specs.Queues.{TookOldest, has_some, has_some_in, taken, taken_at};
ghost use Rattle.ec_slots.specs.Slots.{filled_by, fillings_of, incremented, slot_of, synced, without};
ghost use Rattle.ec_su.specs.Handle as handle;
ghost use Rattle.ec_su.specs.Handle.{Carries};
ghost use Rattle.ec_su.specs.Room.{HasRoom};

use ec_base::NoMemory;
use ec_code::{Entry, Message};
use ec_queue::{Queue, Queues};
use ec_slots::{Filled, Slots};
use std::alloc::Global;
use std::marker::Model;

/// A synchronisation unit.
#[derive(Drop)]
pub struct Su {
    node: u32,
    slots: Slots,
    ready: Queue<Entry>,
    peers: Queues<Message>,
    handled: u64,
}

impl Model for Su {
    ghost use Rattle.ec_su.specs.Handle.{SyncUnit};
    ghost use Rattle.ec_su.specs.Room.{AllRoomy};

    ghost Value = { SyncUnit };

    ghost view = { λ u. record { node = u.node; slots = u.slots; ready = u.ready; peers = u.peers; handled = u.handled } };

    ghost invariant = { λ u. AllRoomy u.handled u.slots };
}

/// One sync more is to come for a slot, where it is known.
fn increment(slots: &mut Slots, frame: u64, slot: u32)
    requires { HasRoom (slot_of frame slot slots.old) }
    ensures { slots.new ≡ incremented frame slot slots.old }
{
    if slots.known(frame, slot) {
        slots.incr(frame, slot);
    }
}

/// One sync of a slot, where it is known.
fn sync(slots: &mut Slots, frame: u64, slot: u32)
    requires { HasRoom (slot_of frame slot slots.old) }
    ensures { slots.new ≡ synced frame slot slots.old }
{
    if slots.known(frame, slot) {
        slots.sync(frame, slot);
    }
}

impl Su {
    /// The unit of a node of so many. On node 0 slot 0 of frame 0 waits for the result of main.
    pub fn new(alloc: Global, node: u32, nodes: u32) -> Result<Su, NoMemory>
        ensures { IfOk result (λ u. u ≡ handle.new_unit node nodes) }
    {
        let mut slots = Slots::new(alloc);
        if node == 0 {
            slots.init(alloc, 0, 0, 1, 1, 0)?;
        }
        Ok(Su {
            node,
            slots,
            ready: Queue::new(alloc),
            peers: Queues::new(alloc, nodes)?,
            handled: 0,
        })
    }

    /// How many picks a message leaves open; it is handled by one of them, counted from 0.
    pub fn candidates(&self, _m: &Message) -> u64
        ensures { result ≡ handle.candidates _m.now self.now }
    {
        1
    }

    /// How many messages it has handled.
    pub fn handled(&self) -> u64
        ensures { result ≡ self.now.handled }
    {
        self.handled
    }

    /// Whether a message fills a slot, and which one of which frame.
    fn filled(&self, m: &Message) -> Option<(u64, u32)>
        requires { self.now.handled < 2 ^ 32 }
        ensures { result ≡ handle.filled m.now self.now }
    {
        match m {
            Message::Sync { node, frame, slot } => {
                if *node == self.node && self.is_filled(*frame, *slot) {
                    Some((*frame, *slot))
                } else {
                    None
                }
            }
            _ => None,
        }
    }

    /// Whether the next sync fills a slot.
    fn is_filled(&self, frame: u64, slot: u32) -> bool
        requires { self.now.handled < 2 ^ 32 }
        ensures { result ≡ is_some (filled_by (slot_of frame slot self.now.slots)) }
    {
        self.next_filling(frame, slot).is_some()
    }

    /// What the next sync of a slot starts, where that fills it.
    #[tactic(auto, using(crate::proofs::Room::rooms))]
    fn next_filling(&self, frame: u64, slot: u32) -> Option<Filled>
        requires { self.now.handled < 2 ^ 32 }
        ensures { result ≡ filled_by (slot_of frame slot self.now.slots) }
    {
        if !self.slots.known(frame, slot) {
            return None;
        }
        self.slots.next_filling(frame, slot)
    }

    #[tactic(auto, using(crate::proofs::Room::rooms))]
    fn init(
        &mut self,
        alloc: Global,
        frame: u64,
        slot: u32,
        count: u32,
        reset: u32,
        fiber: u32,
    ) -> Result<(), NoMemory>
        requires { self.old.handled < 2 ^ 32 }
        ensures ok { OnOk result (self.new ≡ handle.handle (Init frame slot count reset fiber) self.old) }
        ensures err { OnErr result (self.new ≡ self.old) }
    {
        self.slots.init(alloc, frame, slot, count, reset, fiber)?;
        self.handled += 1;
        Ok(())
    }

    #[tactic(auto, using(crate::proofs::Room::rooms))]
    fn incr(&mut self, frame: u64, slot: u32)
        requires { self.old.handled < 2 ^ 32 }
        ensures { self.new ≡ handle.counted (handle.with_slots (incremented frame slot self.old.slots) self.old) }
    {
        increment(&mut self.slots, frame, slot);
        self.handled += 1;
    }

    /// A sync of an own slot. What it starts is made ready first, so that all is as before where that wants memory.
    #[tactic(auto, using(crate::proofs::Room::rooms))]
    fn sync(&mut self, frame: u64, slot: u32) -> Result<(), NoMemory>
        requires { self.old.handled < 2 ^ 32 }
        ensures ok { OnOk result (self.new ≡ handle.counted (handle.syncs frame slot self.old)) }
        ensures err { OnErr result (self.new ≡ self.old) }
    {
        if let Some(filled) = self.next_filling(frame, slot) {
            self.start(frame, slot, filled)?;
        }
        sync(&mut self.slots, frame, slot);
        self.handled += 1;
        Ok(())
    }

    /// Makes the fiber ready that a filling starts; the root's slot has none.
    fn start(&mut self, frame: u64, slot: u32, filled: Filled) -> Result<(), NoMemory>
        ensures ok { OnOk result (self.new ≡ handle.starts frame slot (Some filled) self.old) }
        ensures err { OnErr result (self.new ≡ self.old) }
    {
        if self.node == 0 && frame == 0 && slot == 0 {
            return Ok(());
        }
        self.ready.push(Entry::Start {
            frame,
            fiber: filled.fiber,
            slot,
            filling: filled.filling,
        })?;
        Ok(())
    }

    #[tactic(auto, using(crate::proofs::Room::rooms))]
    fn work(&mut self, node: u32, entry: Entry) -> Result<(), NoMemory>
        requires { self.old.handled < 2 ^ 32 }
        ensures ok { OnOk result (self.new ≡ handle.counted (handle.goes (Carries node entry) (Work node entry) self.old)) }
        ensures err { OnErr result (self.new ≡ self.old) }
    {
        if node == self.node {
            self.ready.push(entry)?;
        } else {
            self.peers
                .put(node as usize, Message::Work { node, entry })?;
        }
        self.handled += 1;
        Ok(())
    }

    #[tactic(auto, using(crate::proofs::Room::rooms))]
    fn pass_on(&mut self, node: u32, frame: u64, slot: u32) -> Result<(), NoMemory>
        requires { self.old.handled < 2 ^ 32 }
        ensures ok { OnOk result (self.new ≡ handle.counted (handle.to_peer node (Sync node frame slot) self.old)) }
        ensures err { OnErr result (self.new ≡ self.old) }
    {
        self.peers
            .put(node as usize, Message::Sync { node, frame, slot })?;
        self.handled += 1;
        Ok(())
    }

    #[tactic(auto, using(crate::proofs::Room::rooms))]
    fn end_frame(&mut self, alloc: Global, frame: u64)
        requires { self.old.handled < 2 ^ 32 }
        ensures { self.new ≡ handle.counted (handle.with_slots (without frame self.old.slots) self.old) }
    {
        self.slots.end_frame(alloc, frame);
        self.handled += 1;
    }

    fn route(&mut self, alloc: Global, m: Message) -> Result<(), NoMemory>
        requires { self.old.handled < 2 ^ 32 }
        ensures ok { OnOk result (self.new ≡ handle.handle m self.old) }
        ensures err { OnErr result (self.new ≡ self.old) }
    {
        match m {
            Message::Init {
                frame,
                slot,
                count,
                reset,
                fiber,
            } => self.init(alloc, frame, slot, count, reset, fiber),
            Message::Incr { frame, slot } => {
                self.incr(frame, slot);
                Ok(())
            }
            Message::Sync { node, frame, slot } => {
                if node == self.node {
                    self.sync(frame, slot)
                } else {
                    self.pass_on(node, frame, slot)
                }
            }
            Message::Work { node, entry } => self.work(node, entry),
            Message::EndFrame { frame } => {
                self.end_frame(alloc, frame);
                Ok(())
            }
        }
    }

    /// The effect of a message, and the frame and slot that it fills, the root's included. After want of memory the unit is as
    /// before.
    pub fn handle(
        &mut self,
        alloc: Global,
        m: Message,
        _pick: u64,
    ) -> Result<Option<(u64, u32)>, NoMemory>
        requires pick { _pick < handle.candidates m self.old }
        requires few { self.old.handled < 2 ^ 32 }
        ensures filled { IfOk result (λ f. f ≡ handle.filled m self.old) }
        ensures ok { OnOk result (self.new ≡ handle.handle m self.old) }
        ensures err { OnErr result (self.new ≡ self.old) }
    {
        let filled = self.filled(&m);
        self.route(alloc, m)?;
        Ok(filled)
    }

    /// Takes the oldest entry for the execution unit; none where there is none.
    pub fn take_ready(&mut self) -> Option<Entry>
        ensures ready { TookOldest result (taken self.old.ready) self.old.ready self.new.ready }
        ensures rest { self.new ≡ record self.old { ready = self.new.ready } }
    {
        self.ready.pop()
    }

    /// Whether there is an entry for the execution unit.
    pub fn has_ready(&self) -> bool
        ensures { result ≡ has_some self.now.ready }
    {
        self.ready.has_some()
    }

    /// Takes the oldest message for a peer; none where there is none.
    pub fn take_peer(&mut self, peer: u32) -> Option<Message>
        ensures peers { TookOldest result (taken_at peer self.old.peers) self.old.peers self.new.peers }
        ensures rest { self.new ≡ record self.old { peers = self.new.peers } }
    {
        self.peers.take(peer as usize)
    }

    /// Whether there is a message for a peer.
    pub fn has_peer(&self, peer: u32) -> bool
        ensures { result ≡ has_some_in (slice_get self.now.peers peer) }
    {
        self.peers.has_some(peer as usize)
    }

    /// Whether the root's slot has been filled: on node 0, whether main has ended.
    pub fn ended(&self) -> bool
        ensures { result ≡ nat_lt 0 (fillings_of (slot_of 0 0 self.now.slots)) }
    {
        self.slots.fillings(0, 0) > 0
    }
}
