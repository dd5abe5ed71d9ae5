//! The synchronisation unit: it owns the slots and routes messages.
ghost use Rattle.std.specs.Prelude.{◌≡◌, IsSome, OnErr, OnOk};
ghost use Rattle.ec_core.specs.Handle.{fills, handle, readies, routes, starts, syncs, to_peer, with_slots};
ghost use Rattle.ec_core.specs.Slots.{set_up, slot_of};

use crate::message::{Entry, Message};
use crate::queue::{Queue, Queues};
use crate::slots::{Slot, Slots};
use ec_base::NoMemory;
use std::alloc::Global;

/// A synchronisation unit: its slots, entries for its execution unit, messages for each peer, and how many messages it
/// has handled.
#[derive(Drop)]
pub struct Su {
    pub slots: Slots,
    pub ready: Queue<Entry>,
    pub peers: Queues<Message>,
    pub handled: u64,
}

impl Su {
    fn init(
        &mut self,
        alloc: Global,
        frame: u64,
        slot: u32,
        count: u32,
        reset: u32,
        fiber: u32,
    ) -> Result<(), NoMemory>
        ensures ok { OnOk result (self.new ≡ with_slots (set_up frame slot count reset fiber self.old.slots) self.old) }
        ensures err { OnErr result (self.new ≡ self.old) }
    {
        let fillings = match self.slots.get(frame, slot) {
            Some(x) => x.fillings,
            None => 0,
        };
        self.slots.put(
            alloc,
            frame,
            slot,
            Slot {
                count: count as u64,
                reset,
                fiber: Some(fiber),
                fillings,
            },
        )
    }

    fn to_peer(&mut self, node: u32, message: Message) -> Result<(), NoMemory>
        ensures ok { OnOk result (self.new ≡ to_peer node message self.old) }
        ensures err { OnErr result (self.new ≡ self.old) }
    {
        self.peers.put(node as usize, message)?;
        Ok(())
    }

    fn make_ready(&mut self, entry: Entry) -> Result<(), NoMemory>
        ensures ok { OnOk result (self.new ≡ readies entry self.old) }
        ensures err { OnErr result (self.new ≡ self.old) }
    {
        self.ready.push(entry)?;
        Ok(())
    }

    /// Makes the fiber of a filled slot ready.
    fn start(&mut self, frame: u64, slot: u32, x: Slot) -> Result<(), NoMemory>
        ensures slots { self.new.slots ≡ self.old.slots }
        ensures ok { OnOk result (self.new ≡ starts frame slot x x.fiber self.old) }
        ensures err { OnErr result (self.new ≡ self.old) }
    {
        match x.fiber {
            None => Ok(()),
            Some(fiber) => self.make_ready(Entry::Start {
                frame,
                fiber,
                slot,
                filling: x.fillings,
            }),
        }
    }

    /// Fills a slot, which is known.
    fn fill(&mut self, frame: u64, slot: u32, x: Slot) -> Result<(), NoMemory>
        requires { IsSome (slot_of frame slot self.old.slots) }
        ensures ok { OnOk result (self.new ≡ fills frame slot x self.old) }
        ensures err { OnErr result (self.new ≡ self.old) }
    {
        let filled = Slot {
            count: x.reset as u64,
            fillings: x.fillings.saturating_add(1),
            ..x
        };
        self.start(frame, slot, filled)?;
        self.slots.replace(frame, slot, filled);
        Ok(())
    }

    fn sync(&mut self, frame: u64, slot: u32) -> Result<(), NoMemory>
        ensures ok { OnOk result (self.new ≡ syncs frame slot (slot_of frame slot self.old.slots) self.old) }
        ensures err { OnErr result (self.new ≡ self.old) }
    {
        match self.slots.get(frame, slot) {
            None => Ok(()),
            Some(x) => {
                if x.count > 1 {
                    let less = Slot {
                        count: x.count - 1,
                        ..x
                    };
                    self.slots.replace(frame, slot, less);
                    Ok(())
                } else {
                    self.fill(frame, slot, x)
                }
            }
        }
    }

    fn route(&mut self, alloc: Global, me: u32, message: Message) -> Result<(), NoMemory>
        ensures ok { OnOk result (self.new ≡ routes me message self.old) }
        ensures err { OnErr result (self.new ≡ self.old) }
    {
        match message {
            Message::Init {
                frame,
                slot,
                count,
                reset,
                fiber,
            } => self.init(alloc, frame, slot, count, reset, fiber),
            Message::Sync { node, frame, slot } => {
                if node == me {
                    self.sync(frame, slot)
                } else {
                    self.to_peer(node, Message::Sync { node, frame, slot })
                }
            }
            Message::Work { node, entry } => {
                if node == me {
                    self.make_ready(entry)
                } else {
                    self.to_peer(node, Message::Work { node, entry })
                }
            }
            Message::EndFrame { frame } => {
                self.slots.end_frame(alloc, frame);
                Ok(())
            }
        }
    }

    /// The effect of a message, or nothing where memory is wanted.
    pub fn handle(&mut self, alloc: Global, me: u32, message: Message) -> Result<(), NoMemory>
        ensures ok { OnOk result (self.new ≡ handle me message self.old) }
        ensures err { OnErr result (self.new ≡ self.old) }
    {
        self.route(alloc, me, message)?;
        self.handled = self.handled.saturating_add(1);
        Ok(())
    }
}
