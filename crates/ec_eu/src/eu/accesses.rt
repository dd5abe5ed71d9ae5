//! Instructions on blocks.
ghost use Rattle.std.specs.Prelude.{◌≡◌, Some, None, IfOk, OnOk};
ghost use Rattle.ec_code.specs.declared.message.Entry.TheVariants as e;
ghost use Rattle.ec_code.specs.declared.message.Message.TheVariants as m;
ghost use Rattle.ec_eu.specs.Instructions as instructions;
ghost use Rattle.ec_eu.specs.State.{says};

use crate::eu::Eu;
use crate::eu::numbers::trapping;
use crate::state::Next;
use ec_base::{Block, MAX_BLOCK, NoMemory, Span, TrapKind, Value};
use ec_code::{Back, Entry, Message};
use std::alloc::Global;

/// A cell of an element: the element's index and size, and the cell in it.
#[derive(Clone, Copy)]
pub(crate) struct Spot {
    pub index: i64,
    pub size: u32,
    pub off: i64,
}

/// Whether a block may have so many elements of this size.
fn is_count(size: u32, count: i64) -> bool
    ensures { result ≡ instructions.is_count size count }
{
    count > 0 && count.unsigned_abs() as u128 * size as u128 <= MAX_BLOCK as u128
}

impl Eu {
    /// Makes a block of so many elements, and sets a cell to its pointer.
    pub(crate) fn allocate(
        &mut self,
        alloc: Global,
        n: u64,
        d: u32,
        count: i64,
        size: u32,
        nils: u64,
        at: Span,
    ) -> Result<Next, NoMemory>
        ensures { IfOk result (λ next. (self.new, next) ≡ instructions.allocates n d count size nils at self.old) }
    {
        if !is_count(size, count) {
            return Ok(trapping(TrapKind::BadSize, at));
        }
        let node = self.memory.number();
        let count = count.unsigned_abs();
        let number = self.memory.make_block(alloc, n, count, size, nils)?;
        self.put(n, d, Value::Ptr(Block { node, number }));
        Ok(Next::On)
    }

    /// What a block of the own node holds; none of another node's.
    fn loaded(&self, block: Block, spot: Spot) -> Option<Value>
        ensures { result ≡ instructions.loaded block spot.index spot.size spot.off self.now }
    {
        if block.node != self.memory.number() {
            return None;
        }
        self.memory
            .load(block.number, spot.index, spot.size, spot.off)
    }

    /// Sets a cell to what a block of the own node holds.
    pub(crate) fn load(&mut self, n: u64, d: u32, p: Option<Block>, spot: Spot, at: Span) -> Next
        ensures { (self.new, result) ≡ instructions.loads n d p spot.index spot.size spot.off at self.old }
    {
        let Some(block) = p else {
            return trapping(TrapKind::Null, at);
        };
        match self.loaded(block, spot) {
            None => trapping(TrapKind::Bounds, at),
            Some(value) => {
                self.put(n, d, value);
                Next::On
            }
        }
    }

    /// Sets what a block of the own node holds; none of another node's.
    pub(crate) fn store(&mut self, p: Option<Block>, spot: Spot, value: Value, at: Span) -> Next
        ensures { (self.new, result) ≡ instructions.stores p spot.index spot.size spot.off value at self.old }
    {
        let Some(block) = p else {
            return trapping(TrapKind::Null, at);
        };
        if block.node != self.memory.number() {
            return trapping(TrapKind::Bounds, at);
        }
        match self
            .memory
            .store(block.number, spot.index, spot.size, spot.off, value)
        {
            None => trapping(TrapKind::Bounds, at),
            Some(()) => Next::On,
        }
    }

    /// Where the answer to what a frame asks for goes.
    pub(crate) fn back(&self, n: u64, cell: Option<u32>, slot: u32) -> Back
        ensures { result ≡ instructions.back_to n cell slot self.now }
    {
        Back {
            node: self.memory.number(),
            frame: n,
            cell,
            slot,
        }
    }

    /// Work for a node, after which the next instruction comes.
    fn ask(&mut self, node: u32, entry: Entry) -> Result<Next, NoMemory>
        ensures { IfOk result (λ next. (self.new, next) ≡ instructions.on (says (m.Work node entry) self.old)) }
    {
        self.say(Message::Work { node, entry })?;
        Ok(Next::On)
    }

    /// Asks for what a block holds.
    pub(crate) fn ask_load(
        &mut self,
        p: Option<Block>,
        spot: Spot,
        at: Span,
        back: Back,
    ) -> Result<Next, NoMemory>
        ensures { IfOk result (λ next. (self.new, next) ≡ instructions.asks p at (λ q. e.Load q spot.index spot.size spot.off at back) self.old) }
    {
        let Some(block) = p else {
            return Ok(trapping(TrapKind::Null, at));
        };
        self.ask(
            block.node,
            Entry::Load {
                block,
                index: spot.index,
                size: spot.size,
                off: spot.off,
                at,
                back,
            },
        )
    }

    /// Asks that a block hold a value.
    pub(crate) fn ask_store(
        &mut self,
        p: Option<Block>,
        spot: Spot,
        value: Value,
        at: Span,
        back: Back,
    ) -> Result<Next, NoMemory>
        ensures { IfOk result (λ next. (self.new, next) ≡ instructions.asks p at (λ q. e.Store q spot.index spot.size spot.off value at back) self.old) }
    {
        let Some(block) = p else {
            return Ok(trapping(TrapKind::Null, at));
        };
        self.ask(
            block.node,
            Entry::Store {
                block,
                index: spot.index,
                size: spot.size,
                off: spot.off,
                value,
                at,
                back,
            },
        )
    }

    /// Asks that a number be added to a block's first cell.
    pub(crate) fn ask_add(
        &mut self,
        p: Option<Block>,
        value: Value,
        at: Span,
        back: Back,
    ) -> Result<Next, NoMemory>
        ensures { IfOk result (λ next. (self.new, next) ≡ instructions.asks p at (λ q. e.Add q value at back) self.old) }
    {
        let Some(block) = p else {
            return Ok(trapping(TrapKind::Null, at));
        };
        self.ask(
            block.node,
            Entry::Add {
                block,
                value,
                at,
                back,
            },
        )
    }
}
