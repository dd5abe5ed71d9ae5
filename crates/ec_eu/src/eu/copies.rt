//! Copies of elements.
ghost use Rattle.std.specs.Prelude.{◌≡◌, IfOk};
ghost use Rattle.ec_eu.specs.Instructions as instructions;

use crate::eu::Eu;
use crate::eu::numbers::trapping;
use crate::state::Next;
use ec_base::{Block, NoMemory, Span, TrapKind};
use ec_code::{Back, Entry, Message};

/// An element: the pointer to its block, its index, and the place of the access.
#[derive(Clone, Copy)]
pub(crate) struct Element {
    pub pointer: Option<Block>,
    pub index: i64,
    pub at: Span,
}

impl Eu {
    /// Asks that an element be copied to another. NULL of the source is looked at before NULL of the target.
    pub(crate) fn ask_copy(
        &mut self,
        source: Element,
        target: Element,
        size: u32,
        back: Back,
    ) -> Result<Next, NoMemory>
        ensures { IfOk result (λ next. (self.new, next) ≡
            instructions.copies source.pointer source.index target.pointer target.index size source.at target.at back self.old) }
    {
        let Some(block) = source.pointer else {
            return Ok(trapping(TrapKind::Null, source.at));
        };
        let Some(to) = target.pointer else {
            return Ok(trapping(TrapKind::Null, target.at));
        };
        self.say(Message::Work {
            node: block.node,
            entry: Entry::CopyOut {
                block,
                index: source.index,
                size,
                to,
                to_index: target.index,
                at: source.at,
                at_to: target.at,
                back,
            },
        })?;
        Ok(Next::On)
    }
}
