//! Whole programs.
ghost use Rattle.std.specs.Prelude.{◌≡◌, ◌≤◌, ◌<◌, [], length, OnOk};
ghost use Rattle.ec_syntax.specs.Descent.Reader.{turns};
ghost use Rattle.ec_syntax.specs.Descent.Items.{begins_item, program};
ghost use Rattle.ec_reader.specs.Answers.{Told};
ghost use Rattle.ec_reader.specs.Another.{another_item};

use crate::cursor::Cursor;
use ec_base::{Fail, List};
use ec_syntax::{Fault, Item, Program};
use std::alloc::Global;

impl<'a> Cursor<'a> {
    /// Reads one more item behind these.
    fn another_item(
        &mut self,
        alloc: Global,
        room: u32,
        before: List<Item>,
    ) -> Result<List<Item>, Fail<Fault>>
        ensures answer { Told (another_item room before self.old) result self.new }
        ensures takes { OnOk result (length self.new.left < length self.old.left) }
        ensures stays { length self.new.left ≤ length self.old.left }
    {
        let mut all = before;
        let next = self.item(alloc, room)?;
        all.push(next)?;
        Ok(all)
    }

    /// Reads the items of a program.
    #[tactic(auto, using(crate::proofs::Loops::Turns::going_more))]
    fn items(&mut self, alloc: Global, room: u32) -> Result<List<Item>, Fail<Fault>>
        ensures answer { Told (turns begins_item (another_item room) [] self.old) result self.new }
        ensures stays { length self.new.left ≤ length self.old.left }
    {
        let mut all = List::new(alloc);
        while self.begins_base() {
            all = self.another_item(alloc, room, all)?;
        }
        Ok(all)
    }

    /// Reads a program and its end.
    pub(crate) fn program(&mut self, alloc: Global, room: u32) -> Result<Program, Fail<Fault>>
        ensures answer { Told (program room self.old) result self.new }
        ensures stays { length self.new.left ≤ length self.old.left }
    {
        let items = self.items(alloc, room)?;
        let end = self.end()?;
        Ok(Program { items, end })
    }
}
