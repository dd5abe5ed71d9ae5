//! Names in expressions: variables, and calls with their arguments and placement. `room` is that for nesting below.
ghost use Rattle.std.specs.Prelude.{◌≡◌, ◌≤◌, ◌<◌, length, OnOk};
ghost use Rattle.ec_syntax.specs.Descent.Reader.{inside};
ghost use Rattle.ec_syntax.specs.Descent.Expressions.{begins_arguments, named, called, arguments, place, unary, expr_of};
ghost use Rattle.ec_reader.specs.Answers.{Told};
ghost use Rattle.ec_reader.specs.Inside.{another_argument};

use crate::cursor::Cursor;
use crate::nested::too_deep;
use ec_base::{Boxed, Fail, List, Mark};
use ec_syntax::{Call, Expr, ExprKind, Fault, Name, Placement};
use std::alloc::Global;

impl<'a> Cursor<'a> {
    /// Reads a variable, or a call of a function.
    #[cycle(expression)]
    pub(crate) fn name_or_call(
        &mut self,
        alloc: Global,
        room: u32,
    ) -> Result<Boxed<Expr>, Fail<Fault>>
        ensures answer { Told (named room (expr_of (unary room)) self.old) result self.new }
        ensures takes { OnOk result (length self.new.left < length self.old.left) }
        ensures stays { length self.new.left ≤ length self.old.left }
    {
        let from = self.begin();
        let name = self.name(alloc)?;
        if self.is_mark(Mark::OpenParen) {
            return self.call_from(alloc, room, from, name);
        }
        Ok(self.made(alloc, from, ExprKind::Var(name.text))?)
    }

    /// Reads a call behind its name, from the place where the name begins.
    #[cycle(expression)]
    fn call_from(
        &mut self,
        alloc: Global,
        room: u32,
        from: u32,
        name: Name,
    ) -> Result<Boxed<Expr>, Fail<Fault>>
        ensures answer { Told (called room (expr_of (unary room)) from name self.old) result self.new }
        ensures takes { OnOk result (length self.new.left < length self.old.left) }
        ensures stays { length self.new.left ≤ length self.old.left }
    {
        self.sign(Mark::OpenParen)?;
        let args = self.nested_arguments(alloc, room)?;
        self.sign(Mark::CloseParen)?;
        let place = self.placement(alloc, room)?;
        let at = self.span_from(from);
        let call = Call {
            name,
            args,
            place,
            at,
        };
        Ok(self.made(alloc, from, ExprKind::Call(call))?)
    }

    /// Reads the arguments of a call, one deeper.
    #[cycle(expression)]
    #[tactic(auto, using(crate::proofs::Parts::Rooms::inside_some, crate::proofs::Parts::Rooms::inside_none))]
    fn nested_arguments(&mut self, alloc: Global, room: u32) -> Result<List<Expr>, Fail<Fault>>
        ensures answer { Told
            (inside room begins_arguments (arguments (expr_of (unary room))) self.old) result self.new }
        ensures stays { length self.new.left ≤ length self.old.left }
    {
        if room == 0 {
            return Err(Fail::Refused(too_deep(self.begins_arguments())));
        }
        self.arguments(alloc, room)
    }

    /// Reads the arguments of a call.
    #[cycle(expression)]
    #[tactic(auto, using(crate::proofs::Loops::Turns::going_more))]
    fn arguments(&mut self, alloc: Global, room: u32) -> Result<List<Expr>, Fail<Fault>>
        ensures answer { Told (arguments (expr_of (unary room)) self.old) result self.new }
        ensures stays { length self.new.left ≤ length self.old.left }
    {
        let mut args = List::new(alloc);
        if !self.begins_expr() {
            return Ok(args);
        }
        let first = self.level(alloc, room, 10)?;
        args.push(first.into_inner())?;
        while self.is_mark(Mark::Comma) {
            args = self.another_argument(alloc, room, args)?;
        }
        Ok(args)
    }

    /// Reads one more argument behind these.
    #[cycle(expression)]
    fn another_argument(
        &mut self,
        alloc: Global,
        room: u32,
        before: List<Expr>,
    ) -> Result<List<Expr>, Fail<Fault>>
        ensures answer { Told (another_argument (expr_of (unary room)) before self.old) result self.new }
        ensures takes { OnOk result (length self.new.left < length self.old.left) }
        ensures stays { length self.new.left ≤ length self.old.left }
    {
        let mut args = before;
        self.mark(Mark::Comma)?;
        let next = self.level(alloc, room, 10)?;
        args.push(next.into_inner())?;
        Ok(args)
    }

    /// Reads where a call runs.
    #[cycle(expression)]
    fn placement(&mut self, alloc: Global, room: u32) -> Result<Placement, Fail<Fault>>
        ensures answer { Told (place room (expr_of (unary room)) self.old) result self.new }
        ensures stays { length self.new.left ≤ length self.old.left }
    {
        if !self.is_mark(Mark::At) {
            return Ok(Placement::Here);
        }
        self.sign(Mark::At)?;
        if self.is_word(b"OWNER_OF") {
            self.word(b"OWNER_OF")?;
            let block = self.value(alloc, room)?;
            return Ok(Placement::OwnerOf(block));
        }
        if self.is_word(b"HOME") {
            self.word(b"HOME")?;
            return Ok(Placement::Home);
        }
        if self.is_word(b"NODE") {
            self.word(b"NODE")?;
            let number = self.value(alloc, room)?;
            return Ok(Placement::Node(number));
        }
        self.word(b"ANYWHERE")?;
        Ok(Placement::Anywhere)
    }
}
