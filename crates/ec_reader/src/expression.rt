//! Expressions. `room` is that for nesting below what a method reads, but for `unary` and `expression`, which stand where so much
//! room is.
ghost use Rattle.std.specs.Prelude.{◌≡◌, ◌≤◌, ◌<◌, length, OnOk};
ghost use Rattle.ec_syntax.specs.Descent.Reader.{inside};
ghost use Rattle.ec_syntax.specs.Descent.Tokens.{begins_expr};
ghost use Rattle.ec_syntax.specs.Descent.Expressions.{levels, operation, postfix, selected, primary, unary, expr, expr_of};
ghost use Rattle.ec_reader.specs.Answers.{Told};
ghost use Rattle.ec_reader.specs.Inside.{indexed, prefixed, value};

use crate::cursor::Cursor;
use crate::nested::{join, too_deep};
use ec_base::{Boxed, Fail, Mark};
use ec_syntax::{Expr, ExprKind, Fault};
use std::alloc::Global;

impl<'a> Cursor<'a> {
    /// Reads an operand.
    #[cycle(expression)]
    #[tactic(auto, using(crate::proofs::Parts::Rooms::unary_none))]
    pub(crate) fn unary(&mut self, alloc: Global, room: u32) -> Result<Boxed<Expr>, Fail<Fault>>
        ensures answer { Told (unary room self.old) result self.new }
        ensures takes { OnOk result (length self.new.left < length self.old.left) }
        ensures stays { length self.new.left ≤ length self.old.left }
    {
        if room == 0 {
            return Err(Fail::Refused(too_deep(self.begins_expr())));
        }
        let below = room - 1;
        if self.is_prefix() {
            self.prefixed(alloc, below)
        } else if self.is_mark(Mark::And) {
            self.address(alloc, below)
        } else {
            self.postfix(alloc, below)
        }
    }

    /// Reads an operator before its operand, with the operand.
    #[cycle(expression)]
    fn prefixed(&mut self, alloc: Global, room: u32) -> Result<Boxed<Expr>, Fail<Fault>>
        ensures answer { Told (prefixed room self.old) result self.new }
        ensures takes { OnOk result (length self.new.left < length self.old.left) }
        ensures stays { length self.new.left ≤ length self.old.left }
    {
        let from = self.begin();
        let prefix = self.prefix()?;
        let operand = self.unary(alloc, room)?;
        let kind = prefix.apply(operand);
        Ok(self.made(alloc, from, kind)?)
    }

    /// Reads an operand and what selects parts of it.
    #[cycle(expression)]
    #[tactic(auto, using(crate::proofs::Loops::Turns::going_more))]
    fn postfix(&mut self, alloc: Global, room: u32) -> Result<Boxed<Expr>, Fail<Fault>>
        ensures answer { Told (postfix room (unary room) self.old) result self.new }
        ensures takes { OnOk result (length self.new.left < length self.old.left) }
        ensures stays { length self.new.left ≤ length self.old.left }
    {
        let mut operand = self.primary(alloc, room)?;
        while self.is_selector() {
            operand = self.selected(alloc, room, operand)?;
        }
        Ok(operand)
    }

    /// Reads what selects a part of this operand.
    #[cycle(expression)]
    fn selected(
        &mut self,
        alloc: Global,
        room: u32,
        operand: Boxed<Expr>,
    ) -> Result<Boxed<Expr>, Fail<Fault>>
        ensures answer { Told (selected room (unary room) operand self.old) result self.new }
        ensures takes { OnOk result (length self.new.left < length self.old.left) }
        ensures stays { length self.new.left ≤ length self.old.left }
    {
        if self.is_mark(Mark::OpenBracket) {
            self.indexed(alloc, room, operand)
        } else {
            self.field(alloc, operand)
        }
    }

    /// Reads an index of this operand, in its brackets.
    #[cycle(expression)]
    fn indexed(
        &mut self,
        alloc: Global,
        room: u32,
        operand: Boxed<Expr>,
    ) -> Result<Boxed<Expr>, Fail<Fault>>
        ensures answer { Told (indexed room operand self.old) result self.new }
        ensures takes { OnOk result (length self.new.left < length self.old.left) }
        ensures stays { length self.new.left ≤ length self.old.left }
    {
        let from = operand.get().at.from;
        self.sign(Mark::OpenBracket)?;
        let index = self.nested_expression(alloc, room)?;
        self.sign(Mark::CloseBracket)?;
        Ok(self.made(alloc, from, ExprKind::Index(operand, index))?)
    }

    /// Reads an expression of the operators that bind closer than this level.
    #[cycle(expression)]
    #[tactic(auto, using(crate::proofs::Loops::Turns::going_more, crate::proofs::Parts::Rooms::levels_none))]
    pub(crate) fn level(
        &mut self,
        alloc: Global,
        room: u32,
        level: u32,
    ) -> Result<Boxed<Expr>, Fail<Fault>>
        requires { level ≤ 10 }
        ensures answer { Told (levels level (unary room) self.old) result self.new }
        ensures takes { OnOk result (length self.new.left < length self.old.left) }
        ensures stays { length self.new.left ≤ length self.old.left }
    {
        if level == 0 {
            return self.unary(alloc, room);
        }
        let below = level - 1;
        let mut left = self.level(alloc, room, below)?;
        while self.is_at_level(below) {
            left = self.operation(alloc, room, below, left)?;
        }
        Ok(left)
    }

    /// Reads an operator of this level and its right operand, behind the left one.
    #[cycle(expression)]
    fn operation(
        &mut self,
        alloc: Global,
        room: u32,
        level: u32,
        left: Boxed<Expr>,
    ) -> Result<Boxed<Expr>, Fail<Fault>>
        requires { level ≤ 9 }
        ensures answer { Told (operation level (levels level (unary room)) left self.old) result self.new }
        ensures takes { OnOk result (length self.new.left < length self.old.left) }
        ensures stays { length self.new.left ≤ length self.old.left }
    {
        let operator = self.infix(level)?;
        let right = self.level(alloc, room, level)?;
        let both = join(alloc, operator, left, right)?;
        Ok(both)
    }

    /// Reads an expression one deeper.
    #[cycle(expression)]
    #[tactic(auto, using(crate::proofs::Parts::Rooms::inside_some, crate::proofs::Parts::Rooms::inside_none))]
    fn nested_expression(&mut self, alloc: Global, room: u32) -> Result<Boxed<Expr>, Fail<Fault>>
        ensures answer { Told (inside room begins_expr (expr_of (unary room)) self.old) result self.new }
        ensures takes { OnOk result (length self.new.left < length self.old.left) }
        ensures stays { length self.new.left ≤ length self.old.left }
    {
        if room == 0 {
            return Err(Fail::Refused(too_deep(self.begins_expr())));
        }
        self.level(alloc, room, 10)
    }

    /// Reads what is no operator with an operand.
    #[cycle(expression)]
    fn primary(&mut self, alloc: Global, room: u32) -> Result<Boxed<Expr>, Fail<Fault>>
        ensures answer { Told (primary room (unary room) self.old) result self.new }
        ensures takes { OnOk result (length self.new.left < length self.old.left) }
        ensures stays { length self.new.left ≤ length self.old.left }
    {
        let from = self.begin();
        if self.is_number() {
            let number = self.number()?;
            return Ok(self.made(alloc, from, ExprKind::Number(number))?);
        }
        if self.is_name() {
            return self.name_or_call(alloc, room);
        }
        if self.is_word(b"NULL") {
            self.word(b"NULL")?;
            return Ok(self.made(alloc, from, ExprKind::Null)?);
        }
        if self.is_mark(Mark::OpenParen) {
            let kind = self.parenthesised(alloc, room)?;
            return Ok(self.made(alloc, from, kind)?);
        }
        if self.is_word(b"valueof") {
            self.word(b"valueof")?;
            let value = self.value(alloc, room)?;
            return Ok(self.made(alloc, from, ExprKind::ValueOf(value))?);
        }
        let kind = self.malloc(alloc, room, None)?;
        Ok(self.made(alloc, from, kind)?)
    }

    /// Reads a value in brackets.
    #[cycle(expression)]
    pub(crate) fn value(&mut self, alloc: Global, room: u32) -> Result<Boxed<Expr>, Fail<Fault>>
        ensures answer { Told (value room self.old) result self.new }
        ensures takes { OnOk result (length self.new.left < length self.old.left) }
        ensures stays { length self.new.left ≤ length self.old.left }
    {
        self.sign(Mark::OpenParen)?;
        let value = self.nested_expression(alloc, room)?;
        self.sign(Mark::CloseParen)?;
        Ok(value)
    }

    /// Reads an expression.
    pub(crate) fn expression(
        &mut self,
        alloc: Global,
        room: u32,
    ) -> Result<Boxed<Expr>, Fail<Fault>>
        ensures answer { Told (expr room self.old) result self.new }
        ensures takes { OnOk result (length self.new.left < length self.old.left) }
        ensures stays { length self.new.left ≤ length self.old.left }
    {
        self.level(alloc, room, 10)
    }
}
