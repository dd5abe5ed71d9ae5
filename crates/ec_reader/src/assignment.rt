//! Assignments.
ghost use Rattle.std.specs.Prelude.{◌≡◌, ◌≤◌, ◌<◌, length, OnOk, IfOk};
ghost use Rattle.ec_syntax.specs.Descent.Expressions.{expr};
ghost use Rattle.ec_syntax.specs.Descent.Statements.{stepping_name, stepping, assigned, assignment};
ghost use Rattle.ec_syntax.specs.Grammar.Statements.{stepped};
ghost use Rattle.ec_reader.specs.Answers.{Told};

use crate::cursor::Cursor;
use ec_base::{BinOp, Boxed, Fail, Mark};
use ec_syntax::{Assign, Expr, ExprKind, Fault, Name};
use std::alloc::{AllocError, Global};

/// A variable is set to itself and one, put together by this operator.
fn stepped(alloc: Global, operator: BinOp, name: Name) -> Result<Boxed<Assign>, AllocError>
    ensures { IfOk result (λ a. a ≡ stepped operator name) }
{
    let at = name.at;
    let kind = ExprKind::Var(name.text.copy(alloc)?);
    let before = Boxed::new(alloc, Expr { kind, at })?;
    let kind = ExprKind::Number(1);
    let one = Boxed::new(alloc, Expr { kind, at })?;
    let left = Expr {
        kind: ExprKind::Var(name.text),
        at,
    };
    let kind = ExprKind::Binary(operator, before, one);
    Boxed::new(
        alloc,
        Assign {
            left,
            right: Expr { kind, at },
        },
    )
}

impl<'a> Cursor<'a> {
    /// Reads what steps a variable, behind it.
    fn step_of_name(&mut self, alloc: Global, name: Name) -> Result<Boxed<Assign>, Fail<Fault>>
        ensures answer { Told (stepping_name name self.old) result self.new }
        ensures takes { OnOk result (length self.new.left < length self.old.left) }
        ensures stays { length self.new.left ≤ length self.old.left }
    {
        if self.is_mark(Mark::Increment) {
            self.sign(Mark::Increment)?;
            return Ok(stepped(alloc, BinOp::Add, name)?);
        }
        self.sign(Mark::Decrement)?;
        Ok(stepped(alloc, BinOp::Sub, name)?)
    }

    /// Reads what steps this, if it is a variable.
    fn step_of(&mut self, alloc: Global, left: Boxed<Expr>) -> Result<Boxed<Assign>, Fail<Fault>>
        ensures answer { Told (stepping left self.old) result self.new }
        ensures takes { OnOk result (length self.new.left < length self.old.left) }
        ensures stays { length self.new.left ≤ length self.old.left }
    {
        let Expr { kind, at } = left.into_inner();
        match kind {
            ExprKind::Var(text) => self.step_of_name(alloc, Name { text, at }),
            _ => Err(Fail::Refused(Fault::Expected)),
        }
    }

    /// Reads an assignment behind its left side.
    pub(crate) fn assignment_to(
        &mut self,
        alloc: Global,
        room: u32,
        left: Boxed<Expr>,
    ) -> Result<Boxed<Assign>, Fail<Fault>>
        ensures answer { Told (assigned (expr room) left self.old) result self.new }
        ensures takes { OnOk result (length self.new.left < length self.old.left) }
        ensures stays { length self.new.left ≤ length self.old.left }
    {
        if !self.is_mark(Mark::Assign) {
            return self.step_of(alloc, left);
        }
        self.sign(Mark::Assign)?;
        let right = self.expression(alloc, room)?;
        let set = Assign {
            left: left.into_inner(),
            right: right.into_inner(),
        };
        Ok(Boxed::new(alloc, set)?)
    }

    /// Reads an assignment.
    pub(crate) fn assignment(
        &mut self,
        alloc: Global,
        room: u32,
    ) -> Result<Boxed<Assign>, Fail<Fault>>
        ensures answer { Told (assignment room self.old) result self.new }
        ensures takes { OnOk result (length self.new.left < length self.old.left) }
        ensures stays { length self.new.left ≤ length self.old.left }
    {
        let left = self.unary(alloc, room)?;
        self.assignment_to(alloc, room, left)
    }
}
