//! What stands in parentheses behind the word of a statement, and the declarations before others. Headers are boxed until their
//! statement is made, so that only one value is let go of where reading fails.
ghost use Rattle.std.specs.Prelude.{◌≤◌, ◌<◌, [], length, OnOk};
ghost use Rattle.ec_syntax.specs.Descent.Reader.{inside, turns, part};
ghost use Rattle.ec_syntax.specs.Descent.Tokens.{begins_expr, begins_declaration};
ghost use Rattle.ec_syntax.specs.Descent.Expressions.{expr};
ghost use Rattle.ec_syntax.specs.Descent.Statements.{assignment, declaration, header, optional, begins_for, for_head, forall_head};
ghost use Rattle.ec_reader.specs.Answers.{Told, ToldBy};
ghost use Rattle.ec_reader.specs.Sentences.{for_makes, forall_makes};

use crate::cursor::Cursor;
use crate::nested::too_deep;
use ec_base::{Boxed, Fail, List, Mark};
use ec_syntax::{Assign, Decl, Expr, Fault};
use std::alloc::Global;

/// What stands between the parentheses of a `for`.
#[derive(Drop)]
pub(crate) struct ForHeader {
    pub(crate) first: Option<Boxed<Assign>>,
    pub(crate) test: Option<Boxed<Expr>>,
    pub(crate) step: Option<Boxed<Assign>>,
}

/// What stands between the parentheses of a `forall`.
#[derive(Drop)]
pub(crate) struct ForallHeader {
    pub(crate) first: Boxed<Assign>,
    pub(crate) test: Boxed<Expr>,
    pub(crate) step: Boxed<Assign>,
}

impl<'a> Cursor<'a> {
    /// Reads declarations.
    #[tactic(auto, using(crate::proofs::Loops::Turns::going_more))]
    pub(crate) fn declarations(
        &mut self,
        alloc: Global,
        room: u32,
    ) -> Result<List<Decl>, Fail<Fault>>
        ensures answer { Told (turns begins_declaration (declaration (expr room)) [] self.old) result self.new }
        ensures stays { length self.new.left ≤ length self.old.left }
    {
        let mut all = List::new(alloc);
        while self.begins_declaration() {
            all = self.declaration(alloc, room, all)?;
        }
        Ok(all)
    }

    /// Reads a condition one deeper.
    #[tactic(auto, using(crate::proofs::Parts::Rooms::inside_some, crate::proofs::Parts::Rooms::inside_none))]
    fn nested_condition(&mut self, alloc: Global, room: u32) -> Result<Boxed<Expr>, Fail<Fault>>
        ensures answer { Told (inside room begins_expr (part (expr room)) self.old) result self.new }
        ensures stays { length self.new.left ≤ length self.old.left }
    {
        if room == 0 {
            return Err(Fail::Refused(too_deep(self.begins_expr())));
        }
        self.begin_part();
        self.expression(alloc, room)
    }

    /// Reads a condition in parentheses.
    pub(crate) fn condition(&mut self, alloc: Global, room: u32) -> Result<Boxed<Expr>, Fail<Fault>>
        ensures answer { Told (header room begins_expr (part (expr room)) self.old) result self.new }
        ensures stays { length self.new.left ≤ length self.old.left }
    {
        self.mark(Mark::OpenParen)?;
        let test = self.nested_condition(alloc, room)?;
        self.mark(Mark::CloseParen)?;
        Ok(test)
    }

    /// Reads an assignment of a `for`'s header, where one stands.
    fn optional_assignment(
        &mut self,
        alloc: Global,
        room: u32,
    ) -> Result<Option<Boxed<Assign>>, Fail<Fault>>
        ensures answer { Told (optional (assignment room) self.old) result self.new }
        ensures stays { length self.new.left ≤ length self.old.left }
    {
        if !self.begins_expr() {
            return Ok(None);
        }
        self.begin_part();
        let set = self.assignment(alloc, room)?;
        Ok(Some(set))
    }

    /// Reads the condition of a `for`'s header, where one stands.
    fn optional_expression(
        &mut self,
        alloc: Global,
        room: u32,
    ) -> Result<Option<Boxed<Expr>>, Fail<Fault>>
        ensures answer { Told (optional (expr room) self.old) result self.new }
        ensures stays { length self.new.left ≤ length self.old.left }
    {
        if !self.begins_expr() {
            return Ok(None);
        }
        self.begin_part();
        let test = self.expression(alloc, room)?;
        Ok(Some(test))
    }

    /// Reads the three parts of a `for`'s header, each of which may be missing.
    fn for_parts(&mut self, alloc: Global, room: u32) -> Result<ForHeader, Fail<Fault>>
        ensures answer { ToldBy for_makes (for_head room self.old) result self.new }
        ensures stays { length self.new.left ≤ length self.old.left }
    {
        let first = self.optional_assignment(alloc, room)?;
        self.mark(Mark::Semicolon)?;
        let test = self.optional_expression(alloc, room)?;
        self.mark(Mark::Semicolon)?;
        let step = self.optional_assignment(alloc, room)?;
        Ok(ForHeader { first, test, step })
    }

    /// Reads the header of a `for`, in its parentheses.
    #[tactic(auto, using(crate::proofs::Parts::Rooms::inside_some, crate::proofs::Parts::Rooms::inside_none))]
    pub(crate) fn for_header(&mut self, alloc: Global, room: u32) -> Result<ForHeader, Fail<Fault>>
        ensures answer { ToldBy for_makes (header room begins_for (for_head room) self.old) result self.new }
        ensures stays { length self.new.left ≤ length self.old.left }
    {
        self.mark(Mark::OpenParen)?;
        if room == 0 {
            return Err(Fail::Refused(too_deep(self.begins_for())));
        }
        let header = self.for_parts(alloc, room)?;
        self.mark(Mark::CloseParen)?;
        Ok(header)
    }

    /// Reads the three parts of a `forall`'s header.
    fn forall_parts(&mut self, alloc: Global, room: u32) -> Result<ForallHeader, Fail<Fault>>
        ensures answer { ToldBy forall_makes (forall_head room self.old) result self.new }
        ensures stays { length self.new.left ≤ length self.old.left }
    {
        self.begin_part();
        let first = self.assignment(alloc, room)?;
        self.mark(Mark::Semicolon)?;
        self.begin_part();
        let test = self.expression(alloc, room)?;
        self.mark(Mark::Semicolon)?;
        self.begin_part();
        let step = self.assignment(alloc, room)?;
        Ok(ForallHeader { first, test, step })
    }

    /// Reads the header of a `forall`, in its parentheses.
    #[tactic(auto, using(crate::proofs::Parts::Rooms::inside_some, crate::proofs::Parts::Rooms::inside_none))]
    pub(crate) fn forall_header(
        &mut self,
        alloc: Global,
        room: u32,
    ) -> Result<ForallHeader, Fail<Fault>>
        ensures answer { ToldBy forall_makes (header room begins_expr (forall_head room) self.old) result self.new }
        ensures stays { length self.new.left ≤ length self.old.left }
    {
        self.mark(Mark::OpenParen)?;
        if room == 0 {
            return Err(Fail::Refused(too_deep(self.begins_expr())));
        }
        let header = self.forall_parts(alloc, room)?;
        self.mark(Mark::CloseParen)?;
        Ok(header)
    }
}
