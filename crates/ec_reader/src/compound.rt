//! Statements that hold others. `room` is that for what they hold, but for `statement` and `bare_statement`,
//! which stand where so much room is.
ghost use Rattle.std.specs.Prelude.{◌≡◌, ◌≤◌, ◌<◌, ◌-◌, suc, [], length, OnOk};
ghost use Rattle.ec_syntax.specs.declared.quantity.Quantity.TheVariants.{Branches};
ghost use Rattle.ec_syntax.specs.Descent.Reader.{inside, turns, kth};
ghost use Rattle.ec_syntax.specs.Descent.Tokens.{begins_stmt};
ghost use Rattle.ec_syntax.specs.Descent.Expressions.{expr};
ghost use Rattle.ec_syntax.specs.Descent.Statements.{sequence, contents, begins_contents, braces, branch, otherwise, block, body, bare, stmt};
ghost use Rattle.ec_reader.specs.Answers.{Told};
ghost use Rattle.ec_reader.specs.Sentences.{another_statement, parallel_statement, if_statement, while_statement, for_statement, forall_statement};

use crate::cursor::Cursor;
use crate::header::{ForHeader, ForallHeader};
use crate::nested::too_deep;
use crate::simple::limit_fault;
use ec_base::{Boxed, Fail, List, MAX_BRANCHES, Mark};
use ec_syntax::{Body, Fault, Quantity, Stmt, StmtKind};
use std::alloc::Global;

impl<'a> Cursor<'a> {
    /// Reads a statement.
    #[cycle(statement)]
    #[tactic(auto, using(crate::proofs::Parts::Statements::stmt_none, crate::proofs::Parts::Statements::stmt_some))]
    pub(crate) fn statement(&mut self, alloc: Global, room: u32) -> Result<Boxed<Stmt>, Fail<Fault>>
        ensures answer { Told (stmt room self.old) result self.new }
        ensures takes { OnOk result (length self.new.left < length self.old.left) }
        ensures stays { length self.new.left ≤ length self.old.left }
    {
        if room == 0 {
            return Err(Fail::Refused(too_deep(self.begins_stmt())));
        }
        if self.is_mark(Mark::OpenBrace) {
            self.block(alloc, room - 1)
        } else {
            self.bare_statement(alloc, room)
        }
    }

    /// Reads one more statement behind these.
    #[cycle(statement)]
    fn another_statement(
        &mut self,
        alloc: Global,
        room: u32,
        before: List<Stmt>,
    ) -> Result<List<Stmt>, Fail<Fault>>
        ensures answer { Told (another_statement room before self.old) result self.new }
        ensures takes { OnOk result (length self.new.left < length self.old.left) }
        ensures stays { length self.new.left ≤ length self.old.left }
    {
        let mut all = before;
        let next = self.statement(alloc, room)?;
        all.push(next.into_inner())?;
        Ok(all)
    }

    /// Reads statements.
    #[cycle(statement)]
    #[tactic(auto, using(crate::proofs::Loops::Turns::going_more))]
    fn sequence(&mut self, alloc: Global, room: u32) -> Result<List<Stmt>, Fail<Fault>>
        ensures answer { Told (sequence (stmt room) self.old) result self.new }
        ensures stays { length self.new.left ≤ length self.old.left }
    {
        let mut all = List::new(alloc);
        while self.begins_stmt() {
            all = self.another_statement(alloc, room, all)?;
        }
        Ok(all)
    }

    /// Reads declarations and statements one deeper.
    #[cycle(statement)]
    #[tactic(auto, using(crate::proofs::Parts::Rooms::inside_some, crate::proofs::Parts::Rooms::inside_none))]
    fn contents(&mut self, alloc: Global, room: u32) -> Result<Body, Fail<Fault>>
        ensures answer { Told
            (inside room begins_contents (contents (expr room) (stmt room)) self.old) result self.new }
        ensures stays { length self.new.left ≤ length self.old.left }
    {
        if room == 0 {
            return Err(Fail::Refused(too_deep(self.begins_contents())));
        }
        let decls = self.declarations(alloc, room)?;
        let stmts = self.sequence(alloc, room)?;
        Ok(Body { decls, stmts })
    }

    /// Reads what stands between braces, with the braces.
    #[cycle(statement)]
    pub(crate) fn braces(&mut self, alloc: Global, room: u32) -> Result<Body, Fail<Fault>>
        ensures answer { Told (braces room (expr room) (stmt room) self.old) result self.new }
        ensures takes { OnOk result (length self.new.left < length self.old.left) }
        ensures stays { length self.new.left ≤ length self.old.left }
    {
        self.mark(Mark::OpenBrace)?;
        let body = self.contents(alloc, room)?;
        self.mark(Mark::CloseBrace)?;
        Ok(body)
    }

    /// Reads a statement in braces.
    #[cycle(statement)]
    fn block(&mut self, alloc: Global, room: u32) -> Result<Boxed<Stmt>, Fail<Fault>>
        ensures answer { Told (block room (stmt room) self.old) result self.new }
        ensures takes { OnOk result (length self.new.left < length self.old.left) }
        ensures stays { length self.new.left ≤ length self.old.left }
    {
        let from = self.begin();
        let body = self.braces(alloc, room)?;
        Ok(self.statement_from(alloc, from, StmtKind::Body(body))?)
    }

    /// Reads a branch behind so many.
    #[cycle(statement)]
    #[tactic(auto, using(crate::proofs::Parts::Limits::kth_within, crate::proofs::Parts::Limits::kth_past))]
    fn next_branch(
        &mut self,
        alloc: Global,
        room: u32,
        before: usize,
    ) -> Result<Boxed<Stmt>, Fail<Fault>>
        ensures answer { Told (kth Branches (suc before) begins_stmt room (stmt room) self.old) result self.new }
        ensures takes { OnOk result (length self.new.left < length self.old.left) }
        ensures stays { length self.new.left ≤ length self.old.left }
    {
        if before >= MAX_BRANCHES as usize {
            let fault = limit_fault(self.begins_stmt(), room, Quantity::Branches);
            return Err(Fail::Refused(fault));
        }
        self.statement(alloc, room)
    }

    /// Reads one more branch behind these.
    #[cycle(statement)]
    fn another_branch(
        &mut self,
        alloc: Global,
        room: u32,
        before: List<Stmt>,
    ) -> Result<List<Stmt>, Fail<Fault>>
        ensures answer { Told (branch room (stmt room) before self.old) result self.new }
        ensures takes { OnOk result (length self.new.left < length self.old.left) }
        ensures stays { length self.new.left ≤ length self.old.left }
    {
        let mut all = before;
        let next = self.next_branch(alloc, room, all.len())?;
        all.push(next.into_inner())?;
        Ok(all)
    }

    /// Reads branches.
    #[cycle(statement)]
    #[tactic(auto, using(crate::proofs::Loops::Turns::going_more))]
    fn branches(&mut self, alloc: Global, room: u32) -> Result<List<Stmt>, Fail<Fault>>
        ensures answer { Told (turns begins_stmt (branch room (stmt room)) [] self.old) result self.new }
        ensures stays { length self.new.left ≤ length self.old.left }
    {
        let mut all = List::new(alloc);
        while self.begins_stmt() {
            all = self.another_branch(alloc, room, all)?;
        }
        Ok(all)
    }

    /// Reads a parallel sequence.
    #[cycle(statement)]
    #[tactic(auto, using(crate::proofs::Parts::Rooms::inside_some, crate::proofs::Parts::Rooms::inside_none))]
    fn parallel_statement(&mut self, alloc: Global, room: u32) -> Result<Boxed<Stmt>, Fail<Fault>>
        ensures answer { Told (parallel_statement room self.old) result self.new }
        ensures takes { OnOk result (length self.new.left < length self.old.left) }
        ensures stays { length self.new.left ≤ length self.old.left }
    {
        let from = self.begin();
        self.mark(Mark::OpenPar)?;
        if room == 0 {
            return Err(Fail::Refused(too_deep(self.begins_parallel())));
        }
        let branches = self.branches(alloc, room)?;
        self.mark(Mark::ClosePar)?;
        Ok(self.statement_from(alloc, from, StmtKind::Par(branches))?)
    }

    /// Reads the body of an `if` or a loop.
    #[cycle(statement)]
    fn body(&mut self, alloc: Global, room: u32) -> Result<Boxed<Stmt>, Fail<Fault>>
        ensures answer { Told (body room (stmt room) self.old) result self.new }
        ensures takes { OnOk result (length self.new.left < length self.old.left) }
        ensures stays { length self.new.left ≤ length self.old.left }
    {
        if self.is_mark(Mark::OpenBrace) {
            self.block(alloc, room)
        } else {
            self.statement(alloc, room)
        }
    }

    /// Reads an `else` and what stands behind it, where there is one.
    #[cycle(statement)]
    fn else_branch(&mut self, alloc: Global, room: u32) -> Result<Option<Boxed<Stmt>>, Fail<Fault>>
        ensures answer { Told (otherwise (body room (stmt room)) self.old) result self.new }
        ensures stays { length self.new.left ≤ length self.old.left }
    {
        if !self.is_word(b"else") {
            return Ok(None);
        }
        self.word(b"else")?;
        let body = self.body(alloc, room)?;
        Ok(Some(body))
    }

    /// Reads an `if`.
    #[cycle(statement)]
    fn if_statement(&mut self, alloc: Global, room: u32) -> Result<Boxed<Stmt>, Fail<Fault>>
        ensures answer { Told (if_statement room self.old) result self.new }
        ensures takes { OnOk result (length self.new.left < length self.old.left) }
        ensures stays { length self.new.left ≤ length self.old.left }
    {
        let from = self.begin();
        self.word(b"if")?;
        let test = self.condition(alloc, room)?;
        let then = self.body(alloc, room)?;
        let other = self.else_branch(alloc, room)?;
        let kind = StmtKind::If(test, then, other);
        Ok(self.statement_from(alloc, from, kind)?)
    }

    /// Reads a `while`.
    #[cycle(statement)]
    fn while_statement(&mut self, alloc: Global, room: u32) -> Result<Boxed<Stmt>, Fail<Fault>>
        ensures answer { Told (while_statement room self.old) result self.new }
        ensures takes { OnOk result (length self.new.left < length self.old.left) }
        ensures stays { length self.new.left ≤ length self.old.left }
    {
        let from = self.begin();
        self.word(b"while")?;
        let test = self.condition(alloc, room)?;
        let body = self.body(alloc, room)?;
        let kind = StmtKind::While(test, body);
        Ok(self.statement_from(alloc, from, kind)?)
    }

    /// Reads a `for`.
    #[cycle(statement)]
    fn for_statement(&mut self, alloc: Global, room: u32) -> Result<Boxed<Stmt>, Fail<Fault>>
        ensures answer { Told (for_statement room self.old) result self.new }
        ensures takes { OnOk result (length self.new.left < length self.old.left) }
        ensures stays { length self.new.left ≤ length self.old.left }
    {
        let from = self.begin();
        self.word(b"for")?;
        let header = self.for_header(alloc, room)?;
        let body = self.body(alloc, room)?;
        let ForHeader { first, test, step } = header;
        let kind = StmtKind::For(first, test, step, body);
        Ok(self.statement_from(alloc, from, kind)?)
    }

    /// Reads a `forall`.
    #[cycle(statement)]
    fn forall_statement(&mut self, alloc: Global, room: u32) -> Result<Boxed<Stmt>, Fail<Fault>>
        ensures answer { Told (forall_statement room self.old) result self.new }
        ensures takes { OnOk result (length self.new.left < length self.old.left) }
        ensures stays { length self.new.left ≤ length self.old.left }
    {
        let from = self.begin();
        self.word(b"forall")?;
        let header = self.forall_header(alloc, room)?;
        let body = self.body(alloc, room)?;
        let ForallHeader { first, test, step } = header;
        let kind = StmtKind::Forall(first, test, step, body);
        Ok(self.statement_from(alloc, from, kind)?)
    }

    /// Reads a statement that isn't in braces, where so much room is.
    #[cycle(statement)]
    fn bare_statement(&mut self, alloc: Global, room: u32) -> Result<Boxed<Stmt>, Fail<Fault>>
        requires { 0 < room }
        ensures answer { Told (bare (room - 1) (stmt (room - 1)) self.old) result self.new }
        ensures takes { OnOk result (length self.new.left < length self.old.left) }
        ensures stays { length self.new.left ≤ length self.old.left }
    {
        let below = room - 1;
        if self.is_mark(Mark::OpenPar) {
            self.parallel_statement(alloc, below)
        } else if self.is_word(b"if") {
            self.if_statement(alloc, below)
        } else if self.is_word(b"while") {
            self.while_statement(alloc, below)
        } else if self.is_word(b"for") {
            self.for_statement(alloc, below)
        } else if self.is_word(b"forall") {
            self.forall_statement(alloc, below)
        } else {
            self.simple_statement(alloc, room)
        }
    }
}
