//! Simple statements. `room` is that for nesting below them.
ghost use Rattle.std.specs.Prelude.{◌≡◌, ◌≤◌, ◌<◌, ◌-◌, suc, [], length, OnOk, IfOk};
ghost use Rattle.ec_base.specs.declared.token.Mark.TheVariants as m;
ghost use Rattle.ec_syntax.specs.declared.quantity.Quantity.TheVariants.{Arguments};
ghost use Rattle.ec_syntax.specs.Grammar.Language.{span};
ghost use Rattle.ec_syntax.specs.Descent.Reader.{inside, turns, kth};
ghost use Rattle.ec_syntax.specs.Grammar.Statements.{statement};
ghost use Rattle.ec_syntax.specs.Grammar.Tokens.{is_mark};
ghost use Rattle.ec_syntax.specs.Descent.Tokens.{begins_expr, is_string};
ghost use Rattle.ec_syntax.specs.Descent.Expressions.{expr};
ghost use Rattle.ec_syntax.specs.Descent.Statements.{argument, pair, printed, returned, simple};
ghost use Rattle.ec_reader.specs.Answers.{Told, ToldBy};
ghost use Rattle.ec_reader.specs.Sentences.{limit_fault, update, update_of, print, print_of, empty_statement, write_statement, add_statement, print_statement, return_with_value, return_statement, assignment_from, action_from, action_statement, return_or_action};

use crate::cursor::Cursor;
use crate::nested::too_deep;
use ec_base::{Boxed, Fail, List, MAX_PRINT_ARGUMENTS, Mark, Text};
use ec_syntax::{Expr, ExprKind, Fault, Quantity, Stmt, StmtKind};
use std::alloc::{AllocError, Global};

/// What stands between the brackets of a `writeto` or an `addto`.
#[derive(Drop)]
pub(crate) struct Update {
    pub(crate) place: Boxed<Expr>,
    pub(crate) value: Boxed<Expr>,
}

/// What stands between the brackets of a `printf`.
#[derive(Drop)]
pub(crate) struct Print {
    pub(crate) format: Text,
    pub(crate) values: List<Expr>,
}

/// Why reading stops at a token that passes this limit, if it may stand there else and there is room for it.
pub(crate) fn limit_fault(may_stand: bool, room: u32, quantity: Quantity) -> Fault
    ensures { result ≡ limit_fault may_stand room quantity }
{
    if !may_stand {
        Fault::Expected
    } else if room == 0 {
        Fault::Passes(Quantity::Nesting)
    } else {
        Fault::Passes(quantity)
    }
}

impl<'a> Cursor<'a> {
    /// A statement of this kind, from this place to the end of the last token that was read.
    pub(crate) fn statement_from(
        &self,
        alloc: Global,
        from: u32,
        kind: StmtKind,
    ) -> Result<Boxed<Stmt>, AllocError>
        ensures { IfOk result (λ s. s ≡ statement kind (span from self.now.end)) }
    {
        let at = self.span_from(from);
        Boxed::new(alloc, Stmt { kind, at })
    }

    /// Reads an empty statement.
    fn empty_statement(&mut self, alloc: Global) -> Result<Boxed<Stmt>, Fail<Fault>>
        ensures answer { Told (empty_statement self.old) result self.new }
        ensures takes { OnOk result (length self.new.left < length self.old.left) }
        ensures stays { length self.new.left ≤ length self.old.left }
    {
        let from = self.begin();
        self.mark(Mark::Semicolon)?;
        Ok(self.statement_from(alloc, from, StmtKind::Empty)?)
    }

    /// Reads the place and the value of a `writeto` or an `addto`, one deeper.
    #[tactic(auto, using(crate::proofs::Parts::Rooms::inside_some, crate::proofs::Parts::Rooms::inside_none))]
    fn place_and_value(&mut self, alloc: Global, room: u32) -> Result<Update, Fail<Fault>>
        ensures answer { ToldBy update_of (inside room begins_expr (pair (expr room)) self.old) result self.new }
        ensures stays { length self.new.left ≤ length self.old.left }
    {
        if room == 0 {
            return Err(Fail::Refused(too_deep(self.begins_expr())));
        }
        let place = self.expression(alloc, room)?;
        self.mark(Mark::Comma)?;
        let value = self.expression(alloc, room)?;
        Ok(Update { place, value })
    }

    /// Reads this word, and behind it a place and a value in brackets.
    fn update(&mut self, alloc: Global, room: u32, text: &[u8]) -> Result<Update, Fail<Fault>>
        ensures answer { ToldBy update_of (update text.now room self.old) result self.new }
        ensures takes { OnOk result (length self.new.left < length self.old.left) }
        ensures stays { length self.new.left ≤ length self.old.left }
    {
        self.word(text)?;
        self.sign(Mark::OpenParen)?;
        let update = self.place_and_value(alloc, room)?;
        self.sign(Mark::CloseParen)?;
        Ok(update)
    }

    /// Reads a `writeto`.
    fn write_statement(&mut self, alloc: Global, room: u32) -> Result<Boxed<Stmt>, Fail<Fault>>
        ensures answer { Told (write_statement room self.old) result self.new }
        ensures takes { OnOk result (length self.new.left < length self.old.left) }
        ensures stays { length self.new.left ≤ length self.old.left }
    {
        let from = self.begin();
        self.begin_part();
        let update = self.update(alloc, room, b"writeto")?;
        let at = self.span_from(from);
        self.mark(Mark::Semicolon)?;
        let Update { place, value } = update;
        let kind = StmtKind::WriteTo(place, value);
        Ok(Boxed::new(alloc, Stmt { kind, at })?)
    }

    /// Reads an `addto`.
    fn add_statement(&mut self, alloc: Global, room: u32) -> Result<Boxed<Stmt>, Fail<Fault>>
        ensures answer { Told (add_statement room self.old) result self.new }
        ensures takes { OnOk result (length self.new.left < length self.old.left) }
        ensures stays { length self.new.left ≤ length self.old.left }
    {
        let from = self.begin();
        self.begin_part();
        let update = self.update(alloc, room, b"addto")?;
        let at = self.span_from(from);
        self.mark(Mark::Semicolon)?;
        let Update { place, value } = update;
        let kind = StmtKind::AddTo(place, value);
        Ok(Boxed::new(alloc, Stmt { kind, at })?)
    }

    /// Reads a value that a `printf` writes, behind so many.
    #[tactic(auto, using(crate::proofs::Parts::Limits::kth_within, crate::proofs::Parts::Limits::kth_past))]
    fn next_value(
        &mut self,
        alloc: Global,
        room: u32,
        before: usize,
    ) -> Result<Boxed<Expr>, Fail<Fault>>
        ensures answer { Told (kth Arguments (suc before) begins_expr room (expr room) self.old) result self.new }
        ensures takes { OnOk result (length self.new.left < length self.old.left) }
        ensures stays { length self.new.left ≤ length self.old.left }
    {
        if before >= MAX_PRINT_ARGUMENTS as usize {
            let fault = limit_fault(self.begins_expr(), room, Quantity::Arguments);
            return Err(Fail::Refused(fault));
        }
        self.expression(alloc, room)
    }

    /// Reads one more value behind these.
    fn another_value(
        &mut self,
        alloc: Global,
        room: u32,
        before: List<Expr>,
    ) -> Result<List<Expr>, Fail<Fault>>
        ensures answer { Told (argument room before self.old) result self.new }
        ensures takes { OnOk result (length self.new.left < length self.old.left) }
        ensures stays { length self.new.left ≤ length self.old.left }
    {
        let mut all = before;
        self.mark(Mark::Comma)?;
        let next = self.next_value(alloc, room, all.len())?;
        all.push(next.into_inner())?;
        Ok(all)
    }

    /// Reads the values that a `printf` writes, each behind a comma.
    #[tactic(auto, using(crate::proofs::Loops::Turns::going_more))]
    fn printed_values(&mut self, alloc: Global, room: u32) -> Result<List<Expr>, Fail<Fault>>
        ensures answer { Told (turns (is_mark m.Comma) (argument room) [] self.old) result self.new }
        ensures stays { length self.new.left ≤ length self.old.left }
    {
        let mut all = List::new(alloc);
        while self.is_mark(Mark::Comma) {
            all = self.another_value(alloc, room, all)?;
        }
        Ok(all)
    }

    /// Reads the format and the values of a `printf`, one deeper.
    #[tactic(auto, using(crate::proofs::Parts::Rooms::inside_some, crate::proofs::Parts::Rooms::inside_none))]
    fn format_and_values(&mut self, alloc: Global, room: u32) -> Result<Print, Fail<Fault>>
        ensures answer { ToldBy print_of (inside room is_string (printed room) self.old) result self.new }
        ensures stays { length self.new.left ≤ length self.old.left }
    {
        if room == 0 {
            return Err(Fail::Refused(too_deep(self.is_string())));
        }
        let format = self.string(alloc)?;
        let values = self.printed_values(alloc, room)?;
        Ok(Print { format, values })
    }

    /// Reads what stands in the brackets of a `printf`, with the brackets.
    fn print(&mut self, alloc: Global, room: u32) -> Result<Print, Fail<Fault>>
        ensures answer { ToldBy print_of (print room self.old) result self.new }
        ensures takes { OnOk result (length self.new.left < length self.old.left) }
        ensures stays { length self.new.left ≤ length self.old.left }
    {
        self.sign(Mark::OpenParen)?;
        let print = self.format_and_values(alloc, room)?;
        self.sign(Mark::CloseParen)?;
        Ok(print)
    }

    /// Reads a `printf`.
    fn print_statement(&mut self, alloc: Global, room: u32) -> Result<Boxed<Stmt>, Fail<Fault>>
        ensures answer { Told (print_statement room self.old) result self.new }
        ensures takes { OnOk result (length self.new.left < length self.old.left) }
        ensures stays { length self.new.left ≤ length self.old.left }
    {
        let from = self.begin();
        self.begin_part();
        self.word(b"printf")?;
        let Print { format, values } = self.print(alloc, room)?;
        let statement = self.statement_from(alloc, from, StmtKind::Print(format, values))?;
        self.mark(Mark::Semicolon)?;
        Ok(statement)
    }

    /// Reads the value that a function gives, where one stands.
    fn returned_value(
        &mut self,
        alloc: Global,
        room: u32,
    ) -> Result<Option<Boxed<Expr>>, Fail<Fault>>
        ensures answer { Told (returned (expr room) self.old) result self.new }
        ensures stays { length self.new.left ≤ length self.old.left }
    {
        if !self.begins_expr() {
            return Ok(None);
        }
        let value = self.expression(alloc, room)?;
        Ok(Some(value))
    }

    /// Reads a `return` and its value, where so much room is.
    fn return_with_value(
        &mut self,
        alloc: Global,
        room: u32,
    ) -> Result<Option<Boxed<Expr>>, Fail<Fault>>
        ensures answer { Told (return_with_value room self.old) result self.new }
        ensures stays { length self.new.left ≤ length self.old.left }
    {
        self.begin_part();
        self.word(b"return")?;
        self.returned_value(alloc, room)
    }

    /// Reads a `return`, where so much room is.
    fn return_statement(&mut self, alloc: Global, room: u32) -> Result<Boxed<Stmt>, Fail<Fault>>
        ensures answer { Told (return_statement room self.old) result self.new }
        ensures takes { OnOk result (length self.new.left < length self.old.left) }
        ensures stays { length self.new.left ≤ length self.old.left }
    {
        let from = self.begin();
        let value = self.return_with_value(alloc, room)?;
        self.mark(Mark::Semicolon)?;
        Ok(self.statement_from(alloc, from, StmtKind::Return(value))?)
    }

    /// Reads an assignment from its `=`, `++` or `--` on, behind its left side, which begins at this place.
    fn assignment_from(
        &mut self,
        alloc: Global,
        room: u32,
        from: u32,
        left: Boxed<Expr>,
    ) -> Result<Boxed<Stmt>, Fail<Fault>>
        ensures answer { Told (assignment_from room from left self.old) result self.new }
        ensures takes { OnOk result (length self.new.left < length self.old.left) }
        ensures stays { length self.new.left ≤ length self.old.left }
    {
        let assign = self.assignment_to(alloc, room, left)?;
        self.mark(Mark::Semicolon)?;
        Ok(self.statement_from(alloc, from, StmtKind::Set(assign))?)
    }

    /// Reads the rest of a call that stands alone, or of an assignment, behind the call or the left side, which begins at
    /// this place.
    fn action_from(
        &mut self,
        alloc: Global,
        room: u32,
        from: u32,
        left: Boxed<Expr>,
    ) -> Result<Boxed<Stmt>, Fail<Fault>>
        ensures answer { Told (action_from room from left self.old) result self.new }
        ensures takes { OnOk result (length self.new.left < length self.old.left) }
        ensures stays { length self.new.left ≤ length self.old.left }
    {
        if !self.is_mark(Mark::Semicolon) {
            return self.assignment_from(alloc, room, from, left);
        }
        let Expr { kind, at } = left.into_inner();
        match kind {
            ExprKind::Call(call) => {
                self.mark(Mark::Semicolon)?;
                let call = Boxed::new(alloc, call)?;
                Ok(self.statement_from(alloc, from, StmtKind::Eval(call))?)
            },
            kind => {
                let left = Boxed::new(alloc, Expr { kind, at })?;
                self.assignment_from(alloc, room, from, left)
            },
        }
    }

    /// Reads a call that stands alone, or an assignment, where so much room is.
    fn action_statement(&mut self, alloc: Global, room: u32) -> Result<Boxed<Stmt>, Fail<Fault>>
        ensures answer { Told (action_statement room self.old) result self.new }
        ensures takes { OnOk result (length self.new.left < length self.old.left) }
        ensures stays { length self.new.left ≤ length self.old.left }
    {
        let from = self.begin();
        self.begin_part();
        let left = self.unary(alloc, room)?;
        self.action_from(alloc, room, from, left)
    }

    /// Reads a `return`, a call or an assignment, where so much room is.
    fn return_or_action(&mut self, alloc: Global, room: u32) -> Result<Boxed<Stmt>, Fail<Fault>>
        ensures answer { Told (return_or_action room self.old) result self.new }
        ensures takes { OnOk result (length self.new.left < length self.old.left) }
        ensures stays { length self.new.left ≤ length self.old.left }
    {
        if self.is_word(b"return") {
            self.return_statement(alloc, room)
        } else {
            self.action_statement(alloc, room)
        }
    }

    /// Reads a simple statement, where so much room is.
    pub(crate) fn simple_statement(
        &mut self,
        alloc: Global,
        room: u32,
    ) -> Result<Boxed<Stmt>, Fail<Fault>>
        requires { 0 < room }
        ensures answer { Told (simple (room - 1) self.old) result self.new }
        ensures takes { OnOk result (length self.new.left < length self.old.left) }
        ensures stays { length self.new.left ≤ length self.old.left }
    {
        let below = room - 1;
        if self.is_mark(Mark::Semicolon) {
            self.empty_statement(alloc)
        } else if self.is_word(b"writeto") {
            self.write_statement(alloc, below)
        } else if self.is_word(b"addto") {
            self.add_statement(alloc, below)
        } else if self.is_word(b"printf") {
            self.print_statement(alloc, below)
        } else {
            self.return_or_action(alloc, room)
        }
    }
}
