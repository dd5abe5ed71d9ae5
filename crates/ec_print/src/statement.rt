//! Declarations and statements.
ghost use Rattle.std.specs.Prelude.{◌≡◌, OnOk, map};
ghost use Rattle.ec_base.specs.declared.token.Mark.TheVariants as m;
ghost use Rattle.ec_print.specs.Phrase.{◌then◌};
ghost use Rattle.ec_print.specs.Sentence as spec;
ghost use Rattle.ec_print.specs.Writing.{condition, parallel, printing, returning, updating, with};

use crate::printer::Printer;
use ec_base::{Boxed, Mark};
use ec_syntax::{Assign, Body, Call, Decl, Expr, Mode, Stmt, StmtKind};
use std::alloc::AllocError;

impl Printer {
    fn mode(&mut self, mode: Mode) -> Result<(), AllocError>
        ensures { OnOk result (self.new ≡ with (spec.mode mode) self.old) }
    {
        match mode {
            Mode::Plain => Ok(()),
            Mode::Local => self.word(b"local"),
            Mode::Shared => self.word(b"shared"),
        }
    }

    /// A parameter, or a variable without its initialiser.
    pub(crate) fn variable(&mut self, d: &Decl) -> Result<(), AllocError>
        ensures { OnOk result (self.new ≡ with (spec.variable d.now) self.old) }
    {
        self.mode(d.mode)?;
        self.ty(&d.ty)?;
        self.word(d.name.text.as_slice())
    }

    fn initialiser(&mut self, e: &Option<Boxed<Expr>>) -> Result<(), AllocError>
        ensures { OnOk result (self.new ≡ with (spec.optional spec.initialiser e.now) self.old) }
    {
        match e {
            None => Ok(()),
            Some(e) => {
                self.mark(Mark::Assign)?;
                self.expression(e.get())
            }
        }
    }

    fn declaration(&mut self, d: &Decl) -> Result<(), AllocError>
        ensures { OnOk result (self.new ≡ with (spec.declaration d.now) self.old) }
    {
        self.variable(d)?;
        self.initialiser(&d.init)?;
        self.mark(Mark::Semicolon)
    }

    fn declarations(&mut self, all: &[Decl]) -> Result<(), AllocError>
        ensures { OnOk result (self.new ≡ with (spec.joined (map spec.declaration all.now)) self.old) }
    {
        for d in all {
            self.declaration(d)?;
        }
        Ok(())
    }

    fn assignment(&mut self, a: &Assign) -> Result<(), AllocError>
        ensures { OnOk result (self.new ≡ with (spec.assignment a.now) self.old) }
    {
        self.expression(&a.left)?;
        self.mark(Mark::Assign)?;
        self.expression(&a.right)
    }

    fn optional_assignment(&mut self, a: &Option<Boxed<Assign>>) -> Result<(), AllocError>
        ensures { OnOk result (self.new ≡ with (spec.optional spec.assignment a.now) self.old) }
    {
        match a {
            None => Ok(()),
            Some(a) => self.assignment(a.get()),
        }
    }

    /// The header of a `for`, whose parts may be missing.
    fn for_header(
        &mut self,
        first: &Option<Boxed<Assign>>,
        test: &Option<Boxed<Expr>>,
        last: &Option<Boxed<Assign>>,
    ) -> Result<(), AllocError>
        ensures { OnOk result (self.new ≡ with (spec.for_header first.now test.now last.now) self.old) }
    {
        self.mark(Mark::OpenParen)?;
        self.optional_assignment(first)?;
        self.mark(Mark::Semicolon)?;
        self.optional(test)?;
        self.mark(Mark::Semicolon)?;
        self.optional_assignment(last)?;
        self.mark(Mark::CloseParen)
    }

    /// The header of a `forall`.
    fn forall_header(
        &mut self,
        first: &Assign,
        test: &Expr,
        last: &Assign,
    ) -> Result<(), AllocError>
        ensures { OnOk result (self.new ≡ with (spec.forall_header first.now test.now last.now) self.old) }
    {
        self.mark(Mark::OpenParen)?;
        self.assignment(first)?;
        self.mark(Mark::Semicolon)?;
        self.expression(test)?;
        self.mark(Mark::Semicolon)?;
        self.assignment(last)?;
        self.mark(Mark::CloseParen)
    }

    /// A word, and a condition in parentheses.
    fn condition(&mut self, word: &[u8], test: &Expr) -> Result<(), AllocError>
        ensures { OnOk result (self.new ≡ with (condition word.now test.now) self.old) }
    {
        self.word(word)?;
        self.bracketed(test)
    }

    fn set(&mut self, a: &Assign) -> Result<(), AllocError>
        ensures { OnOk result (self.new ≡ with (spec.assignment a.now then spec.mark m.Semicolon) self.old) }
    {
        self.assignment(a)?;
        self.mark(Mark::Semicolon)
    }

    fn eval(&mut self, call: &Call) -> Result<(), AllocError>
        ensures { OnOk result (self.new ≡ with (spec.call call.now then spec.mark m.Semicolon) self.old) }
    {
        self.call(call)?;
        self.mark(Mark::Semicolon)
    }

    /// A write to a shared variable, or an addition to one, by its word.
    fn update(&mut self, word: &[u8], shared: &Expr, value: &Expr) -> Result<(), AllocError>
        ensures { OnOk result (self.new ≡ with (updating word.now shared.now value.now) self.old) }
    {
        self.word(word)?;
        self.pair(shared, value)?;
        self.mark(Mark::Semicolon)
    }

    fn printf(&mut self, string: &[u8], values: &[Expr]) -> Result<(), AllocError>
        ensures { OnOk result (self.new ≡ with (printing string.now values.now) self.old) }
    {
        self.word(b"printf")?;
        self.mark(Mark::OpenParen)?;
        self.string(string)?;
        self.further_arguments(values)?;
        self.mark(Mark::CloseParen)?;
        self.mark(Mark::Semicolon)
    }

    fn return_statement(&mut self, value: &Option<Boxed<Expr>>) -> Result<(), AllocError>
        ensures { OnOk result (self.new ≡ with (returning value.now) self.old) }
    {
        self.word(b"return")?;
        self.optional(value)?;
        self.mark(Mark::Semicolon)
    }

    #[cycle(statement)]
    fn statement(&mut self, s: &Stmt) -> Result<(), AllocError>
        ensures { OnOk result (self.new ≡ with (spec.statement s.now) self.old) }
    {
        match &s.kind {
            StmtKind::Empty => self.mark(Mark::Semicolon),
            StmtKind::Body(body) => self.body(body),
            StmtKind::Par(branches) => self.parallel(branches.as_slice()),
            StmtKind::If(test, holds, fails) => {
                self.condition(b"if", test.get())?;
                self.statement(holds.get())?;
                match fails {
                    None => Ok(()),
                    Some(fails) => self.otherwise(fails.get()),
                }
            }
            StmtKind::While(test, body) => {
                self.condition(b"while", test.get())?;
                self.statement(body.get())
            }
            StmtKind::For(first, test, last, body) => {
                self.word(b"for")?;
                self.for_header(first, test, last)?;
                self.statement(body.get())
            }
            StmtKind::Forall(first, test, last, body) => {
                self.word(b"forall")?;
                self.forall_header(first.get(), test.get(), last.get())?;
                self.statement(body.get())
            }
            StmtKind::Set(a) => self.set(a.get()),
            StmtKind::Eval(call) => self.eval(call.get()),
            StmtKind::WriteTo(shared, value) => self.update(b"writeto", shared.get(), value.get()),
            StmtKind::AddTo(shared, value) => self.update(b"addto", shared.get(), value.get()),
            StmtKind::Print(string, values) => self.printf(string.as_slice(), values.as_slice()),
            StmtKind::Return(value) => self.return_statement(value),
        }
    }

    /// `else` and a statement.
    #[cycle(statement)]
    fn otherwise(&mut self, s: &Stmt) -> Result<(), AllocError>
        ensures { OnOk result (self.new ≡ with (spec.otherwise (spec.statement s.now)) self.old) }
    {
        self.word(b"else")?;
        self.statement(s)
    }

    /// A parallel sequence.
    #[cycle(statement)]
    fn parallel(&mut self, branches: &[Stmt]) -> Result<(), AllocError>
        ensures { OnOk result (self.new ≡ with (parallel (map spec.statement branches.now)) self.old) }
    {
        self.mark(Mark::OpenPar)?;
        self.statements(branches)?;
        self.mark(Mark::ClosePar)
    }

    #[cycle(statement)]
    fn statements(&mut self, all: &[Stmt]) -> Result<(), AllocError>
        ensures { OnOk result (self.new ≡ with (spec.joined (map spec.statement all.now)) self.old) }
    {
        for s in all {
            self.statement(s)?;
        }
        Ok(())
    }

    #[cycle(statement)]
    pub(crate) fn body(&mut self, b: &Body) -> Result<(), AllocError>
        ensures { OnOk result (self.new ≡ with (spec.body b.now) self.old) }
    {
        self.mark(Mark::OpenBrace)?;
        self.declarations(b.decls.as_slice())?;
        self.statements(b.stmts.as_slice())?;
        self.mark(Mark::CloseBrace)
    }
}
