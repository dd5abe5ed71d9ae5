//! Structs, functions and programs.
ghost use Rattle.std.specs.Prelude.{◌≡◌, OnOk, map};
ghost use Rattle.ec_print.specs.Sentence as spec;
ghost use Rattle.ec_print.specs.Writing.{with};

use crate::printer::Printer;
use ec_base::Mark;
use ec_syntax::{Decl, Field, Func, Item, Program, StructDef};
use std::alloc::AllocError;

impl Printer {
    /// The length of a field that is an array.
    fn array_length(&mut self, length: Option<i64>) -> Result<(), AllocError>
        ensures { OnOk result (self.new ≡ with (spec.optional spec.length_of length) self.old) }
    {
        match length {
            None => Ok(()),
            Some(n) => {
                self.mark(Mark::OpenBracket)?;
                self.number(n)?;
                self.mark(Mark::CloseBracket)
            }
        }
    }

    fn field(&mut self, f: &Field) -> Result<(), AllocError>
        ensures { OnOk result (self.new ≡ with (spec.field f.now) self.old) }
    {
        self.ty(&f.ty)?;
        self.word(f.name.text.as_slice())?;
        self.array_length(f.array)?;
        self.mark(Mark::Semicolon)
    }

    fn fields(&mut self, all: &[Field]) -> Result<(), AllocError>
        ensures { OnOk result (self.new ≡ with (spec.joined (map spec.field all.now)) self.old) }
    {
        for f in all {
            self.field(f)?;
        }
        Ok(())
    }

    fn structure(&mut self, s: &StructDef) -> Result<(), AllocError>
        ensures { OnOk result (self.new ≡ with (spec.structure s.now) self.old) }
    {
        self.word(b"struct")?;
        self.word(s.name.text.as_slice())?;
        self.mark(Mark::OpenBrace)?;
        self.fields(s.fields.as_slice())?;
        self.mark(Mark::CloseBrace)?;
        self.mark(Mark::Semicolon)
    }

    /// Parameters with a comma between each two.
    #[tactic(auto, using(crate::proofs::Appending::one_listed))]
    fn parameters(&mut self, all: &[Decl]) -> Result<(), AllocError>
        ensures { OnOk result (self.new ≡ with (spec.listed (map spec.variable all.now)) self.old) }
    {
        for (at, d) in all.iter().enumerate() {
            self.separator(at)?;
            self.variable(d)?;
        }
        Ok(())
    }

    fn function(&mut self, f: &Func) -> Result<(), AllocError>
        ensures { OnOk result (self.new ≡ with (spec.function f.now) self.old) }
    {
        self.ty(&f.result)?;
        self.word(f.name.text.as_slice())?;
        self.mark(Mark::OpenParen)?;
        self.parameters(f.params.as_slice())?;
        self.mark(Mark::CloseParen)?;
        self.body(&f.body)
    }

    fn item(&mut self, i: &Item) -> Result<(), AllocError>
        ensures { OnOk result (self.new ≡ with (spec.item i.now) self.old) }
    {
        match i {
            Item::Struct(s) => self.structure(s),
            Item::Func(f) => self.function(f),
        }
    }

    pub(crate) fn program(&mut self, p: &Program) -> Result<(), AllocError>
        ensures { OnOk result (self.new ≡ with (spec.program p.now) self.old) }
    {
        for i in p.items.as_slice() {
            self.item(i)?;
        }
        Ok(())
    }
}
