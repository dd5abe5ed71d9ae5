//! Types and how variables are declared.
ghost use Rattle.std.specs.Prelude.{◌≡◌, ◌≤◌, ◌<◌, length, OnOk};
ghost use Rattle.ec_base.specs.declared.token.Mark.TheVariants as m;
ghost use Rattle.ec_syntax.specs.Descent.Tokens.{struct_base, base, variable_base, mode, mark, sign, stars, type_with, pointer_with};
ghost use Rattle.ec_reader.specs.Answers.{Told};

use crate::cursor::Cursor;
use ec_base::{Fail, Mark};
use ec_syntax::{Base, Fault, Mode, Ty};
use std::alloc::Global;

impl<'a> Cursor<'a> {
    /// Reads a struct's base.
    pub(crate) fn struct_base(&mut self, alloc: Global) -> Result<Base, Fail<Fault>>
        ensures answer { Told (struct_base self.old) result self.new }
        ensures takes { OnOk result (length self.new.left < length self.old.left) }
        ensures stays { length self.new.left ≤ length self.old.left }
    {
        self.word(b"struct")?;
        let name = self.name(alloc)?;
        Ok(Base::Struct(name))
    }

    /// Reads the base of a type.
    pub(crate) fn base(&mut self, alloc: Global) -> Result<Base, Fail<Fault>>
        ensures answer { Told (base self.old) result self.new }
        ensures takes { OnOk result (length self.new.left < length self.old.left) }
        ensures stays { length self.new.left ≤ length self.old.left }
    {
        if self.is_word(b"int") {
            self.word(b"int")?;
            Ok(Base::Int)
        } else if self.is_word(b"void") {
            self.word(b"void")?;
            Ok(Base::Void)
        } else {
            self.struct_base(alloc)
        }
    }

    /// Reads the stars of a type inside a part, where so many have been read.
    #[tactic(auto, using(crate::proofs::Loops::Turns::going_more))]
    pub(crate) fn signed_stars(&mut self, before: u32) -> Result<u32, Fail<Fault>>
        requires { before ≤ 1 }
        ensures answer { Told (stars (sign m.Star) before self.old) result self.new }
        ensures stays { length self.new.left ≤ length self.old.left }
    {
        let mut stars = before;
        while self.is_mark(Mark::Star) {
            self.sign(Mark::Star)?;
            stars += 1;
        }
        Ok(stars)
    }

    /// Reads a type inside a part.
    pub(crate) fn signed_type(&mut self, alloc: Global) -> Result<Ty, Fail<Fault>>
        ensures answer { Told (type_with (sign m.Star) self.old) result self.new }
        ensures stays { length self.new.left ≤ length self.old.left }
    {
        let base = self.base(alloc)?;
        let stars = self.signed_stars(0)?;
        Ok(Ty { base, stars })
    }

    /// Reads a type that is a pointer, inside a part.
    pub(crate) fn signed_pointer(&mut self, alloc: Global) -> Result<Ty, Fail<Fault>>
        ensures answer { Told (pointer_with (sign m.Star) self.old) result self.new }
        ensures stays { length self.new.left ≤ length self.old.left }
    {
        let base = self.base(alloc)?;
        self.sign(Mark::Star)?;
        let stars = self.signed_stars(1)?;
        Ok(Ty { base, stars })
    }

    /// Reads the base of a variable.
    pub(crate) fn variable_base(&mut self, alloc: Global) -> Result<Base, Fail<Fault>>
        ensures answer { Told (variable_base self.old) result self.new }
        ensures takes { OnOk result (length self.new.left < length self.old.left) }
        ensures stays { length self.new.left ≤ length self.old.left }
    {
        if self.is_word(b"int") {
            self.word(b"int")?;
            Ok(Base::Int)
        } else {
            self.struct_base(alloc)
        }
    }

    /// Reads the stars of a declaration.
    #[tactic(auto, using(crate::proofs::Loops::Turns::going_more))]
    pub(crate) fn stars(&mut self) -> Result<u32, Fail<Fault>>
        ensures answer { Told (stars (mark m.Star) 0 self.old) result self.new }
        ensures stays { length self.new.left ≤ length self.old.left }
    {
        let mut stars = 0;
        while self.is_mark(Mark::Star) {
            self.mark(Mark::Star)?;
            stars += 1;
        }
        Ok(stars)
    }

    /// Reads how a variable or parameter is declared.
    pub(crate) fn mode(&mut self) -> Result<Mode, Fail<Fault>>
        ensures answer { Told (mode self.old) result self.new }
        ensures stays { length self.new.left ≤ length self.old.left }
    {
        if self.is_word(b"local") {
            self.word(b"local")?;
            Ok(Mode::Local)
        } else if self.is_word(b"shared") {
            self.word(b"shared")?;
            Ok(Mode::Shared)
        } else {
            Ok(Mode::Plain)
        }
    }
}
