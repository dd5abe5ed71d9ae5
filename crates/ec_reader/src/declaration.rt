//! Declarations of variables.
ghost use Rattle.std.specs.Prelude.{◌≡◌, ◌≤◌, ◌<◌, length, OnOk, IfOk};
ghost use Rattle.ec_syntax.specs.Descent.Expressions.{expr};
ghost use Rattle.ec_syntax.specs.Descent.Statements.{initialiser, declarator, declarators, declaration};
ghost use Rattle.ec_reader.specs.Answers.{Told};
ghost use Rattle.ec_reader.specs.Another.{another_declarator, declaration_on};

use crate::cursor::Cursor;
use ec_base::{Boxed, Fail, List, Mark};
use ec_syntax::{Base, Decl, Expr, Fault, Mode, Name, Ty};
use std::alloc::{AllocError, Global};

/// The same base once more.
pub(crate) fn copy_base(alloc: Global, base: &Base) -> Result<Base, AllocError>
    ensures { IfOk result (λ b. b ≡ base.now) }
{
    match base {
        Base::Void => Ok(Base::Void),
        Base::Int => Ok(Base::Int),
        Base::Struct(name) => Ok(Base::Struct(Name {
            text: name.text.copy(alloc)?,
            at: name.at,
        })),
    }
}

impl<'a> Cursor<'a> {
    /// Reads a variable's first value, where one stands.
    pub(crate) fn initialiser(
        &mut self,
        alloc: Global,
        room: u32,
    ) -> Result<Option<Boxed<Expr>>, Fail<Fault>>
        ensures answer { Told (initialiser (expr room) self.old) result self.new }
        ensures stays { length self.new.left ≤ length self.old.left }
    {
        if !self.is_mark(Mark::Assign) {
            return Ok(None);
        }
        self.mark(Mark::Assign)?;
        self.begin_part();
        let value = self.expression(alloc, room)?;
        Ok(Some(value))
    }

    /// Reads a variable behind the base of its type.
    pub(crate) fn declarator(
        &mut self,
        alloc: Global,
        room: u32,
        mode: Mode,
        base: &Base,
    ) -> Result<Decl, Fail<Fault>>
        ensures answer { Told (declarator (expr room) mode base.now self.old) result self.new }
        ensures takes { OnOk result (length self.new.left < length self.old.left) }
        ensures stays { length self.new.left ≤ length self.old.left }
    {
        let stars = self.stars()?;
        let name = self.variable_name(alloc)?;
        let init = self.initialiser(alloc, room)?;
        let base = copy_base(alloc, base)?;
        Ok(Decl {
            name,
            mode,
            ty: Ty { base, stars },
            init,
        })
    }

    /// Reads one more variable behind these and the base of its type.
    fn another_declarator(
        &mut self,
        alloc: Global,
        room: u32,
        mode: Mode,
        base: &Base,
        before: List<Decl>,
    ) -> Result<List<Decl>, Fail<Fault>>
        ensures answer { Told (another_declarator (expr room) mode base.now before self.old) result self.new }
        ensures takes { OnOk result (length self.new.left < length self.old.left) }
        ensures stays { length self.new.left ≤ length self.old.left }
    {
        let mut all = before;
        self.mark(Mark::Comma)?;
        let next = self.declarator(alloc, room, mode, base)?;
        all.push(next)?;
        Ok(all)
    }

    /// Reads further variables behind the base of their type.
    fn further_variables(
        &mut self,
        alloc: Global,
        room: u32,
        mode: Mode,
        base: &Base,
        before: List<Decl>,
    ) -> Result<List<Decl>, Fail<Fault>>
        ensures answer { Told (declarators (expr room) mode base.now before self.old) result self.new }
        ensures stays { length self.new.left ≤ length self.old.left }
    {
        let mut all = before;
        while self.is_mark(Mark::Comma) {
            all = self.another_declarator(alloc, room, mode, base, all)?;
        }
        Ok(all)
    }

    /// Reads a declaration behind its mode and base, and behind others.
    fn declaration_behind_base(
        &mut self,
        alloc: Global,
        room: u32,
        mode: Mode,
        base: Base,
        before: List<Decl>,
    ) -> Result<List<Decl>, Fail<Fault>>
        ensures answer { Told (declaration_on (expr room) mode base before self.old) result self.new }
        ensures takes { OnOk result (length self.new.left < length self.old.left) }
        ensures stays { length self.new.left ≤ length self.old.left }
    {
        let mut all = before;
        let first = self.declarator(alloc, room, mode, &base)?;
        all.push(first)?;
        let all = self.further_variables(alloc, room, mode, &base, all)?;
        self.mark(Mark::Semicolon)?;
        Ok(all)
    }

    /// Reads a declaration behind others.
    pub(crate) fn declaration(
        &mut self,
        alloc: Global,
        room: u32,
        before: List<Decl>,
    ) -> Result<List<Decl>, Fail<Fault>>
        ensures answer { Told (declaration (expr room) before self.old) result self.new }
        ensures takes { OnOk result (length self.new.left < length self.old.left) }
        ensures stays { length self.new.left ≤ length self.old.left }
    {
        let mode = self.mode()?;
        let base = self.variable_base(alloc)?;
        self.declaration_behind_base(alloc, room, mode, base, before)
    }
}
