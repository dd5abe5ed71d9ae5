//! Structs and functions.
ghost use Rattle.std.specs.Prelude.{◌≡◌, ◌≤◌, ◌<◌, length, OnOk};
ghost use Rattle.ec_syntax.specs.Descent.Reader.{turns};
ghost use Rattle.ec_syntax.specs.Descent.Tokens.{begins_base};
ghost use Rattle.ec_syntax.specs.Descent.Items.{size, field_name, field_names, fields, structure, parameter_on, parameter, further, is_void, parameters_on, parameters, procedure, structured, item};
ghost use Rattle.ec_reader.specs.Answers.{Told};
ghost use Rattle.ec_reader.specs.Another.{another_field, another_parameter};

use crate::cursor::Cursor;
use crate::declaration::copy_base;
use ec_base::{Fail, List, Mark};
use ec_syntax::{Base, Decl, Fault, Field, Func, Item, Mode, Name, StructDef, Ty};
use std::alloc::Global;

/// Whether `void` alone has been read.
fn is_void(mode: Mode, base: &Base) -> bool
    ensures { result ≡ is_void mode base.now }
{
    match (mode, base) {
        (Mode::Plain, Base::Void) => true,
        _ => false,
    }
}

impl<'a> Cursor<'a> {
    /// Reads the length of a field, where it is an array.
    fn array_length(&mut self) -> Result<Option<i64>, Fail<Fault>>
        ensures answer { Told (size self.old) result self.new }
        ensures stays { length self.new.left ≤ length self.old.left }
    {
        if !self.is_mark(Mark::OpenBracket) {
            return Ok(None);
        }
        self.mark(Mark::OpenBracket)?;
        let length = self.number()?;
        self.mark(Mark::CloseBracket)?;
        Ok(Some(length))
    }

    /// Reads a field behind the base of its type.
    fn field_declarator(&mut self, alloc: Global, base: &Base) -> Result<Field, Fail<Fault>>
        ensures answer { Told (field_name base.now self.old) result self.new }
        ensures takes { OnOk result (length self.new.left < length self.old.left) }
        ensures stays { length self.new.left ≤ length self.old.left }
    {
        let stars = self.stars()?;
        let name = self.name(alloc)?;
        let array = self.array_length()?;
        let base = copy_base(alloc, base)?;
        Ok(Field {
            name,
            ty: Ty { base, stars },
            array,
        })
    }

    /// Reads one more field behind these and the base of its type.
    fn another_field(
        &mut self,
        alloc: Global,
        base: &Base,
        before: List<Field>,
    ) -> Result<List<Field>, Fail<Fault>>
        ensures answer { Told (another_field base.now before self.old) result self.new }
        ensures takes { OnOk result (length self.new.left < length self.old.left) }
        ensures stays { length self.new.left ≤ length self.old.left }
    {
        let mut all = before;
        self.mark(Mark::Comma)?;
        let next = self.field_declarator(alloc, base)?;
        all.push(next)?;
        Ok(all)
    }

    /// Reads further fields behind the base of their type.
    #[tactic(auto, using(crate::proofs::Loops::Turns::going_more))]
    fn further_fields(
        &mut self,
        alloc: Global,
        base: &Base,
        before: List<Field>,
    ) -> Result<List<Field>, Fail<Fault>>
        ensures answer { Told (field_names base.now before self.old) result self.new }
        ensures stays { length self.new.left ≤ length self.old.left }
    {
        let mut all = before;
        while self.is_mark(Mark::Comma) {
            all = self.another_field(alloc, base, all)?;
        }
        Ok(all)
    }

    /// Reads fields of one base behind others.
    fn field_declaration(
        &mut self,
        alloc: Global,
        before: List<Field>,
    ) -> Result<List<Field>, Fail<Fault>>
        ensures answer { Told (fields before self.old) result self.new }
        ensures takes { OnOk result (length self.new.left < length self.old.left) }
        ensures stays { length self.new.left ≤ length self.old.left }
    {
        let base = self.base(alloc)?;
        let mut all = before;
        all.push(self.field_declarator(alloc, &base)?)?;
        let all = self.further_fields(alloc, &base, all)?;
        self.mark(Mark::Semicolon)?;
        Ok(all)
    }

    /// Reads all fields of a struct.
    #[tactic(auto, using(crate::proofs::Loops::Turns::going_more))]
    fn field_declarations(
        &mut self,
        alloc: Global,
        first: List<Field>,
    ) -> Result<List<Field>, Fail<Fault>>
        ensures answer { Told (turns begins_base fields first self.old) result self.new }
        ensures stays { length self.new.left ≤ length self.old.left }
    {
        let mut all = first;
        while self.begins_base() {
            all = self.field_declaration(alloc, all)?;
        }
        Ok(all)
    }

    /// Reads a struct behind its name.
    fn struct_definition(&mut self, alloc: Global, name: Name) -> Result<Item, Fail<Fault>>
        ensures answer { Told (structure name self.old) result self.new }
        ensures takes { OnOk result (length self.new.left < length self.old.left) }
        ensures stays { length self.new.left ≤ length self.old.left }
    {
        self.struct_brace()?;
        let first = self.field_declaration(alloc, List::new(alloc))?;
        let fields = self.field_declarations(alloc, first)?;
        self.mark(Mark::CloseBrace)?;
        self.mark(Mark::Semicolon)?;
        Ok(Item::Struct(StructDef { name, fields }))
    }

    /// Reads a parameter behind its mode and base, and behind so many parameters.
    fn parameter_behind_base(
        &mut self,
        alloc: Global,
        before: usize,
        mode: Mode,
        base: Base,
    ) -> Result<Decl, Fail<Fault>>
        ensures answer { Told (parameter_on before mode base self.old) result self.new }
        ensures takes { OnOk result (length self.new.left < length self.old.left) }
        ensures stays { length self.new.left ≤ length self.old.left }
    {
        let stars = self.stars()?;
        let name = self.parameter_name(alloc, before)?;
        Ok(Decl {
            name,
            mode,
            ty: Ty { base, stars },
            init: None,
        })
    }

    /// Reads a parameter behind so many.
    fn parameter(&mut self, alloc: Global, before: usize) -> Result<Decl, Fail<Fault>>
        ensures answer { Told (parameter before self.old) result self.new }
        ensures takes { OnOk result (length self.new.left < length self.old.left) }
        ensures stays { length self.new.left ≤ length self.old.left }
    {
        let mode = self.mode()?;
        let base = self.base(alloc)?;
        self.parameter_behind_base(alloc, before, mode, base)
    }

    /// Reads one more parameter behind these.
    fn another_parameter(
        &mut self,
        alloc: Global,
        before: List<Decl>,
    ) -> Result<List<Decl>, Fail<Fault>>
        ensures answer { Told (another_parameter before self.old) result self.new }
        ensures takes { OnOk result (length self.new.left < length self.old.left) }
        ensures stays { length self.new.left ≤ length self.old.left }
    {
        let mut all = before;
        self.mark(Mark::Comma)?;
        let next = self.parameter(alloc, all.len())?;
        all.push(next)?;
        Ok(all)
    }

    /// Reads further parameters.
    #[tactic(auto, using(crate::proofs::Loops::Turns::going_more))]
    fn further_parameters(
        &mut self,
        alloc: Global,
        before: List<Decl>,
    ) -> Result<List<Decl>, Fail<Fault>>
        ensures answer { Told (further before self.old) result self.new }
        ensures stays { length self.new.left ≤ length self.old.left }
    {
        let mut all = before;
        while self.is_mark(Mark::Comma) {
            all = self.another_parameter(alloc, all)?;
        }
        Ok(all)
    }

    /// Reads parameters behind the mode and the base of the first, which may be `void` alone.
    fn parameters_behind_base(
        &mut self,
        alloc: Global,
        mode: Mode,
        base: Base,
    ) -> Result<List<Decl>, Fail<Fault>>
        ensures answer { Told (parameters_on mode base self.old) result self.new }
        ensures stays { length self.new.left ≤ length self.old.left }
    {
        let mut all = List::new(alloc);
        if is_void(mode, &base) && self.is_mark(Mark::CloseParen) {
            return Ok(all);
        }
        all.push(self.parameter_behind_base(alloc, 0, mode, base)?)?;
        self.further_parameters(alloc, all)
    }

    /// Reads what stands between the parentheses of a function.
    fn parameters(&mut self, alloc: Global) -> Result<List<Decl>, Fail<Fault>>
        ensures answer { Told (parameters self.old) result self.new }
        ensures stays { length self.new.left ≤ length self.old.left }
    {
        if self.is_mark(Mark::CloseParen) {
            return Ok(List::new(alloc));
        }
        let mode = self.mode()?;
        let base = self.base(alloc)?;
        self.parameters_behind_base(alloc, mode, base)
    }

    /// Reads a function behind the base of its result.
    fn function_definition(
        &mut self,
        alloc: Global,
        room: u32,
        base: Base,
    ) -> Result<Item, Fail<Fault>>
        ensures answer { Told (procedure room base self.old) result self.new }
        ensures takes { OnOk result (length self.new.left < length self.old.left) }
        ensures stays { length self.new.left ≤ length self.old.left }
    {
        let stars = self.stars()?;
        let name = self.function_name(alloc)?;
        self.mark(Mark::OpenParen)?;
        let params = self.parameters(alloc)?;
        self.mark(Mark::CloseParen)?;
        let body = self.braces(alloc, room)?;
        Ok(Item::Func(Func {
            name,
            result: Ty { base, stars },
            params,
            body,
        }))
    }

    /// Reads an item behind a struct's name.
    fn struct_or_function(
        &mut self,
        alloc: Global,
        room: u32,
        name: Name,
    ) -> Result<Item, Fail<Fault>>
        ensures answer { Told (structured room name self.old) result self.new }
        ensures takes { OnOk result (length self.new.left < length self.old.left) }
        ensures stays { length self.new.left ≤ length self.old.left }
    {
        if self.is_mark(Mark::OpenBrace) {
            self.struct_definition(alloc, name)
        } else {
            self.function_definition(alloc, room, Base::Struct(name))
        }
    }

    /// Reads a struct or a function.
    pub(crate) fn item(&mut self, alloc: Global, room: u32) -> Result<Item, Fail<Fault>>
        ensures answer { Told (item room self.old) result self.new }
        ensures takes { OnOk result (length self.new.left < length self.old.left) }
        ensures stays { length self.new.left ≤ length self.old.left }
    {
        self.begin_function();
        if self.is_word(b"struct") {
            self.word(b"struct")?;
            let name = self.name(alloc)?;
            self.struct_or_function(alloc, room, name)
        } else {
            let base = self.base(alloc)?;
            self.function_definition(alloc, room, base)
        }
    }
}
