//! The functions and structs of a program, by name.
ghost use Rattle.std.specs.Prelude.{◌≡◌, ◌++◌, [], ◌∷◌, map, filter_map, option_copied, IfOk, OnOk};
ghost use Rattle.ec_calls.specs.Items as declared;
ghost use Rattle.ec_types.specs.Names as names;
ghost use Rattle.ec_types.specs.Places.{place};

use crate::table::NameTable;
use ec_base::Text;
use ec_syntax::{Field, Func, Item, StructDef};
use std::alloc::{AllocError, Global};
use std::marker::Model;

/// Functions in order, by name. Contracts see their list.
#[derive(Drop)]
pub struct Functions<'a> {
    all: Vec<&'a Func>,
    names: NameTable<'a>,
}

impl<'a> Model for Functions<'a> {
    ghost use Rattle.std.specs.Prelude.{◌≡◌, List, map};
    ghost use Rattle.ec_syntax.specs.declared.item.Func.{Func};
    ghost use Rattle.ec_syntax.specs.contracts.item.Func as contract;
    ghost use Rattle.std.specs.Coded.{codes};

    ghost Value = { List Func };

    ghost coded = { Prim.hlevel (codes, contract.the_row.coded) };

    ghost view = { λ t. map (λ f. f.now) t.all.items };

    ghost invariant = { λ t. t.names ≡ map (λ f. f.name.text) (map (λ f. f.now) t.all.items) };
}

impl<'a> Functions<'a> {
    /// The functions of a program.
    pub fn of(alloc: Global, items: &'a [Item]) -> Result<Functions<'a>, AllocError>
        ensures { IfOk result (λ fs. fs ≡ filter_map declared.as_function items.now) }
    {
        let mut functions = Functions {
            all: Vec::new(alloc),
            names: NameTable::new(alloc),
        };
        for item in items {
            match item {
                Item::Func(f) => functions.push(f)?,
                Item::Struct(_) => {}
            }
        }
        Ok(functions)
    }

    fn push(&mut self, f: &'a Func) -> Result<(), AllocError>
        ensures { OnOk result (self.new ≡ self.old ++ f.now ∷ []) }
    {
        self.all.reserve(1)?;
        self.names.push(&f.name.text)?;
        self.all.push(f)?;
        Ok(())
    }

    pub fn all(&self) -> &[&'a Func]
        ensures { map (λ f. f.now) result.now ≡ self.now }
    {
        self.all.as_slice()
    }

    /// Where the first function of this name stands.
    pub fn place(&self, name: &Text) -> Option<usize>
        ensures { result ≡ place (map (λ f. f.name.text) self.now) name.now }
    {
        self.names.place(name)
    }

    /// The first function of this name.
    pub fn named(&self, name: &Text) -> Option<&'a Func>
        ensures { option_copied result ≡ declared.function_named self.now name.now }
    {
        match self.names.place(name) {
            None => None,
            Some(at) => self.all.get(at).copied(),
        }
    }
}

/// A struct, and its fields by name. Contracts see the struct.
#[derive(Drop)]
pub struct Struct<'a> {
    def: &'a StructDef,
    names: NameTable<'a>,
}

impl<'a> Model for Struct<'a> {
    ghost use Rattle.std.specs.Prelude.{◌≡◌, map};
    ghost use Rattle.ec_syntax.specs.declared.item.StructDef.{StructDef};

    ghost Value = { StructDef };

    ghost view = { λ t. t.def.now };

    ghost invariant = { λ t. t.names ≡ map (λ f. f.name.text) t.def.now.fields };
}

impl<'a> Struct<'a> {
    fn of(alloc: Global, def: &'a StructDef) -> Result<Struct<'a>, AllocError>
        ensures { IfOk result (λ s. s ≡ def.now) }
    {
        let mut names = NameTable::new(alloc);
        for f in def.fields.as_slice() {
            names.push(&f.name.text)?;
        }
        Ok(Struct { def, names })
    }

    pub fn def(&self) -> &'a StructDef
        ensures { result.now ≡ self.now }
    {
        self.def
    }

    /// Where the first field of this name stands.
    pub fn place(&self, name: &Text) -> Option<usize>
        ensures { result ≡ place (map (λ f. f.name.text) self.now.fields) name.now }
    {
        self.names.place(name)
    }

    /// The first field of this name.
    pub fn field(&self, name: &Text) -> Option<&'a Field>
        ensures { option_copied result ≡ names.field_named self.now.fields name.now }
    {
        match self.names.place(name) {
            None => None,
            Some(at) => self.def.fields.as_slice().get(at),
        }
    }
}

/// Structs in order, by name. Contracts see their list.
#[derive(Drop)]
pub struct Structs<'a> {
    all: Vec<Struct<'a>>,
    names: NameTable<'a>,
}

impl<'a> Model for Structs<'a> {
    ghost use Rattle.std.specs.Prelude.{◌≡◌, List, map};
    ghost use Rattle.ec_syntax.specs.declared.item.StructDef.{StructDef};

    ghost Value = { List StructDef };

    ghost view = { λ t. t.all.items };

    ghost invariant = { λ t. t.names ≡ map (λ s. s.name.text) t.all.items };
}

impl<'a> Structs<'a> {
    /// The structs of a program.
    pub fn of(alloc: Global, items: &'a [Item]) -> Result<Structs<'a>, AllocError>
        ensures { IfOk result (λ ss. ss ≡ filter_map declared.as_struct items.now) }
    {
        let mut structs = Structs {
            all: Vec::new(alloc),
            names: NameTable::new(alloc),
        };
        for item in items {
            match item {
                Item::Func(_) => {}
                Item::Struct(s) => structs.push(alloc, s)?,
            }
        }
        Ok(structs)
    }

    fn push(&mut self, alloc: Global, def: &'a StructDef) -> Result<(), AllocError>
        ensures { OnOk result (self.new ≡ self.old ++ def.now ∷ []) }
    {
        let one = Struct::of(alloc, def)?;
        self.all.reserve(1)?;
        self.names.push(&def.name.text)?;
        self.all.push(one)?;
        Ok(())
    }

    pub fn all(&self) -> &[Struct<'a>]
        ensures { result.now ≡ self.now }
    {
        self.all.as_slice()
    }

    /// Where the first struct of this name stands.
    pub fn place(&self, name: &Text) -> Option<usize>
        ensures { result ≡ place (map (λ s. s.name.text) self.now) name.now }
    {
        self.names.place(name)
    }

    /// The first struct of this name.
    pub fn named(&self, name: &Text) -> Option<&Struct<'a>>
        ensures { option_copied result ≡ declared.struct_named self.now name.now }
    {
        match self.names.place(name) {
            None => None,
            Some(at) => self.all.get(at),
        }
    }
}
