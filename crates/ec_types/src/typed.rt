//! Programs that are refused for nothing.
ghost use Rattle.std.specs.Prelude.{◌≡◌, true, filter_map, IfOk, OnOk};
ghost use Rattle.std.specs.List.{list_all};
ghost use Rattle.ec_calls.specs.Items.{as_struct};
ghost use Rattle.ec_calls.specs.Items as declared;
ghost use Rattle.ec_types.specs.Programs.{IsTyped};
ghost use Rattle.ec_types.specs.Sizes as sizes;
ghost use Rattle.ec_types.specs.Tables.{HasSizes, TakesStruct};

use crate::items::Structs;
use crate::size::cells;
use ec_base::Text;
use ec_syntax::{Item, Program, StructDef};
use indexmap::IndexMap;
use std::alloc::{AllocError, Global};
use std::marker::Model;

/// A program that is refused for nothing, and the cells of its structs. Contracts see the program.
#[derive(Drop)]
pub struct Typed {
    program: Program,
    sizes: IndexMap<Vec<u8>, u32>,
}

impl Model for Typed {
    ghost use Rattle.ec_syntax.specs.declared.item.Program.{Program};
    ghost use Rattle.ec_calls.specs.Items.{structs};
    ghost use Rattle.ec_types.specs.Programs.{IsTyped};
    ghost use Rattle.ec_types.specs.Tables.{HasSizes};
    ghost use Rattle.ec_syntax.specs.contracts.item.Program as contract;
    ghost use Rattle.std.specs.Coded.{codes};

    ghost Value = { Program };

    ghost coded = { Prim.hlevel (codes, contract.the_row.coded) };

    ghost view = { λ t. t.program };

    ghost invariant = { λ t. IsTyped t.program × HasSizes (structs t.program) t.sizes };
}

/// Notes the cells of a struct, unless one of its name came before.
fn note(alloc: Global, table: &mut IndexMap<Vec<u8>, u32>, s: &StructDef) -> Result<(), AllocError>
    requires { sizes.is_small s.now ≡ true }
    ensures { OnOk result (TakesStruct s.now table.old table.new) }
{
    if table.contains_key(s.name.text.as_slice()) {
        return Ok(());
    }
    let name = s.name.text.copy(alloc)?.into_vec();
    table.insert(name, cells(s) as u32)?;
    Ok(())
}

/// The cells of the structs of a program.
fn sizes_of(alloc: Global, items: &[Item]) -> Result<IndexMap<Vec<u8>, u32>, AllocError>
    requires { list_all sizes.is_small (filter_map as_struct items.now) ≡ true }
    ensures { IfOk result (λ m. HasSizes (filter_map as_struct items.now) m) }
{
    let mut sizes = IndexMap::new(alloc);
    for item in items {
        match item {
            Item::Func(_) => {}
            Item::Struct(s) => note(alloc, &mut sizes, s)?,
        }
    }
    Ok(sizes)
}

impl Typed {
    pub(crate) fn new(alloc: Global, program: Program) -> Result<Typed, AllocError>
        requires { IsTyped program }
        ensures { IfOk result (λ t. t ≡ program) }
    {
        let sizes = sizes_of(alloc, program.items.as_slice())?;
        Ok(Typed { program, sizes })
    }

    /// The program, which is refused for nothing.
    pub fn program(&self) -> &Program
        ensures value { result.now ≡ self.now }
        ensures typed { IsTyped self.now }
    {
        &self.program
    }

    /// The structs of the program.
    pub fn structs(&self, alloc: Global) -> Result<Structs<'_>, AllocError>
        ensures structs { IfOk result (λ ss. ss ≡ declared.structs self.now) }
        ensures small { list_all sizes.is_small (declared.structs self.now) ≡ true }
    {
        Structs::of(alloc, self.program.items.as_slice())
    }

    /// The cells of the struct of this name, if there is one.
    pub fn size(&self, name: &Text) -> Option<u32>
        ensures { result ≡ sizes.size self.now name.now }
    {
        self.sizes.get(name.as_slice()).copied()
    }
}
