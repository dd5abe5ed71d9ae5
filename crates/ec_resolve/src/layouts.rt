//! The structs of a typed program.
ghost use Rattle.std.specs.Prelude.{◌≡◌, true, option_copied, IfOk};
ghost use Rattle.std.specs.Option.{IfSome};
ghost use Rattle.ec_calls.specs.Items as declared;
ghost use Rattle.ec_types.specs.declared.value_type.ValueBase.TheVariants as base;
ghost use Rattle.ec_types.specs.Meaning.Layout as layout;
ghost use Rattle.ec_types.specs.Sizes as sizes;

use ec_base::Text;
use ec_types::{Struct, Structs, Typed};
use std::alloc::{AllocError, Global};
use std::marker::Model;

/// The structs of a typed program, by name, and their cells. Contracts see their list.
#[derive(Drop)]
pub(crate) struct Layouts<'a> {
    typed: &'a Typed,
    structs: Structs<'a>,
}

impl<'a> Model for Layouts<'a> {
    ghost use Rattle.std.specs.Prelude.{◌≡◌, ◌<◌, ◌^◌, true, List, length};
    ghost use Rattle.std.specs.List.{list_all};
    ghost use Rattle.ec_calls.specs.Items as declared;
    ghost use Rattle.ec_syntax.specs.declared.item.StructDef.{StructDef};
    ghost use Rattle.ec_types.specs.Sizes.{is_small};

    ghost Value = { List StructDef };

    ghost view = { λ l. l.structs };

    ghost invariant = { λ l. (l.structs ≡ declared.structs l.typed.now) × ((list_all is_small l.structs ≡ true) × (length l.structs < 2 ^ 30)) };
}

impl<'a> Layouts<'a> {
    /// Where there are more structs than there are shapes, which no memory holds, memory is wanted.
    pub(crate) fn of(alloc: Global, typed: &'a Typed) -> Result<Layouts<'a>, AllocError>
        ensures { IfOk result (λ l. l ≡ declared.structs typed.now) }
    {
        let structs = typed.structs(alloc)?;
        if structs.all().len() < 1_073_741_824 {
            Ok(Layouts { typed, structs })
        } else {
            Err(AllocError)
        }
    }

    /// The first struct of this name.
    pub(crate) fn named(&self, name: &Text) -> Option<&Struct<'a>>
        ensures named { option_copied result ≡ declared.struct_named self.now name.now }
        ensures small { IfSome result (λ s. sizes.is_small s.now ≡ true) }
    {
        self.structs.named(name)
    }

    /// The shape of the first struct of this name.
    pub(crate) fn shape(&self, name: &Text) -> u32
        ensures { result ≡ layout.base_shape self.now (base.Struct name.now) }
    {
        match self.structs.place(name) {
            None => 2,
            Some(at) => at as u32 + 2,
        }
    }

    /// The cells of the struct of this name, if there is one.
    pub(crate) fn size(&self, name: &Text) -> Option<u32>
        ensures { result ≡ sizes.size_of self.now name.now }
    {
        self.typed.size(name)
    }
}
