//! What names stand for.
ghost use Rattle.std.specs.Prelude.{◌≡◌, map, option_copied, IfOk};
ghost use Rattle.ec_types.specs.Judged.{Gives};
ghost use Rattle.ec_types.specs.Names as names;
ghost use Rattle.ec_types.specs.Operators as operators;

use crate::items::Structs;
use crate::judged::{Judged, refused};
use crate::operators::field_type;
use crate::value_type::ExprType;
use ec_base::{Reason, Span, Text};
use ec_syntax::{Base, Decl, Ty};
use std::alloc::{AllocError, Global};

/// The first variable of this name.
pub(crate) fn variable_named<'a>(scope: &[&'a Decl], name: &Text) -> Option<&'a Decl>
    ensures { option_copied result ≡ names.variable_named (map (λ d. d.now) scope.now) name.now }
{
    for d in scope {
        if d.name.text == *name {
            return Some(*d);
        }
    }
    None
}

/// The field `f` of the struct `s`.
pub(crate) fn member(
    alloc: Global,
    structs: &Structs,
    s: &Text,
    f: &Text,
) -> Result<Option<ExprType>, AllocError>
    ensures { IfOk result (λ t. t ≡ operators.member structs.now s.now f.now) }
{
    match structs.named(s) {
        None => Ok(None),
        Some(def) => match def.field(f) {
            None => Ok(None),
            Some(field) => Ok(Some(field_type(alloc, field)?)),
        },
    }
}

/// Whether the struct that a type names is declared.
pub(crate) fn known(structs: &Structs, ty: &Ty) -> Judged<()>
    ensures { Gives result (names.known structs.now ty.now) }
{
    match &ty.base {
        Base::Struct(name) => match structs.named(&name.text) {
            None => refused(Reason::Unknown, name.at),
            Some(_) => Ok(()),
        },
        _ => Ok(()),
    }
}

/// The place of a name with which a place ends.
pub(crate) fn ending(at: Span, name: &Text) -> Span
    ensures { result ≡ names.ending at name.now }
{
    let from = (at.to as usize).saturating_sub(name.len());
    Span {
        from: from as u32,
        to: at.to,
    }
}
