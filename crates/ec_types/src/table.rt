//! Tables of names.
ghost use Rattle.std.specs.Prelude.{◌≡◌, ◌++◌, [], ◌∷◌, List, OnOk, OnErr};
ghost use Rattle.ec_base.specs.declared.text.Text.{Text};
ghost use Rattle.ec_types.specs.Places.{place, HasPlaces, Takes};

use ec_base::Text;
use indexmap::IndexMap;
use std::alloc::{AllocError, Global};
use std::marker::Model;

/// Names in order, and where each of them stands first. Contracts see their list.
#[derive(Drop)]
pub struct NameTable<'a> {
    names: Vec<&'a Text>,
    places: IndexMap<&'a [u8], usize>,
}

impl<'a> Model for NameTable<'a> {
    ghost use Rattle.std.specs.Prelude.{List, map};
    ghost use Rattle.ec_base.specs.declared.text.Text.{Text};
    ghost use Rattle.ec_types.specs.Places.{HasPlaces};

    ghost Value = { List Text };

    ghost view = { λ t. map (λ n. n.now) t.names.items };

    ghost invariant = { λ t. HasPlaces (map (λ n. n.now) t.names.items) t.places };
}

/// Notes where a name stands, unless it stood before.
fn note<'a>(
    places: &mut IndexMap<&'a [u8], usize>,
    name: &'a [u8],
    at: usize,
) -> Result<(), AllocError>
    ensures ok { OnOk result (Takes name.now at places.old places.new) }
    ensures err { OnErr result ((names : List Text) → HasPlaces names places.old → HasPlaces names places.new) }
{
    if places.contains_key(name) {
        return Ok(());
    }
    places.insert(name, at)?;
    Ok(())
}

impl<'a> NameTable<'a> {
    pub fn new(alloc: Global) -> NameTable<'a>
        ensures { result ≡ [] }
    {
        NameTable {
            names: Vec::new(alloc),
            places: IndexMap::new(alloc),
        }
    }

    /// Puts a name behind the others.
    pub fn push(&mut self, name: &'a Text) -> Result<(), AllocError>
        ensures ok { OnOk result (self.new ≡ self.old ++ name.now ∷ []) }
        ensures err { OnErr result (self.new ≡ self.old) }
    {
        self.names.reserve(1)?;
        note(&mut self.places, name.as_slice(), self.names.len())?;
        self.names.push(name)?;
        Ok(())
    }

    /// Where the name stands first.
    pub fn place(&self, name: &Text) -> Option<usize>
        ensures { result ≡ place self.now name.now }
    {
        self.places.get(name.as_slice()).copied()
    }
}
