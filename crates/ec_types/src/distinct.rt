//! Names that are declared again.
ghost use Rattle.std.specs.Prelude.{◌≡◌, ◌++◌, [], ◌∷◌, map, find, option_copied, OnOk};
ghost use Rattle.ec_types.specs.Judged.{Gives};
ghost use Rattle.ec_types.specs.Names as names;
ghost use Rattle.ec_syntax.specs.Grammar.Words.{same};

use crate::judged::{Judged, also, refused_beside};
use crate::table::NameTable;
use ec_base::{Reason, Text};
use ec_syntax::Name;
use std::alloc::{AllocError, Global};
use std::marker::Model;

/// Names that were declared, in order. Contracts see their list.
#[derive(Drop)]
struct Declared<'a> {
    all: Vec<&'a Name>,
    names: NameTable<'a>,
}

impl<'a> Model for Declared<'a> {
    ghost use Rattle.std.specs.Prelude.{◌≡◌, List, map};
    ghost use Rattle.ec_syntax.specs.declared.name.Name.{Name};

    ghost Value = { List Name };

    ghost view = { λ t. map (λ n. n.now) t.all.items };

    ghost invariant = { λ t. t.names ≡ map (λ n. n.text) (map (λ n. n.now) t.all.items) };
}

impl<'a> Declared<'a> {
    fn new(alloc: Global) -> Declared<'a>
        ensures { result ≡ [] }
    {
        Declared {
            all: Vec::new(alloc),
            names: NameTable::new(alloc),
        }
    }

    fn push(&mut self, n: &'a Name) -> Result<(), AllocError>
        ensures { OnOk result (self.new ≡ self.old ++ n.now ∷ []) }
    {
        self.all.reserve(1)?;
        self.names.push(&n.text)?;
        self.all.push(n)?;
        Ok(())
    }

    /// Where this name was declared first.
    fn named(&self, name: &Text) -> Option<&'a Name>
        ensures { option_copied result ≡ find (λ n. same n.text name.now) self.now }
    {
        match self.names.place(name) {
            None => None,
            Some(at) => self.all.get(at).copied(),
        }
    }

    /// Refused where the name was declared before.
    fn fresh(&self, n: &Name) -> Judged<()>
        ensures { Gives result (names.fresh (names.earlier self.now n.now) n.now) }
    {
        match self.named(&n.text) {
            None => Ok(()),
            Some(first) => refused_beside(Reason::Twice, n.at, first.at),
        }
    }
}

/// Each of these names is declared once.
pub(crate) fn distinct(alloc: Global, all: &[&Name]) -> Judged<()>
    ensures { Gives result (names.distinct [] (map (λ n. n.now) all.now)) }
{
    let mut declared = Declared::new(alloc);
    let mut so_far = Ok(());
    for n in all {
        so_far = also(so_far, declared.fresh(n));
        declared.push(n)?;
    }
    so_far
}
