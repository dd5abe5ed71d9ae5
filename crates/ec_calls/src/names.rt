//! Names of functions, by their numbers in order of declaration.
ghost use Rattle.std.specs.Prelude.{◌≡◌, ◌++◌, [], ◌∷◌, None, OnOk};
ghost use Rattle.ec_calls.specs.Prints.{number};

use ec_base::Text;
use indexmap::IndexSet;
use std::alloc::{AllocError, Global};
use std::marker::Model;

/// Names, no two of them the same. Contracts see their list.
#[derive(Drop)]
pub(crate) struct Names {
    set: IndexSet<Vec<u8>>,
}

impl Model for Names {
    ghost use Rattle.std.specs.Prelude.{List, ℕ, map};

    ghost Value = { List (List ℕ) };

    ghost view = { λ n. map (λ w. w.items) n.set.keys };
}

impl Names {
    pub(crate) fn new(alloc: Global) -> Names
        ensures { result ≡ [] }
    {
        Names {
            set: IndexSet::new(alloc),
        }
    }

    pub(crate) fn number(&self, name: &Text) -> Option<usize>
        ensures { result ≡ number self.now name.now }
    {
        self.set.get_index_of(name.as_slice())
    }

    /// Gives a new name the next number.
    pub(crate) fn add(&mut self, alloc: Global, name: &Text) -> Result<(), AllocError>
        requires { number self.old name.now ≡ None }
        ensures { OnOk result (self.new ≡ self.old ++ name.now ∷ []) }
    {
        let bytes = name.copy(alloc)?.into_vec();
        self.set.insert(bytes)?;
        Ok(())
    }
}
