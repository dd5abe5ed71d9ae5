//! The names of variables, by their places in order of declaration.
ghost use Rattle.std.specs.Prelude.{◌≡◌, ◌<◌, ◌≤◌, ◌++◌, [], ◌∷◌, length, None, OnOk, OnErr};
ghost use Rattle.ec_small.specs.Words.{place};

use ec_base::{NoMemory, Text};
use indexmap::IndexSet;
use std::alloc::Global;
use std::marker::Model;

/// Names that were declared, in order. Contracts see their list.
#[derive(Drop)]
pub(crate) struct Names {
    set: IndexSet<Vec<u8>>,
}

impl Model for Names {
    ghost use Rattle.std.specs.Prelude.{List, ℕ, ◌≤◌, length, map};

    ghost Value = { List (List ℕ) };

    ghost view = { λ n. map (λ w. w.items) n.set.keys };

    ghost invariant = { λ n. length n.set.keys ≤ 256 };
}

impl Names {
    pub(crate) fn new(alloc: Global) -> Names
        ensures { result ≡ [] }
    {
        Names {
            set: IndexSet::new(alloc),
        }
    }

    pub(crate) fn len(&self) -> usize
        ensures { result ≡ length self.now }
    {
        self.set.len()
    }

    /// The variable that a word names.
    pub(crate) fn place(&self, word: &Text) -> Option<u32>
        ensures { result ≡ place self.now word.now }
    {
        let index = self.set.get_index_of(word.as_slice())?;
        Some(index as u32)
    }

    /// Declares a word, or leaves the names as they were.
    pub(crate) fn declare(&mut self, alloc: Global, word: &Text) -> Result<(), NoMemory>
        requires fresh { place self.old word.now ≡ None }
        requires room { length self.old < 256 }
        ensures ok { OnOk result (self.new ≡ self.old ++ word.now ∷ []) }
        ensures err { OnErr result (self.new ≡ self.old) }
    {
        let bytes = word.copy(alloc)?.into_vec();
        self.set.insert(bytes)?;
        Ok(())
    }
}
