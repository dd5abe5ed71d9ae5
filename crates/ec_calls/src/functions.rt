//! The functions of a program, the first of each name.
ghost use Rattle.std.specs.Prelude.{◌≡◌, map, OnOk, IfOk};
ghost use Rattle.ec_calls.specs.Seen.{added, first_functions, names_of};

use crate::names::Names;
use ec_syntax::{Func, Item};
use std::alloc::{AllocError, Global};

/// Functions, and their names by the same numbers.
#[derive(Drop)]
pub(crate) struct Functions<'a> {
    pub(crate) names: Names,
    pub(crate) firsts: Vec<&'a Func>,
}

impl<'a> Functions<'a> {
    /// The first functions of each name.
    pub(crate) fn of(alloc: Global, items: &'a [Item]) -> Result<Functions<'a>, AllocError>
        ensures firsts { IfOk result (λ all. map (λ f. f.now) all.firsts.items ≡ first_functions items.now) }
        ensures names { IfOk result (λ all. all.names ≡ names_of (first_functions items.now)) }
    {
        let mut all = Functions {
            names: Names::new(alloc),
            firsts: Vec::new(alloc),
        };
        for item in items {
            match item {
                Item::Func(f) => all.add(alloc, f)?,
                Item::Struct(_) => {}
            }
        }
        Ok(all)
    }

    /// Adds a function, unless there is one of its name.
    fn add(&mut self, alloc: Global, f: &'a Func) -> Result<(), AllocError>
        requires { self.old.names ≡ names_of (map (λ f. f.now) self.old.firsts.items) }
        ensures firsts { OnOk result
            (map (λ f. f.now) self.new.firsts.items ≡ added (map (λ f. f.now) self.old.firsts.items) f.now) }
        ensures names { OnOk result (self.new.names ≡ names_of (added (map (λ f. f.now) self.old.firsts.items) f.now)) }
    {
        match self.names.number(&f.name.text) {
            Some(_) => Ok(()),
            None => {
                self.names.add(alloc, &f.name.text)?;
                self.firsts.push(f)?;
                Ok(())
            }
        }
    }
}
