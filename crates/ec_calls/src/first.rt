//! The first `printf` that the calls of each function reach.
ghost use Rattle.std.specs.Prelude.{◌≡◌, filter_map, IfOk};
ghost use Rattle.ec_calls.specs.Items.{as_function};
ghost use Rattle.ec_calls.specs.Prints.{ArePrints, printed};

use crate::functions::Functions;
use crate::graph::Graph;
use crate::names::Names;
use crate::reach::settle;
use ec_base::{Span, Text};
use ec_syntax::Item;
use std::alloc::{AllocError, Global};
use std::marker::Model;

/// The first `printf` that the calls of each function reach. Contracts see a table of them.
#[derive(Drop)]
pub struct FirstPrints {
    names: Names,
    places: Vec<Option<Span>>,
}

impl Model for FirstPrints {
    ghost use Rattle.ec_calls.specs.Prints.{Table};

    ghost Value = { Table };

    ghost view = { λ p. record { names = p.names; places = p.places.items } };
}

impl FirstPrints {
    /// The first `printf` that the calls of the function of this name reach, itself included.
    pub fn first_print(&self, name: &Text) -> Option<Span>
        ensures { result ≡ printed self.now name.now }
    {
        let number = self.names.number(name)?;
        if number < self.places.len() {
            self.places[number]
        } else {
            None
        }
    }
}

/// The first `printf`s of all functions of a program. Of functions with one name the first counts.
pub fn first_prints(alloc: Global, items: &[Item]) -> Result<FirstPrints, AllocError>
    ensures { IfOk result (λ all. ArePrints (filter_map as_function items.now) (printed all)) }
{
    let Functions { names, firsts } = Functions::of(alloc, items)?;
    let Graph { calls, mut places } = Graph::of(alloc, &names, firsts.as_slice())?;
    settle(&mut places, calls.as_slice());
    Ok(FirstPrints { names, places })
}
