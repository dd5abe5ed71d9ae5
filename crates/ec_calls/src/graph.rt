//! Which functions call which, and the first `printf` in each of them.
ghost use Rattle.std.specs.Prelude.{◌≡◌, ◌++◌, map, OnOk, IfOk};
ghost use Rattle.ec_calls.specs.Graphs.{edges_of, edges_to, all_edges, own_places};

use crate::called::Called;
use crate::names::Names;
use crate::printed::first_of_body;
use crate::reach::Edge;
use ec_base::{Span, Text};
use ec_syntax::Func;
use std::alloc::{AllocError, Global};

/// Functions by numbers: their calls, and the first `printf` of each.
#[derive(Drop)]
pub(crate) struct Graph {
    pub(crate) calls: Vec<Edge>,
    pub(crate) places: Vec<Option<Span>>,
}

impl Graph {
    pub(crate) fn of(alloc: Global, names: &Names, functions: &[&Func]) -> Result<Graph, AllocError>
        ensures calls { IfOk result (λ g. g.calls.items ≡ all_edges names.now 0 (map (λ f. f.now) functions.now)) }
        ensures places { IfOk result (λ g. g.places.items ≡ own_places (map (λ f. f.now) functions.now)) }
    {
        let mut calls = Vec::new(alloc);
        let mut places = Vec::new(alloc);
        for (caller, f) in functions.iter().enumerate() {
            link(alloc, names, *f, caller, &mut calls)?;
            places.push(first_of_body(&f.body))?;
        }
        Ok(Graph { calls, places })
    }
}

/// Adds the calls that stand in a function.
fn link(
    alloc: Global,
    names: &Names,
    f: &Func,
    caller: usize,
    calls: &mut Vec<Edge>,
) -> Result<(), AllocError>
    ensures { OnOk result (calls.new.items ≡ calls.old.items ++ edges_of names.now caller f.now) }
{
    let mut called = Called::new(alloc);
    called.body(&f.body)?;
    link_all(names, called.as_slice(), caller, calls)
}

/// Adds calls of those names that are declared.
fn link_all(
    names: &Names,
    called: &[&Text],
    caller: usize,
    calls: &mut Vec<Edge>,
) -> Result<(), AllocError>
    ensures { OnOk result
        (calls.new.items ≡ calls.old.items ++ edges_to names.now caller (map (λ t. t.now) called.now)) }
{
    for name in called {
        if let Some(callee) = names.number(*name) {
            calls.push(Edge { caller, callee })?;
        }
    }
    Ok(())
}
