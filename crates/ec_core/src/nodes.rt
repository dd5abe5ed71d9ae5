//! The nodes of a world.
ghost use Rattle.std.specs.Prelude.{◌≡◌, ◌≤◌, ◌<◌, ◌+◌, length, map, take, slice_get, IfOk, OnOk};
ghost use Rattle.ec_base.specs.declared.value.Value.TheVariants.{Int};
ghost use Rattle.ec_core.specs.Step.{step, Stepped, named, well_named, is_send, acts_at, sends, enabled, offers_in};
ghost use Rattle.ec_core.specs.Run.{start, main_args, main_call, output, filled_in, result_in, handled};

use crate::choice::{Act, Choice};
use crate::code::Code;
use crate::message::{Call, Entry};
use crate::node::{Node, NotEnabled};
use crate::queue::{Queue, grow};
use crate::slots::{Slot, Slots};
use ec_base::{Fail, List, NoMemory, Text, Value};
use std::alloc::{AllocError, Global};
use std::marker::Model;

/// Nodes, by number.
#[derive(Drop)]
pub struct Nodes {
    all: Vec<Node>,
}

impl Model for Nodes {
    ghost use Rattle.std.specs.Prelude.{List};
    ghost use Rattle.ec_core.specs.declared.node.Node.{Node};

    ghost Value = { List Node };

    ghost view = { λ w. w.all.items };
}

fn is_send(act: Act) -> bool
    ensures { result ≡ is_send act }
{
    match act {
        Act::SuSend => true,
        _ => false,
    }
}

fn well_named(c: Choice) -> bool
    ensures { result ≡ well_named c }
{
    let peer_fits = match c.act {
        Act::SuNet | Act::SuSend => c.peer != c.node,
        _ => c.peer == 0,
    };
    peer_fits && c.pick == 0
}

fn first_values(alloc: Global, count: usize, words: &[i64]) -> Result<Vec<Value>, AllocError>
    ensures { IfOk result (λ v. v.items ≡ map Int (take count words.now)) }
{
    words
        .iter()
        .take(count)
        .map(|n| Value::Int(*n))
        .collect(alloc)
}

#[tactic(auto, using(crate::proofs::Lists::args_grown))]
fn main_args(alloc: Global, count: u32, words: &[i64]) -> Result<List<Value>, NoMemory>
    ensures { IfOk result (λ xs. xs ≡ main_args count words.now) }
{
    let mut args = List::from_vec(first_values(alloc, count as usize, words)?);
    grow(&mut args, count as usize, Value::Int(0))?;
    Ok(args)
}

fn main_call(alloc: Global, code: &Code, words: &[i64]) -> Result<Call, NoMemory>
    ensures { IfOk result (λ c. c ≡ main_call code.now words.now) }
{
    let count = match code.functions.get(code.main as usize) {
        None => 0,
        Some(f) => f.params,
    };
    let args = main_args(alloc, count, words)?;
    let mut cells = List::new(alloc);
    cells.push(0u32)?;
    Ok(Call {
        function: code.main,
        args,
        birth: None,
        node: 0,
        frame: 0,
        cells,
        slot: 0,
    })
}

impl Nodes {
    /// Nodes of which the first has the root's slot and enters main.
    #[tactic(auto, using(crate::proofs::Lists::grows))]
    pub fn start(alloc: Global, code: &Code, nodes: u32, words: &[i64]) -> Result<Nodes, NoMemory>
        requires { 1 ≤ nodes }
        ensures { IfOk result (λ w. w ≡ start code.now nodes words.now) }
    {
        let mut slots = Slots::new(alloc);
        slots.put(
            alloc,
            0,
            0,
            Slot {
                count: 1,
                reset: 1,
                fiber: None,
                fillings: 0,
            },
        )?;
        let call = main_call(alloc, code, words)?;
        let mut ready = Queue::new(alloc);
        ready.push(Entry::Enter { call })?;
        let mut all = Vec::new(alloc);
        all.push(Node::new(alloc, nodes, slots, ready)?)?;
        for _ in 1..nodes {
            all.push(Node::new(alloc, nodes, Slots::new(alloc), Queue::new(alloc))?)?;
        }
        Ok(Nodes { all })
    }

    fn named(&self, c: Choice) -> bool
        ensures { result ≡ named c self.now }
    {
        well_named(c) && (c.peer as usize) < self.all.len()
    }

    #[tactic(auto, using(crate::proofs::Rows::rows))]
    fn act(&mut self, alloc: Global, code: &Code, c: Choice) -> Result<(), Fail<NotEnabled>>
        ensures step { Stepped (acts_at code.now c (slice_get self.old c.node) self.old) self.old result self.new }
        ensures count { length self.new ≡ length self.old }
    {
        let at = c.node as usize;
        if at >= self.all.len() {
            return Err(Fail::Refused(NotEnabled));
        }
        self.all[at].act(alloc, code, c.node, c.act, c.peer)
    }

    #[tactic(auto, using(crate::proofs::Rows::rows))]
    fn send(&mut self, me: u32, peer: u32) -> Result<(), Fail<NotEnabled>>
        ensures step { Stepped (sends me peer (slice_get self.old me) self.old) self.old result self.new }
        ensures count { length self.new ≡ length self.old }
    {
        let at = me as usize;
        let to = peer as usize;
        if at < self.all.len() && to < self.all.len() {
            match self.all[at].su.peers.take(to) {
                None => Err(Fail::Refused(NotEnabled)),
                Some(x) => Ok(self.all[to].net.put(at, x)?),
            }
        } else {
            Err(Fail::Refused(NotEnabled))
        }
    }

    /// One step, where the choice is enabled. After want of memory a node may hold a part of it.
    pub fn step(&mut self, alloc: Global, code: &Code, c: Choice) -> Result<(), Fail<NotEnabled>>
        ensures step { Stepped (step code.now c self.old) self.old result self.new }
        ensures count { length self.new ≡ length self.old }
    {
        if !self.named(c) {
            return Err(Fail::Refused(NotEnabled));
        }
        if is_send(c.act) {
            self.send(c.node, c.peer)
        } else {
            self.act(alloc, code, c)
        }
    }

    /// Whether a step is there for a choice.
    pub fn enabled(&self, c: Choice) -> bool
        ensures { result ≡ enabled c self.now }
    {
        if !self.named(c) {
            return false;
        }
        match self.all.get(c.node as usize) {
            None => false,
            Some(s) => s.offers(c.act, c.peer),
        }
    }

    /// What node 0 has printed.
    pub fn output(&self) -> &Text
        requires { 0 < length self.now }
        ensures { result.now ≡ output self.now }
    {
        self.all[0].eu.output()
    }

    /// How often the root's slot has been filled.
    pub fn fillings(&self) -> u64
        ensures { result ≡ filled_in (slice_get self.now 0) }
    {
        match self.all.get(0) {
            None => 0,
            Some(s) => match s.su.slots.get(0, 0) {
                None => 0,
                Some(x) => x.fillings,
            },
        }
    }

    /// What cell 0 of frame 0 of node 0 holds, as a number.
    pub fn answer(&self) -> i64
        ensures { result ≡ result_in (slice_get self.now 0) }
    {
        match self.all.get(0) {
            None => 0,
            Some(s) => s.eu.int(0, 0),
        }
    }

    /// The greatest number of messages that a unit has handled.
    #[tactic(auto, using(crate::proofs::Lists::greatest))]
    pub fn handled(&self) -> u64
        ensures { result ≡ handled self.now }
    {
        let mut most = 0;
        for s in &self.all {
            most = most.max(s.su.handled);
        }
        most
    }
}
