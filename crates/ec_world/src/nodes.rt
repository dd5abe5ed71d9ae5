//! The nodes of a world.
ghost use Rattle.std.specs.Prelude.{◌≡◌, ◌<◌, ◌^◌, length, map, take, slice_get, IfOk};
ghost use Rattle.ec_base.specs.declared.value.Value.TheVariants.{Int};
ghost use Rattle.ec_world.specs.Answers.{ActedAt, Stepped};
ghost use Rattle.ec_world.specs.Run as run;
ghost use Rattle.ec_world.specs.Step as step;

use crate::choice::{Act, Choice};
use crate::node::{Node, NotEnabled};
use ec_base::{Fail, List, NoMemory, Text, Trap, Value};
use ec_cells::as_int;
use ec_code::{Call, Code, Entry};
use ec_queue::Queue;
use std::alloc::{AllocError, Global};
use std::marker::Model;

/// The nodes, and the trap of the first step that has trapped.
#[derive(Drop)]
pub struct Nodes {
    all: Vec<Node>,
    trap: Option<Trap>,
}

impl Model for Nodes {
    ghost use Rattle.ec_world.specs.Step.{Machine};

    ghost Value = { Machine };

    ghost view = { λ w. record { nodes = w.all.items; trap = w.trap } };
}

fn is_send(act: Act) -> bool
    ensures { result ≡ step.is_send act }
{
    match act {
        Act::SuSend => true,
        _ => false,
    }
}

fn well_named(c: Choice) -> bool
    ensures { result ≡ step.well_named c }
{
    let peer_fits = match c.act {
        Act::SuNet | Act::SuSend => c.peer != c.node,
        _ => c.peer == 0,
    };
    let pick_fits = match c.act {
        Act::SuEvent | Act::SuNet => true,
        _ => c.pick == 0,
    };
    peer_fits && pick_fits
}

fn first_values(alloc: Global, count: usize, words: &[i64]) -> Result<Vec<Value>, AllocError>
    ensures { IfOk result (λ v. v.items ≡ map Int (take count words.now)) }
{
    words
        .iter()
        .take(count)
        .map(|n| Value::Int(*n))
        .collect(alloc)
}

#[tactic(auto, using(crate::proofs::Lists::args_grown, crate::proofs::Lists::grows))]
fn main_args(alloc: Global, count: u32, words: &[i64]) -> Result<List<Value>, NoMemory>
    ensures { IfOk result (λ xs. xs ≡ run.main_args count words.now) }
{
    let mut args = first_values(alloc, count as usize, words)?;
    for _ in args.len()..count as usize {
        args.push(Value::Int(0))?;
    }
    Ok(List::from_vec(args))
}

fn main_call(alloc: Global, code: &Code, words: &[i64]) -> Result<Call, NoMemory>
    ensures { IfOk result (λ c. c ≡ run.main_call code.now words.now) }
{
    let count = match code.functions.get(code.main as usize) {
        None => 0,
        Some(f) => f.params,
    };
    let args = main_args(alloc, count, words)?;
    let mut cells = List::new(alloc);
    cells.push(0u32)?;
    Ok(Call {
        function: code.main,
        args,
        birth: None,
        node: 0,
        frame: 0,
        cells,
        slot: 0,
    })
}

/// One act of a node alone, and the trap of its execution unit after it.
fn act_at(
    alloc: Global,
    code: &Code,
    c: Choice,
    s: &mut Node,
) -> Result<Option<Trap>, Fail<NotEnabled>>
    requires { s.old.su.handled < 2 ^ 32 }
    ensures { ActedAt (step.acts code.now c.act c.peer c.pick s.old) s.old result s.new }
{
    s.act(alloc, code, c)?;
    Ok(s.eu.trap())
}

/// Of two traps the first.
fn first_trap(first: Option<Trap>, later: Option<Trap>) -> Option<Trap>
    ensures { result ≡ step.first_trap first later }
{
    match first {
        None => later,
        Some(trap) => Some(trap),
    }
}

impl Nodes {
    /// So many nodes, of which the first enters main.
    #[tactic(auto, using(crate::proofs::Lists::nodes_grow))]
    pub fn start(alloc: Global, code: &Code, nodes: u32, words: &[i64]) -> Result<Nodes, NoMemory>
        requires { 0 < nodes }
        ensures { IfOk result (λ w. w ≡ run.start code.now nodes words.now) }
    {
        let call = main_call(alloc, code, words)?;
        let mut ready = Queue::new(alloc);
        ready.push(Entry::Enter { call })?;
        let mut all = Vec::new(alloc);
        all.push(Node::new(alloc, nodes, 0, ready)?)?;
        for number in 1..nodes {
            all.push(Node::new(alloc, nodes, number, Queue::new(alloc))?)?;
        }
        Ok(Nodes { all, trap: None })
    }

    fn named(&self, c: Choice) -> bool
        ensures { result ≡ step.named c self.now.nodes }
    {
        well_named(c) && (c.peer as usize) < self.all.len()
    }

    #[tactic(auto, using(crate::proofs::Lists::rows, crate::proofs::Handled::handled_below))]
    fn act(&mut self, alloc: Global, code: &Code, c: Choice) -> Result<(), Fail<NotEnabled>>
        requires { run.handled self.old.nodes < 2 ^ 32 }
        ensures step { Stepped (step.acts_at code.now c (slice_get self.old.nodes c.node) self.old) self.old result self.new }
        ensures count { length self.new.nodes ≡ length self.old.nodes }
    {
        let at = c.node as usize;
        if at >= self.all.len() {
            return Err(Fail::Refused(NotEnabled));
        }
        let trap = act_at(alloc, code, c, &mut self.all[at])?;
        self.trap = first_trap(self.trap, trap);
        Ok(())
    }

    #[tactic(auto, using(crate::proofs::Lists::rows))]
    fn send(&mut self, me: u32, peer: u32) -> Result<(), Fail<NotEnabled>>
        ensures step { Stepped (step.sends_on me peer self.old) self.old result self.new }
        ensures count { length self.new.nodes ≡ length self.old.nodes }
    {
        let at = me as usize;
        let to = peer as usize;
        if at < self.all.len() && to < self.all.len() {
            match self.all[at].su.take_peer(peer) {
                None => Err(Fail::Refused(NotEnabled)),
                Some(x) => Ok(self.all[to].net.put(at, x)?),
            }
        } else {
            Err(Fail::Refused(NotEnabled))
        }
    }

    /// One step, where the choice is enabled. After want of memory a node may hold a part of it.
    pub fn step(&mut self, alloc: Global, code: &Code, c: Choice) -> Result<(), Fail<NotEnabled>>
        requires { run.handled self.old.nodes < 2 ^ 32 }
        ensures step { Stepped (step.step code.now c self.old) self.old result self.new }
        ensures count { length self.new.nodes ≡ length self.old.nodes }
    {
        if !self.named(c) {
            return Err(Fail::Refused(NotEnabled));
        }
        if is_send(c.act) {
            self.send(c.node, c.peer)
        } else {
            self.act(alloc, code, c)
        }
    }

    /// Whether a step is there for a choice.
    pub fn enabled(&self, c: Choice) -> bool
        ensures { result ≡ step.enabled c self.now.nodes }
    {
        if !self.named(c) {
            return false;
        }
        match self.all.get(c.node as usize) {
            None => false,
            Some(s) => s.offers(c.act, c.peer) && c.pick < s.picks(c.act, c.peer),
        }
    }

    /// The trap of the first step that has trapped.
    pub fn trap(&self) -> Option<Trap>
        ensures { result ≡ self.now.trap }
    {
        self.trap
    }

    /// How many nodes there are.
    pub fn count(&self) -> usize
        ensures { result ≡ length self.now.nodes }
    {
        self.all.len()
    }

    /// What node 0 has printed.
    pub fn output(&self) -> &Text
        requires { 0 < length self.now.nodes }
        ensures { result.now ≡ run.output self.now }
    {
        self.all[0].eu.output()
    }

    /// Whether the root's slot has been filled.
    pub fn ended(&self) -> bool
        ensures { result ≡ run.has_ended self.now }
    {
        match self.all.get(0) {
            None => false,
            Some(s) => s.su.ended(),
        }
    }

    /// What cell 0 of frame 0 of node 0 holds, as a number.
    pub fn answer(&self) -> i64
        ensures { result ≡ run.answer_in (slice_get self.now.nodes 0) }
    {
        match self.all.get(0) {
            None => 0,
            Some(s) => as_int(s.eu.node().cell(0, 0)),
        }
    }

    /// How many entries the ring holds onto which a choice puts, and 0 where it puts onto none.
    pub fn held(&self, c: Choice) -> usize
        ensures { result ≡ run.held c self.now.nodes }
    {
        match c.act {
            Act::EuEvent => match self.all.get(c.node as usize) {
                None => 0,
                Some(s) => s.events.count(),
            },
            Act::SuReady => match self.all.get(c.node as usize) {
                None => 0,
                Some(s) => s.ready.count(),
            },
            Act::SuSend => match self.all.get(c.peer as usize) {
                None => 0,
                Some(s) => s.net_held(c.node),
            },
            _ => 0,
        }
    }

    /// The greatest number of messages that a unit has handled.
    #[tactic(auto, using(crate::proofs::Lists::greatest))]
    pub fn handled(&self) -> u64
        ensures { result ≡ run.handled self.now.nodes }
    {
        let mut most = 0;
        for s in &self.all {
            most = most.max(s.su.handled());
        }
        most
    }
}
