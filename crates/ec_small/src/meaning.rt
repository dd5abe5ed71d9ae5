//! The meaning of a small program, run as it is defined.
ghost use Rattle.std.specs.Prelude.{◌≡◌, ◌-◌, ◌^◌, ◌<◌, [], pos, length, map, sum, replicate, min, slice_get, IfOk, OnOk};
ghost use Rattle.ec_small.specs.Meaning.{combined, or_zero, value, nodes, spent, assigned, initialised, declared_from, done, all_done, meaning};
ghost use Rattle.ec_small.specs.Counting.{state, Alike, printed};

use crate::tree::{Expr, Operator, Program, Stmt};
use ec_base::{List, NoMemory, Text, format_values};
use std::alloc::Global;

/// What a program means: its output, its result, and the ticks that it spends.
#[derive(Drop)]
pub struct Meant {
    pub output: Text,
    pub value: i64,
    pub ticks: u64,
}

/// What has come about so far. The count of ticks stands still at its greatest value.
#[derive(Drop)]
struct Progress {
    vars: List<i64>,
    output: Text,
    ticks: u64,
}

/// The meaning of a program, from left to right. A count of ticks that has no room in 64 bits is the greatest one.
pub fn mean(alloc: Global, p: &Program) -> Result<Meant, NoMemory>
    ensures output { IfOk result (λ m. m.output ≡ (meaning p.now).output) }
    ensures value { IfOk result (λ m. m.value ≡ (meaning p.now).result) }
    ensures ticks { IfOk result (λ m. m.ticks ≡ min (meaning p.now).ticks (2 ^ 64 - 1)) }
{
    let mut progress = Progress {
        vars: zeros(alloc, p.inits.len())?,
        output: Text::from_vec(Vec::new(alloc)),
        ticks: 1,
    };
    progress.declare(p.inits.as_slice());
    progress.run(alloc, p.stmts.as_slice())?;
    progress.tick();
    let value = progress.evaluate(&p.result);
    let Progress {
        vars: _,
        output,
        ticks,
    } = progress;
    Ok(Meant {
        output,
        value,
        ticks,
    })
}

fn zeros(alloc: Global, count: usize) -> Result<List<i64>, NoMemory>
    ensures { IfOk result (λ vs. vs ≡ replicate count (pos 0)) }
{
    Ok(List::from_vec(vec![in alloc; 0; count]?))
}

fn combine(op: Operator, a: i64, b: i64) -> i64
    ensures { result ≡ combined op a b }
{
    match op {
        Operator::Add => a.wrapping_add(b),
        Operator::Sub => a.wrapping_sub(b),
        Operator::Mul => a.wrapping_mul(b),
    }
}

impl Progress {
    fn tick(&mut self)
        ensures spent { Alike (state self.new) (spent 1 (state self.old)) }
        ensures fits { self.new.ticks < 2 ^ 64 }
    {
        self.ticks = self.ticks.saturating_add(1);
    }

    fn look(&self, variable: usize) -> i64
        ensures { result ≡ or_zero (slice_get self.now.vars variable) }
    {
        match self.vars.get(variable) {
            Some(value) => *value,
            None => 0,
        }
    }

    /// The value of an expression, a tick for each of its nodes.
    fn evaluate(&mut self, e: &Expr) -> i64
        ensures value { result ≡ value self.old.vars e.now }
        ensures spent { Alike (state self.new) (spent (nodes e.now) (state self.old)) }
        ensures fits { self.new.ticks < 2 ^ 64 }
    {
        self.tick();
        match e {
            Expr::Number(n) => *n,
            Expr::Var(variable) => self.look(*variable as usize),
            Expr::Binary(op, a, b) => {
                let left = self.evaluate(a.get());
                let right = self.evaluate(b.get());
                combine(*op, left, right)
            }
        }
    }

    /// The values of expressions, in their order.
    fn evaluate_all(&mut self, alloc: Global, es: &[Expr]) -> Result<List<i64>, NoMemory>
        ensures values { IfOk result (λ vs. vs ≡ map (value self.old.vars) es.now) }
        ensures spent { OnOk result (Alike (state self.new) (spent (sum (map nodes es.now)) (state self.old))) }
    {
        let mut values = List::new(alloc);
        for e in es {
            values.push(self.evaluate(e))?;
        }
        Ok(values)
    }

    /// Sets a variable to the value of an expression.
    fn assign(&mut self, variable: usize, e: &Expr)
        ensures { Alike (state self.new) (spent (nodes e.now) (assigned variable e.now (state self.old))) }
    {
        let value = self.evaluate(e);
        if variable < self.vars.len() {
            self.vars.set(variable, value);
        }
    }

    fn initialise(&mut self, variable: usize, init: &Option<Expr>)
        ensures { Alike (state self.new) (initialised variable init.now (state self.old)) }
    {
        match init {
            None => {}
            Some(e) => self.assign(variable, e),
        }
    }

    /// Initialises the variables in their order.
    fn declare(&mut self, inits: &[Option<Expr>])
        ensures { Alike (state self.new) (declared_from 0 inits.now (state self.old)) }
    {
        let mut variable = 0usize;
        for init in inits {
            self.initialise(variable, init);
            variable += 1;
        }
    }

    fn print(&mut self, alloc: Global, string: &Text, es: &List<Expr>) -> Result<(), NoMemory>
        ensures { OnOk result (Alike (state self.new) (printed string.now es.now (state self.old))) }
    {
        let values = self.evaluate_all(alloc, es.as_slice())?;
        let bytes = format_values(alloc, string.as_slice(), values.as_slice())?;
        self.output.append(bytes.as_slice())?;
        Ok(())
    }

    fn execute(&mut self, alloc: Global, stmt: &Stmt) -> Result<(), NoMemory>
        ensures { OnOk result (Alike (state self.new) (done stmt.now (state self.old))) }
    {
        self.tick();
        match stmt {
            Stmt::Set(variable, e) => {
                self.assign(*variable as usize, e);
                Ok(())
            }
            Stmt::Print(string, es) => self.print(alloc, string, es),
        }
    }

    /// Runs statements in their order.
    fn run(&mut self, alloc: Global, stmts: &[Stmt]) -> Result<(), NoMemory>
        ensures { OnOk result (Alike (state self.new) (all_done stmts.now (state self.old))) }
    {
        for stmt in stmts {
            self.execute(alloc, stmt)?;
        }
        Ok(())
    }
}
