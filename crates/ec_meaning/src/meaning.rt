//! The meaning of a program.
ghost use Rattle.std.specs.Prelude.{◌≡◌, ◌∷◌, [], ◌<◌, ℕ, ℤ, Bool, suc, map, pos, List, None, IfOk};
ghost use Rattle.ec_resolve.specs.Erased as erased;
ghost use Rattle.ec_syntax.specs.declared.item.Program.{Program as Source};
ghost use Rattle.ec_types.specs.Meaning.Programs as programs;
ghost use Rattle.ec_types.specs.Meaning.Values as values;
ghost use Rattle.ec_meaning.specs.Last as last;
ghost use Rattle.ec_meaning.specs.Means.{IsMeant, IsRising};
ghost use Rattle.ec_meaning.specs.Started.{OfMain, Starts, without_output};
ghost use Rattle.ec_meaning.specs.Seen.{Untold};
ghost use Rattle.ec_meaning.specs.Steps.{EndedSo, ended};
ghost use Rattle.ec_meaning.specs.declared.value.Value.TheVariants as value;

use crate::hand::Frame;
use crate::machine::{Machine, Step};
use crate::meant::{Meant, MeantEnd};
use crate::remembering::memory;
use crate::shared_state::Core;
use crate::stack::Stack;
use crate::value::Value;
use ec_base::{List, Memory, NoMemory, Text};
use ec_resolve::{Block, Function, resolve};
use ec_types::Typed;
use std::alloc::{AllocError, Global};

/// What a typed program means with these arguments and at most so many ticks.
pub fn means(alloc: Global, t: &Typed, args: &[i64], ticks: u64) -> Result<Meant, NoMemory>
    ensures meaning { IfOk result (IsMeant t.now args.now ticks) }
    ensures rising { IfOk result (λ m. IsRising m.store) }
{
    if ticks == 0 {
        return Ok(Meant::without_output(alloc, MeantEnd::OutOfTicks, 0));
    }
    let resolved = resolve(alloc, t)?;
    let functions = resolved.functions.as_slice();
    let empty = empty_function(alloc);
    let main = functions.get(resolved.main).unwrap_or(&empty);
    let mut machine = Machine::start(alloc, functions, main, args, ticks - 1)?;
    let step = machine.run(alloc)?;
    Ok(machine.meant(alloc, step, ticks)?)
}

/// A function without parameters that does nothing.
fn empty_function(alloc: Global) -> Function
    ensures { erased.function result ≡ programs.main_or None }
{
    Function {
        params: List::new(alloc),
        variables: List::new(alloc),
        void: true,
        pointer: false,
        shape: 0,
        body: Block {
            decls: List::new(alloc),
            actions: List::new(alloc),
        },
    }
}

impl Meant {
    /// A meaning without output and memory.
    fn without_output(alloc: Global, ending: MeantEnd, ticks: u64) -> Meant
        ensures { result ≡ without_output ending ticks }
    {
        Meant {
            ending,
            output: Text::from_vec(Vec::new(alloc)),
            result: 0,
            store: Memory {
                blocks: List::new(alloc),
            },
            ticks,
        }
    }
}

impl Core {
    /// Main's activation is open.
    fn of_main(alloc: Global) -> Result<Core, AllocError>
        ensures { IfOk result OfMain }
    {
        let mut births = Stack::new(alloc);
        births.push(0)?;
        Ok(Core {
            births,
            most: 1,
            output: Vec::new(alloc),
            blocks: Vec::new(alloc),
        })
    }
}

/// Arguments as values.
fn values(alloc: Global, args: &[i64]) -> Result<Vec<Value>, AllocError>
    ensures { IfOk result (λ vs. vs.items ≡ map value.Int args.now) }
{
    let mut values = Vec::new(alloc);
    for arg in args {
        values.push(Value::Int(*arg))?;
    }
    Ok(values)
}

impl<'a> Machine<'a> {
    /// Main's activation has just opened, with these arguments.
    fn start(
        alloc: Global,
        functions: &'a [Function],
        main: &'a Function,
        args: &[i64],
        ticks: u64,
    ) -> Result<Machine<'a>, AllocError>
        ensures { IfOk result (Starts functions.now main.now args.now ticks) }
    {
        let values = values(alloc, args)?;
        Ok(Machine {
            functions,
            running: Frame::of_function(alloc, main, values.as_slice())?,
            waiting: Stack::new(alloc),
            core: Core::of_main(alloc)?,
            ticks,
        })
    }

    /// What the machine has come to, of so many ticks.
    fn meant(self, alloc: Global, step: Step, ticks: u64) -> Result<Meant, AllocError>
        ensures meaning { EndedSo ticks self.entry step (λ s args. IfOk result (IsMeant s args ticks)) }
        ensures rising { EndedSo ticks self.entry step (λ s args. IfOk result (λ m. IsRising m.store)) }
    {
        let spent = ticks.saturating_sub(self.ticks);
        if let Step::TooDeep = step {
            return Ok(Meant::without_output(alloc, MeantEnd::TooDeep, spent));
        }
        let core = self.core;
        let Core {
            births: _,
            most: _,
            output,
            blocks,
        } = core;
        Ok(Meant {
            ending: step.ending(),
            output: Text::from_vec(output),
            result: step.result(),
            store: memory(alloc, blocks)?,
            ticks: spent,
        })
    }
}

impl Step {
    /// How the meaning ends whose last step this is.
    fn ending(self) -> MeantEnd
        ensures { result ≡ last.ending self }
    {
        match self {
            Step::On | Step::OutOfTicks => MeantEnd::OutOfTicks,
            Step::TooDeep => MeantEnd::TooDeep,
            Step::Trapped(trap) => MeantEnd::Trapped(trap),
            Step::Ended(_) => MeantEnd::Ended,
        }
    }

    /// The number that main gives, 0 where it gives none.
    fn result(self) -> i64
        ensures { (u : Untold) (pointer : Bool) → result ≡ last.result self pointer u }
    {
        match self {
            Step::Ended(value) => number(value),
            _ => 0,
        }
    }
}

/// The number that a value is, 0 where it is none.
fn number(value: Option<Value>) -> i64
    ensures { (u : Untold) (pointer : Bool) → result ≡ values.number (ended pointer value u) }
{
    match value {
        Some(Value::Int(n)) => n,
        _ => 0,
    }
}
