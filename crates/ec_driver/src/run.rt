//! A program's run, and its report.
ghost use Rattle.std.specs.Prelude.{◌≡◌};
ghost use Rattle.ec_small.specs.Sound.{Sound};
ghost use Rattle.ec_driver.specs.Command.{run_of};
ghost use Rattle.ec_driver.specs.Drive.{ran_to};
ghost use Rattle.ec_driver.specs.Ending.{IsShown};
ghost use Rattle.ec_driver.specs.Load.{RunsProgram};

use crate::command::RunWords;
use crate::drive::{Progress, drive};
use crate::line::line;
use crate::say::{deliver, say_no_memory, stop};
use crate::status::{Report, Status};
use ec_agree::{ended_runs_agree, unended_runs_go_on};
use ec_core::{Code, Run};
use ec_edge::Sink;
use ec_small::Program;
use ec_split::split;
use std::alloc::Global;

/// Runs a program, and says and reports how the run ended.
pub(crate) fn run_program<O: Sink, E: Sink>(
    alloc: Global,
    words: &RunWords,
    program: &Program,
    out: &mut O,
    err: &mut E,
) -> Report
    requires sound { Sound program.now }
    requires words { words.now ≡ run_of words.now.file }
    ensures { RunsProgram words.now program.now result (O.has out.old) (O.has out.new) (E.has err.old) (E.has err.new) }
{
    let Ok(code) = split(alloc, program) else {
        return stop(alloc, out, err, Status::NoMemory);
    };
    match drive(alloc, &code) {
        Err(_) => stop(alloc, out, err, Status::NoMemory),
        Ok(progress) => {
            ended_runs_agree();
            unended_runs_go_on();
            finish(alloc, words, out, err, progress, code)
        }
    }
}

/// Says and reports how a run ended.
fn finish<O: Sink, E: Sink>(
    alloc: Global,
    words: &RunWords,
    out: &mut O,
    err: &mut E,
    progress: Progress,
    code: Code,
) -> Report
    ensures { IsShown (ran_to words.now code progress) result
        (O.has out.old) (O.has out.new) (E.has err.old) (E.has err.new) }
{
    let Progress { world, list, .. } = progress;
    let (status, value) = match world.result() {
        Some(value) => (Status::Done, value),
        None => (Status::StepsSpent, 0),
    };
    let run = Run {
        nodes: words.nodes,
        steps: words.steps,
        list,
    };
    let report = Report {
        status,
        run: Some(run),
        code: Some(code),
    };
    match line(alloc, &status, value) {
        Ok(line) => deliver(out, err, world.output().as_slice(), line.as_slice(), report),
        Err(_) => report.with(say_no_memory(err)),
    }
}
