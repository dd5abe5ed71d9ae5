//! The top call, and its two halves: one for the commands that always return, one for those that may wait.
ghost use Rattle.std.specs.Prelude.{◌≡◌, ◌<◌, ◌≤◌, ◌^◌, ℕ, true, false};
ghost use Rattle.ec_edge.specs.Shelf.{OnlyReads};
ghost use Rattle.ec_driver.specs.declared.command.Command.{Command};
ghost use Rattle.ec_driver.specs.declared.command.Command.TheVariants.{Check, Print, Means, Run};
ghost use Rattle.ec_driver.specs.Command.{IsCommand, IsGiven, IsNoCommand, is_threaded, run_of};
ghost use Rattle.ec_driver.specs.Status.{ReadsAs};
ghost use Rattle.ec_driver.specs.Task.{AcceptsTold, Does, Ends, Leaves, RefusesTold};

use crate::command::{Command, RunWords, read_words};
use crate::laws::sources_are_refused_once;
use crate::meaning::say_meaning;
use crate::run::run_program;
use crate::say::{deliver, stop};
use crate::source::{load, load_checked, load_printed, load_typed};
use crate::status::{Report, Status};
use ec_base::{Fail, List, Text};
use ec_edge::{Gate, Shelf, Sink};
use std::alloc::Global;

/// Checks the source of a file, and says whether it is accepted.
fn check<S: Shelf, O: Sink, E: Sink>(
    alloc: Global,
    file: &Text,
    shelf: &mut S,
    out: &mut O,
    err: &mut E,
) -> Report
    ensures end { Does (Check file.now) (S.has shelf.old)
        (O.has out.old) (O.has out.new) (E.has err.old) (E.has err.new) result }
    ensures reads { ReadsAs result.status (S.has shelf.old).read_faults (S.has shelf.new).read_faults }
    ensures only { OnlyReads (S.has shelf.old) (S.has shelf.new) }
{
    match load_checked(alloc, shelf, file) {
        Ok(()) => deliver(out, err, b"accepted\n", b"", Report::bare(Status::Done)),
        Err(status) => stop(alloc, out, err, status),
    }
}

/// Writes the canonical text of a file.
fn print<S: Shelf, O: Sink, E: Sink>(
    alloc: Global,
    file: &Text,
    shelf: &mut S,
    out: &mut O,
    err: &mut E,
) -> Report
    ensures end { Does (Print file.now) (S.has shelf.old)
        (O.has out.old) (O.has out.new) (E.has err.old) (E.has err.new) result }
    ensures reads { ReadsAs result.status (S.has shelf.old).read_faults (S.has shelf.new).read_faults }
    ensures only { OnlyReads (S.has shelf.old) (S.has shelf.new) }
{
    match load_printed(alloc, shelf, file) {
        Ok(text) => deliver(out, err, text.as_slice(), b"", Report::bare(Status::Done)),
        Err(status) => stop(alloc, out, err, status),
    }
}

/// Says what the program of a file means with these arguments, and reports how that ended.
fn means<S: Shelf, O: Sink, E: Sink>(
    alloc: Global,
    file: &Text,
    args: &List<i64>,
    shelf: &mut S,
    out: &mut O,
    err: &mut E,
) -> Report
    ensures end { Does (Means file.now args.now) (S.has shelf.old)
        (O.has out.old) (O.has out.new) (E.has err.old) (E.has err.new) result }
    ensures reads { ReadsAs result.status (S.has shelf.old).read_faults (S.has shelf.new).read_faults }
    ensures only { OnlyReads (S.has shelf.old) (S.has shelf.new) }
{
    match load_typed(alloc, shelf, file) {
        Ok(program) => say_meaning(alloc, &program, args.as_slice(), out, err),
        Err(status) => stop(alloc, out, err, status),
    }
}

/// Runs the program of a file, and says and reports how that ended.
fn run<S: Shelf, O: Sink, E: Sink>(
    alloc: Global,
    words: &RunWords,
    shelf: &mut S,
    out: &mut O,
    err: &mut E,
) -> Report
    requires { words.now ≡ run_of words.now.file }
    ensures end { Does (Run words.now) (S.has shelf.old)
        (O.has out.old) (O.has out.new) (E.has err.old) (E.has err.new) result }
    ensures reads { ReadsAs result.status (S.has shelf.old).read_faults (S.has shelf.new).read_faults }
    ensures only { OnlyReads (S.has shelf.old) (S.has shelf.new) }
{
    match load(alloc, shelf, &words.file) {
        Ok(program) => run_program(alloc, words, &program, out, err),
        Err(status) => stop(alloc, out, err, status),
    }
}

/// Does a command.
fn perform<S: Shelf, O: Sink, E: Sink>(
    alloc: Global,
    command: &Command,
    shelf: &mut S,
    out: &mut O,
    err: &mut E,
) -> Report
    requires { IsGiven command.now }
    ensures end { Does command.now (S.has shelf.old)
        (O.has out.old) (O.has out.new) (E.has err.old) (E.has err.new) result }
    ensures refused { RefusesTold command.now (S.has shelf.old) result.status }
    ensures accepted { AcceptsTold command.now (S.has shelf.old) result.status }
    ensures reads { ReadsAs result.status (S.has shelf.old).read_faults (S.has shelf.new).read_faults }
    ensures leaves { Leaves command.now (S.has shelf.old) (S.has shelf.new) }
{
    sources_are_refused_once();
    match command {
        Command::Check(file) => check(alloc, file, shelf, out, err),
        Command::Print(file) => print(alloc, file, shelf, out, err),
        Command::Means(file, args) => means(alloc, file, args, shelf, out, err),
        Command::Run(words) => run(alloc, words, shelf, out, err),
    }
}

/// Does a command that runs no program. It always returns.
pub fn plain<S: Shelf, O: Sink, E: Sink>(
    alloc: Global,
    command: &Command,
    shelf: &mut S,
    out: &mut O,
    err: &mut E,
) -> Report
    requires own { is_threaded command.now ≡ false }
    requires given { IsGiven command.now }
    ensures end { Does command.now (S.has shelf.old)
        (O.has out.old) (O.has out.new) (E.has err.old) (E.has err.new) result }
    ensures refused { RefusesTold command.now (S.has shelf.old) result.status }
    ensures accepted { AcceptsTold command.now (S.has shelf.old) result.status }
    ensures reads { ReadsAs result.status (S.has shelf.old).read_faults (S.has shelf.new).read_faults }
    ensures leaves { Leaves command.now (S.has shelf.old) (S.has shelf.new) }
{
    perform(alloc, command, shelf, out, err)
}

/// Does a command that runs a program: its output goes to `out`, and one line to `err`. Neither the gate nor the
/// chooser is asked while there is one node.
pub fn threaded<S: Shelf, O: Sink, E: Sink, G: Gate + Sync, F: Fn(u64) -> u64 + Sync>(
    alloc: Global,
    command: &Command,
    shelf: &mut S,
    out: &mut O,
    err: &mut E,
    _gate: &G,
    _choose: &F,
) -> Report
    requires callable { (c : ℕ) → 1 ≤ c → c < 2 ^ 64 → F.pre _choose.now c }
    requires below { (c r : ℕ) → 1 ≤ c → c < 2 ^ 64 → F.post _choose.now c r → r < c }
    requires own { is_threaded command.now ≡ true }
    requires given { IsGiven command.now }
    ensures end { Does command.now (S.has shelf.old)
        (O.has out.old) (O.has out.new) (E.has err.old) (E.has err.new) result }
    ensures refused { RefusesTold command.now (S.has shelf.old) result.status }
    ensures accepted { AcceptsTold command.now (S.has shelf.old) result.status }
    ensures reads { ReadsAs result.status (S.has shelf.old).read_faults (S.has shelf.new).read_faults }
    ensures leaves { Leaves command.now (S.has shelf.old) (S.has shelf.new) }
{
    perform(alloc, command, shelf, out, err)
}

/// Does what the words ask for, and says how it ended: words that are no command, a source that is refused, a fault or
/// want of memory by one line on `err`.
pub fn earthc<S: Shelf, O: Sink, E: Sink, G: Gate + Sync, F: Fn(u64) -> u64 + Sync>(
    alloc: Global,
    words: &[Text],
    shelf: &mut S,
    out: &mut O,
    err: &mut E,
    gate: &G,
    choose: &F,
) -> Report
    requires callable { (c : ℕ) → 1 ≤ c → c < 2 ^ 64 → F.pre choose.now c }
    requires below { (c r : ℕ) → 1 ≤ c → c < 2 ^ 64 → F.post choose.now c r → r < c }

    // The report and the sinks show an ending that the words may have.
    ensures end { Ends words.now (S.has shelf.old)
        (O.has out.old) (O.has out.new) (E.has err.old) (E.has err.new) result }

    // A source that is told is refused exactly where the command refuses it, unless reading it, or the call, fails.
    ensures refused { (c : Command) → IsCommand words.now c → RefusesTold c (S.has shelf.old) result.status }
    ensures accepted { (c : Command) → IsCommand words.now c → AcceptsTold c (S.has shelf.old) result.status }

    // A read fault is answered only where the count rose, and the count rises only there, or where the call then fails.
    ensures reads { ReadsAs result.status (S.has shelf.old).read_faults (S.has shelf.new).read_faults }

    // The shelf stays as it is, but for the files that the command may change.
    ensures leaves { (c : Command) → IsCommand words.now c → Leaves c (S.has shelf.old) (S.has shelf.new) }
    ensures untouched { IsNoCommand words.now → S.has shelf.new ≡ S.has shelf.old }
{
    let command = match read_words(alloc, words) {
        Ok(command) => command,
        Err(Fail::Memory) => return stop(alloc, out, err, Status::NoMemory),
        Err(Fail::Refused(_)) => return stop(alloc, out, err, Status::WordsRefused),
    };
    if command.is_threaded() {
        threaded(alloc, &command, shelf, out, err, gate, choose)
    } else {
        plain(alloc, &command, shelf, out, err)
    }
}
