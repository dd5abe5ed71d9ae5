//! What a program means, and how that is told.
ghost use Rattle.std.specs.Prelude.{◌≡◌};
ghost use Rattle.ec_base.specs.declared.limits.TheConstants.{MAX_TICKS};
ghost use Rattle.ec_types.specs.Meaning.Programs.{mean};
ghost use Rattle.ec_driver.specs.Answered.{status_of, told_of};
ghost use Rattle.ec_driver.specs.Ending.{IsShown};
ghost use Rattle.ec_driver.specs.Load.{EndsBy};
ghost use Rattle.ec_driver.specs.Meant.{meant};

use crate::line::line;
use crate::say::{deliver, say_no_memory, stop};
use crate::status::{Report, Status};
use ec_base::MAX_TICKS;
use ec_edge::Sink;
use ec_meaning::{Meant, MeantEnd, means};
use ec_types::{Typed, meanings_are_settled};
use std::alloc::Global;

/// The status of a meaning.
fn status_of(ending: MeantEnd) -> Status
    ensures { result ≡ status_of ending }
{
    match ending {
        MeantEnd::Ended => Status::Done,
        MeantEnd::Trapped(trap) => Status::Trapped(trap),
        MeantEnd::OutOfTicks => Status::StepsSpent,
        MeantEnd::TooDeep => Status::TooDeep,
    }
}

/// Says and reports what a program means with these arguments.
pub(crate) fn say_meaning<O: Sink, E: Sink>(
    alloc: Global,
    program: &Typed,
    args: &[i64],
    out: &mut O,
    err: &mut E,
) -> Report
    ensures { EndsBy (λ e. e ≡ meant (mean program.now args.now MAX_TICKS)) result
        (O.has out.old) (O.has out.new) (E.has err.old) (E.has err.new) }
{
    meanings_are_settled();
    match means(alloc, program, args, MAX_TICKS as u64) {
        Err(_) => stop(alloc, out, err, Status::NoMemory),
        Ok(meant) => tell(alloc, &meant, out, err),
    }
}

/// Says and reports a meaning.
fn tell<O: Sink, E: Sink>(alloc: Global, meant: &Meant, out: &mut O, err: &mut E) -> Report
    ensures { IsShown (told_of meant.now) result (O.has out.old) (O.has out.new) (E.has err.old) (E.has err.new) }
{
    let report = Report::bare(status_of(meant.ending));
    match line(alloc, &report.status, meant.result) {
        Ok(line) => deliver(out, err, meant.output.as_slice(), line.as_slice(), report),
        Err(_) => report.with(say_no_memory(err)),
    }
}
