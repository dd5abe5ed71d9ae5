//! What is written of how a command ends.
ghost use Rattle.std.specs.Prelude.{◌≡◌, ◌⊎◌, [], OnErr, OnOk};
ghost use Rattle.ec_base.specs.Answers.{OnRefused};
ghost use Rattle.ec_edge.specs.Fault.{OnMemory, Rose};
ghost use Rattle.ec_edge.specs.Sink.{Takes};
ghost use Rattle.ec_driver.specs.Ending.{IsShown, ending, stop};

use crate::line::line;
use crate::status::{Report, Status};
use ec_base::Fail;
use ec_edge::{Sink, SinkFault};
use std::alloc::Global;

/// Puts a piece, unless it is empty.
#[tactic(auto, using(crate::proofs::Delivery::takes_nothing))]
fn put<W: Sink>(to: &mut W, piece: &[u8]) -> Result<(), Fail<SinkFault>>
    ensures ok { OnOk result (Takes piece.now (W.has to.old) (W.has to.new)) }
    ensures silent { piece.now ≡ [] → W.has to.new ≡ W.has to.old }
    ensures some { OnErr result (piece.now ≡ [] → ⊥) }
    ensures fault { OnRefused result (Rose (W.has to.old).faults (W.has to.new).faults) }
    ensures memory { OnMemory result (W.has to.new ≡ W.has to.old) }
{
    if piece.is_empty() {
        return Ok(());
    }
    to.put(piece)
}

/// Puts the line of want of memory, which takes none.
pub(crate) fn say_no_memory<E: Sink>(err: &mut E) -> Status
    ensures status { (result ≡ Status.NoMemory) ⊎ (result ≡ Status.WriteFault) }
    ensures fault { result ≡ Status.WriteFault → Rose (E.has err.old).faults (E.has err.new).faults }
{
    match err.put(b"no memory\n") {
        Ok(()) | Err(Fail::Memory) => Status::NoMemory,
        Err(Fail::Refused(_)) => Status::WriteFault,
    }
}

/// Writes the output, and then the line, neither where it is empty. The report keeps what it has, and tells what went
/// wrong.
pub(crate) fn deliver<O: Sink, E: Sink>(
    out: &mut O,
    err: &mut E,
    output: &[u8],
    line: &[u8],
    report: Report,
) -> Report
    requires written { report.status ≡ Status.WriteFault → ⊥ }
    requires memory { report.status ≡ Status.NoMemory → output.now ≡ [] }
    ensures { IsShown (ending report output.now line.now) result
        (O.has out.old) (O.has out.new) (E.has err.old) (E.has err.new) }
{
    match put(out, output) {
        Ok(()) => {}
        Err(Fail::Memory) => return report.with(say_no_memory(err)),
        Err(Fail::Refused(_)) => return report.with(Status::WriteFault),
    }
    match put(err, line) {
        Ok(()) => report,
        Err(Fail::Memory) => report.with(say_no_memory(err)),
        Err(Fail::Refused(_)) => report.with(Status::WriteFault),
    }
}

/// Says why nothing was done: nothing is put to the output, and the line of the status to the error stream.
pub fn stop<O: Sink, E: Sink>(alloc: Global, out: &mut O, err: &mut E, status: Status) -> Report
    requires { status ≡ Status.WriteFault → ⊥ }
    ensures { IsShown (stop status) result (O.has out.old) (O.has out.new) (E.has err.old) (E.has err.new) }
{
    let report = Report::bare(status);
    match line(alloc, &status, 0) {
        Ok(line) => deliver(out, err, b"", line.as_slice(), report),
        Err(_) => report.with(say_no_memory(err)),
    }
}
