//! The standard output and error.
ghost use Rattle.std.specs.Prelude.{OnOk, ◌≡◌, ◌≤◌, [], IsOk};
ghost use Rattle.ec_base.specs.Answers.{OnRefused};
ghost use Rattle.ec_edge.specs.Fault.{OnMemory, RaisedAtFault};
ghost use Rattle.ec_edge.specs.Files.{seen_stream, which_of};
ghost use Rattle.ec_edge.specs.Sink.{Breaks, Takes};

use crate::count::raised;
use crate::ends::SinkFault;
use crate::sink::Sink;
use crate::transfer::send;
use ec_base::Fail;
use std::io;
use std::io::{Stderr, Stdout};

/// Which of the standard streams.
#[derive(Clone, Copy, Debug)]
pub enum Std {
    Out,
    Err,
}

/// A standard stream. Nothing is told of what was written to it, and nothing is kept back.
#[derive(Drop)]
pub struct StdSink {
    out: Stdout,
    err: Stderr,
    which: Std,
    faults: u64,
}

impl StdSink {
    pub fn new(rt: &HostRuntime, which: Std) -> StdSink
        ensures which { which_of result ≡ which }
        ensures faults { (seen_stream result).faults ≡ 0 }
    {
        StdSink {
            out: rt.stdout(),
            err: rt.stderr(),
            which,
            faults: 0,
        }
    }

    fn send(&mut self, bytes: &[u8]) -> io::Result<()>
        ensures nothing { bytes.now ≡ [] → IsOk result }
        ensures faults { (seen_stream self.new).faults ≡ (seen_stream self.old).faults }
    {
        match self.which {
            Std::Out => send(&mut self.out, bytes),
            Std::Err => send(&mut self.err, bytes),
        }
    }
}

impl Sink for StdSink {
    ghost use Rattle.ec_edge.specs.Files.{seen_stream};

    ghost has = { seen_stream };

    fn faults(&self) -> u64 {
        self.faults
    }

    fn put(&mut self, bytes: &[u8]) -> Result<(), Fail<SinkFault>>
        ensures nothing { bytes.now ≡ [] → IsOk result }
        ensures counts { (seen_stream self.old).faults ≤ (seen_stream self.new).faults }
        ensures ok { OnOk result (Takes bytes.now (seen_stream self.old) (seen_stream self.new)) }
        ensures fault { OnRefused result (Breaks bytes.now (seen_stream self.old) (seen_stream self.new)) }
        ensures memory { OnMemory result (seen_stream self.new ≡ seen_stream self.old) }
        ensures raised { RaisedAtFault (seen_stream self.old).faults (seen_stream self.new).faults result }
    {
        if self.send(bytes).is_ok() {
            return Ok(());
        }
        self.faults = raised(self.faults);
        Err(Fail::Refused(SinkFault))
    }
}
