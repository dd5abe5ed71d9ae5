//! Sinks of bytes.
ghost use Rattle.std.specs.Prelude.{◌≡◌, ◌≤◌, OnOk};
ghost use Rattle.ec_base.specs.Answers.{OnRefused};
ghost use Rattle.ec_edge.specs.Fault.{OnMemory};
ghost use Rattle.ec_edge.specs.Sink.{Breaks, Takes};

use crate::ends::SinkFault;
use ec_base::Fail;

/// Takes bytes. It may leave untold what it has.
pub trait Sink {
    ghost use Rattle.ec_edge.specs.Sink.{SeenSink};

    /// What it tells was written, and its count of faults.
    ghost has: { Self → SeenSink };

    /// How many puts failed.
    fn faults(&self) -> u64
        ensures { result ≡ (has self.now).faults };

    /// Appends all bytes, or a first part of them at a fault.
    fn put(&mut self, bytes: &[u8]) -> Result<(), Fail<SinkFault>>
        ensures counts { (has self.old).faults ≤ (has self.new).faults }
        ensures ok { OnOk result (Takes bytes.now (has self.old) (has self.new)) }
        ensures fault { OnRefused result (Breaks bytes.now (has self.old) (has self.new)) }
        ensures memory { OnMemory result (has self.new ≡ has self.old) };
}
