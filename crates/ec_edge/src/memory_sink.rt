//! A sink in memory, whose listed calls fail.
ghost use Rattle.std.specs.Prelude.{OnOk, ◌≡◌, ◌≤◌, Some};
ghost use Rattle.ec_base.specs.Answers.{OnRefused};
ghost use Rattle.ec_edge.specs.Fault.{OnMemory, RaisedAtFault};
ghost use Rattle.ec_edge.specs.MemorySink.{IsCounted, IsNew, PutsAs, next_fault, seen_sink};
ghost use Rattle.ec_edge.specs.Sink.{Breaks, Takes};

use crate::count::raised;
use crate::ends::SinkFault;
use crate::sink::Sink;
use ec_base::{Fail, List, Text};
use std::alloc::Global;

/// Keeps what is put into it. It is for tests.
#[derive(Drop)]
pub struct MemSink {
    bytes: Text,
    fails: List<(u64, u64)>,
    calls: u64,
    faults: u64,
}

impl MemSink {
    /// The puts are counted from 1. Each `(call, bytes)` of `fails` makes that call fail after so many bytes.
    pub fn new(alloc: Global, fails: List<(u64, u64)>) -> MemSink
        ensures { IsNew fails result }
    {
        MemSink {
            bytes: Text::from_vec(Vec::new(alloc)),
            fails,
            calls: 0,
            faults: 0,
        }
    }

    pub fn bytes(&self) -> &[u8]
        ensures { (seen_sink self.now).written ≡ Some result.now }
    {
        self.bytes.as_slice()
    }

    /// After how many bytes the next call fails, if it does.
    fn next_fault(&self) -> Option<u64>
        ensures { result ≡ next_fault self.now }
    {
        let next = raised(self.calls);
        for &(call, bytes) in self.fails.as_slice() {
            if call == next {
                return Some(bytes);
            }
        }
        None
    }
}

impl Sink for MemSink {
    ghost use Rattle.ec_edge.specs.MemorySink.{seen_sink};

    ghost has = { seen_sink };

    fn faults(&self) -> u64 {
        self.faults
    }

    fn put(&mut self, bytes: &[u8]) -> Result<(), Fail<SinkFault>>
        ensures counts { (seen_sink self.old).faults ≤ (seen_sink self.new).faults }
        ensures ok { OnOk result (Takes bytes.now (seen_sink self.old) (seen_sink self.new)) }
        ensures fault { OnRefused result (Breaks bytes.now (seen_sink self.old) (seen_sink self.new)) }
        ensures memory { OnMemory result (self.new ≡ self.old) }
        ensures exact { PutsAs self.old bytes.now self.new result }
        ensures counted { OnOk result (IsCounted self.old self.new) }
        ensures counted_fault { OnRefused result (IsCounted self.old self.new) }
        ensures raised { RaisedAtFault (seen_sink self.old).faults (seen_sink self.new).faults result }
    {
        let fault = self.next_fault();
        let part = match fault {
            Some(most) => bytes.len().min(most as usize),
            None => bytes.len(),
        };
        self.bytes.append(&bytes[..part])?;
        self.calls = raised(self.calls);
        if fault.is_some() {
            self.faults = raised(self.faults);
            return Err(Fail::Refused(SinkFault));
        }
        Ok(())
    }
}
