//! A shelf in memory, whose listed calls fail.
ghost use Rattle.std.specs.Prelude.{◌≡◌, ℕ, List, false, IfOk, OnOk, OnErr};
ghost use Rattle.std.specs.Option.{option_copied};
ghost use Rattle.ec_base.specs.Answers.{OnRefused};
ghost use Rattle.ec_edge.specs.Fault.{OnMemory, RaisedAtFault, Rose};
ghost use Rattle.ec_edge.specs.MemoryShelf.{IsCounted, IsNew, ReadsAs, WritesAs, fails_next, given, made, seen_shelf};
ghost use Rattle.ec_edge.specs.Shelf.{Gives, IsMade, OnlyReads, OnlyWrites, bytes_of, untold};

use crate::count::raised;
use crate::ends::{ReadEnd, ShelfFault};
use crate::shelf::Shelf;
use ec_base::{Fail, List, Text};
use std::alloc::{AllocError, Global};

/// What a write made of a file: these bytes, or something untold.
#[derive(Drop)]
pub struct Written {
    name: Text,
    bytes: Option<Text>,
}

/// Keeps files in memory. It is for tests: it keeps all that was written.
#[derive(Drop)]
pub struct MemShelf {
    alloc: Global,
    files: List<(Text, Text)>,
    written: List<Written>,
    fails: List<u64>,
    calls: u64,
    read_faults: u64,
    write_faults: u64,
}

impl MemShelf {
    /// Holds these files, by name. Reads and writes are counted together from 1, and those in `fails` fail.
    pub fn new(alloc: Global, files: List<(Text, Text)>, fails: List<u64>) -> MemShelf
        ensures { IsNew files fails result }
    {
        MemShelf {
            alloc,
            files,
            written: List::new(alloc),
            fails,
            calls: 0,
            read_faults: 0,
            write_faults: 0,
        }
    }

    /// What the file of this name holds, where it is told.
    pub fn told(&self, name: &[u8]) -> Option<&Text>
        ensures { option_copied result ≡ bytes_of ((seen_shelf self.now).told name.now) }
    {
        let mut found = self.given(name);
        for write in self.written.as_slice() {
            if write.name.as_slice() == name {
                found = write.bytes.as_ref();
            }
        }
        found
    }

    /// What the file of this name held at first.
    fn given(&self, name: &[u8]) -> Option<&Text>
        ensures { option_copied result ≡ bytes_of (given name.now self.now.files) }
    {
        for file in self.files.as_slice() {
            if file.0.as_slice() == name {
                return Some(&file.1);
            }
        }
        None
    }

    /// Whether the next call will fail.
    fn fails_next(&self) -> bool
        ensures { result ≡ fails_next self.now }
    {
        self.fails.as_slice().contains(&raised(self.calls))
    }

    /// Makes these bytes what the file of this name holds, or nothing that is told.
    #[tactic(auto, using(crate::proofs::Writes::told_same))]
    fn keep(&mut self, name: &Text, bytes: Option<Text>) -> Result<(), AllocError>
        ensures told { OnOk result ((seen_shelf self.new).told name.now ≡ made bytes) }
        ensures only { OnlyWrites name.now (seen_shelf self.old) (seen_shelf self.new) }
        ensures rest { self.new ≡ record self.old { written = self.new.written } }
        ensures err { OnErr result (self.new ≡ self.old) }
    {
        let name = name.copy(self.alloc)?;
        self.written.push(Written { name, bytes })?;
        Ok(())
    }

    /// The content as a read gives it, where it is told.
    fn fetch(&self, name: &[u8], most: u64) -> Result<ReadEnd, Fail<ShelfFault>>
        ensures { ReadsAs false ((seen_shelf self.now).told name.now) most result }
    {
        let Some(text) = self.told(name) else {
            return Err(Fail::Refused(ShelfFault));
        };
        if text.len() as u64 > most {
            return Ok(ReadEnd::TooLong);
        }
        Ok(ReadEnd::Whole(text.copy(self.alloc)?))
    }
}

impl Shelf for MemShelf {
    ghost use Rattle.ec_edge.specs.MemoryShelf.{seen_shelf};

    ghost has = { seen_shelf };

    fn read_faults(&self) -> u64 {
        self.read_faults
    }

    fn write_faults(&self) -> u64 {
        self.write_faults
    }

    fn read(&mut self, name: &Text, most: u64) -> Result<ReadEnd, Fail<ShelfFault>>
        ensures only { OnlyReads (seen_shelf self.old) (seen_shelf self.new) }
        ensures ok { IfOk result (Gives ((seen_shelf self.old).told name.now) most) }
        ensures quiet { OnOk result ((seen_shelf self.new).read_faults ≡ (seen_shelf self.old).read_faults) }
        ensures fault { OnRefused result (Rose (seen_shelf self.old).read_faults (seen_shelf self.new).read_faults) }
        ensures memory { OnMemory result (self.new ≡ self.old) }
        ensures exact { ReadsAs (fails_next self.old) ((seen_shelf self.old).told name.now) most result }
        ensures counted { OnOk result (IsCounted self.old self.new) }
        ensures counted_fault { OnRefused result (IsCounted self.old self.new) }
        ensures raised { RaisedAtFault (seen_shelf self.old).read_faults (seen_shelf self.new).read_faults result }
    {
        let answer = if self.fails_next() {
            Err(Fail::Refused(ShelfFault))
        } else {
            self.fetch(name.as_slice(), most)
        };
        match &answer {
            Ok(_) => self.calls = raised(self.calls),
            Err(Fail::Memory) => {}
            Err(Fail::Refused(_)) => {
                self.calls = raised(self.calls);
                self.read_faults = raised(self.read_faults);
            }
        }
        answer
    }

    fn write(&mut self, name: &Text, bytes: &[u8]) -> Result<(), Fail<ShelfFault>>
        ensures only { OnlyWrites name.now (seen_shelf self.old) (seen_shelf self.new) }
        ensures ok { OnOk result (IsMade name.now bytes.now (seen_shelf self.old) (seen_shelf self.new)) }
        ensures quiet { OnOk result ((seen_shelf self.new).write_faults ≡ (seen_shelf self.old).write_faults) }
        ensures fault { OnRefused result (Rose (seen_shelf self.old).write_faults (seen_shelf self.new).write_faults) }
        ensures lost { OnRefused result ((seen_shelf self.new).told name.now ≡ untold) }
        ensures memory { OnMemory result (self.new ≡ self.old) }
        ensures exact { WritesAs (fails_next self.old) bytes.now ((seen_shelf self.new).told name.now) result }
        ensures counted { OnOk result (IsCounted self.old self.new) }
        ensures counted_fault { OnRefused result (IsCounted self.old self.new) }
        ensures raised { RaisedAtFault (seen_shelf self.old).write_faults (seen_shelf self.new).write_faults result }
    {
        let fails = self.fails_next();
        let bytes = if fails {
            None
        } else {
            Some(Text::from_slice(self.alloc, bytes)?)
        };
        self.keep(name, bytes)?;
        self.calls = raised(self.calls);
        if fails {
            self.write_faults = raised(self.write_faults);
            return Err(Fail::Refused(ShelfFault));
        }
        Ok(())
    }
}
