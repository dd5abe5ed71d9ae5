//! The files of the system.
ghost use Rattle.std.specs.Prelude.{◌≡◌, IsErr, OnOk};
ghost use Rattle.std.specs.Str.{IsUtf8};
ghost use Rattle.ec_base.specs.Answers.{OnRefused};
ghost use Rattle.ec_edge.specs.Fault.{IsRefused, OnMemory, RaisedAtFault, Rose};
ghost use Rattle.ec_edge.specs.Files.{seen_files};
ghost use Rattle.ec_edge.specs.Shelf.{OnlyReads, OnlyWrites};

use crate::count::raised;
use crate::ends::{ReadEnd, ShelfFault};
use crate::shelf::Shelf;
use crate::transfer::{receive, send};
use ec_base::{Fail, Text};
use std::alloc::Global;
use std::fs::{File, Files};

/// The files of the system, of whose content nothing is told. A name is a path, which has to be UTF-8.
#[derive(Drop)]
pub struct FileShelf<R: Drop> {
    rt: R,
    alloc: Global,
    failed_reads: u64,
    failed_writes: u64,
}

impl<R: Drop> FileShelf<R> {
    pub fn new(rt: R, alloc: Global) -> FileShelf<R>
        ensures reads { (seen_files result).read_faults ≡ 0 }
        ensures writes { (seen_files result).write_faults ≡ 0 }
    {
        FileShelf {
            rt,
            alloc,
            failed_reads: 0,
            failed_writes: 0,
        }
    }
}

/// What the file of this name holds, or a fault where it can't be read.
fn load<R: Files>(
    rt: &R,
    alloc: Global,
    name: &Text,
    most: u64,
) -> Result<ReadEnd, Fail<ShelfFault>>
    ensures { ¬ (IsUtf8 name.now) → IsRefused result }
{
    let Ok(path) = std::str::from_utf8(name.as_slice()) else {
        return Err(Fail::Refused(ShelfFault));
    };
    let Ok(mut file) = File::open(rt, path) else {
        return Err(Fail::Refused(ShelfFault));
    };
    match receive(alloc, &mut file, most) {
        Ok(end) => Ok(end),
        Err(Fail::Memory) => Err(Fail::Memory),
        Err(Fail::Refused(_)) => Err(Fail::Refused(ShelfFault)),
    }
}

/// Makes the file of this name hold these bytes, or fails.
fn save<R: Files>(rt: &R, name: &Text, bytes: &[u8]) -> Result<(), ShelfFault>
    ensures { ¬ (IsUtf8 name.now) → IsErr result }
{
    let path = std::str::from_utf8(name.as_slice()).map_err(|_| ShelfFault)?;
    let mut file = File::create(rt, path).map_err(|_| ShelfFault)?;
    send(&mut file, bytes).map_err(|_| ShelfFault)
}

impl<R: Files + Drop> Shelf for FileShelf<R> {
    ghost use Rattle.ec_edge.specs.Files.{seen_files};

    ghost has = { seen_files };

    fn read_faults(&self) -> u64 {
        self.failed_reads
    }

    fn write_faults(&self) -> u64 {
        self.failed_writes
    }

    fn read(&mut self, name: &Text, most: u64) -> Result<ReadEnd, Fail<ShelfFault>>
        ensures path { ¬ (IsUtf8 name.now) → IsRefused result }
        ensures only { OnlyReads (seen_files self.old) (seen_files self.new) }
        ensures quiet { OnOk result ((seen_files self.new).read_faults ≡ (seen_files self.old).read_faults) }
        ensures fault { OnRefused result (Rose (seen_files self.old).read_faults (seen_files self.new).read_faults) }
        ensures memory { OnMemory result (seen_files self.new ≡ seen_files self.old) }
        ensures raised { RaisedAtFault (seen_files self.old).read_faults (seen_files self.new).read_faults result }
    {
        let answer = load(&self.rt, self.alloc, name, most);
        if let Err(Fail::Refused(_)) = &answer {
            self.failed_reads = raised(self.failed_reads);
        }
        answer
    }

    fn write(&mut self, name: &Text, bytes: &[u8]) -> Result<(), Fail<ShelfFault>>
        ensures path { ¬ (IsUtf8 name.now) → IsRefused result }
        ensures only { OnlyWrites name.now (seen_files self.old) (seen_files self.new) }
        ensures quiet { OnOk result ((seen_files self.new).write_faults ≡ (seen_files self.old).write_faults) }
        ensures fault { OnRefused result (Rose (seen_files self.old).write_faults (seen_files self.new).write_faults) }
        ensures memory { OnMemory result (seen_files self.new ≡ seen_files self.old) }
        ensures raised { RaisedAtFault (seen_files self.old).write_faults (seen_files self.new).write_faults result }
    {
        match save(&self.rt, name, bytes) {
            Ok(()) => Ok(()),
            Err(fault) => {
                self.failed_writes = raised(self.failed_writes);
                Err(Fail::Refused(fault))
            }
        }
    }
}
