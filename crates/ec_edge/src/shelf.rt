//! Named files.
ghost use Rattle.std.specs.Prelude.{◌≡◌, IfOk, OnOk};
ghost use Rattle.ec_base.specs.Answers.{OnRefused};
ghost use Rattle.ec_edge.specs.Fault.{OnMemory, Rose};
ghost use Rattle.ec_edge.specs.Shelf.{Gives, IsMade, OnlyReads, OnlyWrites, untold};

use crate::ends::{ReadEnd, ShelfFault};
use ec_base::{Fail, Text};

/// Keeps named files. It may leave untold what they hold, and whether there are any.
pub trait Shelf {
    ghost use Rattle.ec_edge.specs.Shelf.{SeenShelf};

    /// What it tells of each name, and its counts of faults.
    ghost has: { Self → SeenShelf };

    /// How many reads failed.
    fn read_faults(&self) -> u64
        ensures { result ≡ (has self.now).read_faults };

    /// How many writes failed.
    fn write_faults(&self) -> u64
        ensures { result ≡ (has self.now).write_faults };

    /// Reads the whole file, if it has at most this many bytes. A missing file is a counted fault.
    fn read(&mut self, name: &Text, most: u64) -> Result<ReadEnd, Fail<ShelfFault>>
        ensures only { OnlyReads (has self.old) (has self.new) }
        ensures ok { IfOk result (Gives ((has self.old).told name.now) most) }
        ensures quiet { OnOk result ((has self.new).read_faults ≡ (has self.old).read_faults) }
        ensures fault { OnRefused result (Rose (has self.old).read_faults (has self.new).read_faults) }
        ensures memory { OnMemory result (has self.new ≡ has self.old) };

    /// Makes these bytes the whole file. After a fault nothing is told of it.
    fn write(&mut self, name: &Text, bytes: &[u8]) -> Result<(), Fail<ShelfFault>>
        ensures only { OnlyWrites name.now (has self.old) (has self.new) }
        ensures ok { OnOk result (IsMade name.now bytes.now (has self.old) (has self.new)) }
        ensures quiet { OnOk result ((has self.new).write_faults ≡ (has self.old).write_faults) }
        ensures fault { OnRefused result (Rose (has self.old).write_faults (has self.new).write_faults) }
        ensures lost { OnRefused result ((has self.new).told name.now ≡ untold) }
        ensures memory { OnMemory result (has self.new ≡ has self.old) };
}
