//! Reads each text of data/, every beginning of it, and it with each byte left out or replaced by each of a dozen
//! others. Each of these texts has to be a program, whose canonical text is printed again as it is, or to be refused by
//! a number that is named at a place inside it. A line tells how many there were.
#![tactic(auto)]

ghost use Rattle.std.specs.Prelude.{◌≤◌, length, IfOk};

mod judge;
mod tally;
mod variant;

use crate::judge::Flaw;
use crate::tally::tally_of;
use ec_base::{Fail, MAX_SOURCE, Text};
use ec_edge::{FileShelf, ReadEnd, Shelf};
use std::{env, io};

/// The bytes of a file, or why there are none.
fn fetch(rt: &HostRuntime, name: &str) -> Result<Text, Fail<Flaw>>
    ensures { IfOk result (λ text. length text ≤ MAX_SOURCE) }
{
    let alloc = rt.alloc();
    let name = Text::from_slice(alloc, name.as_bytes())?;
    match FileShelf::new(rt, alloc).read(&name, MAX_SOURCE as u64) {
        Ok(ReadEnd::Whole(text)) if text.len() <= MAX_SOURCE as usize => Ok(text),
        Ok(_) => Err(Fail::Refused(Flaw::TooLong)),
        Err(Fail::Memory) => Err(Fail::Memory),
        Err(Fail::Refused(_)) => Err(Fail::Refused(Flaw::NoFile)),
    }
}

/// Judges the variants of a file, and prints a line of them.
fn try_file(rt: &HostRuntime, name: &str) -> io::Result<()> {
    let told = match fetch(rt, name) {
        Ok(text) => tally_of(rt.alloc(), text.as_slice()),
        Err(fail) => Err(fail),
    };
    match told {
        Ok(tally) => println!(rt;
            "{name}: {} texts, {} programs, {} of them small",
            tally.texts, tally.programs, tally.small
        ),
        Err(fail) => println!(rt; "{name}: {fail}"),
    }
}

fn main(rt: HostRuntime) -> io::Result<()> {
    for name in env::args(&rt)?.skip(1) {
        try_file(&rt, name.as_str())?;
    }
    Ok(())
}
