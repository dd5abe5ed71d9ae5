//! The variants of a text, and how many of them are taken.
ghost use Rattle.std.specs.Prelude.{◌≡◌, ◌<◌, ◌≤◌, ◌+◌, ◌*◌, ◌^◌, length, IfOk, OnOk};

use crate::judge::{Flaw, Verdict, judge};
use crate::variant::replaced;
use ec_base::{Fail, MAX_SOURCE};
use std::alloc::Global;

/// What each byte is replaced by: bytes that open, close and part things of each kind, and one that begins no token.
const OTHERS: [u8; 12] = *b"({\"*/;=)}a0$";

/// How many texts were judged, how many of them are programs, and how many of these are small.
#[derive(Clone, Copy)]
pub struct Tally {
    pub texts: u64,
    pub programs: u64,
    pub small: u64,
}

impl Tally {
    /// Judges one more text.
    fn count(&mut self, alloc: Global, text: &[u8]) -> Result<(), Fail<Flaw>>
        requires { self.old.texts < 2 ^ 32 }
        ensures { OnOk result (self.new.texts ≡ self.old.texts + 1) }
    {
        let verdict = judge(alloc, text)?;
        self.texts += 1;
        match verdict {
            Verdict::Refused => {}
            Verdict::Program => self.programs = self.programs.saturating_add(1),
            Verdict::Small => {
                self.programs = self.programs.saturating_add(1);
                self.small = self.small.saturating_add(1);
            }
        }
        Ok(())
    }

    /// Judges what a text is up to a place, and without the byte there, and with another in its place.
    fn count_at(&mut self, alloc: Global, text: &[u8], at: usize) -> Result<(), Fail<Flaw>>
        requires here { at < length text.now }
        requires room { self.old.texts < 2 ^ 31 }
        ensures { OnOk result (self.new.texts ≡ self.old.texts + 14) }
    {
        self.count(alloc, &text[..at])?;
        self.count(alloc, replaced(alloc, text, at, b"")?.as_slice())?;
        for other in OTHERS {
            self.count(alloc, replaced(alloc, text, at, &[other])?.as_slice())?;
        }
        Ok(())
    }
}

/// Judges the text, each beginning of it, and it with each byte left out or replaced.
pub fn tally_of(alloc: Global, text: &[u8]) -> Result<Tally, Fail<Flaw>>
    requires { length text.now ≤ MAX_SOURCE }
    ensures { IfOk result (λ t. t.texts ≡ 14 * length text.now + 1) }
{
    let mut tally = Tally {
        texts: 0,
        programs: 0,
        small: 0,
    };
    for at in 0..text.len() {
        tally.count_at(alloc, text, at)?;
    }
    tally.count(alloc, text)?;
    Ok(tally)
}
