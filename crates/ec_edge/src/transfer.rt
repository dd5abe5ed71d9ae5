//! All bytes of a reader or to a writer, in as many calls as it takes.
ghost use Rattle.std.specs.Prelude.{◌≡◌, ℕ, List, [], IfOk, IsOk, OnErr, OnOk, Some};
ghost use Rattle.std.specs.Io.KnownBytes.{Appends};
ghost use Rattle.ec_edge.specs.Shelf.{Gives, holds};
ghost use Rattle.ec_edge.specs.Sink.{AppendsPart};

use crate::ends::ReadEnd;
use ec_base::{Fail, Text};
use std::alloc::Global;
use std::io;
use std::io::{ErrorKind, Read, Write};

/// Writes all bytes, or a first part of them at an error. A writer that takes none of them is an error.
#[tactic(auto, using(crate::proofs::Pieces::sent_more))]
pub fn send<W: Write>(to: &mut W, bytes: &[u8]) -> io::Result<()>
    ensures nothing { bytes.now ≡ [] → IsOk result }
    ensures ok { OnOk result (Appends (W.contents to.old) (W.contents to.new) bytes.now) }
    ensures err { OnErr result (AppendsPart (W.contents to.old) (W.contents to.new) bytes.now) }
{
    let mut done = 0;
    while done < bytes.len() {
        let taken = to.write(&bytes[done..])?;
        if taken == 0 {
            return Err(io::Error::from(ErrorKind::WriteZero));
        }
        done += taken;
    }
    Ok(())
}

/// Reads to the end, or until there are more than the most bytes.
pub fn receive<R: Read>(alloc: Global, from: &mut R, most: u64) -> Result<ReadEnd, Fail<io::Error>>
    ensures { (bytes : List ℕ) → R.remaining from.old ≡ Some bytes → IfOk result (Gives (holds bytes) most) }
{
    let mut held = Vec::new(alloc);
    let mut piece = [0u8; 4096];
    loop {
        let count = match from.read(&mut piece) {
            Ok(count) => count,
            Err(e) => return Err(Fail::Refused(e)),
        };
        if count == 0 {
            return Ok(ReadEnd::Whole(Text::from_vec(held)));
        }
        held.extend_from_slice(&piece[..count])?;
        if held.len() as u64 > most {
            return Ok(ReadEnd::TooLong);
        }
    }
}
