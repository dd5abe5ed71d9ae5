//! What `printf` writes.
ghost use Rattle.std.specs.Prelude.{◌≡◌, ◌≤◌, ◌<◌, ◌^◌, length, drop, IfOk};
ghost use Rattle.ec_base.specs.Format.{IsWritten, conversions, formatted, step};

use crate::text::Text;
use itoa::Buffer;
use std::alloc::{AllocError, Global};

/// Where a byte of a string stands.
#[derive(Clone, Copy)]
enum Place {
    Plain,
    Percent,
    Long,
}

/// What a byte of a string does.
#[derive(Clone, Copy)]
enum Effect {
    Silent,
    Byte(u8),
    Convert,
    Bad,
}

fn step(at: Place, byte: u8) -> (Place, Effect)
    ensures { result ≡ step at byte }
{
    match at {
        Place::Plain => {
            if byte == b'%' {
                (Place::Percent, Effect::Silent)
            } else {
                (Place::Plain, Effect::Byte(byte))
            }
        }
        Place::Percent => {
            if byte == b'%' {
                (Place::Plain, Effect::Byte(b'%'))
            } else if byte == b'd' {
                (Place::Plain, Effect::Convert)
            } else if byte == b'l' {
                (Place::Long, Effect::Silent)
            } else {
                (Place::Plain, Effect::Bad)
            }
        }
        Place::Long => {
            if byte == b'd' {
                (Place::Plain, Effect::Convert)
            } else {
                (Place::Plain, Effect::Bad)
            }
        }
    }
}

/// The bytes that a string writes of these values: each `%d` and `%ld` stands for the next value in decimal, each
/// `%%` for `%`. A conversion without a value, and a `%` that begins none, write nothing.
pub fn format_values(alloc: Global, string: &[u8], values: &[i64]) -> Result<Text, AllocError>
    ensures { IfOk result (λ t. t ≡ formatted string.now values.now) }
{
    let mut out = Text::from_vec(Vec::new(alloc));
    let mut at = Place::Plain;
    let mut next = 0usize;
    for byte in string {
        let (place, effect) = step(at, *byte);
        at = place;
        next = write_effect(&mut out, effect, values, next)?;
    }
    Ok(out)
}

/// Writes one effect, and answers which value is the next.
fn write_effect(
    out: &mut Text,
    effect: Effect,
    values: &[i64],
    next: usize,
) -> Result<usize, AllocError>
    requires { next ≤ length values.now }
    ensures within { IfOk result (λ n. n ≤ length values.now) }
    ensures wrote { IfOk result (λ n. IsWritten effect out.old (drop next values.now) out.new (drop n values.now)) }
{
    match effect {
        Effect::Silent => Ok(next),
        Effect::Byte(b) => {
            out.append(&[b])?;
            Ok(next)
        }
        Effect::Convert => {
            if next == values.len() {
                return Ok(next);
            }
            out.append(Buffer::new().format(values[next]).as_bytes())?;
            Ok(next + 1)
        }
        Effect::Bad => Ok(next),
    }
}

/// How many values a string asks for, `None` where a `%` in it begins none of `%d`, `%ld` and `%%`.
#[tactic(auto, using(crate::proofs::Counts::counts))]
pub fn conversions(string: &[u8]) -> Option<u32>
    requires { length string.now < 2 ^ 32 }
    ensures { result ≡ conversions string.now }
{
    let mut at = Place::Plain;
    let mut count = 0u32;
    for byte in string {
        let (place, effect) = step(at, *byte);
        at = place;
        match effect {
            Effect::Silent => {}
            Effect::Byte(_) => {}
            Effect::Convert => count += 1,
            Effect::Bad => return None,
        }
    }
    match at {
        Place::Plain => Some(count),
        Place::Percent => None,
        Place::Long => None,
    }
}
