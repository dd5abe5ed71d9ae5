//! Strings: where one closes, and what its inside stands for.
ghost use Rattle.std.specs.Prelude.{◌≡◌, ◌<◌, ◌≤◌, ◌+◌, ◌^◌, false, length, IfOk, IfSome};
ghost use Rattle.ec_lex.specs.Strings as spec;

use crate::bytes::is_control;
use ec_base::{Reason, Text};
use std::alloc::{AllocError, Global};

/// What a byte of a string stands for.
#[derive(Clone, Copy)]
pub enum Piece {
    /// The first byte of an escape.
    Backslash,
    Byte(u8),
    Bad(Reason),
}

/// What the inside of a string stands for: its bytes, or its first fault, from a place to another.
#[derive(Drop)]
pub enum Decoded {
    Whole(Text),
    Broken {
        reason: Reason,
        from: usize,
        to: usize,
    },
}

/// The place of the quote that closes a string whose bytes after the opening quote are these.
pub fn closing(inside: &[u8]) -> Option<usize>
    requires { length inside.now < 2 ^ 63 }
    ensures value { result ≡ spec.closing false 1 inside.now }
    ensures within { IfSome result (λ end. (1 ≤ end) × (end ≤ length inside.now)) }
{
    let mut escaped = false;
    for (at, byte) in inside.iter().enumerate() {
        if *byte == b'\n' {
            return None;
        }
        if !escaped && *byte == b'"' {
            return Some(at + 1);
        }
        escaped = !escaped && *byte == b'\\';
    }
    None
}

fn escape(byte: u8) -> Piece
    ensures value { result ≡ spec.escape byte }
    ensures lexical { spec.IsLexicalPiece result }
{
    match byte {
        b'n' => Piece::Byte(b'\n'),
        b't' => Piece::Byte(b'\t'),
        b'\\' | b'"' => Piece::Byte(byte),
        _ => Piece::Bad(Reason::BadEscape),
    }
}

fn piece_of(escaped: bool, byte: u8) -> Piece
    ensures value { result ≡ spec.piece escaped byte }
    ensures lexical { spec.IsLexicalPiece result }
{
    if escaped {
        escape(byte)
    } else if byte == b'\\' {
        Piece::Backslash
    } else if is_control(byte) {
        Piece::Bad(Reason::BadByte)
    } else {
        Piece::Byte(byte)
    }
}

/// Where a piece that ends at the place `at` begins.
fn begin_of(escaped: bool, at: usize) -> usize
    requires { 1 ≤ at }
    ensures { result ≡ spec.begin_of escaped at }
{
    if escaped { at - 1 } else { at }
}

/// Decodes the inside of a string.
#[tactic(auto, using(crate::proofs::Inside::Decoding::decoding))]
pub fn decode(alloc: Global, inside: &[u8]) -> Result<Decoded, AllocError>
    requires { length inside.now < 2 ^ 63 }
    ensures value { IfOk result (λ d. d ≡ spec.decoded false 1 inside.now) }
    ensures part { IfOk result (λ d. spec.IsWithin (length inside.now) d) }
    ensures lexical { IfOk result spec.IsLexicalString }
{
    let mut bytes = Vec::new(alloc);
    let mut escaped = false;
    for (before, byte) in inside.iter().enumerate() {
        match piece_of(escaped, *byte) {
            Piece::Backslash => escaped = true,
            Piece::Byte(b) => {
                bytes.push(b)?;
                escaped = false;
            }
            Piece::Bad(reason) => {
                return Ok(Decoded::Broken {
                    reason,
                    from: begin_of(escaped, before + 1),
                    to: before + 2,
                });
            }
        }
    }
    Ok(Decoded::Whole(Text::from_vec(bytes)))
}
