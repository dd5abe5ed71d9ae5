//! What stands at the front of a text.
ghost use Rattle.std.specs.Prelude.{◌≡◌, ◌<◌, ◌≤◌, ◌^◌, true, length, drop, IfOk, IfSome, slice_index};
ghost use Rattle.std.specs.Char.{is_ascii_digit};
ghost use Rattle.ec_lex.specs.Tokens.{begins_word};
ghost use Rattle.ec_lex.specs.Front as spec;

use crate::bytes::{byte_at, is_include, line_length, run};
use crate::marks::{long_mark, short_mark};
use crate::numbers::number_value;
use crate::strings::{Decoded, closing, decode};
use ec_base::{Reason, Text, TokenKind};
use std::alloc::{AllocError, Global};

/// What stands at the front of a text, with its count of bytes, or where the fault stands.
#[derive(Drop)]
pub enum Front {
    /// The text is empty.
    Over,
    /// Bytes that are no token. Fresh says whether the line has none but blanks so far.
    Skips {
        count: usize,
        fresh: bool,
    },
    Takes {
        kind: TokenKind,
        count: usize,
    },
    Fails {
        reason: Reason,
        from: usize,
        to: usize,
    },
}

#[tactic(auto, using(crate::proofs::AtFront::Lexicals::begins_is_word_byte), unfolding(crate::specs::Front::word))]
fn read_word(alloc: Global, text: &[u8]) -> Result<Front, AllocError>
    requires { begins_word (slice_index text.now 0) ≡ true }
    ensures value { IfOk result (λ f. f ≡ spec.word text.now) }
    ensures part { IfOk result (λ f. spec.IsFrontOf text.now f) }
    ensures lexical { IfOk result spec.IsLexicalFront }
{
    let word = run(text);
    Ok(Front::Takes {
        kind: TokenKind::Word(Text::from_slice(alloc, word)?),
        count: word.len(),
    })
}

#[tactic(auto, using(crate::proofs::AtFront::Lexicals::number_lexical), unfolding(crate::specs::Front::number))]
fn read_number(text: &[u8]) -> Front
    requires { is_ascii_digit (slice_index text.now 0) ≡ true }
    ensures value { result ≡ spec.number text.now }
    ensures part { spec.IsFrontOf text.now result }
    ensures lexical { spec.IsLexicalFront result }
{
    let digits = run(text);
    match number_value(digits) {
        Some(number) => Front::Takes {
            kind: TokenKind::Number(number),
            count: digits.len(),
        },
        None => Front::Fails {
            reason: Reason::BadNumber,
            from: 0,
            to: digits.len(),
        },
    }
}

#[tactic(auto, unfolding(crate::specs::Front::string))]
fn read_string(alloc: Global, text: &[u8]) -> Result<Front, AllocError>
    requires quote { slice_index text.now 0 ≡ 34 }
    requires bound { length text.now < 2 ^ 63 }
    ensures value { IfOk result (λ f. f ≡ spec.string text.now) }
    ensures part { IfOk result (λ f. spec.IsFrontOf text.now f) }
    ensures lexical { IfOk result spec.IsLexicalFront }
{
    match closing(&text[1..]) {
        None => Ok(Front::Fails {
            reason: Reason::OpenString,
            from: 0,
            to: line_length(text),
        }),
        Some(end) => match decode(alloc, &text[1..end])? {
            Decoded::Whole(bytes) => Ok(Front::Takes {
                kind: TokenKind::Str(bytes),
                count: end + 1,
            }),
            Decoded::Broken { reason, from, to } => Ok(Front::Fails { reason, from, to }),
        },
    }
}

/// The place after the first `*/` of a comment, whose inside begins at 2.
fn comment_end(text: &[u8]) -> Option<usize>
    requires { 2 ≤ length text.now }
    ensures value { result ≡ spec.comment_end 2 (drop 2 text.now) }
    ensures within { IfSome result (λ end. spec.IsPart end text.now) }
{
    for at in 2..text.len() {
        if text[at] == b'*' && byte_at(text, at + 1) == b'/' {
            return Some(at + 2);
        }
    }
    None
}

#[tactic(auto, unfolding(crate::specs::Front::comment))]
fn read_comment(text: &[u8]) -> Front
    requires { 2 ≤ length text.now }
    ensures value { result ≡ spec.comment text.now }
    ensures part { spec.IsFrontOf text.now result }
    ensures lexical { spec.IsLexicalFront result }
{
    match comment_end(text) {
        Some(count) => Front::Skips {
            count,
            fresh: false,
        },
        None => Front::Fails {
            reason: Reason::OpenComment,
            from: 0,
            to: text.len(),
        },
    }
}

#[tactic(auto, unfolding(crate::specs::Front::hash_line))]
fn read_hash_line(text: &[u8]) -> Front
    requires { slice_index text.now 0 ≡ 35 }
    ensures value { result ≡ spec.hash_line text.now }
    ensures part { spec.IsFrontOf text.now result }
    ensures lexical { spec.IsLexicalFront result }
{
    let end = line_length(text);
    if is_include(&text[1..]) {
        Front::Skips {
            count: end,
            fresh: false,
        }
    } else {
        Front::Fails {
            reason: Reason::HashLine,
            from: 0,
            to: end,
        }
    }
}

#[tactic(auto, unfolding(crate::specs::Front::mark))]
fn read_mark(text: &[u8]) -> Front
    requires { 1 ≤ length text.now }
    ensures value { result ≡ spec.mark (slice_index text.now 0) (slice_index text.now 1) }
    ensures part { spec.IsFrontOf text.now result }
    ensures lexical { spec.IsLexicalFront result }
{
    let byte = text[0];
    if let Some(mark) = long_mark(byte, byte_at(text, 1)) {
        return Front::Takes {
            kind: TokenKind::Mark(mark),
            count: 2,
        };
    }
    match short_mark(byte) {
        Some(mark) => Front::Takes {
            kind: TokenKind::Mark(mark),
            count: 1,
        },
        None => Front::Fails {
            reason: Reason::BadByte,
            from: 0,
            to: 1,
        },
    }
}

/// What stands at the front of the text; fresh says whether its line has none but blanks before it.
#[tactic(auto, unfolding(crate::specs::Front::front))]
pub fn read_front(alloc: Global, fresh: bool, text: &[u8]) -> Result<Front, AllocError>
    requires { length text.now < 2 ^ 63 }
    ensures value { IfOk result (λ f. f ≡ spec.front fresh text.now) }
    ensures part { IfOk result (λ f. spec.IsFrontOf text.now f) }
    ensures lexical { IfOk result spec.IsLexicalFront }
{
    let [byte, rest @ ..] = text else {
        return Ok(Front::Over);
    };
    let next = byte_at(rest, 0);
    match *byte {
        b' ' | b'\t' | b'\r' => Ok(Front::Skips { count: 1, fresh }),
        b'\n' => Ok(Front::Skips {
            count: 1,
            fresh: true,
        }),
        b'0'..=b'9' => Ok(read_number(text)),
        b'A'..=b'Z' | b'a'..=b'z' | b'_' => read_word(alloc, text),
        b'"' => read_string(alloc, text),
        b'/' if next == b'/' => Ok(Front::Skips {
            count: line_length(text),
            fresh: false,
        }),
        b'/' if next == b'*' => Ok(read_comment(text)),
        b'#' if fresh => Ok(read_hash_line(text)),
        _ => Ok(read_mark(text)),
    }
}
