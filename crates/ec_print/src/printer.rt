//! Tokens behind one another.
ghost use Rattle.std.specs.Prelude.{◌≡◌, ◌≤◌, ◌++◌, [], length, OnOk};
ghost use Rattle.ec_base.specs.declared.token.TokenKind.TheVariants as t;
ghost use Rattle.ec_print.specs.Layout as layout;
ghost use Rattle.ec_print.specs.Writing.{separator, with, with_token};

use ec_base::{Mark, Text};
use itoa::Buffer;
use std::alloc::{AllocError, Global};
use std::marker::Model;

/// The text of tokens so far, and how many parentheses are open at its end. Behind each token stands a space, or a line
/// feed where it ends a line.
#[derive(Drop)]
pub(crate) struct Printer {
    text: Text,
    depth: usize,
}

impl Model for Printer {
    ghost use Rattle.std.specs.Prelude.{◌≤◌, length};
    ghost use Rattle.ec_print.specs.Writing.{Written};

    ghost Value = { Written };

    ghost view = { λ p. record { text = p.text; depth = p.depth } };

    // each open parenthesis is a byte of the text
    ghost invariant = { λ p. p.depth ≤ length p.text };
}

/// The bytes of a mark.
fn spelling(mark: Mark) -> &'static [u8]
    ensures { result.now ≡ layout.spelling mark }
{
    match mark {
        Mark::OpenPar => b"{^",
        Mark::ClosePar => b"^}",
        Mark::Arrow => b"->",
        Mark::Increment => b"++",
        Mark::Decrement => b"--",
        Mark::ShiftLeft => b"<<",
        Mark::ShiftRight => b">>",
        Mark::LessEqual => b"<=",
        Mark::GreaterEqual => b">=",
        Mark::Equal => b"==",
        Mark::NotEqual => b"!=",
        Mark::AndAnd => b"&&",
        Mark::OrOr => b"||",
        Mark::OpenBrace => b"{",
        Mark::CloseBrace => b"}",
        Mark::OpenParen => b"(",
        Mark::CloseParen => b")",
        Mark::OpenBracket => b"[",
        Mark::CloseBracket => b"]",
        Mark::Semicolon => b";",
        Mark::Comma => b",",
        Mark::Dot => b".",
        Mark::At => b"@",
        Mark::Assign => b"=",
        Mark::Plus => b"+",
        Mark::Minus => b"-",
        Mark::Star => b"*",
        Mark::Slash => b"/",
        Mark::Percent => b"%",
        Mark::And => b"&",
        Mark::Or => b"|",
        Mark::Caret => b"^",
        Mark::Tilde => b"~",
        Mark::Bang => b"!",
        Mark::Less => b"<",
        Mark::Greater => b">",
    }
}

/// The byte after a mark, behind so many open parentheses.
fn gap(depth: usize, mark: Mark) -> u8
    ensures { result ≡ layout.gap depth (t.Mark mark) }
{
    match mark {
        Mark::OpenBrace => b'\n',
        Mark::CloseBrace => b'\n',
        Mark::OpenPar => b'\n',
        Mark::ClosePar => b'\n',
        Mark::Semicolon => { if depth == 0 { b'\n' } else { b' ' } }
        _ => b' ',
    }
}

/// A byte of a string, escaped where it has to be.
fn append_escaped(text: &mut Text, byte: u8) -> Result<(), AllocError>
    ensures ok { OnOk result (text.new ≡ text.old ++ layout.escape byte) }
    ensures longer { length text.old ≤ length text.new }
{
    if byte == b'\n' {
        text.append(b"\\n")
    } else if byte == b'\t' {
        text.append(b"\\t")
    } else if byte == b'\\' {
        text.append(b"\\\\")
    } else if byte == b'"' {
        text.append(b"\\\"")
    } else {
        text.append(&[byte])
    }
}

fn append_string(text: &mut Text, bytes: &[u8]) -> Result<(), AllocError>
    ensures ok { OnOk result (text.new ≡ text.old ++ layout.spelled (t.Str bytes.now)) }
    ensures longer { length text.old ≤ length text.new }
{
    text.append(b"\"")?;
    for byte in bytes {
        append_escaped(text, *byte)?;
    }
    text.append(b"\"")
}

impl Printer {
    /// Nothing yet.
    pub(crate) fn new(alloc: Global) -> Printer
        ensures { result ≡ record { text = []; depth = 0 } }
    {
        Printer {
            text: Text::from_vec(Vec::new(alloc)),
            depth: 0,
        }
    }

    pub(crate) fn into_text(self) -> Text
        ensures { result ≡ self.text }
    {
        let Printer { text, depth: _ } = self;
        text
    }

    #[tactic(auto, unfolding(crate::specs::Writing::with_token))]
    pub(crate) fn word(&mut self, word: &[u8]) -> Result<(), AllocError>
        ensures { OnOk result (self.new ≡ with_token (t.Word word.now) self.old) }
    {
        self.text.append(word)?;
        self.text.append(b" ")
    }

    #[tactic(auto, unfolding(crate::specs::Writing::with_token))]
    pub(crate) fn number(&mut self, number: i64) -> Result<(), AllocError>
        ensures { OnOk result (self.new ≡ with_token (t.Number number) self.old) }
    {
        self.text.append(Buffer::new().format(number).as_bytes())?;
        self.text.append(b" ")
    }

    #[tactic(auto, unfolding(crate::specs::Writing::with_token))]
    pub(crate) fn string(&mut self, string: &[u8]) -> Result<(), AllocError>
        ensures { OnOk result (self.new ≡ with_token (t.Str string.now) self.old) }
    {
        append_string(&mut self.text, string)?;
        self.text.append(b" ")
    }

    #[tactic(auto, unfolding(crate::specs::Writing::with_token))]
    pub(crate) fn mark(&mut self, mark: Mark) -> Result<(), AllocError>
        ensures { OnOk result (self.new ≡ with_token (t.Mark mark) self.old) }
    {
        self.text.append(spelling(mark))?;
        self.text.append(&[gap(self.depth, mark)])?;
        match mark {
            Mark::OpenParen => {
                prove!(self.depth < self.text.len());
                self.depth += 1;
            }
            Mark::CloseParen => self.depth = self.depth.saturating_sub(1),
            _ => {}
        }
        Ok(())
    }

    /// The comma before one of a list, behind so many.
    pub(crate) fn separator(&mut self, before: usize) -> Result<(), AllocError>
        ensures { OnOk result (self.new ≡ with (separator before) self.old) }
    {
        if before == 0 {
            Ok(())
        } else {
            self.mark(Mark::Comma)
        }
    }
}
