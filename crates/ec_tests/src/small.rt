//! Small programs: which tokens are one, and what it means.
use crate::source::program_of;
use ec_base::{Fail, List, Mark, NoMemory, Span, Text, Token, TokenKind};
use ec_small::{Meant, mean, read};
use std::alloc::{AllocError, Global};
use std::process::Abort;

/// A token as a row of a table.
enum Piece {
    Word(&'static [u8]),
    Number(i64),
    Str(&'static [u8]),
    Mark(Mark),
    End,
}

/// `int main() { int x = 1; printf("%d", x); return x; }`, and one token too many.
const PROGRAM: &[Piece] = &[
    Piece::Word(b"int"),
    Piece::Word(b"main"),
    Piece::Mark(Mark::OpenParen),
    Piece::Mark(Mark::CloseParen),
    Piece::Mark(Mark::OpenBrace),
    Piece::Word(b"int"),
    Piece::Word(b"x"),
    Piece::Mark(Mark::Assign),
    Piece::Number(1),
    Piece::Mark(Mark::Semicolon),
    Piece::Word(b"printf"),
    Piece::Mark(Mark::OpenParen),
    Piece::Str(b"%d"),
    Piece::Mark(Mark::Comma),
    Piece::Word(b"x"),
    Piece::Mark(Mark::CloseParen),
    Piece::Mark(Mark::Semicolon),
    Piece::Word(b"return"),
    Piece::Word(b"x"),
    Piece::Mark(Mark::Semicolon),
    Piece::Mark(Mark::CloseBrace),
    Piece::End,
    Piece::End,
];

fn kind(alloc: Global, piece: &Piece) -> Result<TokenKind, AllocError> {
    match piece {
        Piece::Word(bytes) => Ok(TokenKind::Word(Text::from_slice(alloc, bytes)?)),
        Piece::Number(number) => Ok(TokenKind::Number(*number)),
        Piece::Str(bytes) => Ok(TokenKind::Str(Text::from_slice(alloc, bytes)?)),
        Piece::Mark(mark) => Ok(TokenKind::Mark(*mark)),
        Piece::End => Ok(TokenKind::End),
    }
}

/// The first tokens of `PROGRAM`.
fn tokens(alloc: Global, most: usize) -> Result<List<Token>, NoMemory> {
    let mut tokens = List::new(alloc);
    for piece in PROGRAM.iter().take(most) {
        let at = Span { from: 0, to: 0 };
        tokens.push(Token {
            kind: kind(alloc, piece)?,
            at,
        })?;
    }
    Ok(tokens)
}

/// Where tokens are refused, if they are.
fn refused_at(alloc: Global, tokens: &[Token]) -> Option<usize> {
    match read(alloc, tokens) {
        Err(Fail::Refused(at)) => Some(at),
        _ => None,
    }
}

/// How many tokens of `PROGRAM` are read, and which of them is refused.
const PARTS: &[(usize, usize)] = &[(0, 0), (6, 6), (13, 13), (21, 21), (23, 22)];

fn is_refused_at(rt: &impl Abort, alloc: Global, most: usize, want: usize) -> Result<(), NoMemory> {
    let part = tokens(alloc, most)?;
    assert_eq!(rt; refused_at(alloc, part.as_slice()), Some(want));
    Ok(())
}

#[test]
fn a_program_is_read_up_to_its_end(rt: HostRuntime) -> Result<(), Fail<usize>> {
    let whole = tokens(rt.alloc(), 22)?;
    let program = read(rt.alloc(), whole.as_slice())?;
    assert_eq!(rt; program.inits.len(), 1);
    assert_eq!(rt; program.stmts.len(), 1);
    Ok(())
}

#[test]
fn what_is_no_program_is_refused_at_a_token(rt: HostRuntime) -> Result<(), NoMemory> {
    for (most, want) in PARTS {
        is_refused_at(&rt, rt.alloc(), *most, *want)?;
    }
    Ok(())
}

/// A program, and what it means: its output, its result and its ticks.
type Row = (&'static [u8], &'static [u8], i64, u64);

const MEANINGS: &[Row] = &[
    // main, `return`, 0
    (b"int main(){ return 0; }", b"", 0, 3),
    // main, `printf`, 6 * 7, 6, 7, `return`, 0
    (
        b"int main(){ printf(\"%d\\n\", 6 * 7); return 0; }",
        b"42\n",
        0,
        7,
    ),
    // main, 2, the assignment, x - 5, x, 5, `printf`, x, x * x, x, x, `return`, x + 3, x, 3
    (
        b"int main(){ int x = 2; x = x - 5; printf(\"%d %d%%\\n\", x, x * x); return x + 3; }",
        b"-3 9%\n",
        0,
        15,
    ),
    // main, x + 1, x, 1, the assignment, y - 3, y, 3, `return`, z
    (
        b"int main(){ int x; int y = x + 1; int z; z = y - 3; return z; }",
        b"",
        -2,
        10,
    ),
    // main, `return`, the sum, its parts
    (
        b"int main(){ return 9223372036854775807 + 1; }",
        b"",
        i64::MIN,
        5,
    ),
];

/// What the program of a text means.
fn meaning(alloc: Global, text: &[u8]) -> Result<Meant, Fail<usize>> {
    let program = program_of(alloc, text)?;
    Ok(mean(alloc, &program)?)
}

fn means(rt: &impl Abort, alloc: Global, row: &Row) -> Result<(), Fail<usize>> {
    let (text, output, value, ticks) = row;
    let meant = meaning(alloc, text)?;
    assert_eq!(rt; meant.output.as_slice(), *output);
    assert_eq!(rt; meant.value, *value);
    assert_eq!(rt; meant.ticks, *ticks);
    Ok(())
}

#[test]
fn programs_mean_what_is_worked_by_hand(rt: HostRuntime) -> Result<(), Fail<usize>> {
    for row in MEANINGS {
        means(&rt, rt.alloc(), row)?;
    }
    Ok(())
}
