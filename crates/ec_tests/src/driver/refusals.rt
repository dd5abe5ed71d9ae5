//! What is refused: words, and sources by number and place.
use crate::driver::{ANSWER, COMMANDS, Ending, NO_FAULTS, ends_bare, runs};
use ec_base::{MAX_SOURCE, NoMemory, Span, Text};
use ec_driver::{Refusal, Status};
use std::alloc::Global;
use std::process::Abort;

/// A source, and its refusal: the number, the place and the line.
type Refusing = (&'static [u8], u8, u32, u32, &'static [u8]);

fn refused(what: u8, from: u32, to: u32) -> Status {
    Status::SourceRefused(Refusal {
        what,
        at: Span { from, to },
        other: None,
    })
}

/// Each command refuses the source so.
fn is_refused(
    rt: &impl Abort,
    alloc: Global,
    commands: &[&[u8]],
    row: &Refusing,
) -> Result<(), NoMemory> {
    let (source, what, from, to, err) = *row;
    let status = refused(what, from, to);
    let ending = Ending {
        status,
        out: b"",
        err,
    };
    for command in commands {
        ends_bare(rt, alloc, &[command, b"a.ec"], source, &NO_FAULTS, &ending)?;
    }
    Ok(())
}

const NOT_RUN: Refusing = (
    b"int main(){ while (1) ; return 0; }",
    9,
    12,
    17,
    b"refused 9 at 12..17 NotYet\n",
);

const NOT_CHECKED: Refusing = (
    b"int main(){ {^ ; ^} return 0; }",
    9,
    12,
    19,
    b"refused 9 at 12..19 NotYet\n",
);

const NOT_TYPED: &[Refusing] = &[
    (b"", 27, 0, 0, b"refused 27 at 0..0 NoMain\n"),
    (
        b"int main(){ return x; {^ ^} }",
        20,
        19,
        20,
        b"refused 20 at 19..20 Unknown\n",
    ),
];

#[test]
fn a_source_is_refused_where_it_is_not_built(rt: HostRuntime) -> Result<(), NoMemory> {
    is_refused(&rt, rt.alloc(), &[b"run"], &NOT_RUN)?;
    is_refused(&rt, rt.alloc(), &[b"check"], &NOT_CHECKED)
}

#[test]
fn a_source_is_refused_where_its_types_do_not_go_together(rt: HostRuntime) -> Result<(), NoMemory> {
    for row in NOT_TYPED {
        is_refused(&rt, rt.alloc(), &[b"check", b"run", b"means"], row)?;
    }
    Ok(())
}

const NO_PROGRAMS: &[Refusing] = &[
    (
        b"int main(){ return",
        10,
        18,
        18,
        b"refused 10 at 18..18 Expected\n",
    ),
    (
        b"int main(){ return 1 + ; }",
        10,
        23,
        24,
        b"refused 10 at 23..24 Expected\n",
    ),
    (
        b"int main(){ printf(\"\", 1, 2, 3, 4, 5, 6, 7, 8, 9); return 0; }",
        12,
        47,
        48,
        b"refused 12 at 47..48 TooMany\n",
    ),
];

#[test]
fn a_source_is_refused_where_it_is_no_program(rt: HostRuntime) -> Result<(), NoMemory> {
    for row in NO_PROGRAMS {
        is_refused(&rt, rt.alloc(), COMMANDS, row)?;
    }
    Ok(())
}

const NO_TOKENS: &[Refusing] = &[
    (
        b"int main(){ return $; }",
        1,
        19,
        20,
        b"refused 1 at 19..20 BadByte\n",
    ),
    (
        b"int main(){ return 9223372036854775808; }",
        2,
        19,
        38,
        b"refused 2 at 19..38 BadNumber\n",
    ),
    (
        b"int main(){ return 0; } /* end",
        3,
        24,
        30,
        b"refused 3 at 24..30 OpenComment\n",
    ),
    (
        b"int main(){ printf(\"a\\q\x01); }\n",
        4,
        19,
        28,
        b"refused 4 at 19..28 OpenString\n",
    ),
    (
        b"int main(){ printf(\"a\\q\"); }",
        5,
        21,
        23,
        b"refused 5 at 21..23 BadEscape\n",
    ),
    (
        b"#define X\nint main(){ return X; }",
        6,
        0,
        9,
        b"refused 6 at 0..9 HashLine\n",
    ),
    (b"while 00", 2, 6, 8, b"refused 2 at 6..8 BadNumber\n"),
];

#[test]
fn a_source_is_refused_where_it_has_no_token(rt: HostRuntime) -> Result<(), NoMemory> {
    for row in NO_TOKENS {
        is_refused(&rt, rt.alloc(), COMMANDS, row)?;
    }
    Ok(())
}

/// The source of a result in so many pairs of parentheses.
fn in_parentheses(alloc: Global, pairs: usize) -> Result<Text, NoMemory> {
    let mut source = Text::from_slice(alloc, b"int main(){ return ")?;
    for _ in 0..pairs {
        source.append(b"(")?;
    }
    source.append(b"0")?;
    for _ in 0..pairs {
        source.append(b")")?;
    }
    source.append(b"; }")?;
    Ok(source)
}

#[test]
fn a_source_is_nested_at_most_64_deep(rt: HostRuntime) -> Result<(), NoMemory> {
    let deep = in_parentheses(rt.alloc(), 64)?;
    let ending = Ending {
        status: refused(11, 83, 84),
        out: b"",
        err: b"refused 11 at 83..84 TooDeep\n",
    };
    for command in COMMANDS {
        let words = &[*command, b"a.ec"];
        ends_bare(&rt, rt.alloc(), words, deep.as_slice(), &NO_FAULTS, &ending)?;
    }
    let source = in_parentheses(rt.alloc(), 63)?;
    let ending = Ending {
        status: Status::Done,
        out: b"",
        err: b"result 0\n",
    };
    runs(&rt, rt.alloc(), source.as_slice(), &NO_FAULTS, &ending)
}

/// How many blanks are a source, and how `check` ends.
const SPACES: &[(usize, Status, &[u8])] = &[
    (
        MAX_SOURCE as usize,
        Status::SourceRefused(Refusal {
            what: 27,
            at: Span {
                from: 1_048_576,
                to: 1_048_576,
            },
            other: None,
        }),
        b"refused 27 at 1048576..1048576 NoMain\n",
    ),
    (
        MAX_SOURCE as usize + 1,
        Status::SourceRefused(Refusal {
            what: 7,
            at: Span {
                from: 1_048_576,
                to: 1_048_577,
            },
            other: None,
        }),
        b"refused 7 at 1048576..1048577 TooLong\n",
    ),
];

#[test]
fn a_source_has_at_most_its_bytes(rt: HostRuntime) -> Result<(), NoMemory> {
    for (bytes, status, err) in SPACES {
        let spaces = vec![in rt.alloc(); b' '; *bytes]?;
        let ending = Ending {
            status: *status,
            out: b"",
            err,
        };
        let words = &[b"check".as_slice(), b"a.ec"];
        ends_bare(
            &rt,
            rt.alloc(),
            words,
            spaces.as_slice(),
            &NO_FAULTS,
            &ending,
        )?;
    }
    Ok(())
}

const NO_COMMANDS: &[&[&[u8]]] = &[
    &[],
    &[b""],
    &[b"run"],
    &[b"a.ec"],
    &[b"a.ec", b"run"],
    &[b"Run", b"a.ec"],
    &[b"runs", b"a.ec"],
    &[b"run", b""],
    &[b"run", b"-a.ec"],
    &[b"run", b"--"],
    &[b"run", b"a.tc"],
    &[b"run", b"a.ec", b""],
    &[b"check"],
    &[b"check", b""],
    &[b"check", b"-a.ec"],
    &[b"check", b"a.tc"],
    &[b"check", b"a.ec", b"a.ec"],
    &[b"print"],
    &[b"print", b""],
    &[b"print", b"a.tc"],
    &[b"print", b"a.ec", b"a.ec"],
    &[b"means"],
    &[b"means", b""],
    &[b"means", b"a.tc"],
    &[b"means", b"-a.ec"],
    &[b"means", b"a.ec", b"a.ec"],
    &[b"means", b"a.ec", b"1", b""],
    &[b"means", b"a.ec", b"01"],
    &[b"means", b"a.ec", b"-1"],
    &[b"means", b"a.ec", b"--"],
    &[b"means", b"a.ec", b"9223372036854775808"],
    &[
        b"means", b"a.ec", b"1", b"2", b"3", b"4", b"5", b"6", b"7", b"8", b"9",
    ],
];

#[test]
fn words_that_are_no_command_are_refused(rt: HostRuntime) -> Result<(), NoMemory> {
    let ending = Ending {
        status: Status::WordsRefused,
        out: b"",
        err: b"words refused\n",
    };
    for words in NO_COMMANDS {
        ends_bare(&rt, rt.alloc(), words, ANSWER, &NO_FAULTS, &ending)?;
    }
    Ok(())
}
