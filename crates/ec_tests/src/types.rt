//! What programs are refused for by their types, and the sizes that typed ones tell.
use crate::source::tokens_of;
use ec_base::{Fail, Span, Text};
use ec_reader::read;
use ec_types::{TypeRefusal, Typed, check};
use std::alloc::{AllocError, Global};
use std::process::Abort;

/// Two offsets.
type Place = (u32, u32);

/// A source, the number of its refusal, where it is refused, and the other place that the refusal speaks of.
type Row = (&'static str, u8, Place, Option<Place>);

const REFUSED: &[Row] = &[
    (
        "int main(){ {^ printf(\"%d\", nos); ^} return 0; }",
        26,
        (15, 32),
        Some((15, 32)),
    ),
    (
        "struct s { int a; }; void s(){ } struct s { int b; }; int main(){  return 0; }",
        21,
        (40, 41),
        Some((7, 8)),
    ),
    (
        "int main(){ int x; { int x; } return 0; }",
        21,
        (25, 26),
        Some((16, 17)),
    ),
    (
        "int main(){ if (1) { int x; } else { local int *x; } return 0; }",
        21,
        (48, 49),
        Some((25, 26)),
    ),
    (
        "int main(){ return f(); } int f(){ } void f(){ }",
        21,
        (42, 43),
        Some((30, 31)),
    ),
    (
        "int main(){ int i; forall (i = 0; i < 1; i++) { ; printf(\"x\"); printf(\"y\"); } return 0; }",
        26,
        (50, 61),
        Some((50, 61)),
    ),
    (
        "void p(){ printf(\"x\"); } int q(){ p(); return 1; } int main(){ int x; {^ x = 2 + q(); ^} return 0; }",
        26,
        (81, 84),
        Some((10, 21)),
    ),
    (
        "int q(){ printf(\"x\"); return 1; } void n(){ } int main(){ {^ n()@NODE(q()); ^} return 0; }",
        26,
        (70, 73),
        Some((9, 20)),
    ),
    (
        "void q(){ printf(\"a\"); } void p(){ printf(\"b\"); q(); } int main(){ {^ p(); ^} return 0; }",
        26,
        (70, 73),
        Some((10, 21)),
    ),
    (
        "int f(int x){ printf(\"x\"); return x; } int main(){ int i, j; int *p; {^ forall (i = f(1); i < 3; i++) ; ^} return 0; }",
        26,
        (84, 88),
        Some((14, 25)),
    ),
    (
        "int main(){ int i; forall (i = 0; i < 1; i++) printf(\"%d\", nos); return 0; }",
        26,
        (46, 63),
        Some((46, 63)),
    ),
    (
        "struct s { int x; void x; }; int main(){  return 0; }",
        21,
        (23, 24),
        Some((15, 16)),
    ),
    (
        "int f(int x){ printf(\"x\"); return x; } int main(){ int x; int *p; {^ x = p * f(1); ^} return 0; }",
        26,
        (77, 81),
        Some((14, 25)),
    ),
    (
        "int main(){ int x = y, y = 1; return 0; }",
        20,
        (20, 21),
        None,
    ),
    (
        "int main(){ printf(\"%d\", nos); return 0; }",
        20,
        (25, 28),
        None,
    ),
    (
        "int main(){ int *p; p = malloc(sizeof(void)); return 0; }",
        22,
        (24, 44),
        None,
    ),
    (
        "int main(){ int *p; p = malloc(sizeof(void *)); return 0; }",
        22,
        (24, 46),
        None,
    ),
    (
        "int main(){ int *p; local int *l, *k; l = p; return 0; }",
        23,
        (42, 43),
        None,
    ),
    (
        "int main(){ int *p; local int *l, *k; l = (p); return 0; }",
        23,
        (43, 44),
        None,
    ),
    (
        "void g(int x){ } void h(int *p){ } void l(local int *p){ } void n(){ } int main(){ shared int s; int x; x = s; return 0; }",
        24,
        (108, 109),
        None,
    ),
    (
        "void g(int x){ } void h(int *p){ } void l(local int *p){ } void n(){ } int main(){ shared int s; s = 4; return 0; }",
        24,
        (97, 98),
        None,
    ),
    (
        "int main(){ {^ return nos; ^} return 0; }",
        25,
        (15, 26),
        None,
    ),
    (
        "int main(){ {^ return 1; ^} return 0; }",
        25,
        (15, 24),
        None,
    ),
    ("", 27, (0, 0), None),
    (" \n ", 27, (3, 3), None),
    (
        "struct s { int a[64]; int x; }; int main(){  return 0; }",
        28,
        (7, 8),
        None,
    ),
    (
        "struct s { int *p; int a[64]; }; int main(){  return 0; }",
        28,
        (7, 8),
        None,
    ),
    (
        "int main(){ int i, j; int *p; forall (i = 0; i < 3; j = i) ; return 0; }",
        29,
        (52, 53),
        None,
    ),
    (
        "int main(){ int i, j; int *p; forall (i = 0; i < 3; j++) ; return 0; }",
        29,
        (52, 53),
        None,
    ),
];

/// A source's struct, and its cells.
type Size = (&'static str, Option<u32>);

const STRUCTS: &str =
    "struct one { int a; }; struct two { int a[63]; struct one *p; }; int main(){ return 0; }";

const SIZES: &[Size] = &[
    ("one", Some(1)),
    ("two", Some(64)),
    ("three", None),
    ("main", None),
    ("", None),
];

/// The typed program of a source, or its refusal; nothing where the source is no program.
pub(crate) fn judged(alloc: Global, source: &str) -> Option<Result<Typed, Fail<TypeRefusal>>> {
    let tokens = tokens_of(alloc, source.as_bytes())?;
    let program = read(alloc, &tokens).ok()?;
    Some(check(alloc, program))
}

fn refusal(alloc: Global, source: &str) -> Option<TypeRefusal> {
    match judged(alloc, source) {
        Some(Err(Fail::Refused(refusal))) => Some(refusal),
        _ => None,
    }
}

fn span(place: Place) -> Span {
    let (from, to) = place;
    Span { from, to }
}

fn other_span(place: Option<Place>) -> Option<Span> {
    match place {
        None => None,
        Some(place) => Some(span(place)),
    }
}

fn is_refused(rt: &impl Abort, alloc: Global, row: &Row) {
    let (source, what, at, other) = row;
    let expected = TypeRefusal {
        what: *what,
        at: span(*at),
        other: other_span(*other),
    };
    assert_eq!(rt; refusal(alloc, source), Some(expected));
}

#[test]
fn programs_are_refused_for_their_types(rt: HostRuntime) {
    for row in REFUSED {
        is_refused(&rt, rt.alloc(), row);
    }
}

/// The cells of a struct of the typed program.
fn size(alloc: Global, name: &str) -> Result<Option<u32>, AllocError> {
    let name = Text::from_slice(alloc, name.as_bytes())?;
    match judged(alloc, STRUCTS) {
        Some(Ok(typed)) => Ok(typed.size(&name)),
        _ => Ok(None),
    }
}

#[test]
fn typed_programs_tell_the_cells_of_their_structs(rt: HostRuntime) -> Result<(), AllocError> {
    for (name, cells) in SIZES {
        let told = size(rt.alloc(), name)?;
        assert_eq!(rt; told, *cells);
    }
    Ok(())
}
