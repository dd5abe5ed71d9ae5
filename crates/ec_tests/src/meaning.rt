//! The ticks that whole programs spend, and their results.
use crate::source::tokens_of;
use ec_base::MAX_TICKS;
use ec_meaning::{Meant, MeantEnd, means};
use ec_reader::read;
use ec_types::check;
use std::alloc::Global;
use std::process::Abort;

/// A source, the ticks that it spends, and its result.
type Row = (&'static str, u64, i64);

const PROGRAMS: &[Row] = &[
    ("int main(){ }", 1, 0),
    ("int main(){ return 0; }", 3, 0),
    ("int main(){ int x = 2; x = x - 5; return x; }", 8, -3),
    (
        "int main(){ int *a; a = malloc(2 * sizeof(int)); a[1] = 3; return a[1]; }",
        13,
        3,
    ),
    (
        "int main(){ shared int s; addto(&s, 2); return valueof(&s); }",
        7,
        2,
    ),
    (
        "int main(){ int i; for (i = 0; i < 2; i++) ; return i; }",
        25,
        2,
    ),
    (
        "int main(){ int i; forall (i = 0; i < 2; i++) ; return i; }",
        27,
        2,
    ),
    (
        "int f(int n){ return n; } int main(){ int x; f(1); x = f(2)@NODE(3); return x; }",
        15,
        2,
    ),
    (
        "int f(int n){ return n; } int main(){ int x; int y; {^ x = 1; y = f(x + 1); ^} return y; }",
        15,
        2,
    ),
    (
        "struct s { int a[2]; struct s *n; }; int main(){ struct s *p; p = malloc(sizeof(struct s)); p->a[1] = 4; *p = *p; return p->a[1]; }",
        19,
        4,
    ),
    ("int main(){ if (1 && 0) ; else { } return 1 || 0; }", 9, 1),
    (
        "int main(){ int x = (1 + (2)); (x) = -x; return !x; }",
        10,
        0,
    ),
    ("int main(){ while (0) ; for (;0;) ; return 0; }", 9, 0),
    ("int main(){ {^ ^} ; {^ ; {} ^} return 0;}", 10, 0),
    (
        "int g(){ shared int s; return 1; } int main(){ {^ g(); { int *p; p = malloc(sizeof(int)); } ^} return 0; }",
        12,
        0,
    ),
];

/// What the program of a source means with at most so many ticks.
fn meant(alloc: Global, source: &str, ticks: u64) -> Option<Meant> {
    let tokens = tokens_of(alloc, source.as_bytes())?;
    let program = read(alloc, &tokens).ok()?;
    let typed = check(alloc, program).ok()?;
    means(alloc, &typed, &[], ticks).ok()
}

/// The program ends with this result after so many ticks.
fn ends(rt: &impl Abort, alloc: Global, row: &Row) {
    let (source, ticks, result) = *row;
    let meant = meant(alloc, source, MAX_TICKS as u64).expect(rt, "no meaning");
    assert!(rt; matches!(meant.ending, MeantEnd::Ended));
    assert_eq!(rt; meant.ticks, ticks);
    assert_eq!(rt; meant.result, result);
}

/// With one tick fewer it spends all, and hasn't ended.
fn goes_on(rt: &impl Abort, alloc: Global, row: &Row) {
    let (source, ticks, _) = *row;
    let fewer = ticks.saturating_sub(1);
    let meant = meant(alloc, source, fewer).expect(rt, "no meaning");
    assert!(rt; matches!(meant.ending, MeantEnd::OutOfTicks));
    assert_eq!(rt; meant.ticks, fewer);
    assert_eq!(rt; meant.result, 0);
}

#[test]
fn programs_spend_their_ticks(rt: HostRuntime) {
    for row in PROGRAMS {
        ends(&rt, rt.alloc(), row);
    }
}

#[test]
fn programs_go_on_where_a_tick_is_missing(rt: HostRuntime) {
    for row in PROGRAMS {
        goes_on(&rt, rt.alloc(), row);
    }
}
