//! Simple forms of typed programs.
use crate::source::tokens_of;
use ec_reader::read;
use ec_simple::{SExpr, SStmt, Simple, lower};
use ec_types::check;
use std::alloc::Global;
use std::process::Abort;

fn form_of(alloc: Global, source: &str) -> Option<Simple> {
    let tokens = tokens_of(alloc, source.as_bytes())?;
    let typed = check(alloc, read(alloc, &tokens).ok()?).ok()?;
    lower(alloc, &typed).ok()
}

/// A statement of a function.
fn statement(form: &Simple, function: usize, number: usize) -> Option<&SStmt> {
    let function = form.form().funcs.as_slice().get(function)?;
    function.body.as_slice().get(number)
}

/// A header of a `forall` whose body is empty, and whether it counts.
type Row = (&'static str, bool);

const HEADERS: &[Row] = &[
    ("i = 0; i < 3; i = i + 1", true),
    ("i = n; i < n + 3; i++", true),
    ("i = 0; i < 3; i = 1 + i", false),
    ("i = 0; i < 3; i = i + 2", false),
    ("i = 0; 3 > i; i++", false),
    ("i = 0; i <= 3; i++", false),
    ("i = 0; i < 3; i--", false),
];

/// Whether the header counts; none where the second statement of main is no `forall`.
fn counts(alloc: Global, header: &str) -> Option<bool> {
    let source = format!(in alloc;
        "int main(int n) {{ int i; forall ({header}) ; return 0; }}"
    ).ok()?;
    let form = form_of(alloc, source.as_str())?;
    match statement(&form, 0, 1)? {
        SStmt::Forall(l) => Some(l.get().counted),
        _ => None,
    }
}

#[test]
fn headers_count_up_by_one(rt: HostRuntime) {
    for (header, counted) in HEADERS {
        assert_eq!(rt; counts(rt.alloc(), header), Some(*counted), "{header}");
    }
}

#[test]
fn shared_variables_are_passed_by_a_temporary(rt: HostRuntime) {
    let source = "void g(shared int *x){ } int main(){ shared int s; g(&s); return valueof(&s); }";
    let form = form_of(rt.alloc(), source).expect(&rt, "it is typed, and memory suffices");
    assert!(rt; matches!(statement(&form, 1, 0), Some(SStmt::Share(0, _))));
    assert!(rt; matches!(statement(&form, 1, 1), Some(SStmt::Set(2, SExpr::Var(0)))));
    assert!(rt; matches!(statement(&form, 1, 3), Some(SStmt::Read(0, 3, _))));
    let Some(SStmt::Call(call)) = statement(&form, 1, 2) else {
        panic!(rt; "a call");
    };
    assert_eq!(rt; call.get().args.as_slice(), &[2u32][..]);
}

#[test]
fn both_sides_are_decided_by_tests(rt: HostRuntime) {
    let source = "int main(int a, int b){ return a && b; }";
    let form = form_of(rt.alloc(), source).expect(&rt, "it is typed, and memory suffices");
    let Some(SStmt::If(0, chosen, other)) = statement(&form, 0, 0) else {
        panic!(rt; "a test of the left side");
    };
    assert!(rt; matches!(chosen.as_slice().first(), Some(SStmt::If(1, _, _))));
    assert!(rt;
        matches!(
            other.as_slice().first(),
            Some(SStmt::Set(3, SExpr::Number(0)))
        )
    );
    assert!(rt; matches!(statement(&form, 0, 1), Some(SStmt::Return(Some(3)))));
}
