//! Typed programs with their names resolved.
use crate::types::judged;
use ec_resolve::{Action, resolve};
use std::alloc::Global;
use std::process::Abort;

const SOURCE: &str =
    "int f(int n){ int m; { int k; } return n; } void g(shared int *x){ } int main(int i){ int *p; return f(i); }";

/// How many variables each function has, and the number of main.
#[derive(Drop)]
struct Shape {
    variables: Vec<usize>,
    main: usize,
}

fn shape_of(alloc: Global, source: &str) -> Option<Shape> {
    let typed = judged(alloc, source)?.ok()?;
    let resolved = resolve(alloc, &typed).ok()?;
    let mut variables = Vec::new(alloc);
    for function in resolved.functions.as_slice() {
        variables.push(function.variables.len()).ok()?;
    }
    Some(Shape {
        variables,
        main: resolved.main,
    })
}

#[test]
fn programs_are_resolved(rt: HostRuntime) {
    let shape = shape_of(rt.alloc(), SOURCE).expect(&rt, "it is typed, and memory suffices");
    assert_eq!(rt; shape.variables.as_slice(), &[3usize, 1, 2][..]);
    assert_eq!(rt; shape.main, 2);
}

/// A call, and whether only variables, numbers and operators on them stand in it.
type Row = (&'static str, bool);

const CALLS: &[Row] = &[
    ("f(1)", true),
    ("f(n && !n)", true),
    ("f(-n + 1)@NODE(n)", true),
    ("f(1)@OWNER_OF(p)", true),
    ("f(1)@ANYWHERE", true),
    ("f(f(1))", false),
    ("f(*p)", false),
    ("f(n + p[1])", false),
    ("f(valueof(&s))", false),
    ("f(1)@NODE(f(1))", false),
    ("f(malloc(sizeof(int)) == p)", false),
];

/// What is told of the call; none where it is no typed statement.
fn is_plain(alloc: Global, call: &str) -> Option<bool> {
    let source = format!(in alloc;
        "int f(int n){{ return n; }} int main(int n){{ int *p; shared int s; {call}; return 0; }}"
    ).ok()?;
    let typed = judged(alloc, source.as_str())?.ok()?;
    let resolved = resolve(alloc, &typed).ok()?;
    let main = resolved.functions.as_slice().get(resolved.main)?;
    match main.body.actions.as_slice().first()? {
        Action::Eval(call) => Some(call.get().is_plain()),
        _ => None,
    }
}

#[test]
fn plain_calls_have_no_access_and_no_call_in_them(rt: HostRuntime) {
    for (call, plain) in CALLS {
        assert_eq!(rt; is_plain(rt.alloc(), call), Some(*plain), "{call}");
    }
}
