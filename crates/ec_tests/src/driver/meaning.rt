//! What programs mean, as the top call tells it.
use crate::driver::{ANSWER, Ending, NO_FAULTS, ends_bare};
use ec_base::{NoMemory, Span, Trap, TrapKind};
use ec_driver::Status;

/// The words behind the file's name, a source, how that ends, what is put out, and the line.
type Meaning = (
    &'static [&'static [u8]],
    &'static [u8],
    Status,
    &'static [u8],
    &'static [u8],
);

/// As many activations are open at once as the argument, main's and that of `d(0)`.
const DEPTH: &[u8] =
    b"int d(int n){ int r; if (n == 0) { return 0; } r = d(n - 1); return r + 1; } int main(int n){ int r; r = d(n); return r; }";

const MEANT: &[Meaning] = &[
    (&[b"a.ec"], ANSWER, Status::Done, b"42\n", b"result 0\n"),
    (
        &[b"a.ec", b"7", b"9223372036854775807", b"1"],
        b"int main(int a, int b){ return a + b; }",
        Status::Done,
        b"",
        b"result -9223372036854775802\n",
    ),
    (
        &[b"a.ec"],
        b"int main(){ int x; int y; {^ x = 1; y = x; ^} return y; }",
        Status::Done,
        b"",
        b"result 1\n",
    ),
    (
        &[b"a.ec"],
        b"struct s { int a[2]; }; int f(){ printf(\"x\"); return 1; } int main(){ struct s *p; p = malloc(sizeof(struct s)); p->a[2] = f(); return 0; }",
        Status::Trapped(Trap {
            kind: TrapKind::Bounds,
            at: Span { from: 113, to: 120 },
        }),
        b"x",
        b"trap Bounds at 113..120\n",
    ),
    (
        &[b"a.ec", b"510"],
        DEPTH,
        Status::Done,
        b"",
        b"result 510\n",
    ),
    (
        &[b"a.ec", b"511"],
        DEPTH,
        Status::TooDeep,
        b"",
        b"too deep\n",
    ),
];

#[test]
fn a_meaning_is_told(rt: HostRuntime) -> Result<(), NoMemory> {
    for (behind, source, status, out, err) in MEANT {
        let mut words = vec![in rt.alloc(); b"means".as_slice()]?;
        words.extend_from_slice(behind)?;
        let ending = Ending {
            status: *status,
            out,
            err,
        };
        ends_bare(
            &rt,
            rt.alloc(),
            words.as_slice(),
            source,
            &NO_FAULTS,
            &ending,
        )?;
    }
    Ok(())
}
