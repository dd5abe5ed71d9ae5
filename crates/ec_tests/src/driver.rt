//! The top call, over files and sinks in memory. A test is a table, each row of which is one call.
use ec_base::{List, NoMemory, Text};
use ec_driver::{Refusal, Report, Status, earthc};
use ec_edge::{FreeGate, MemShelf, MemSink};
use std::alloc::Global;
use std::process::Abort;

mod faulty;
mod meaning;
mod refusals;

const ANSWER: &[u8] = b"int main(){ printf(\"%d\\n\", 6*7); return 0; }";

/// Which calls fail, counted from 1: those of the shelf, and the puts of each sink after so many bytes.
#[derive(Clone, Copy)]
struct Faults<'a> {
    shelf: &'a [u64],
    out: &'a [(u64, u64)],
    err: &'a [(u64, u64)],
}

const NO_FAULTS: Faults<'static> = Faults {
    shelf: &[],
    out: &[],
    err: &[],
};

/// How a call ends, and what it writes.
#[derive(Clone, Copy)]
struct Ending<'a> {
    status: Status,
    out: &'a [u8],
    err: &'a [u8],
}

/// The commands that read programs.
const COMMANDS: &[&[u8]] = &[b"check", b"run", b"print", b"means"];

/// What a call answered and wrote.
#[derive(Drop)]
struct Called {
    report: Report,
    out: MemSink,
    err: MemSink,
}

fn texts(alloc: Global, words: &[&[u8]]) -> Result<List<Text>, NoMemory> {
    let mut texts = List::new(alloc);
    for word in words {
        texts.push(Text::from_slice(alloc, word)?)?;
    }
    Ok(texts)
}

/// A shelf whose one file is `a.ec`.
fn shelf_of(alloc: Global, source: &[u8], fails: &[u64]) -> Result<MemShelf, NoMemory> {
    let mut files = List::new(alloc);
    let name = Text::from_slice(alloc, b"a.ec")?;
    files.push((name, Text::from_slice(alloc, source)?))?;
    Ok(MemShelf::new(alloc, files, List::from_slice(alloc, fails)?))
}

fn sink(alloc: Global, fails: &[(u64, u64)]) -> Result<MemSink, NoMemory> {
    Ok(MemSink::new(alloc, List::from_slice(alloc, fails)?))
}

/// Calls with these words, over a shelf whose one file is `a.ec`.
fn call(
    alloc: Global,
    words: &[&[u8]],
    source: &[u8],
    faults: &Faults,
) -> Result<Called, NoMemory> {
    let words = texts(alloc, words)?;
    let mut shelf = shelf_of(alloc, source, faults.shelf)?;
    let mut out = sink(alloc, faults.out)?;
    let mut err = sink(alloc, faults.err)?;
    let gate = FreeGate::new();
    let words = words.as_slice();
    let report = earthc(alloc, words, &mut shelf, &mut out, &mut err, &gate, &|_| 0);
    Ok(Called { report, out, err })
}

/// Why a source is refused, where a status says so.
fn refusal_of(status: &Status) -> Option<Refusal> {
    match status {
        Status::SourceRefused(refusal) => Some(*refusal),
        _ => None,
    }
}

/// The status is the wanted one, and refuses a source as that does. The line tells a trap's kind and place.
fn is_status(rt: &impl Abort, status: &Status, wanted: &Status) {
    assert_eq!(rt; status.number(), wanted.number());
    assert_eq!(rt; refusal_of(status), refusal_of(wanted));
}

/// The call ended so.
fn is_ended(rt: &impl Abort, called: &Called, ending: &Ending) {
    is_status(rt, &called.report.status, &ending.status);
    assert_eq!(rt; called.out.bytes(), ending.out);
    assert_eq!(rt; called.err.bytes(), ending.err);
}

/// No run is kept.
fn is_bare(rt: &impl Abort, report: &Report) {
    assert!(rt; report.run.is_none());
    assert!(rt; report.code.is_none());
}

/// A run of one node is kept beside its code, each choice with its place as its stamp.
fn is_kept(rt: &impl Abort, report: &Report) {
    assert!(rt; report.code.is_some());
    let run = report.run.as_ref().expect(rt, "no run is kept");
    assert_eq!(rt; run.nodes, 1);
    assert_eq!(rt; run.steps, 1_048_576);
    assert!(rt; !run.list.as_slice().is_empty());
    let mut stamp = 0u64;
    for step in run.list.as_slice() {
        stamp = stamp.saturating_add(1);
        assert_eq!(rt; step.stamp, stamp);
    }
}

/// The command ends so, and keeps no run.
fn ends_bare(
    rt: &impl Abort,
    alloc: Global,
    words: &[&[u8]],
    source: &[u8],
    faults: &Faults,
    ending: &Ending,
) -> Result<(), NoMemory> {
    let called = call(alloc, words, source, faults)?;
    is_ended(rt, &called, ending);
    is_bare(rt, &called.report);
    Ok(())
}

/// A run of the source ends so, and is kept.
fn runs(
    rt: &impl Abort,
    alloc: Global,
    source: &[u8],
    faults: &Faults,
    ending: &Ending,
) -> Result<(), NoMemory> {
    let called = call(alloc, &[b"run", b"a.ec"], source, faults)?;
    is_ended(rt, &called, ending);
    is_kept(rt, &called.report);
    Ok(())
}

/// Sources, what their runs put out, and the line.
const RESULTS: &[(&[u8], &[u8], &[u8])] = &[
    (ANSWER, b"42\n", b"result 0\n"),
    (
        b"int main(){ int x = 2; x = x - 5; printf(\"%d %d%%\\n\", x, x * x); return x + 3; }",
        b"-3 9%\n",
        b"result 0\n",
    ),
    (
        b"int main(void){ printf(\"%ld\", 2 + 3 * 4); printf(\" %d\\n\", (2 + 3) * 4); return 10 - 4 - 3; }",
        b"14 20\n",
        b"result 3\n",
    ),
    (
        b"int main(){ int x; int y = 7; printf(\"%ld\\n\", y * y - x - 1 - 8); x = y; return 5 - x * 2 + 1; }",
        b"40\n",
        b"result -8\n",
    ),
    (
        b"int main(){ return 9223372036854775807 + 1; }",
        b"",
        b"result -9223372036854775808\n",
    ),
];

#[test]
fn programs_print_and_have_a_result(rt: HostRuntime) -> Result<(), NoMemory> {
    for (source, out, err) in RESULTS {
        let status = Status::Done;
        runs(
            &rt,
            rt.alloc(),
            source,
            &NO_FAULTS,
            &Ending { status, out, err },
        )?;
    }
    Ok(())
}

/// Sources, and what is printed of them.
const PRINTED: &[(&[u8], &[u8])] = &[
    (b"", b""),
    (b"int main(){return 0;}", b"int main ( ) {\nreturn 0 ;\n}\n"),
    (
        b"int main ( ) {\nreturn 0 ;\n}\n",
        b"int main ( ) {\nreturn 0 ;\n}\n",
    ),
    (
        b"int f(void){ int i, j; for(i=0;i<2;i++) ; return 1; } // end",
        b"int f ( ) {\nint i ;\nint j ;\nfor ( i = 0 ; i < 2 ; i = i + 1 ) ;\nreturn 1 ;\n}\n",
    ),
];

#[test]
fn a_printed_source_is_its_canonical_text(rt: HostRuntime) -> Result<(), NoMemory> {
    for (source, out) in PRINTED {
        let ending = Ending {
            status: Status::Done,
            out,
            err: b"",
        };
        let words = &[b"print".as_slice(), b"a.ec"];
        ends_bare(&rt, rt.alloc(), words, source, &NO_FAULTS, &ending)?;
    }
    Ok(())
}

#[test]
fn a_checked_source_is_accepted_and_not_run(rt: HostRuntime) -> Result<(), NoMemory> {
    let ending = Ending {
        status: Status::Done,
        out: b"accepted\n",
        err: b"",
    };
    let words = &[b"check".as_slice(), b"a.ec"];
    ends_bare(&rt, rt.alloc(), words, ANSWER, &NO_FAULTS, &ending)
}
