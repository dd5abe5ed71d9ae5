//! Files that cannot be read, and what cannot be written.
use crate::driver::{ANSWER, COMMANDS, Ending, Faults, call, ends_bare, is_ended, runs};
use ec_base::NoMemory;
use ec_driver::Status;
use std::alloc::Global;
use std::process::Abort;

/// Puts that fail, as the call and how many bytes it writes before.
type Fails = &'static [(u64, u64)];

/// A command and a source, which puts fail of each sink, how that ends, and what is put out.
type WriteRow = (
    &'static [u8],
    &'static [u8],
    Fails,
    Fails,
    Status,
    &'static [u8],
);

const UNWRITTEN: &[WriteRow] = &[
    (
        b"check",
        ANSWER,
        &[(1, 4)],
        &[],
        Status::WriteFault,
        b"acce",
    ),
    (b"check", b"", &[], &[(1, 0)], Status::WriteFault, b""),
    (b"check", b"$", &[], &[(1, 0)], Status::WriteFault, b""),
    (
        b"print",
        ANSWER,
        &[(1, 4)],
        &[],
        Status::WriteFault,
        b"int ",
    ),
    (b"print", b"", &[(1, 4)], &[], Status::Done, b""),
    (b"means", ANSWER, &[(1, 1)], &[], Status::WriteFault, b"4"),
    (
        b"means",
        ANSWER,
        &[],
        &[(1, 0)],
        Status::WriteFault,
        b"42\n",
    ),
];

#[test]
fn what_a_command_without_a_run_cannot_write_is_a_fault(rt: HostRuntime) -> Result<(), NoMemory> {
    for (command, source, out, err, status, written) in UNWRITTEN {
        let faults = Faults {
            shelf: &[],
            out,
            err,
        };
        let ending = Ending {
            status: *status,
            out: written,
            err: b"",
        };
        ends_bare(
            &rt,
            rt.alloc(),
            &[command, b"a.ec"],
            source,
            &faults,
            &ending,
        )?;
    }
    Ok(())
}

/// Which puts of a run of `ANSWER` fail of each sink, and what is written to each.
const UNWRITTEN_RUNS: &[(Fails, Fails, &[u8], &[u8])] = &[
    (&[(1, 1)], &[], b"4", b""),
    (&[], &[(1, 0)], b"42\n", b""),
    (&[], &[(1, 6)], b"42\n", b"result"),
];

#[test]
fn what_cannot_be_written_is_a_fault_beside_its_run(rt: HostRuntime) -> Result<(), NoMemory> {
    for (out, err, written, line) in UNWRITTEN_RUNS {
        let faults = Faults {
            shelf: &[],
            out,
            err,
        };
        let ending = Ending {
            status: Status::WriteFault,
            out: written,
            err: line,
        };
        runs(&rt, rt.alloc(), ANSWER, &faults, &ending)?;
    }
    Ok(())
}

/// Prints three times.
const LONG: &[u8] =
    b"int main(){ printf(\"%d\\n\", 1); printf(\"%d\\n\", 2); printf(\"3\"); return 0; }";

/// Commands over `LONG`, what they put out, and the line.
const OUTPUTS: &[(&[u8], &[u8], &[u8])] = &[
    (b"run", b"1\n2\n3", b"result 0\n"),
    (b"means", b"1\n2\n3", b"result 0\n"),
    (b"check", b"accepted\n", b""),
    (
        b"print",
        b"int main ( ) {\nprintf ( \"%d\\n\" , 1 ) ;\nprintf ( \"%d\\n\" , 2 ) ;\nprintf ( \"3\" ) ;\nreturn 0 ;\n}\n",
        b"",
    ),
];

/// The command over `LONG` ends so, though a second put of the output fails.
fn puts_once(
    rt: &impl Abort,
    alloc: Global,
    command: &[u8],
    ending: &Ending,
) -> Result<(), NoMemory> {
    let faults = Faults {
        shelf: &[],
        out: &[(2, 0)],
        err: &[],
    };
    let called = call(alloc, &[command, b"a.ec"], LONG, &faults)?;
    is_ended(rt, &called, ending);
    Ok(())
}

/// Each command puts its output at once: a fault at a second put is never met.
#[test]
fn the_output_is_one_put(rt: HostRuntime) -> Result<(), NoMemory> {
    for (command, out, err) in OUTPUTS {
        let status = Status::Done;
        puts_once(&rt, rt.alloc(), command, &Ending { status, out, err })?;
    }
    Ok(())
}

/// Files of a shelf that has `a.ec`, and which calls of it fail.
const UNREAD: &[(&[u8], &[u64])] = &[(b"none.ec", &[]), (b"a.ec", &[1]), (b"A.ec", &[2])];

/// Each command meets a fault at the file.
fn is_unread(rt: &impl Abort, alloc: Global, file: &[u8], fails: &[u64]) -> Result<(), NoMemory> {
    let faults = Faults {
        shelf: fails,
        out: &[],
        err: &[],
    };
    let ending = Ending {
        status: Status::ReadFault,
        out: b"",
        err: b"read fault\n",
    };
    for command in COMMANDS {
        ends_bare(rt, alloc, &[command, file], ANSWER, &faults, &ending)?;
    }
    Ok(())
}

#[test]
fn a_file_that_cannot_be_read_is_a_fault(rt: HostRuntime) -> Result<(), NoMemory> {
    for (file, fails) in UNREAD {
        is_unread(&rt, rt.alloc(), file, fails)?;
    }
    Ok(())
}
