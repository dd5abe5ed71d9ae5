//! Shelves and sinks: those in memory, and those of the system.
use ec_base::{Fail, List, NoMemory, Text};
use ec_edge::{FileShelf, MemShelf, MemSink, ReadEnd, Shelf, ShelfFault, Sink, Std, StdSink, send};
use std::alloc::Global;
use std::io::{self, Write};
use std::process::{self, Abort};
use std::test::Fail as Failed;

enum Call {
    Read(&'static [u8], u64),
    Write(&'static [u8], &'static [u8]),
}

/// The bytes that were read, or a word for the other answers.
fn shown(answer: &Result<ReadEnd, Fail<ShelfFault>>) -> &[u8] {
    match answer {
        Ok(ReadEnd::Whole(text)) => text.as_slice(),
        Ok(ReadEnd::TooLong) => b"too long",
        Err(Fail::Memory) => b"no memory",
        Err(Fail::Refused(_)) => b"fault",
    }
}

/// A shelf with one file `a` of three bytes.
fn shelf_of_one(alloc: Global, fails: &[u64]) -> Result<MemShelf, NoMemory> {
    let mut files = List::new(alloc);
    let name = Text::from_slice(alloc, b"a")?;
    files.push((name, Text::from_slice(alloc, b"abc")?))?;
    Ok(MemShelf::new(alloc, files, List::from_slice(alloc, fails)?))
}

/// What a call answers; a write that goes well reads as no bytes.
fn answer(alloc: Global, shelf: &mut MemShelf, call: &Call) -> Result<ReadEnd, Fail<ShelfFault>> {
    match call {
        Call::Read(name, most) => shelf.read(&Text::from_slice(alloc, name)?, *most),
        Call::Write(name, bytes) => {
            shelf.write(&Text::from_slice(alloc, name)?, bytes)?;
            Ok(ReadEnd::Whole(Text::from_vec(Vec::new(alloc))))
        }
    }
}

/// A call, its answer, and the counts of faults behind it.
type CallRow = (Call, &'static [u8], u64, u64);

/// Calls of a shelf of which the second and the fourth fail.
const CALLS: &[CallRow] = &[
    (Call::Read(b"a", 3), b"abc", 0, 0),
    (Call::Read(b"a", 3), b"fault", 1, 0),
    (Call::Read(b"a", 2), b"too long", 1, 0),
    (Call::Write(b"a", b"xy"), b"fault", 1, 1),
    (Call::Read(b"a", 3), b"fault", 2, 1),
    (Call::Write(b"a", b"z"), b"", 2, 1),
    (Call::Read(b"a", 3), b"z", 2, 1),
    (Call::Read(b"b", 3), b"fault", 3, 1),
    (Call::Write(b"b", b""), b"", 3, 1),
    (Call::Read(b"b", 0), b"", 3, 1),
    (Call::Read(b"a", 0), b"too long", 3, 1),
];

fn is_answered(rt: &impl Abort, alloc: Global, shelf: &mut MemShelf, row: &CallRow) {
    let (call, want, read_faults, write_faults) = row;
    let answer = answer(alloc, shelf, call);
    assert_eq!(rt; shown(&answer), *want);
    assert_eq!(rt; shelf.read_faults(), *read_faults);
    assert_eq!(rt; shelf.write_faults(), *write_faults);
}

#[test]
fn listed_calls_fail(rt: HostRuntime) -> Result<(), NoMemory> {
    let mut shelf = shelf_of_one(rt.alloc(), &[2, 4])?;
    for row in CALLS {
        is_answered(&rt, rt.alloc(), &mut shelf, row);
    }
    Ok(())
}

/// Calls of a shelf of which none fails.
const CALLS_THAT_GO_WELL: &[CallRow] = &[
    (Call::Read(b"a", u64::MAX), b"abc", 0, 0),
    (Call::Read(b"a", u64::MAX), b"abc", 0, 0),
    (Call::Read(b"a", u64::MAX), b"abc", 0, 0),
    (Call::Write(b"a", b"d"), b"", 0, 0),
];

#[test]
fn an_empty_list_never_fails(rt: HostRuntime) -> Result<(), NoMemory> {
    let mut shelf = shelf_of_one(rt.alloc(), &[])?;
    for row in CALLS_THAT_GO_WELL {
        is_answered(&rt, rt.alloc(), &mut shelf, row);
    }
    assert_eq!(rt;
        shelf.told(b"a").map(|t| t.as_slice()),
        Some(b"d".as_slice())
    );
    assert!(rt; shelf.told(b"b").is_none());
    Ok(())
}

/// A piece, whether it is put, and the bytes and faults behind it.
type PutRow = (&'static [u8], bool, &'static [u8], u64);

/// Puts of which the second and the fourth fail, after two bytes and after nine.
const PUTS: &[PutRow] = &[
    (b"ab", true, b"ab", 0),
    (b"cdef", false, b"abcd", 1),
    (b"", true, b"abcd", 1),
    (b"gh", false, b"abcdgh", 2),
    (b"i", true, b"abcdghi", 2),
];

fn has_taken(rt: &impl Abort, sink: &MemSink, bytes: &[u8], faults: u64) {
    assert_eq!(rt; sink.bytes(), bytes);
    assert_eq!(rt; sink.faults(), faults);
}

fn is_put(rt: &impl Abort, sink: &mut MemSink, row: &PutRow) {
    let (piece, goes_well, written, faults) = row;
    assert_eq!(rt; sink.put(piece).is_ok(), *goes_well);
    has_taken(rt, sink, written, *faults);
}

#[test]
fn listed_puts_fail_after_their_bytes(rt: HostRuntime) -> Result<(), NoMemory> {
    let fails = List::from_slice(rt.alloc(), &[(2, 2), (4, 9)])?;
    let mut sink = MemSink::new(rt.alloc(), fails);
    for row in PUTS {
        is_put(&rt, &mut sink, row);
    }
    Ok(())
}

#[test]
fn both_streams_take_bytes(rt: HostRuntime) {
    for which in [Std::Out, Std::Err] {
        let mut sink = StdSink::new(&rt, which);
        assert!(rt; sink.put(b"taken\n").is_ok());
        assert_eq!(rt; sink.faults(), 0);
    }
}

/// How a read ended.
fn kind(answer: &Result<ReadEnd, Fail<ShelfFault>>) -> &'static str {
    match answer {
        Ok(ReadEnd::Whole(_)) => "whole",
        Ok(ReadEnd::TooLong) => "too long",
        Err(Fail::Memory) => "no memory",
        Err(Fail::Refused(_)) => "fault",
    }
}

/// A file, how a read of at most 10,000 bytes ends, and the faults behind it.
type ReadRow = (&'static [u8], &'static str, u64);

const FILES: &[ReadRow] = &[
    (b"/dev/null", "whole", 0),
    (b"/dev/zero", "too long", 0),
    (b"/", "fault", 1),
    (b"/proc/self/mem", "fault", 2),
    (b"/no/such/file", "fault", 3),
    (b"/dev/null\xff", "fault", 4),
    (b"", "fault", 5),
];

fn is_read(
    rt: &impl Abort,
    alloc: Global,
    shelf: &mut impl Shelf,
    row: &ReadRow,
) -> Result<(), NoMemory> {
    let (name, want, faults) = row;
    let name = Text::from_slice(alloc, name)?;
    assert_eq!(rt; kind(&shelf.read(&name, 10_000)), *want);
    assert_eq!(rt; shelf.read_faults(), *faults);
    Ok(())
}

#[test]
fn what_is_no_file_is_a_counted_fault(rt: HostRuntime) -> Result<(), NoMemory> {
    let mut shelf = FileShelf::new(rt, rt.alloc());
    for row in FILES {
        is_read(&rt, rt.alloc(), &mut shelf, row)?;
    }
    Ok(())
}

/// A file, whether it takes a text, and the faults behind it.
type WriteRow = (&'static [u8], bool, u64);

const TAKERS: &[WriteRow] = &[
    (b"/dev/null", true, 0),
    (b"/dev/full", false, 1),
    (b"/", false, 2),
];

fn is_written(
    rt: &impl Abort,
    alloc: Global,
    shelf: &mut impl Shelf,
    row: &WriteRow,
) -> Result<(), NoMemory> {
    let (name, goes_well, faults) = row;
    let name = Text::from_slice(alloc, name)?;
    assert_eq!(rt; shelf.write(&name, b"text").is_ok(), *goes_well);
    assert_eq!(rt; shelf.write_faults(), *faults);
    Ok(())
}

#[test]
fn a_file_that_takes_nothing_is_a_counted_fault(rt: HostRuntime) -> Result<(), NoMemory> {
    let mut shelf = FileShelf::new(rt, rt.alloc());
    for row in TAKERS {
        is_written(&rt, rt.alloc(), &mut shelf, row)?;
    }
    Ok(())
}

/// What is written into the file is read where it has room, and is too long by one byte.
fn comes_back(rt: &impl Abort, shelf: &mut impl Shelf, name: &Text, bytes: &[u8]) {
    assert!(rt; shelf.write(name, bytes).is_ok());
    let most = bytes.len() as u64;
    assert_eq!(rt; shown(&shelf.read(name, most)), bytes);
    assert_eq!(rt; kind(&shelf.read(name, most.saturating_sub(1))), "too long");
}

#[test]
fn a_long_file_comes_back_whole(rt: HostRuntime) -> Result<(), Failed> {
    let mut shelf = FileShelf::new(rt, rt.alloc());
    let path = format!(in rt.alloc(); "/tmp/long_file_{}", process::id(rt.process()))?;
    let name = Text::from_slice(rt.alloc(), path.as_bytes())?;
    let bytes = vec![in rt.alloc(); 7; 10_000]?;
    comes_back(&rt, &mut shelf, &name, bytes.as_slice());
    std::fs::remove_file(&rt, path.as_str())?;
    Ok(())
}

/// A writer that takes nothing.
#[derive(Drop)]
struct Stuck;

impl Write for Stuck {
    fn write(&mut self, _buf: &[u8]) -> io::Result<usize> {
        Ok(0)
    }

    fn flush(&mut self) -> io::Result<()> {
        Ok(())
    }
}

#[test]
fn a_writer_that_takes_nothing_is_an_error(rt: HostRuntime) {
    assert!(rt; send(&mut Stuck, b"").is_ok());
    assert!(rt; send(&mut Stuck, b"a").is_err());
}
