//! The program `earthc`: it hands the words, the files and the streams of the system to the top call.
#![tactic(auto)]

use ec_base::Text;
use ec_driver::{Status, earthc, stop};
use ec_edge::{FileShelf, FreeGate, Std, StdSink};
use std::env;
use std::io::ErrorKind;
use std::process::ExitCode;

/// The words behind the program's name, or the status where they are no texts or memory is wanted.
fn words(rt: &HostRuntime) -> Result<Vec<Text>, Status> {
    let alloc = rt.alloc();
    let args = match env::args(rt) {
        Ok(args) => args,
        Err(error) if error.kind() == ErrorKind::OutOfMemory => return Err(Status::NoMemory),
        Err(_) => return Err(Status::WordsRefused),
    };
    let mut words = Vec::new(alloc);
    for arg in args.skip(1) {
        let word = Text::from_slice(alloc, arg.as_bytes()).map_err(|_| Status::NoMemory)?;
        words.push(word).map_err(|_| Status::NoMemory)?;
    }
    Ok(words)
}

/// Does what the words ask for, and answers the status.
fn run(rt: &HostRuntime, words: &[Text]) -> Status {
    let alloc = rt.alloc();
    let mut shelf = FileShelf::new(rt, alloc);
    let mut out = StdSink::new(rt, Std::Out);
    let mut err = StdSink::new(rt, Std::Err);
    let gate = FreeGate::new();
    let report = earthc(alloc, words, &mut shelf, &mut out, &mut err, &gate, &|_| 0);
    report.status
}

/// Says that there are no words to go by, and answers the status.
fn stop_short(rt: &HostRuntime, status: Status) -> Status {
    let mut out = StdSink::new(rt, Std::Out);
    let mut err = StdSink::new(rt, Std::Err);
    let why = match status {
        Status::NoMemory => Status::NoMemory,
        _ => Status::WordsRefused,
    };
    stop(rt.alloc(), &mut out, &mut err, why).status
}

fn main(rt: HostRuntime) -> ExitCode {
    let status = match words(&rt) {
        Ok(words) => run(&rt, words.as_slice()),
        Err(status) => stop_short(&rt, status),
    };
    ExitCode::from(status.number())
}
