//! Evaluates and lowers programs of data/, as the lines of data/rows say: a file, and either how many ticks there are and the
//! arguments of main, or the word `form`. What each means, or what its simple form has, is printed. What is wanted, the file stdout,
//! comes from an evaluator and a lowering written apart from these.
#![tactic(auto)]

mod forms;
mod telling;

use crate::forms::tell_form;
use crate::telling::tell;
use ec_base::{Fail, MAX_SOURCE};
use ec_lex::lex;
use ec_meaning::means;
use ec_reader::read;
use ec_simple::lower;
use ec_types::{Typed, check};
use std::alloc::Global;
use std::{fs, io};
use thiserror::Error;

/// Why a row tells nothing.
#[derive(Clone, Copy, Debug, Error)]
pub enum Flaw {
    #[error("no row")]
    NoRow,
    #[error("the file can't be read")]
    NoFile,
    #[error("the file has no typed program")]
    NoProgram,
}

/// The numbers that words are.
fn numbers(alloc: Global, words: &str) -> Result<Vec<i64>, Fail<Flaw>> {
    let mut numbers = Vec::new(alloc);
    for word in words.split_whitespace() {
        match word.parse::<i64>() {
            Ok(number) => numbers.push(number)?,
            Err(_) => return Err(Fail::Refused(Flaw::NoRow)),
        }
    }
    Ok(numbers)
}

/// The typed program of a text, if it has one.
fn typed(alloc: Global, text: &[u8]) -> Option<Typed> {
    if text.len() > MAX_SOURCE as usize {
        return None;
    }
    let tokens = lex(alloc, text).ok()?;
    let tree = read(alloc, &tokens).ok()?;
    check(alloc, tree).ok()
}

/// The typed program in a file.
fn program_in(rt: &HostRuntime, file: &str) -> Result<Typed, Fail<Flaw>> {
    let Ok(text) = fs::read(rt, file) else {
        return Err(Fail::Refused(Flaw::NoFile));
    };
    match typed(rt.alloc(), text.as_slice()) {
        Some(program) => Ok(program),
        None => Err(Fail::Refused(Flaw::NoProgram)),
    }
}

/// What a program means with so many ticks and these arguments, the first of the numbers and the rest.
fn evaluate(alloc: Global, program: &Typed, words: &str) -> Result<String, Fail<Flaw>> {
    let numbers = numbers(alloc, words)?;
    let Some((ticks, args)) = numbers.as_slice().split_first() else {
        return Err(Fail::Refused(Flaw::NoRow));
    };
    let Ok(ticks) = u64::try_from(*ticks) else {
        return Err(Fail::Refused(Flaw::NoRow));
    };
    let meant = means(alloc, program, args, ticks)?;
    Ok(tell(alloc, &meant)?)
}

/// What a row asks for.
fn answer(rt: &HostRuntime, row: &str) -> Result<String, Fail<Flaw>> {
    let Some((file, words)) = row.split_once(' ') else {
        return Err(Fail::Refused(Flaw::NoRow));
    };
    let program = program_in(rt, file)?;
    if words == "form" {
        Ok(tell_form(rt.alloc(), &lower(rt.alloc(), &program)?)?)
    } else {
        evaluate(rt.alloc(), &program, words)
    }
}

fn main(rt: HostRuntime) -> io::Result<()> {
    for row in fs::read_to_string(&rt, "rows")?.lines() {
        match answer(&rt, row) {
            Ok(text) => print!(rt; "{row}: {text}")?,
            Err(fail) => println!(rt; "{row}: {fail}")?,
        }
    }
    Ok(())
}
