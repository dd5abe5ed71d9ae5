//! Command words.
ghost use Rattle.std.specs.Prelude.{◌≡◌, IfOk};
ghost use Rattle.ec_base.specs.Answers.{Answers};
ghost use Rattle.ec_driver.specs.Command.{is_file, is_option, is_threaded, run_of, told_command, told_name, numbers, alone};

use ec_base::{Fail, List, MAX_PARAMETERS, MAX_STEPS, Text};
use ec_lex::number_value;
use std::alloc::{AllocError, Global};

/// A command that the words give.
#[derive(Drop)]
pub enum Command {
    /// Says whether the source of this file is accepted.
    Check(Text),
    /// Writes the canonical text of this file.
    Print(Text),
    /// What the program of this file means with these arguments.
    Means(Text, List<i64>),
    Run(RunWords),
}

impl Command {
    /// Whether it runs a program, for which it may wait.
    pub fn is_threaded(&self) -> bool
        ensures { result ≡ is_threaded self.now }
    {
        match self {
            Command::Check(_) | Command::Print(_) | Command::Means(_, _) => false,
            Command::Run(_) => true,
        }
    }
}

/// The words of `run`: the file, the arguments of main, the number of nodes, the steps that a unit may make, whether
/// the memory is asked for, and the file for the journal.
#[derive(Drop)]
pub struct RunWords {
    pub file: Text,
    pub args: List<i64>,
    pub nodes: u32,
    pub steps: u64,
    pub memory: bool,
    pub journal: Option<Text>,
}

/// The words are no command.
#[derive(Clone, Copy, Debug)]
pub struct WordsRefusal;

/// Whether a word begins with `-` and is more than that.
fn is_option(word: &[u8]) -> bool
    ensures { result ≡ is_option word.now }
{
    word.len() > 1 && word[0] == b'-'
}

/// Whether a word may name a source file.
fn is_file(word: &Text) -> bool
    ensures { result ≡ is_file word.now }
{
    let bytes = word.as_slice();
    !bytes.is_empty() && !is_option(bytes) && !bytes.ends_with(b".tc")
}

/// The command of these words.
pub(crate) fn read_words(alloc: Global, words: &[Text]) -> Result<Command, Fail<WordsRefusal>>
    ensures { Answers result (told_command words.now) }
{
    let Some((name, rest)) = words.split_first() else {
        return Err(Fail::Refused(WordsRefusal));
    };
    let Some((file, others)) = rest.split_first() else {
        return Err(Fail::Refused(WordsRefusal));
    };
    if !is_file(file) {
        return Err(Fail::Refused(WordsRefusal));
    }
    read_name(alloc, name, file, others)
}

/// The command of this name for a file, with the words behind it.
fn read_name(
    alloc: Global,
    name: &Text,
    file: &Text,
    others: &[Text],
) -> Result<Command, Fail<WordsRefusal>>
    ensures { Answers result (told_name name.now file.now others.now) }
{
    let name = name.as_slice();
    if name == b"check".as_slice() {
        alone(others, Command::Check(file.copy(alloc)?))
    } else if name == b"print".as_slice() {
        alone(others, Command::Print(file.copy(alloc)?))
    } else if name == b"run".as_slice() {
        alone(others, Command::Run(run_of(alloc, file)?))
    } else if name == b"means".as_slice() && others.len() <= MAX_PARAMETERS as usize {
        Ok(Command::Means(file.copy(alloc)?, read_numbers(alloc, others)?))
    } else {
        Err(Fail::Refused(WordsRefusal))
    }
}

/// A command that takes no more words.
fn alone(others: &[Text], command: Command) -> Result<Command, Fail<WordsRefusal>>
    ensures { Answers result (alone others.now command) }
{
    if others.is_empty() {
        Ok(command)
    } else {
        Err(Fail::Refused(WordsRefusal))
    }
}

/// The arguments of main: decimals.
fn read_numbers(alloc: Global, words: &[Text]) -> Result<List<i64>, Fail<WordsRefusal>>
    ensures { Answers result (numbers words.now) }
{
    let mut numbers = List::new(alloc);
    for word in words {
        match number_value(word.as_slice()) {
            Some(number) => numbers.push(number)?,
            None => return Err(Fail::Refused(WordsRefusal)),
        }
    }
    Ok(numbers)
}

/// The words of `run` with all that they leave out.
fn run_of(alloc: Global, file: &Text) -> Result<RunWords, AllocError>
    ensures { IfOk result (λ r. r ≡ run_of file.now) }
{
    Ok(RunWords {
        file: file.copy(alloc)?,
        args: List::new(alloc),
        nodes: 1,
        steps: MAX_STEPS as u64,
        memory: false,
        journal: None,
    })
}
