//! From a file to the tree of its program, or to its canonical text.
ghost use Rattle.std.specs.Prelude.{◌≡◌, IfErr, IfOk, OnOk, MatchResult};
ghost use Rattle.ec_base.specs.Lexical.{AreTokens};
ghost use Rattle.ec_edge.specs.Shelf.{OnlyReads};
ghost use Rattle.ec_small.specs.Grammar.{Reads};
ghost use Rattle.ec_small.specs.Sound.{Sound};
ghost use Rattle.ec_driver.specs.Load.{Fails, OfText, Unread, status_of};
ghost use Rattle.ec_driver.specs.Source.{Accepts, IsChecked, IsSource, IsTypedSource, Lexes, Misfits, Prints};
ghost use Rattle.ec_driver.specs.Source.{HasTree, Rejects, StopsAt, Unchecked, Untyped};
ghost use Rattle.ec_driver.specs.Status.{ReadsAs};
ghost use Rattle.ec_driver.specs.Task.{IsText};

use crate::built::first_parallel;
use crate::status::{Refusal, Status};
use ec_base::{Fail, MAX_SOURCE, Text, Token, Tokens};
use ec_edge::{ReadEnd, Shelf};
use ec_lex::lex;
use ec_print::print;
use ec_small::Program;
use ec_syntax::Program as Tree;
use ec_types::Typed;
use std::alloc::Global;

/// The tokens of a text and the tree of its program in the whole language.
#[derive(Drop)]
pub(crate) struct Parsed {
    pub tokens: Tokens,
    pub tree: Tree,
}

/// The tokens of a text, or why and where it has none.
fn cut(alloc: Global, text: &Text) -> Result<Tokens, Fail<Refusal>>
    ensures { MatchResult result (Lexes text.now) (Fails (Misfits text.now)) }
{
    if text.len() > MAX_SOURCE as usize {
        return Err(Fail::Refused(Refusal::too_long()));
    }
    match lex(alloc, text.as_slice()) {
        Ok(tokens) => Ok(tokens),
        Err(Fail::Memory) => Err(Fail::Memory),
        Err(Fail::Refused(first)) => Err(Fail::Refused(Refusal::not_token(first))),
    }
}

/// The program of a text in the whole language, or why and where it is none.
fn parse(alloc: Global, text: &Text) -> Result<Parsed, Fail<Refusal>>
    ensures { MatchResult result (λ s. IsSource text.now s.tokens s.tree) (Fails (Misfits text.now)) }
{
    let tokens = cut(alloc, text)?;
    match ec_reader::read(alloc, &tokens) {
        Ok(tree) => Ok(Parsed { tokens, tree }),
        Err(Fail::Memory) => Err(Fail::Memory),
        Err(Fail::Refused(first)) => Err(Fail::Refused(Refusal::not_program(first))),
    }
}

/// The tokens of a text and its program, which is typed.
#[derive(Drop)]
pub(crate) struct TypedSource {
    pub tokens: Tokens,
    pub typed: Typed,
}

/// The typed program of a text, or why and where it is none.
fn typed(alloc: Global, text: &Text) -> Result<TypedSource, Fail<Refusal>>
    ensures { MatchResult result (λ s. IsTypedSource text.now s.tokens s.typed) (Fails (Untyped text.now)) }
{
    let parsed = parse(alloc, text)?;
    match ec_types::check(alloc, parsed.tree) {
        Ok(typed) => Ok(TypedSource {
            tokens: parsed.tokens,
            typed,
        }),
        Err(Fail::Memory) => Err(Fail::Memory),
        Err(Fail::Refused(first)) => Err(Fail::Refused(Refusal::not_typed(first))),
    }
}

/// Whether a text is a program all of whose forms are built, or why and where it isn't.
fn checked(alloc: Global, text: &Text) -> Result<(), Fail<Refusal>>
    ensures { MatchResult result (λ u. IsChecked text.now) (Fails (Unchecked text.now)) }
{
    let source = typed(alloc, text)?;
    match first_parallel(source.typed.program()) {
        None => Ok(()),
        Some(at) => Err(Fail::Refused(Refusal::not_yet(at))),
    }
}

/// The tree of the small program that the tokens of a text are, or where they are none.
fn narrow(alloc: Global, tokens: &[Token]) -> Result<Program, Fail<Refusal>>
    requires { AreTokens tokens.now }
    ensures { MatchResult result (λ p. Reads tokens.now p × Sound p) (Fails (StopsAt tokens.now)) }
{
    match ec_small::read(alloc, tokens) {
        Ok(program) => Ok(program),
        Err(Fail::Memory) => Err(Fail::Memory),
        Err(Fail::Refused(at)) => Err(Fail::Refused(Refusal::not_yet(tokens[at].at))),
    }
}

/// The tree of the small program that a text is, or why and where it is none.
fn tree(alloc: Global, text: &Text) -> Result<Program, Fail<Refusal>>
    ensures { MatchResult result (λ p. Accepts text.now p × Sound p) (Fails (Rejects text.now)) }
{
    let source = typed(alloc, text)?;
    narrow(alloc, source.tokens.as_slice())
}

/// The canonical text of the program that a text is, or why and where it is none.
fn canonical(alloc: Global, text: &Text) -> Result<Text, Fail<Refusal>>
    ensures { MatchResult result (Prints text.now) (Fails (Misfits text.now)) }
{
    let parsed = parse(alloc, text)?;
    Ok(print(alloc, &parsed.tree)?)
}

/// The status of a text that isn't read.
fn status_of(fail: Fail<Refusal>) -> Status
    ensures { result ≡ status_of fail }
{
    match fail {
        Fail::Memory => Status::NoMemory,
        Fail::Refused(refusal) => Status::SourceRefused(refusal),
    }
}

/// The text of a file, or the status that tells why there is none. The shelf is only read.
fn fetch<S: Shelf>(shelf: &mut S, file: &Text) -> Result<Text, Status>
    ensures ok { IfOk result (IsText ((S.has shelf.old).told file.now)) }
    ensures err { IfErr result (Unread Misfits ((S.has shelf.old).told file.now)) }
    ensures only { OnlyReads (S.has shelf.old) (S.has shelf.new) }
    ensures quiet { OnOk result ((S.has shelf.new).read_faults ≡ (S.has shelf.old).read_faults) }
    ensures reads { IfErr result (λ s. ReadsAs s (S.has shelf.old).read_faults (S.has shelf.new).read_faults) }
{
    match shelf.read(file, MAX_SOURCE as u64) {
        Ok(ReadEnd::Whole(text)) => Ok(text),
        Ok(ReadEnd::TooLong) => Err(Status::SourceRefused(Refusal::too_long())),
        Err(Fail::Memory) => Err(Status::NoMemory),
        Err(Fail::Refused(_)) => Err(Status::ReadFault),
    }
}

/// The tree of a file, or the status that tells why there is none. The shelf is only read.
pub(crate) fn load<S: Shelf>(alloc: Global, shelf: &mut S, file: &Text) -> Result<Program, Status>
    ensures ok { IfOk result (λ p. OfText ((S.has shelf.old).told file.now) (λ text. Accepts text p) × Sound p) }
    ensures err { IfErr result (Unread Rejects ((S.has shelf.old).told file.now)) }
    ensures only { OnlyReads (S.has shelf.old) (S.has shelf.new) }
    ensures quiet { OnOk result ((S.has shelf.new).read_faults ≡ (S.has shelf.old).read_faults) }
    ensures reads { IfErr result (λ s. ReadsAs s (S.has shelf.old).read_faults (S.has shelf.new).read_faults) }
{
    let text = fetch(shelf, file)?;
    match tree(alloc, &text) {
        Ok(program) => Ok(program),
        Err(fail) => Err(status_of(fail)),
    }
}

/// The typed program of a file, or the status that tells why there is none. The shelf is only read.
pub(crate) fn load_typed<S: Shelf>(
    alloc: Global,
    shelf: &mut S,
    file: &Text,
) -> Result<Typed, Status>
    ensures ok { IfOk result (λ t. OfText ((S.has shelf.old).told file.now) (λ text. HasTree text t)) }
    ensures err { IfErr result (Unread Untyped ((S.has shelf.old).told file.now)) }
    ensures only { OnlyReads (S.has shelf.old) (S.has shelf.new) }
    ensures quiet { OnOk result ((S.has shelf.new).read_faults ≡ (S.has shelf.old).read_faults) }
    ensures reads { IfErr result (λ s. ReadsAs s (S.has shelf.old).read_faults (S.has shelf.new).read_faults) }
{
    let text = fetch(shelf, file)?;
    match typed(alloc, &text) {
        Ok(source) => Ok(source.typed),
        Err(fail) => Err(status_of(fail)),
    }
}

/// Whether a file is checked, or the status that tells why it isn't. The shelf is only read.
pub(crate) fn load_checked<S: Shelf>(
    alloc: Global,
    shelf: &mut S,
    file: &Text,
) -> Result<(), Status>
    ensures ok { IfOk result (λ u. OfText ((S.has shelf.old).told file.now) IsChecked) }
    ensures err { IfErr result (Unread Unchecked ((S.has shelf.old).told file.now)) }
    ensures only { OnlyReads (S.has shelf.old) (S.has shelf.new) }
    ensures quiet { OnOk result ((S.has shelf.new).read_faults ≡ (S.has shelf.old).read_faults) }
    ensures reads { IfErr result (λ s. ReadsAs s (S.has shelf.old).read_faults (S.has shelf.new).read_faults) }
{
    let text = fetch(shelf, file)?;
    match checked(alloc, &text) {
        Ok(()) => Ok(()),
        Err(fail) => Err(status_of(fail)),
    }
}

/// The canonical text of a file, or the status that tells why there is none. The shelf is only read.
pub(crate) fn load_printed<S: Shelf>(
    alloc: Global,
    shelf: &mut S,
    file: &Text,
) -> Result<Text, Status>
    ensures ok { IfOk result (λ canon. OfText ((S.has shelf.old).told file.now) (λ text. Prints text canon)) }
    ensures err { IfErr result (Unread Misfits ((S.has shelf.old).told file.now)) }
    ensures only { OnlyReads (S.has shelf.old) (S.has shelf.new) }
    ensures quiet { OnOk result ((S.has shelf.new).read_faults ≡ (S.has shelf.old).read_faults) }
    ensures reads { IfErr result (λ s. ReadsAs s (S.has shelf.old).read_faults (S.has shelf.new).read_faults) }
{
    let text = fetch(shelf, file)?;
    match canonical(alloc, &text) {
        Ok(canon) => Ok(canon),
        Err(fail) => Err(status_of(fail)),
    }
}
