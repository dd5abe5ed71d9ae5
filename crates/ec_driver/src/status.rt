//! How a command ends.
ghost use Rattle.std.specs.Prelude.{◌≡◌};
ghost use Rattle.ec_driver.specs.Lines.{not_program, not_token, not_typed, not_yet, refusal, too_long};
ghost use Rattle.ec_driver.specs.Ending.{bare};
ghost use Rattle.ec_driver.specs.Status.{number_of};

use ec_base::{MAX_SOURCE, Reason, Span, Trap};
use ec_core::{Code, Run};
use ec_lex::LexRefusal;
use ec_reader::ReadRefusal;
use ec_types::TypeRefusal;

/// Why and where a source is refused; `other` is a second place that the refusal speaks of.
#[derive(Clone, Copy, Debug, PartialEq, Eq)]
pub struct Refusal {
    pub what: u8,
    pub at: Span,
    pub other: Option<Span>,
}

impl Refusal {
    /// A refusal for this reason, which speaks of one place.
    fn new(reason: Reason, at: Span) -> Refusal
        ensures { result ≡ refusal reason at }
    {
        Refusal {
            what: reason.number(),
            at,
            other: None,
        }
    }

    /// The text has no token here.
    pub(crate) fn not_token(first: LexRefusal) -> Refusal
        ensures { result ≡ not_token first }
    {
        Refusal {
            what: first.what,
            at: first.at,
            other: None,
        }
    }

    /// No program of the whole language within the limits goes on with the token here.
    pub(crate) fn not_program(first: ReadRefusal) -> Refusal
        ensures { result ≡ not_program first }
    {
        Refusal {
            what: first.what,
            at: first.at,
            other: None,
        }
    }

    /// A part of the program breaks a rule of typing.
    pub(crate) fn not_typed(first: TypeRefusal) -> Refusal
        ensures { result ≡ not_typed first }
    {
        Refusal {
            what: first.what,
            at: first.at,
            other: first.other,
        }
    }

    /// The file has more bytes than a source may have.
    pub(crate) fn too_long() -> Refusal
        ensures { result ≡ too_long }
    {
        let from = MAX_SOURCE;
        Refusal::new(Reason::TooLong, Span { from, to: from + 1 })
    }

    /// No program of the forms that are built continues after the token here.
    pub(crate) fn not_yet(at: Span) -> Refusal
        ensures { result ≡ not_yet at }
    {
        Refusal::new(Reason::NotYet, at)
    }
}

/// How a command ends.
#[derive(Clone, Copy)]
pub enum Status {
    /// The run or the meaning has ended, or the source is accepted.
    Done,
    /// The words are no command.
    WordsRefused,
    /// The source is refused.
    SourceRefused(Refusal),
    /// The meaning traps.
    Trapped(Trap),
    /// A unit has made as many steps as it may, or a meaning has spent its ticks.
    StepsSpent,
    /// The file could not be read.
    ReadFault,
    /// The output or a line could not be written.
    WriteFault,
    /// Memory was wanted.
    NoMemory,
    /// In a meaning more activations would be open at once than may be.
    TooDeep,
}

impl Status {
    /// The exit code of the program.
    pub fn number(&self) -> u8
        ensures { result ≡ number_of self.now }
    {
        match self {
            Status::Done => 0,
            Status::WordsRefused => 1,
            Status::SourceRefused(_) => 2,
            Status::Trapped(_) => 3,
            Status::StepsSpent => 4,
            Status::ReadFault => 5,
            Status::WriteFault => 6,
            Status::NoMemory => 7,
            Status::TooDeep => 9,
        }
    }
}

/// What a call of the top answers: its status, and the run that it kept of which code.
#[derive(Drop)]
pub struct Report {
    pub status: Status,
    pub run: Option<Run>,
    pub code: Option<Code>,
}

impl Report {
    /// Nothing but a status.
    pub(crate) fn bare(status: Status) -> Report
        ensures { result ≡ bare status }
    {
        Report {
            status,
            run: None,
            code: None,
        }
    }

    /// The same run and code with this status.
    pub(crate) fn with(self, status: Status) -> Report
        ensures { result ≡ record self { status = status } }
    {
        Report {
            status,
            run: self.run,
            code: self.code,
        }
    }
}
