//! A place in the tokens of a program, and what has been counted up to there.
ghost use Rattle.std.specs.Prelude.{◌≡◌, ◌≤◌, ◌<◌, ◌+◌, [], ◌∷◌, true, length, drop, MatchOption};
ghost use Rattle.ec_syntax.specs.Grammar.Language.{begin, span};
ghost use Rattle.ec_syntax.specs.Grammar.Items.{with_struct};
ghost use Rattle.ec_syntax.specs.Grammar.Tokens.{with_mark, with_variable, with_function};
ghost use Rattle.ec_syntax.specs.declared.quantity.Quantity.TheVariants.{Marks, Variables, Functions, Structs};
ghost use Rattle.ec_syntax.specs.Grammar.Reading.{start};
ghost use Rattle.ec_reader.specs.Answers.{Counted, past};

use ec_base::{MAX_FUNCTIONS, MAX_MARKS, MAX_SOURCE, MAX_STRUCTS, MAX_VARIABLES, Span, Token};
use ec_syntax::{Fault, Quantity};
use std::marker::Model;

/// The tokens that are left, where the last one that was read ends, and the counts that have limits.
#[derive(Drop)]
pub(crate) struct Cursor<'a> {
    tokens: &'a [Token],
    at: usize,
    end: u32,
    marks: u32,
    variables: u32,
    functions: u32,
    structs: u32,
}

impl<'a> Model for Cursor<'a> {
    ghost use Rattle.std.specs.Prelude.{◌≤◌, ◌+◌, length, drop};
    ghost use Rattle.ec_base.specs.declared.limits.TheConstants.{MAX_SOURCE, MAX_MARKS, MAX_VARIABLES, MAX_FUNCTIONS, MAX_STRUCTS};
    ghost use Rattle.ec_syntax.specs.Grammar.State.{State};

    ghost Value = { State };

    ghost view = { λ c. record {
      left = drop c.at c.tokens.now;
      end = c.end;
      marks = c.marks;
      variables = c.variables;
      functions = c.functions;
      structs = c.structs;
    } };

    ghost invariant = { λ c.
        (length c.tokens.now ≤ MAX_SOURCE + 1) × (c.at ≤ length c.tokens.now)
        × ((c.marks ≤ MAX_MARKS) × ((c.variables ≤ MAX_VARIABLES)
        × ((c.functions ≤ MAX_FUNCTIONS) × (c.structs ≤ MAX_STRUCTS)))) };
}

impl<'a> Cursor<'a> {
    /// Before the first token.
    pub(crate) fn new(tokens: &'a [Token]) -> Cursor<'a>
        requires { length tokens.now ≤ MAX_SOURCE + 1 }
        ensures { result ≡ start tokens.now }
    {
        Cursor {
            tokens,
            at: 0,
            end: 0,
            marks: 0,
            variables: 0,
            functions: 0,
            structs: 0,
        }
    }

    /// How many tokens are left.
    pub(crate) fn left(&self) -> usize
        ensures is { result ≡ length self.now.left }
        ensures few { length self.now.left ≤ 1048577 }
    {
        self.tokens.len() - self.at
    }

    /// The first token that is left.
    pub(crate) fn first(&self) -> Option<&'a Token>
        ensures { MatchOption result (self.now.left ≡ []) (λ t. self.now.left ≡ t.now ∷ drop 1 self.now.left) }
    {
        if self.at == self.tokens.len() {
            None
        } else {
            Some(&self.tokens[self.at])
        }
    }

    /// Goes past the first token.
    pub(crate) fn step(&mut self)
        requires { 0 < length self.old.left }
        ensures is { self.new ≡ past self.old }
        ensures few { length self.old.left ≤ 1048577 }
    {
        self.end = self.tokens[self.at].at.to;
        self.at += 1;
    }

    /// Where the first token begins.
    pub(crate) fn begin(&self) -> u32
        ensures { result ≡ begin self.now }
    {
        match self.first() {
            Some(token) => token.at.from,
            None => 0,
        }
    }

    /// From this place to the end of the last token that was read.
    pub(crate) fn span_from(&self, from: u32) -> Span
        ensures { result ≡ span from self.now.end }
    {
        Span { from, to: self.end }
    }

    /// Begins a part, which has operators and brackets of its own.
    pub(crate) fn begin_part(&mut self)
        ensures { self.new ≡ record self.old { marks = 0 } }
    {
        self.marks = 0;
    }

    /// Begins a function, which has variables of its own.
    pub(crate) fn begin_function(&mut self)
        ensures { self.new ≡ record self.old { variables = 0 } }
    {
        self.variables = 0;
    }

    /// Counts one more operator or bracket of a part.
    pub(crate) fn count_mark(&mut self) -> Result<(), Fault>
        ensures answer { Counted Marks MAX_MARKS self.old.marks (with_mark self.old) self.old result self.new }
        ensures stays { self.new.left ≡ self.old.left }
    {
        if self.marks >= MAX_MARKS {
            return Err(Fault::Passes(Quantity::Marks));
        }
        self.marks += 1;
        Ok(())
    }

    /// Counts one more variable of a function.
    pub(crate) fn count_variable(&mut self) -> Result<(), Fault>
        ensures answer { Counted Variables MAX_VARIABLES
            self.old.variables (with_variable self.old) self.old result self.new }
        ensures stays { self.new.left ≡ self.old.left }
    {
        if self.variables >= MAX_VARIABLES {
            return Err(Fault::Passes(Quantity::Variables));
        }
        self.variables += 1;
        Ok(())
    }

    /// Counts one more function.
    pub(crate) fn count_function(&mut self) -> Result<(), Fault>
        ensures answer { Counted Functions MAX_FUNCTIONS
            self.old.functions (with_function self.old) self.old result self.new }
        ensures stays { self.new.left ≡ self.old.left }
    {
        if self.functions >= MAX_FUNCTIONS {
            return Err(Fault::Passes(Quantity::Functions));
        }
        self.functions += 1;
        Ok(())
    }

    /// Counts one more struct.
    pub(crate) fn count_struct(&mut self) -> Result<(), Fault>
        ensures answer { Counted Structs MAX_STRUCTS self.old.structs (with_struct self.old) self.old result self.new }
        ensures stays { self.new.left ≡ self.old.left }
    {
        if self.structs >= MAX_STRUCTS {
            return Err(Fault::Passes(Quantity::Structs));
        }
        self.structs += 1;
        Ok(())
    }
}
