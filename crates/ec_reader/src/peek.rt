//! The lookahead: whether the token that stands next is of a kind, or in the first set of a part of the language.
ghost use Rattle.std.specs.Prelude.{◌≡◌};
ghost use Rattle.ec_syntax.specs.Grammar.Language.{first_is};
ghost use Rattle.ec_syntax.specs.Grammar.Tokens.{is_mark, is_word};
ghost use Rattle.ec_syntax.specs.Descent.Tokens.{is_name as names, is_number, is_string, is_prefix, begins_expr, begins_base, begins_declaration, begins_stmt};
ghost use Rattle.ec_syntax.specs.Descent.Expressions.{is_selector, is_at_level, begins_arguments, begins_amount};
ghost use Rattle.ec_syntax.specs.Descent.Statements.{begins_contents, begins_parallel, begins_for};
ghost use Rattle.ec_reader.specs.Inside.{begins_parenthesised};

use crate::cursor::Cursor;
use crate::{kinds, operators};
use ec_base::Mark;

impl<'a> Cursor<'a> {
    /// Whether this mark is next.
    pub(crate) fn is_mark(&self, kind: Mark) -> bool
        ensures { result ≡ first_is (is_mark kind) self.now.left }
    {
        match self.first() {
            Some(token) => kinds::is_mark(token, kind),
            None => false,
        }
    }

    /// Whether this word is next.
    pub(crate) fn is_word(&self, text: &[u8]) -> bool
        ensures { result ≡ first_is (is_word text.now) self.now.left }
    {
        match self.first() {
            Some(token) => kinds::is_word(token, text),
            None => false,
        }
    }

    /// Whether an operator of this level, between two operands, is next.
    pub(crate) fn is_at_level(&self, level: u32) -> bool
        ensures { result ≡ first_is (is_at_level level) self.now.left }
    {
        match self.first() {
            Some(token) => operators::infix_at(token, level).is_some(),
            None => false,
        }
    }

    /// Whether a name is next.
    pub(crate) fn is_name(&self) -> bool
        ensures { result ≡ first_is names self.now.left }
    {
        match self.first() {
            Some(token) => kinds::is_name(token),
            None => false,
        }
    }

    /// Whether a number is next.
    pub(crate) fn is_number(&self) -> bool
        ensures { result ≡ first_is is_number self.now.left }
    {
        match self.first() {
            Some(token) => kinds::is_number(token),
            None => false,
        }
    }

    /// Whether a string is next.
    pub(crate) fn is_string(&self) -> bool
        ensures { result ≡ first_is is_string self.now.left }
    {
        match self.first() {
            Some(token) => kinds::is_string(token),
            None => false,
        }
    }

    /// Whether an operator before an operand is next.
    pub(crate) fn is_prefix(&self) -> bool
        ensures { result ≡ first_is is_prefix self.now.left }
    {
        match self.first() {
            Some(token) => operators::prefix_at(token).is_some(),
            None => false,
        }
    }

    /// Whether what selects a part of a value is next.
    pub(crate) fn is_selector(&self) -> bool
        ensures { result ≡ first_is is_selector self.now.left }
    {
        match self.first() {
            Some(token) => kinds::is_mark(token, Mark::OpenBracket)
                || kinds::is_mark(token, Mark::Arrow)
                || kinds::is_mark(token, Mark::Dot),
            None => false,
        }
    }

    /// Whether what begins an expression is next.
    pub(crate) fn begins_expr(&self) -> bool
        ensures { result ≡ first_is begins_expr self.now.left }
    {
        match self.first() {
            Some(token) => kinds::begins_expr(token),
            None => false,
        }
    }

    /// Whether what begins arguments, or ends them is next.
    pub(crate) fn begins_arguments(&self) -> bool
        ensures { result ≡ first_is begins_arguments self.now.left }
    {
        match self.first() {
            Some(token) => kinds::begins_expr(token) || kinds::is_mark(token, Mark::CloseParen),
            None => false,
        }
    }

    /// Whether what begins the amount of a `malloc` is next.
    pub(crate) fn begins_amount(&self) -> bool
        ensures { result ≡ first_is begins_amount self.now.left }
    {
        match self.first() {
            Some(token) => kinds::begins_expr(token) || kinds::is_word(token, b"sizeof"),
            None => false,
        }
    }

    /// Whether what may stand in parentheses is next.
    pub(crate) fn begins_parenthesised(&self) -> bool
        ensures { result ≡ first_is begins_parenthesised self.now.left }
    {
        match self.first() {
            Some(token) => kinds::begins_expr(token) || kinds::begins_base(token),
            None => false,
        }
    }

    /// Whether what begins a type is next.
    pub(crate) fn begins_base(&self) -> bool
        ensures { result ≡ first_is begins_base self.now.left }
    {
        match self.first() {
            Some(token) => kinds::begins_base(token),
            None => false,
        }
    }

    /// Whether what begins a declaration is next.
    pub(crate) fn begins_declaration(&self) -> bool
        ensures { result ≡ first_is begins_declaration self.now.left }
    {
        match self.first() {
            Some(token) => kinds::begins_declaration(token),
            None => false,
        }
    }

    /// Whether what begins a statement is next.
    pub(crate) fn begins_stmt(&self) -> bool
        ensures { result ≡ first_is begins_stmt self.now.left }
    {
        match self.first() {
            Some(token) => kinds::begins_stmt(token),
            None => false,
        }
    }

    /// Whether what begins the contents of braces, or ends them is next.
    pub(crate) fn begins_contents(&self) -> bool
        ensures { result ≡ first_is begins_contents self.now.left }
    {
        match self.first() {
            Some(token) => kinds::begins_declaration(token)
                || kinds::begins_stmt(token)
                || kinds::is_mark(token, Mark::CloseBrace),
            None => false,
        }
    }

    /// Whether what begins a branch, or ends the branches is next.
    pub(crate) fn begins_parallel(&self) -> bool
        ensures { result ≡ first_is begins_parallel self.now.left }
    {
        match self.first() {
            Some(token) => kinds::begins_stmt(token) || kinds::is_mark(token, Mark::ClosePar),
            None => false,
        }
    }

    /// Whether what begins the header of a `for` is next.
    pub(crate) fn begins_for(&self) -> bool
        ensures { result ≡ first_is begins_for self.now.left }
    {
        match self.first() {
            Some(token) => kinds::begins_expr(token) || kinds::is_mark(token, Mark::Semicolon),
            None => false,
        }
    }
}
