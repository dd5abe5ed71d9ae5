//! Tests of single tokens: what a token is, and the first sets, by which a reader is told what begins.
ghost use Rattle.std.specs.Prelude.{◌≡◌, None, Some, MatchOption, option_copied};
ghost use Rattle.ec_syntax.specs.Grammar.Tokens.{is_mark, is_word, name_of, number_of, string_of};
ghost use Rattle.ec_syntax.specs.Descent.Tokens.{is_name as names, is_number, is_string, begins_expr, begins_base, begins_declaration, begins_stmt};

use crate::operators;
use ec_base::{Mark, Text, Token, TokenKind, is_reserved};

/// Whether a token is this mark.
pub(crate) fn is_mark(token: &Token, mark: Mark) -> bool
    ensures { result ≡ is_mark mark token.now }
{
    match &token.kind {
        TokenKind::Mark(found) => *found == mark,
        _ => false,
    }
}

/// Whether a token is this word.
pub(crate) fn is_word(token: &Token, word: &[u8]) -> bool
    ensures { result ≡ is_word word.now token.now }
{
    match &token.kind {
        TokenKind::Word(text) => text.as_slice() == word,
        _ => false,
    }
}

/// The name that a token is.
pub(crate) fn name_of(token: &Token) -> Option<&Text>
    ensures { MatchOption result (name_of token.now ≡ None)
        (λ w. name_of token.now ≡ Some (record { text = w.now; at = token.now.at })) }
{
    match &token.kind {
        TokenKind::Word(word) => { if is_reserved(word) { None } else { Some(word) } }
        _ => None,
    }
}

/// The number that a token is.
pub(crate) fn number_of(token: &Token) -> Option<i64>
    ensures { result ≡ number_of token.now }
{
    match &token.kind {
        TokenKind::Number(number) => Some(*number),
        _ => None,
    }
}

/// The string that a token is.
pub(crate) fn string_of(token: &Token) -> Option<&Text>
    ensures { option_copied result ≡ string_of token.now }
{
    match &token.kind {
        TokenKind::Str(text) => Some(text),
        _ => None,
    }
}

/// Whether a token is a name.
pub(crate) fn is_name(token: &Token) -> bool
    ensures { result ≡ names token.now }
{
    name_of(token).is_some()
}

/// Whether a token is a number.
pub(crate) fn is_number(token: &Token) -> bool
    ensures { result ≡ is_number token.now }
{
    number_of(token).is_some()
}

/// Whether a token is a string.
pub(crate) fn is_string(token: &Token) -> bool
    ensures { result ≡ is_string token.now }
{
    string_of(token).is_some()
}

/// Whether a token begins an expression.
pub(crate) fn begins_expr(token: &Token) -> bool
    ensures { result ≡ begins_expr token.now }
{
    is_number(token)
        || is_name(token)
        || operators::prefix_at(token).is_some()
        || is_mark(token, Mark::And)
        || is_mark(token, Mark::OpenParen)
        || is_word(token, b"NULL")
        || is_word(token, b"malloc")
        || is_word(token, b"valueof")
}

/// Whether a token begins a type.
pub(crate) fn begins_base(token: &Token) -> bool
    ensures { result ≡ begins_base token.now }
{
    is_word(token, b"int") || is_word(token, b"void") || is_word(token, b"struct")
}

/// Whether a token begins a declaration.
pub(crate) fn begins_declaration(token: &Token) -> bool
    ensures { result ≡ begins_declaration token.now }
{
    is_word(token, b"local")
        || is_word(token, b"shared")
        || is_word(token, b"int")
        || is_word(token, b"struct")
}

/// Whether a token begins a statement.
pub(crate) fn begins_stmt(token: &Token) -> bool
    ensures { result ≡ begins_stmt token.now }
{
    begins_expr(token)
        || is_mark(token, Mark::Semicolon)
        || is_mark(token, Mark::OpenBrace)
        || is_mark(token, Mark::OpenPar)
        || is_word(token, b"if")
        || is_word(token, b"while")
        || is_word(token, b"for")
        || is_word(token, b"forall")
        || is_word(token, b"writeto")
        || is_word(token, b"addto")
        || is_word(token, b"printf")
        || is_word(token, b"return")
}
