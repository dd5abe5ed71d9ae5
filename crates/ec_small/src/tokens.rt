//! Tokens by their places.
ghost use Rattle.std.specs.Prelude.{◌≡◌, ◌≤◌, ◌<◌, true, length, drop, IsTrue};
ghost use Rattle.ec_base.specs.declared.token.TokenKind.TheVariants as t;
ghost use Rattle.ec_small.specs.Descent.{is_mark, first_is, mark, is_word, starts, AnswersAt};
ghost use Rattle.ec_small.specs.Grammar.{kinds};

use ec_base::{Fail, Mark, Token, TokenKind};

/// Whether this mark stands at a place.
pub(crate) fn mark_at(tokens: &[Token], at: usize, mark: Mark) -> bool
    requires within { at ≤ length tokens.now }
    requires readable { is_mark mark (t.Mark mark) ≡ true }
    ensures is { result ≡ first_is mark (drop at tokens.now) }
    ensures within { IsTrue result → at < length tokens.now }
{
    if at == tokens.len() {
        return false;
    }
    match &tokens[at].kind {
        TokenKind::Mark(found) => *found == mark,
        _ => false,
    }
}

/// The value that was read, where this mark stands behind it.
#[tactic(auto, using(crate::proofs::Marks::mark_taken))]
pub(crate) fn before_mark<A: Drop>(
    value: A,
    tokens: &[Token],
    at: usize,
    closing: Mark,
) -> Result<(A, usize), Fail<usize>>
    requires within { at ≤ length tokens.now }
    requires readable { is_mark closing (t.Mark closing) ≡ true }
    ensures { AnswersAt tokens.now result (mark closing value (kinds (drop at tokens.now))) }
{
    if mark_at(tokens, at, closing) {
        Ok((value, at + 1))
    } else {
        Err(Fail::Refused(at))
    }
}

/// Whether this word stands at a place.
pub(crate) fn word_at(tokens: &[Token], at: usize, word: &[u8]) -> bool
    requires { at ≤ length tokens.now }
    ensures is { result ≡ starts (is_word word.now) (kinds (drop at tokens.now)) }
    ensures within { IsTrue result → at < length tokens.now }
{
    if at == tokens.len() {
        return false;
    }
    match &tokens[at].kind {
        TokenKind::Word(text) => text.as_slice() == word,
        _ => false,
    }
}
