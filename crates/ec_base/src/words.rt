//! The words of the language.
ghost use Rattle.std.specs.Prelude.{◌≡◌};
ghost use Rattle.ec_base.specs.Words.{is_among, reserved, same};

use crate::text::Text;

/// Whether a word is this one.
fn is_same(word: &Text, text: &[u8]) -> bool
    ensures { result ≡ same word.now text.now }
{
    word.as_slice() == text
}

/// Whether a word is the language's own, and so no name of a program's.
pub fn is_reserved(word: &Text) -> bool
    ensures { result ≡ is_among word.now reserved }
{
    is_same(word, b"int")
        || is_same(word, b"void")
        || is_same(word, b"struct")
        || is_same(word, b"if")
        || is_same(word, b"else")
        || is_same(word, b"while")
        || is_same(word, b"for")
        || is_same(word, b"forall")
        || is_same(word, b"return")
        || is_same(word, b"local")
        || is_same(word, b"shared")
        || is_same(word, b"malloc")
        || is_same(word, b"sizeof")
        || is_same(word, b"printf")
        || is_same(word, b"NULL")
        || is_same(word, b"writeto")
        || is_same(word, b"addto")
        || is_same(word, b"valueof")
        || is_same(word, b"OWNER_OF")
        || is_same(word, b"HOME")
        || is_same(word, b"NODE")
        || is_same(word, b"ANYWHERE")
}
