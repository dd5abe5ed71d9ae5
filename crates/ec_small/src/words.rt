//! Words of a source.
ghost use Rattle.std.specs.Prelude.{◌≡◌};
ghost use Rattle.ec_small.specs.Words.{is_name};

use ec_base::{MAX_NAME, Text, is_reserved};

/// Whether a word may name a variable.
pub(crate) fn is_name(word: &Text) -> bool
    ensures { result ≡ is_name word.now }
{
    !is_reserved(word) && word.len() <= MAX_NAME as usize
}
