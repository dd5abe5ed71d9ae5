//! The tokens of a whole text.
ghost use Rattle.std.specs.Prelude.{◌≡◌};
ghost use Rattle.ec_base.specs.Lexical.{AreTokens};

use crate::token::Token;
use sqlite_items::Items;
use std::marker::Model;

/// The tokens of a text: at most one a byte and one, with rising spans, each of a form that a text can give; the last
/// one, and no other, is the end. Contracts see their list.
#[derive(Drop)]
pub struct Tokens {
    list: Items<Token>,
}

impl Model for Tokens {
    ghost use Rattle.std.specs.Prelude.{List};
    ghost use Rattle.ec_base.specs.declared.token.Token.{Token};
    ghost use Rattle.ec_base.specs.Lexical.{AreTokens};

    ghost Value = { List Token };

    ghost view = { λ t. t.list };

    ghost invariant = { λ t. AreTokens t.list };
}

impl Tokens {
    /// Takes a list that is the tokens of a text.
    pub fn from_list(list: Items<Token>) -> Tokens
        requires { AreTokens list }
        ensures { result ≡ list }
    {
        Tokens { list }
    }

    pub fn as_slice(&self) -> &[Token]
        ensures is { result.now ≡ self.now }
        ensures tokens { AreTokens result.now }
    {
        self.list.as_slice()
    }
}
