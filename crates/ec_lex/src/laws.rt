//! Cuts of texts, as `specs/Tokens.antt` defines them.
ghost use Rattle.ec_lex.specs.Tokens.{TextsHaveACut, TextsHaveOneCut};

/// Each text has one cut: its tokens, and its first refusal where it has one.
pub fn texts_have_one_cut()
    ensures some { TextsHaveACut }
    ensures one { TextsHaveOneCut }
{}
