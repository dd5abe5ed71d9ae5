//! Tokens are refused once, or not at all.
//! `specs/Laws.antt` has the statements.
ghost use Rattle.ec_reader.specs.Laws.{OneRefusal, RefusedIsNoProgram};

use ec_syntax::texts_are_decided;

/// Tokens have one refusal, in number and place, and none where they are a program.
pub fn tokens_are_refused_once()
    ensures one { OneRefusal }
    ensures excluded { RefusedIsNoProgram }
{
    texts_are_decided();
}
