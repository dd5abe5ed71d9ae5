//! The laws of refusals.
//! `specs/Once.antt` has the statements.
ghost use Rattle.ec_driver.specs.Once.{AreRefusedOnce};

use ec_lex::texts_have_one_cut;
use ec_reader::tokens_are_refused_once;
use ec_syntax::reading_decides;
use ec_types::programs_are_refused_once;

/// A source has one refusal by `check` and one by `run`. It has none where it is accepted, and a program of the whole
/// language has none but by its types, or that it isn't of a form that is built.
pub fn sources_are_refused_once()
    ensures { AreRefusedOnce }
{
    texts_have_one_cut();
    reading_decides();
    tokens_are_refused_once();
    programs_are_refused_once();
}
