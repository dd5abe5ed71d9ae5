//! What is printed reads back, as `specs/RoundTrip.antt` says, and in two halves `specs/Relexed.antt` and
//! `specs/Again.antt`; `specs/Plain.antt` says what is printed as it was.
ghost use Rattle.ec_print.specs.Again.{SentenceReadsAgain};
ghost use Rattle.ec_print.specs.Plain.{PlainIsSentence};
ghost use Rattle.ec_print.specs.Relexed.{PrintedIsCut};
ghost use Rattle.ec_print.specs.RoundTrip.{PrintedIsPrintedAgain, PrintedIsReadAgain};

use ec_lex::texts_have_one_cut;
use ec_syntax::reading_decides;

/// The text of tokens that a source can give, none of them the end, is cut into these tokens, and has no refusal.
pub fn printed_text_is_cut()
    ensures { PrintedIsCut }
{}

/// The sentence of a program that was read is read as the same program, but for the places.
pub fn sentence_reads_again()
    ensures same { SentenceReadsAgain }
{}

/// The text of a program that was read from a text is cut without a refusal into tokens that are read as the same
/// program, but for the places.
pub fn printed_text_is_read_again()
    ensures { PrintedIsReadAgain }
{}

/// Printing what was printed gives the same bytes: of the tokens of the text of a program that was read from a text no
/// program is read but one with that text.
pub fn printed_text_is_printed_again()
    ensures { PrintedIsPrintedAgain }
{
    texts_have_one_cut();
    reading_decides();
}

/// Tokens that are read as a program are its sentence, where they have no `++`, no `--`, no parameter list of `void`
/// alone and no lists of declarators or fields. So printing changes nothing but blanks, line ends and comments there.
pub fn plain_tokens_are_the_sentence()
    ensures { PlainIsSentence }
{}
