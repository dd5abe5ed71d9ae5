//! The canonical text of a program. `specs/Sentence.antt` says which tokens it has, and `specs/Layout.antt` how they
//! stand in lines. `specs/RoundTrip.antt` says that of the text of a program that was read the same program is read,
//! and the same text is printed: the text is cut into the tokens of the sentence (`specs/Relexed.antt`), and these are
//! read as that program (`specs/Again.antt`). `specs/Plain.antt` says which tokens are printed as they were.
#![tactic(auto)]

ghost use Rattle.std.specs.Prelude.{◌≡◌, IfOk};
ghost use Rattle.ec_print.specs.Canonical.{canonical};

mod expression;
mod item;
mod laws;
mod printer;
mod statement;

use crate::printer::Printer;
use ec_base::{NoMemory, Text};
use ec_syntax::Program;
pub use laws::{
    plain_tokens_are_the_sentence, printed_text_is_cut, printed_text_is_printed_again,
    printed_text_is_read_again, sentence_reads_again,
};
use std::alloc::Global;

/// The canonical text of a program: the tokens of its sentence, without `++`, `--`, `(void)` and lists of declarators
/// or fields, a line feed after each `{`, `}`, `{^` and `^}` and after each `;` outside parentheses, and a space after
/// each other token.
#[tactic(auto, using(crate::proofs::Laying::with_is_laid))]
pub fn print(alloc: Global, p: &Program) -> Result<Text, NoMemory>
    ensures { IfOk result (λ t. t ≡ canonical p.now) }
{
    let mut printer = Printer::new(alloc);
    printer.program(p)?;
    Ok(printer.into_text())
}
