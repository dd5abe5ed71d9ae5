//! Values, places, texts and limits that every layer speaks of.
//! `specs/Answers.antt` says how an answer may give way to want of memory, `specs/Arithmetic.antt` what operators make of
//! numbers, `specs/Format.antt` what `printf` writes, and `specs/Writes.antt` the same by rules, `specs/Lexical.antt` which
//! tokens a text can give, `specs/Words.antt` which words are the language's own, and `specs/Reason.antt` why sources are
//! refused.
#![tactic(auto)]

mod arithmetic;
mod fail;
mod format;
mod laws;
mod limits;
mod memory;
mod operator;
mod reason;
mod text;
mod token;
mod tokens;
mod trap;
mod value;
mod words;

pub use arithmetic::{binary, unary};
pub use fail::{Fail, NoMemory};
pub use format::{conversions, format_values};
pub use laws::strings_write;
pub use limits::{
    MAX_ACTIVATIONS, MAX_ARRAY, MAX_BLOCK, MAX_BRANCHES, MAX_CODE_NAME, MAX_FUNCTIONS, MAX_MARKS,
    MAX_NAME, MAX_NESTING, MAX_NODES, MAX_PARAMETERS, MAX_PRINT_ARGUMENTS, MAX_RING,
    MAX_SLOT_COUNT, MAX_SOURCE, MAX_STEPS, MAX_STRING, MAX_STRUCT_CELLS, MAX_STRUCTS, MAX_TICKS,
    MAX_VARIABLES,
};
pub use memory::{MemCell, Memory, Path};
pub use operator::{BinOp, UnOp};
pub use reason::Reason;
pub use sqlite_items::{Boxed, Items as List};
pub use text::Text;
pub use token::{Mark, Span, Token, TokenKind};
pub use tokens::Tokens;
pub use trap::{Trap, TrapKind};
pub use value::{Birth, Block, Value};
pub use words::is_reserved;
