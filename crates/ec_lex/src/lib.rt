//! Cuts a source text into tokens.
//! `specs/Tokens.antt` says which tokens and refusal a text has; `specs/Front.antt` and `specs/Scan.antt` compute the
//! same.
#![tactic(auto)]

mod bytes;
mod cut;
mod front;
mod laws;
mod marks;
mod numbers;
mod refusal;
mod strings;
mod tokens;

pub use cut::lex;
pub use laws::texts_have_one_cut;
pub use numbers::number_value;
pub use refusal::LexRefusal;
