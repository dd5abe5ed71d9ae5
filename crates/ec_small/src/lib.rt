//! Small programs: one function `main` of int variables, assignments, sums, products and `printf`.
//! `specs/Grammar.antt` says which tokens are one, `specs/Meaning.antt` what it means.
#![tactic(auto)]

mod declaration;
mod expression;
mod meaning;
mod names;
mod program;
mod statement;
mod tokens;
mod tree;
mod words;

pub use meaning::{Meant, mean};
pub use program::read;
pub use tree::{Expr, Operator, Program, Stmt};
