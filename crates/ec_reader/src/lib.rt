//! Programs, read from their tokens.
#![tactic(auto)]

mod assignment;
mod call;
mod compound;
mod cursor;
mod declaration;
mod expression;
mod header;
mod item;
mod kinds;
mod laws;
mod malloc;
mod nested;
mod operators;
mod peek;
mod program;
mod reading;
mod refusal;
mod simple;
mod take;
mod types;

pub use laws::tokens_are_refused_once;
pub use reading::read;
pub use refusal::ReadRefusal;
