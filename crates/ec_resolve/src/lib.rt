//! Typed programs with their names and types resolved, as `ec_types` defines it.
#![tactic(auto)]

mod access;
mod action;
mod assigning;
mod expression;
mod fields;
mod layouts;
mod operand;
mod plain;
mod resolving;
mod scope;
mod shapes;
mod statement;
mod term;
mod variables;

pub use action::{
    Action, Assignment, Block, Declared, ForHeader, ForallHeader, Function, Resolved, Variable,
};
pub use resolving::resolve;
pub use term::{Allocation, Extent, Invocation, Place, Placing, Term};
