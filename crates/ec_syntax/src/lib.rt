//! Trees of programs, and the grammar that relates them to tokens.
#![tactic(auto)]

mod expression;
mod item;
mod laws;
mod name;
mod quantity;
mod statement;

pub use expression::{Call, Expr, ExprKind, Placement};
pub use item::{Field, Func, Item, Program, StructDef};
pub use laws::{parts_stand_in_order, reading_decides, texts_are_decided};
pub use name::{Base, Mode, Name, Ty};
pub use quantity::{Fault, Quantity};
pub use statement::{Assign, Body, Decl, Stmt, StmtKind};
