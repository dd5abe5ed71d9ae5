//! The types of programs, and the first thing in a program for which it is refused.
//! `specs/Programs.antt` says what stands in a program, and the files before it what each refusal means.
#![tactic(auto)]

mod checking;
mod declaration;
mod declared_type;
mod distinct;
mod expression;
mod function;
mod header;
mod inner;
mod items;
mod judge;
mod judged;
mod judging;
mod laws;
mod name_list;
mod names;
mod operators;
mod program;
mod refusal;
mod rules;
mod setting;
mod simple;
mod size;
mod statement;
mod structure;
mod table;
mod typed;
mod value_type;

pub use checking::check;
pub use declared_type::{is_written_pointer, is_written_void};
pub use items::{Functions, Struct, Structs};
pub use laws::{meanings_are_settled, programs_are_refused_once};
pub use operators::{field_type, pointee, pointer_to, struct_behind, variable_type};
pub use refusal::TypeRefusal;
pub use size::cells_of;
pub use table::NameTable;
pub use typed::Typed;
pub use value_type::{ExprType, ValueBase, ValueType, number, written_type};
