//! The simple form of typed programs: statements over numbered variables, in each of which every access is made through
//! variables, and functions for the branches of parallel sequences and the bodies of `forall`s. `lower` makes it.
//! `specs/Lower.antt` has it for each typed program, `specs/Meaning.antt` what it means, `specs/Laws.antt` that this is what
//! the program means, and `specs/Formed.antt` what each of them keeps to.
#![tactic(auto)]

mod access;
mod around;
mod branch;
mod call;
mod expression;
mod forall;
mod form;
mod found;
mod laws;
mod lowering;
mod numbered;
mod operator;
mod outline;
mod places;
mod plain;
mod scope;
mod shapes;
mod simple;
mod statement;
mod temporary;
mod uses;

pub use form::{
    Form, FuncKind, SBranch, SCall, SExpr, SField, SForall, SFunc, SPlace, SPlaceOf, SStmt, SVar,
    Shape, VarUse,
};
pub use laws::{counted_headers_count, counts_are_kept, simple_forms_mean_the_same};
pub use lowering::lower;
pub use simple::Simple;
