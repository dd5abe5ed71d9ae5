//! The top call: from command words to what is written and reported.
//! `specs/Task.antt` has the table of what each command does.
#![tactic(auto)]

mod built;
mod command;
mod drive;
mod laws;
mod line;
mod meaning;
mod run;
mod say;
mod source;
mod status;
mod top;

pub use command::{Command, RunWords};
pub use laws::sources_are_refused_once;
pub use say::stop;
pub use status::{Refusal, Report, Status};
pub use top::{earthc, plain, threaded};
