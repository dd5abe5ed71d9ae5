//! What every run of a program's code gives on one node, whatever steps are chosen.
//! `specs/Agree.antt` has the statements.
#![tactic(auto)]

ghost use Rattle.ec_agree.specs.Agree.{EndedRunsAgree, UnendedRunsGoOn};

/// On one node every list of steps that ends gives the output, result and store of the program's meaning.
pub fn ended_runs_agree()
    ensures { EndedRunsAgree }
{}

/// On one node every list of steps that hasn't ended can be continued.
pub fn unended_runs_go_on()
    ensures { UnendedRunsGoOn }
{}
