//! The laws of the machine's steps.
//! `specs/Laws.antt` has the statements.
ghost use Rattle.ec_meaning.specs.Laws.{
  BranchingKeeps,
  CallingKeeps,
  CompletingKeeps,
  OpeningKeeps,
  ReturningKeeps,
  StartMeans,
};

/// With every number of ticks the start comes to what the program means, and these steps come to what the state before came
/// to: opening a work, calling a function, beginning a branch, coming to the end of an activation, and returning.
pub fn steps_keep_meanings()
    ensures opening { OpeningKeeps }
    ensures calling { CallingKeeps }
    ensures branching { BranchingKeeps }
    ensures completing { CompletingKeeps }
    ensures returning { ReturningKeeps }
    ensures start { StartMeans }
{}
