//! What holds of the first `printf`s of all programs.
ghost use Rattle.ec_calls.specs.Laws.{FirstPrintsExist};

/// In every program each function reaches a first `printf`, or none.
pub fn first_prints_exist()
    ensures { FirstPrintsExist }
{}
