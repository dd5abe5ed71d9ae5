//! What holds of every entry and fiber, by the rules of `specs/Alone.antt`.
ghost use Rattle.ec_eu.specs.Alone.{EntriesStandAlone, FibersStandAlone};

/// What an entry or a fiber does is said apart from what waits already: its messages come behind those, and nothing else of it
/// depends on them.
pub fn effects_stand_alone()
    ensures entries { EntriesStandAlone }
    ensures fibers { FibersStandAlone }
{}
