//! What holds of every entry, fiber and step.
ghost use Rattle.ec_world_laws.specs.Rooted.{StartIsNamed, StartIsRooted, StepsStayNamed, StepsStayRooted};
ghost use Rattle.ec_world_laws.specs.Units.{EntriesStayPlaced, FibersStayPlaced, NewIsPlaced, SpawnedStayPlaced};
ghost use Rattle.ec_world_laws.specs.Worlds.{StartIsPlaced, StepsStayPlaced};

/// What a unit holds and sends names only nodes that are there: so it is at first, and so fibers of valid code, and entries that
/// name only such nodes, leave it.
pub fn units_stay_in_place()
    ensures first { NewIsPlaced }
    ensures fibers { FibersStayPlaced }
    ensures entries { EntriesStayPlaced }
    ensures spawned { SpawnedStayPlaced }
{}

/// What nodes hold and send names only nodes that are there, and what is for a node is held for it alone: so it is at the start,
/// and so each step of valid code leaves it.
pub fn nodes_stay_in_place()
    ensures first { StartIsPlaced }
    ensures steps { StepsStayPlaced }
{}

/// What nodes hold and send names only blocks and frames that are there: so it is at the start, and so each step of any code leaves
/// it.
pub fn what_is_named_is_there()
    ensures first { StartIsNamed }
    ensures steps { StepsStayNamed }
{}

/// What nodes hold and send names only blocks and frames that are there, no two frames, blocks or calls have the same birth, and
/// births lead back to one root: so it is at the start, and so each step of any code leaves it.
pub fn worlds_are_rooted()
    ensures first { StartIsRooted }
    ensures steps { StepsStayRooted }
{}
