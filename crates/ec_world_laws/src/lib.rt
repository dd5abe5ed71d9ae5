//! Laws over every step of worlds of nodes.
//! `specs/Units.antt`, `specs/Worlds.antt` and `specs/Rooted.antt` have what units and worlds keep to.
#![tactic(auto)]

mod laws;

pub use laws::{
    nodes_stay_in_place, units_stay_in_place, what_is_named_is_there, worlds_are_rooted,
};
