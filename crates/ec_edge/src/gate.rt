//! What a unit passes before each of its turns.

/// Called before each turn of a unit.
pub trait Gate {
    /// May look on for a while, and returns.
    fn pass(&self, unit: u32);
}

/// Lets every unit pass at once.
#[derive(Clone, Copy, Debug)]
pub struct FreeGate;

impl FreeGate {
    pub fn new() -> FreeGate {
        FreeGate
    }
}

impl Gate for FreeGate {
    fn pass(&self, _unit: u32) {}
}
