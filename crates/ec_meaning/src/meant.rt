//! What a program means.
use ec_base::{Memory, Text, Trap};

/// How a meaning ends.
#[derive(Clone, Copy)]
pub enum MeantEnd {
    Ended,
    Trapped(Trap),
    /// The ticks are spent, and the meaning goes on.
    OutOfTicks,
    /// More activations than `MAX_ACTIVATIONS` would be open at once.
    TooDeep,
}

/// What a program means with so many ticks: how it ends, its output and result, its memory, and the ticks that it spent. The
/// result is 0 unless it ended; where it is too deep there is no output and no memory, and the last tick is that of the
/// activation that didn't open.
#[derive(Drop)]
pub struct Meant {
    pub ending: MeantEnd,
    pub output: Text,
    pub result: i64,
    pub store: Memory,
    pub ticks: u64,
}
