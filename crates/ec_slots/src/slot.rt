//! A slot.

/// A slot: the syncs to come, what the count becomes at a filling, the fiber that a filling starts, and the fillings so far.
#[derive(Clone, Copy)]
pub struct Slot {
    pub count: u64,
    pub reset: u32,
    pub fiber: u32,
    pub fillings: u64,
}

/// A slot and its number in its frame.
#[derive(Clone, Copy)]
pub struct Numbered {
    pub number: u32,
    pub slot: Slot,
}

/// What a filling starts: the fiber, and which filling of the slot it was, counted from 1.
#[derive(Clone, Copy)]
pub struct Filled {
    pub fiber: u32,
    pub filling: u64,
}
