//! Which step of which unit comes next.
/// A kind of step. The first four are the execution unit's, the others the synchronisation unit's.
#[derive(Clone, Copy)]
pub enum Act {
    /// Takes the oldest ready entry and runs it.
    EuReady,
    /// Runs the oldest spawned fiber.
    EuSpawn,
    /// Moves the oldest message of the outbox to the event ring.
    EuEvent,
    /// Asks for a token.
    EuHungry,
    /// Takes the oldest event and handles it.
    SuEvent,
    /// Takes the oldest message of a peer and handles it.
    SuNet,
    /// Moves the oldest entry of the ready outbox to the ready ring.
    SuReady,
    /// Moves the oldest message for a peer onto the ring to it.
    SuSend,
}

/// A step of a node's unit. `peer` and `pick` are 0 where the act doesn't use them; a pick is one of the candidates of the
/// message that is handled, counted from 0.
#[derive(Clone, Copy)]
pub struct Choice {
    pub node: u32,
    pub act: Act,
    pub peer: u32,
    pub pick: u64,
}
