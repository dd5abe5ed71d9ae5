//! Where a call goes.

/// The node on which a call's frame is made.
#[derive(Clone, Copy)]
pub enum CallPlace {
    /// The caller's node.
    Here,
    /// Node 0.
    Home,
    /// The node whose number a cell holds, modulo the number of nodes.
    Node(u32),
    /// The node of the block to which a cell points; the caller's node, where it is NULL.
    Owner(u32),
}
