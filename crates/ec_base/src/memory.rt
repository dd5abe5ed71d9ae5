//! The memory of a program by birth paths, which don't tell where anything was placed.
use sqlite_items::Items as List;

/// The births that lead from main's activation, whose path is empty, to an activation or a block, the first birth first.
pub type Path = List<u64>;

/// A cell of a block.
#[derive(Drop)]
pub enum MemCell {
    Int(i64),
    Nil,
    /// A pointer to the block of this path.
    To(Path),
}

/// The blocks of a program with their cells, by rising path: number by number, a prefix first.
#[derive(Drop)]
pub struct Memory {
    pub blocks: List<(Path, List<MemCell>)>,
}
