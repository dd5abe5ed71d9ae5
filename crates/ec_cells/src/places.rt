//! Places of elements and cells in a block.
ghost use Rattle.std.specs.Prelude.{◌≡◌, ◌+◌, ◌≤◌, ◌<◌, length, IfSome};
ghost use Rattle.ec_cells.specs.Accesses as accesses;

use ec_base::Value;

/// A number, where it isn't negative.
fn natural(n: i64) -> Option<usize>
    ensures { result ≡ accesses.natural n }
{
    usize::try_from(n).ok()
}

/// Whether a block has an element of this index and size.
fn has_element(index: usize, size: usize, cells: &[Value]) -> bool
    ensures { result ≡ accesses.has_element index size cells.now }
{
    // a product might not fit
    size > 0 && index < cells.len() / size
}

/// The first cell of an element, where the block has it.
pub(crate) fn element_start(index: i64, size: usize, cells: &[Value]) -> Option<usize>
    ensures start { result ≡ accesses.element_start index size cells.now }
    ensures within { IfSome result (λ start. start + size ≤ length cells.now) }
{
    let index = natural(index)?;
    if has_element(index, size, cells) {
        Some(index * size)
    } else {
        None
    }
}

/// The place of a cell of an element, where the block has it.
pub(crate) fn cell_place(index: i64, size: u32, off: i64, cells: &[Value]) -> Option<usize>
    ensures place { result ≡ accesses.cell_place index size off cells.now }
    ensures within { IfSome result (λ place. place < length cells.now) }
{
    let size = size as usize;
    let start = element_start(index, size, cells)?;
    let off = natural(off)?;
    if off < size { Some(start + off) } else { None }
}
