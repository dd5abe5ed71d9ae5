//! The blocks, when all is done.
ghost use Rattle.std.specs.Prelude.{◌≡◌, map, zip, length, IfOk};
ghost use Rattle.ec_meaning.specs.Means.{IsRising};
ghost use Rattle.ec_meaning.specs.Order.{AreRising, paths};
ghost use Rattle.ec_meaning.specs.Shown.{ShowsCell, ShowsCells, ShowsBlocks, ShowsStore};

use crate::value::{Block, Value};
use ec_base::{List, MemCell, Memory, Path};
use std::alloc::{AllocError, Global};

/// The blocks by their paths, which pointers to them show.
pub(crate) fn memory(alloc: Global, blocks: Vec<Block>) -> Result<Memory, AllocError>
    ensures store { IfOk result (ShowsStore blocks.items) }
    ensures rising { IfOk result (λ m. AreRising (paths blocks.items) → IsRising m) }
{
    let shown = shown_blocks(alloc, &blocks)?;
    let pairs = paired(alloc, blocks, shown)?;
    Ok(Memory {
        blocks: List::from_vec(pairs),
    })
}

/// Each block's path beside its cells as they are shown.
fn paired(
    alloc: Global,
    blocks: Vec<Block>,
    shown: Vec<List<MemCell>>,
) -> Result<Vec<(Path, List<MemCell>)>, AllocError>
    ensures { IfOk result (λ pairs. pairs.items ≡ map (λ b. (b.0.path, b.1)) (zip blocks.items shown.items)) }
{
    blocks
        .into_iter()
        .zip(shown.into_iter())
        .map(|(block, cells)| (block.path, cells))
        .collect(alloc)
}

fn shown_blocks(alloc: Global, blocks: &[Block]) -> Result<Vec<List<MemCell>>, AllocError>
    ensures length { IfOk result (λ all. length all.items ≡ length blocks.now) }
    ensures shown { IfOk result (λ all. ShowsBlocks blocks.now blocks.now all.items) }
{
    let mut all = Vec::new(alloc);
    for block in blocks {
        all.push(shown_cells(alloc, blocks, &block.cells)?)?;
    }
    Ok(all)
}

fn shown_cells(
    alloc: Global,
    blocks: &[Block],
    values: &[Value],
) -> Result<List<MemCell>, AllocError>
    ensures { IfOk result (ShowsCells blocks.now values.now) }
{
    let mut shown = List::new(alloc);
    for value in values {
        shown.push(shown_cell(alloc, blocks, *value)?)?;
    }
    Ok(shown)
}

/// A pointer that leads to no block, which no evaluation makes, can't be shown.
fn shown_cell(alloc: Global, blocks: &[Block], value: Value) -> Result<MemCell, AllocError>
    ensures { IfOk result (ShowsCell blocks.now value) }
{
    match value {
        Value::Int(n) => Ok(MemCell::Int(n)),
        Value::Null => Ok(MemCell::Nil),
        Value::To(k) => match blocks.get(k) {
            Some(block) => Ok(MemCell::To(List::from_slice(alloc, block.path.as_slice())?)),
            None => Err(AllocError),
        },
    }
}
