//! The memory of a node.
use ec_base::{Birth, Block, NoMemory, Value};
use ec_cells::Node;
use std::alloc::Global;
use std::process::Abort;

fn same(a: Value, b: Value) -> bool {
    match a {
        Value::Int(m) => match b {
            Value::Int(n) => m == n,
            _ => false,
        },
        Value::Null => match b {
            Value::Null => true,
            _ => false,
        },
        Value::Ptr(p) => match b {
            Value::Ptr(q) => p.node == q.node && p.number == q.number,
            _ => false,
        },
    }
}

fn is_birth(rt: &impl Abort, birth: &Birth, node: u32, frame: u64, number: u64) {
    assert_eq!(rt; birth.node, node);
    assert_eq!(rt; birth.frame, frame);
    assert_eq!(rt; birth.number, number);
}

/// The number of a frame that lives and has so many cells, each 0.
fn frame(rt: &impl Abort, alloc: Global, node: &mut Node, cells: u32) -> Result<u64, NoMemory> {
    let number = node.make_frame(alloc, cells, None)?;
    assert!(rt; node.live(number));
    assert_eq!(rt; node.cell_count(number), cells as usize);
    Ok(number)
}

/// Node 3 with a frame of 2 cells, and a block of the cells 0, NULL, 0, NULL, 0, NULL.
fn with_block(rt: &impl Abort, alloc: Global) -> Result<Node, NoMemory> {
    let mut node = Node::new(alloc, 3);
    let made = frame(rt, alloc, &mut node, 2)?;
    assert_eq!(rt; made, 0);
    let block = node.make_block(alloc, made, 3, 2, 2)?;
    assert_eq!(rt; block, 0);
    Ok(node)
}

#[test]
fn a_frame_from_its_making_to_its_end(rt: HostRuntime) -> Result<(), NoMemory> {
    let mut node = Node::new(rt.alloc(), 3);
    assert!(rt; !node.live(0));
    assert_eq!(rt; frame(&rt, rt.alloc(), &mut node, 2)?, 0);
    assert_eq!(rt; frame(&rt, rt.alloc(), &mut node, 0)?, 1);
    let pointer = Value::Ptr(Block { node: 1, number: 5 });
    node.set_cell(0, 1, pointer);
    node.set_cell(0, 2, Value::Null);
    assert!(rt; same(node.cell(0, 0), Value::Int(0)));
    assert!(rt; same(node.cell(0, 1), pointer));
    assert!(rt; same(node.cell(0, 2), Value::Int(0)));
    node.end_frame(rt.alloc(), 0);
    assert!(rt; !node.live(0));
    assert!(rt; node.live(1));
    assert_eq!(rt; node.cell_count(0), 0);
    assert!(rt; same(node.cell(0, 1), Value::Int(0)));
    assert_eq!(rt; frame(&rt, rt.alloc(), &mut node, 4)?, 2);
    Ok(())
}

#[test]
fn births_are_counted_over_frames_and_blocks(rt: HostRuntime) -> Result<(), NoMemory> {
    let mut node = with_block(&rt, rt.alloc())?;
    let birth = node.next_birth(0)?;
    is_birth(&rt, &birth, 3, 0, 2);
    assert_eq!(rt; node.make_frame(rt.alloc(), 1, Some(birth))?, 1);
    assert_eq!(rt; node.make_block(rt.alloc(), 0, 1, 1, 0)?, 1);
    assert_eq!(rt; node.make_block(rt.alloc(), 1, 1, 1, 0)?, 2);
    let births = node.births();
    assert_eq!(rt; births.frames.len(), 2);
    assert_eq!(rt; births.blocks.len(), 3);
    match births.frames.get(1).copied() {
        Some(Some(b)) => is_birth(&rt, &b, 3, 0, 2),
        _ => panic!(rt; "frame 1 has a birth"),
    }
    for (block, frame, number) in [(0usize, 0u64, 1u64), (1, 0, 3), (2, 1, 1)] {
        match births.blocks.get(block) {
            Some(b) => is_birth(&rt, b, 3, frame, number),
            None => panic!(rt; "each block has a birth"),
        }
    }
    Ok(())
}

/// Where a cell is sought: the block, the element's index and size, and the cell's place in it.
type Place = (u64, i64, u32, i64);

/// Places in the block of cells 0, NULL, 0, NULL, 0, NULL, with what is there.
const FOUND: &[(Place, Value)] = &[
    ((0, 0, 2, 0), Value::Int(0)),
    ((0, 0, 2, 1), Value::Null),
    ((0, 2, 2, 1), Value::Null),
    ((0, 5, 1, 0), Value::Null),
    ((0, 0, 4, 3), Value::Null),
    ((0, 0, 6, 4), Value::Int(0)),
];

const NOT_FOUND: &[Place] = &[
    (0, 3, 2, 0),
    (0, 0, 2, 2),
    (0, 1, 4, 0),
    (0, -1, 2, 0),
    (0, 1, 2, -1),
    (0, 0, 0, 0),
    (0, i64::MAX, u32::MAX, i64::MAX),
    (0, i64::MIN, 1, i64::MIN),
    (1, 0, 1, 0),
    (u64::MAX, 0, 1, 0),
];

#[test]
fn cells_that_are_there(rt: HostRuntime) -> Result<(), NoMemory> {
    let mut node = with_block(&rt, rt.alloc())?;
    for ((block, index, size, off), value) in FOUND {
        let Some(found) = node.load(*block, *index, *size, *off) else {
            panic!(rt; "the cell is there");
        };
        assert!(rt; same(found, *value));
    }
    assert_eq!(rt; node.store(0, 1, 2, 0, Value::Int(7)), Some(()));
    for cell in 0..6i64 {
        let expected = match cell {
            2 => Value::Int(7),
            0 | 4 => Value::Int(0),
            _ => Value::Null,
        };
        assert!(rt; node.load(0, cell, 1, 0).is_some_and(|v| same(v, expected)));
    }
    Ok(())
}

#[test]
fn cells_that_are_not_there(rt: HostRuntime) -> Result<(), NoMemory> {
    let mut node = with_block(&rt, rt.alloc())?;
    for (block, index, size, off) in NOT_FOUND {
        assert!(rt; node.load(*block, *index, *size, *off).is_none());
        assert!(rt;
            node.store(*block, *index, *size, *off, Value::Int(1))
                .is_none()
        );
    }
    Ok(())
}

/// Adds to the first cell of block 0 and looks at it.
fn adds(rt: &impl Abort, node: &mut Node, by: i64, sum: i64) {
    assert_eq!(rt; node.add(0, by), Some(()));
    assert!(rt;
        node.load(0, 0, 1, 0)
            .is_some_and(|v| same(v, Value::Int(sum)))
    );
}

#[test]
fn sums_in_the_first_cell(rt: HostRuntime) -> Result<(), NoMemory> {
    let mut node = with_block(&rt, rt.alloc())?;
    adds(&rt, &mut node, 5, 5);
    adds(&rt, &mut node, -6, -1);
    adds(&rt, &mut node, i64::MIN, i64::MAX);
    assert_eq!(rt; node.store(0, 0, 1, 0, Value::Null), Some(()));
    adds(&rt, &mut node, 9, 9);
    assert!(rt; node.add(1, 1).is_none());
    assert_eq!(rt; node.make_block(rt.alloc(), 0, u64::MAX, 0, 0)?, 1);
    assert!(rt; node.add(1, 1).is_none());
    Ok(())
}

#[test]
fn whole_elements(rt: HostRuntime) -> Result<(), NoMemory> {
    let mut node = with_block(&rt, rt.alloc())?;
    assert_eq!(rt;
        node.put_element(0, 1, &[Value::Int(4), Value::Int(5)]),
        Some(())
    );
    let Some(cells) = node.element(rt.alloc(), 0, 1, 2)? else {
        panic!(rt; "the element is there");
    };
    assert_eq!(rt; cells.len(), 2);
    assert!(rt; cells.get(0).is_some_and(|v| same(*v, Value::Int(4))));
    assert!(rt; cells.get(1).is_some_and(|v| same(*v, Value::Int(5))));
    assert!(rt; node.load(0, 1, 1, 0).is_some_and(|v| same(v, Value::Null)));
    assert!(rt;
        node.load(0, 4, 1, 0)
            .is_some_and(|v| same(v, Value::Int(0)))
    );
    for (index, size) in [(3i64, 2u32), (-1, 2), (1, 4), (0, 0)] {
        assert!(rt; node.element(rt.alloc(), 0, index, size)?.is_none());
    }
    assert!(rt;
        node.put_element(0, 3, &[Value::Null, Value::Null])
            .is_none()
    );
    assert!(rt; node.put_element(0, 0, &[]).is_none());
    assert!(rt; node.put_element(1, 0, &[Value::Null]).is_none());
    Ok(())
}

#[test]
fn blocks_that_are_too_large(rt: HostRuntime) -> Result<(), NoMemory> {
    let mut node = with_block(&rt, rt.alloc())?;
    assert!(rt; node.make_block(rt.alloc(), 0, u64::MAX, 2, 0).is_err());
    assert!(rt; node.make_block(rt.alloc(), 0, u64::MAX, 1, 0).is_err());
    assert_eq!(rt; node.births().blocks.len(), 1);
    let birth = node.next_birth(0)?;
    is_birth(&rt, &birth, 3, 0, 2);
    Ok(())
}
