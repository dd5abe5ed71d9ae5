//! Queues, and rows of queues.
use ec_base::NoMemory;
use ec_queue::{Queue, Queues};
use std::alloc::Global;
use std::process::Abort;

/// A call on a queue with what it answers.
#[derive(Clone, Copy)]
enum Call {
    Push(u32),
    /// The oldest item is this one.
    Pop(u32),
    None,
}

fn make(rt: &impl Abort, queue: &mut Queue<u32>, call: &Call) -> Result<(), NoMemory> {
    match *call {
        Call::Push(item) => queue.push(item)?,
        Call::Pop(item) => {
            assert!(rt; queue.has_some());
            assert_eq!(rt; queue.pop(), Some(item));
        }
        Call::None => {
            assert!(rt; !queue.has_some());
            assert_eq!(rt; queue.pop(), None);
        }
    }
    Ok(())
}

const OLDEST_FIRST: &[Call] = &[
    Call::None,
    Call::Push(3),
    Call::Push(1),
    Call::Pop(3),
    Call::Push(1),
    Call::Push(2),
    Call::Pop(1),
    Call::Pop(1),
    Call::Pop(2),
    Call::None,
    Call::Push(4),
    Call::Pop(4),
    Call::None,
];

#[test]
fn oldest_item_comes_first(rt: HostRuntime) -> Result<(), NoMemory> {
    let mut queue = Queue::new(rt.alloc());
    for call in OLDEST_FIRST {
        make(&rt, &mut queue, call)?;
    }
    Ok(())
}

/// A call on one of a row of queues, by its place, with what it answers.
#[derive(Clone, Copy)]
enum CallAt {
    Put(usize, u32),
    /// The oldest item is this one.
    Take(usize, u32),
    None(usize),
}

fn make_at(rt: &impl Abort, queues: &mut Queues<u32>, call: &CallAt) -> Result<(), NoMemory> {
    match *call {
        CallAt::Put(at, item) => queues.put(at, item)?,
        CallAt::Take(at, item) => {
            assert!(rt; queues.has_some(at));
            assert_eq!(rt; queues.take(at), Some(item));
        }
        CallAt::None(at) => {
            assert!(rt; !queues.has_some(at));
            assert_eq!(rt; queues.take(at), None);
        }
    }
    Ok(())
}

/// These calls, one after the other, on so many queues.
fn make_all(rt: &impl Abort, alloc: Global, count: u32, calls: &[CallAt]) -> Result<(), NoMemory> {
    let mut queues = Queues::new(alloc, count)?;
    for call in calls {
        make_at(rt, &mut queues, call)?;
    }
    Ok(())
}

const EACH_ITS_OWN: &[CallAt] = &[
    CallAt::None(0),
    CallAt::None(2),
    CallAt::Put(2, 5),
    CallAt::Put(0, 6),
    CallAt::Put(2, 7),
    CallAt::None(1),
    CallAt::Take(2, 5),
    CallAt::Take(0, 6),
    CallAt::None(0),
    CallAt::Take(2, 7),
    CallAt::None(2),
];

#[test]
fn each_queue_has_its_own_items(rt: HostRuntime) -> Result<(), NoMemory> {
    make_all(&rt, rt.alloc(), 3, EACH_ITS_OWN)
}

/// What is put past the last queue is gone.
const PAST_THE_LAST: &[CallAt] = &[
    CallAt::None(2),
    CallAt::Put(2, 5),
    CallAt::None(2),
    CallAt::None(1),
    CallAt::None(0),
];

#[test]
fn no_queue_past_the_last(rt: HostRuntime) -> Result<(), NoMemory> {
    make_all(&rt, rt.alloc(), 2, PAST_THE_LAST)?;
    make_all(&rt, rt.alloc(), 0, PAST_THE_LAST)
}
