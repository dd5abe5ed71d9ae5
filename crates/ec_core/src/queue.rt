//! Queues, and rows of queues.
ghost use Rattle.std.specs.Prelude.{◌≡◌, [], ◌∷◌, ◌++◌, replicate, slice_get, IfOk, OnOk, OnErr};
ghost use Rattle.ec_core.specs.Queues.{TookOldest, taken, put_at, taken_at, grown, has_some, has_some_in};

use ec_base::List;
use std::alloc::{AllocError, Global};
use std::collections::VecDeque;
use std::marker::Model;

/// A queue, which contracts see as the list of its items, the oldest first.
#[derive(Drop)]
pub struct Queue<T> {
    items: VecDeque<T>,
}

impl<T> Model for Queue<T> {
    ghost use Rattle.std.specs.Prelude.{List};
    ghost use Rattle.std.specs.Coded.{coded_list};

    ghost Value = { List T };

    ghost coded = { coded_list T.code };

    ghost view = { λ q. q.items.items };
}

impl<T: Drop> Queue<T> {
    pub fn new(alloc: Global) -> Queue<T>
        ensures { result ≡ [] }
    {
        Queue {
            items: VecDeque::new(alloc),
        }
    }

    /// Whether there is an item.
    pub fn has_some(&self) -> bool
        ensures { result ≡ has_some self.now }
    {
        !self.items.is_empty()
    }

    /// Puts an item behind all others.
    pub fn push(&mut self, item: T) -> Result<(), AllocError>
        ensures ok { OnOk result (self.new ≡ self.old ++ item ∷ []) }
        ensures err { OnErr result (self.new ≡ self.old) }
    {
        match self.items.push_back(item) {
            Ok(()) => Ok(()),
            Err(_) => Err(AllocError),
        }
    }

    /// Takes the oldest item.
    pub fn pop(&mut self) -> Option<T>
        ensures { TookOldest result (taken self.old) self.old self.new }
    {
        self.items.pop_front()
    }
}

/// A row of queues, one a node.
#[derive(Drop)]
pub struct Queues<T> {
    all: Vec<Queue<T>>,
}

impl<T> Model for Queues<T> {
    ghost use Rattle.std.specs.Prelude.{List};
    ghost use Rattle.std.specs.Coded.{coded_list};

    ghost Value = { List (List T) };

    ghost coded = { coded_list (coded_list T.code) };

    ghost view = { λ q. q.all.items };
}

impl<T: Drop> Queues<T> {
    /// So many empty queues.
    #[tactic(auto, using(crate::proofs::Lists::grows))]
    pub fn new(alloc: Global, count: u32) -> Result<Queues<T>, AllocError>
        ensures { IfOk result (λ q. q ≡ replicate count []) }
    {
        let mut all = Vec::new(alloc);
        for _ in 0..count {
            all.push(Queue::new(alloc))?;
        }
        Ok(Queues { all })
    }

    /// Puts an item into one queue, if there is that queue.
    pub fn put(&mut self, at: usize, item: T) -> Result<(), AllocError>
        ensures ok { OnOk result (self.new ≡ put_at at item self.old) }
        ensures err { OnErr result (self.new ≡ self.old) }
    {
        if at < self.all.len() {
            self.all[at].push(item)?;
        }
        Ok(())
    }

    /// Takes the oldest item of one queue.
    #[tactic(auto, using(crate::proofs::Rows::rows))]
    pub fn take(&mut self, at: usize) -> Option<T>
        ensures { TookOldest result (taken_at at self.old) self.old self.new }
    {
        if at >= self.all.len() {
            return None;
        }
        self.all[at].pop()
    }

    /// Whether there is an item in one queue.
    pub fn has_some(&self, at: usize) -> bool
        ensures { result ≡ has_some_in (slice_get self.now at) }
    {
        at < self.all.len() && self.all[at].has_some()
    }
}

/// Makes a list at least so long.
#[tactic(auto, using(crate::proofs::Lists::grows))]
pub fn grow<T: Copy>(list: &mut List<T>, count: usize, filler: T) -> Result<(), AllocError>
    ensures { OnOk result (list.new ≡ grown count filler list.old) }
{
    for _ in list.len()..count {
        list.push(filler)?;
    }
    Ok(())
}
