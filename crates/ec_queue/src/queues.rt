//! A row of queues.
ghost use Rattle.std.specs.Option.{option_copied};
ghost use Rattle.std.specs.Prelude.{◌≡◌, [], replicate, slice_get, IfOk, OnOk, OnErr};
ghost use Rattle.ec_queue.specs.Queues.{TookOldest, put_at, taken_at, has_some_in};

use crate::queue::Queue;
use std::alloc::{AllocError, Global};
use std::marker::Model;

/// A row of queues, one a node.
#[derive(Drop)]
pub struct Queues<T> {
    all: Vec<Queue<T>>,
}

impl<T> Model for Queues<T> {
    ghost use Rattle.std.specs.Prelude.{List};
    ghost use Rattle.std.specs.Coded.{coded_list};

    ghost Value = { List (List T) };

    ghost coded = { coded_list (coded_list T.code) };

    ghost view = { λ q. q.all.items };
}

impl<T: Drop> Queues<T> {
    /// So many empty queues.
    #[tactic(auto, using(crate::proofs::Lists::grows))]
    pub fn new(alloc: Global, count: u32) -> Result<Queues<T>, AllocError>
        ensures { IfOk result (λ q. q ≡ replicate count []) }
    {
        let mut all = Vec::new(alloc);
        for _ in 0..count {
            all.push(Queue::new(alloc))?;
        }
        Ok(Queues { all })
    }

    /// Puts an item into one queue, if there is that queue.
    pub fn put(&mut self, at: usize, item: T) -> Result<(), AllocError>
        ensures ok { OnOk result (self.new ≡ put_at at item self.old) }
        ensures err { OnErr result (self.new ≡ self.old) }
    {
        if at < self.all.len() {
            self.all[at].push(item)?;
        }
        Ok(())
    }

    /// Takes the oldest item of one queue.
    #[tactic(auto, using(crate::proofs::Rows::rows))]
    pub fn take(&mut self, at: usize) -> Option<T>
        ensures { TookOldest result (taken_at at self.old) self.old self.new }
    {
        if at >= self.all.len() {
            return None;
        }
        self.all[at].pop()
    }

    /// Whether there is an item in one queue.
    pub fn has_some(&self, at: usize) -> bool
        ensures { result ≡ has_some_in (slice_get self.now at) }
    {
        at < self.all.len() && self.all[at].has_some()
    }

    /// One queue, if there is that queue.
    pub fn queue(&self, at: usize) -> Option<&Queue<T>>
        ensures { option_copied result ≡ slice_get self.now at }
    {
        self.all.get(at)
    }
}
