ghost use Rattle.std.specs.Prelude.{◌≡◌, [], ◌∷◌, IfOk, IfNone, IsPermutation};
ghost use Rattle.contraction.specs.Queues.{IsTaken};

use ride_base::NoMemory;
use road_graph::NodeNo;
use std::alloc::Global;
use std::cmp::Reverse;
use std::collections::BinaryHeap;
use std::marker::Model;

/// A node that waits, and the key by which it is taken.
#[derive(Clone, Copy, Debug, PartialEq, Eq, PartialOrd, Ord)]
pub(crate) struct Candidate {
    pub(crate) key: u64,
    pub(crate) node: NodeNo,
}

/// Candidates of which one of the least key is taken first. That it is one of those that wait is all that contracts say of it.
#[derive(Drop)]
pub(crate) struct Queue {
    heap: BinaryHeap<Reverse<Candidate>>,
}

impl Model for Queue {
    ghost use Rattle.std.specs.Prelude.{List};
    ghost use Rattle.std.specs.BinaryHeap.{heap_items};
    ghost use Rattle.contraction.specs.declared.queue.Candidate.{Candidate};
    ghost use Rattle.contraction.specs.Queues.{held_of};

    ghost Value = { List Candidate };

    ghost view = { λ q. held_of (heap_items q.heap) };
}

impl Queue {
    /// An empty queue. It takes no memory.
    pub(crate) fn new(alloc: Global) -> Queue
        ensures { result ≡ [] }
    {
        Queue {
            heap: BinaryHeap::new(alloc),
        }
    }

    pub(crate) fn clear(&mut self)
        ensures { self.new ≡ [] }
    {
        self.heap.clear();
    }

    pub(crate) fn push(&mut self, candidate: Candidate) -> Result<(), NoMemory>
        ensures { IfOk result (λ _. IsPermutation (candidate ∷ self.old) self.new) }
    {
        self.heap.push(Reverse(candidate))?;
        Ok(())
    }

    pub(crate) fn pop(&mut self) -> Option<Candidate>
        ensures taken { IsTaken self.old result self.new }
        ensures empty { IfNone result (self.new ≡ []) }
    {
        let Reverse(first) = self.heap.pop()?;
        Some(first)
    }

    /// Whether no candidate has a lesser key.
    pub(crate) fn is_least(&self, key: u64) -> bool {
        match self.heap.peek() {
            Some(first) => key <= first.0.key,
            None => true,
        }
    }
}
