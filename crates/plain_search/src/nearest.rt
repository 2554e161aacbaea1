ghost use Rattle.std.specs.Prelude.{◌≡◌, ℕ, ◌≤◌, [], ◌∷◌, All, IfOk, OnErr, MatchOption, IsPermutation, length};

use ride_base::NoMemory;
use road_graph::NodeNo;
use std::alloc::Global;
use std::cmp::Reverse;
use std::collections::BinaryHeap;
use std::marker::Model;

/// A node that a search has found but not settled, and a road to it. The order is that of the
/// distances alone.
#[derive(Clone, Copy, Debug)]
#[derive_where(PartialEq, Eq, PartialOrd, Ord)]
pub(crate) struct Candidate {
    pub(crate) distance: u64,
    #[derive_where(skip(EqHashOrd))]
    pub(crate) node: NodeNo,
    /// The node that the road comes from, and the number 0, which is no node's, for the start.
    #[derive_where(skip(EqHashOrd))]
    pub(crate) parent: NodeNo,
}

/// Candidates of which the nearest is taken first.
#[derive(Drop)]
pub(crate) struct Nearest {
    heap: BinaryHeap<Reverse<Candidate>>,
}

impl Model for Nearest {
    ghost use Rattle.std.specs.Prelude.{List, map};
    ghost use Rattle.std.specs.BinaryHeap.{IsHeap, heap_items};
    ghost use Rattle.plain_search.specs.declared.nearest.Candidate.{Candidate};
    ghost use Rattle.plain_search.specs.Order.{held_of};

    ghost Value = { List Candidate };

    ghost view = { λ q. held_of (heap_items q.heap) };

    ghost invariant = { λ q. IsHeap ⟦<Reverse<Candidate> as Ord>⟧.cmp (heap_items q.heap) };
}

impl Nearest {
    pub(crate) fn new(alloc: Global) -> Nearest
        ensures { result ≡ [] }
    {
        Nearest {
            heap: BinaryHeap::new(alloc),
        }
    }

    /// Lets none wait, in the memory of those that did.
    pub(crate) fn clear(&mut self)
        ensures { self.new ≡ [] }
    {
        self.heap.clear();
    }

    pub(crate) fn push(&mut self, candidate: Candidate) -> Result<(), NoMemory>
        ensures { IfOk result (λ _. IsPermutation (candidate ∷ self.old) self.new) }
    {
        self.heap.push(Reverse(candidate))?;
        Ok(())
    }

    /// Takes a candidate that none is nearer than.
    pub(crate) fn pop(&mut self) -> Option<Candidate>
        ensures none { MatchOption result (self.old ≡ [])
            (λ taken. IsPermutation self.old (taken ∷ self.new)) }
        ensures nearest { MatchOption result (self.new ≡ [])
            (λ taken. All (λ other. taken.distance ≤ other.distance) self.new) }
    {
        let Reverse(nearest) = self.heap.pop()?;
        Some(nearest)
    }
}
