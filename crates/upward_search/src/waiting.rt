ghost use Rattle.std.specs.Prelude.{◌≡◌, ℕ, [], ◌∷◌, All, IfOk, OnErr, MatchOption, IsPermutation, length};
ghost use Rattle.upward_search.specs.Searches.{IsNoLater, IsNext, AreStale};

use crate::slope::Label;
use ride_base::NoMemory;
use std::alloc::Global;
use std::cmp::Reverse;
use std::collections::BinaryHeap;
use std::marker::Model;

/// Labels of which the one of the lowest place is taken first, and of those at one place the least.
#[derive(Drop)]
pub(crate) struct Waiting {
    heap: BinaryHeap<Reverse<Label>>,
}

impl Model for Waiting {
    ghost use Rattle.std.specs.Prelude.{List};
    ghost use Rattle.std.specs.BinaryHeap.{IsHeap, heap_items};
    ghost use Rattle.upward_search.specs.declared.slope.Label.{Label};
    ghost use Rattle.upward_search.specs.Searches.{held_of};

    ghost Value = { List Label };

    ghost view = { λ q. held_of (heap_items q.heap) };

    ghost invariant = { λ q. IsHeap ⟦<Reverse<Label> as Ord>⟧.cmp (heap_items q.heap) };
}

impl Waiting {
    pub(crate) fn new(alloc: Global) -> Waiting
        ensures { result ≡ [] }
    {
        Waiting {
            heap: BinaryHeap::new(alloc),
        }
    }

    pub(crate) fn push(&mut self, label: Label) -> Result<(), NoMemory>
        ensures { IfOk result (λ _. IsPermutation (label ∷ self.old) self.new) }
    {
        self.heap.push(Reverse(label))?;
        Ok(())
    }

    /// Takes the first label.
    fn pop(&mut self) -> Option<Label>
        ensures none { MatchOption result (self.old ≡ [])
            (λ taken. IsPermutation self.old (taken ∷ self.new)) }
        ensures first { MatchOption result (self.new ≡ [])
            (λ taken. All (IsNoLater taken) self.new) }
    {
        let Reverse(first) = self.heap.pop()?;
        Some(first)
    }

    /// Takes the first label that is not below a place, and drops those that are.
    pub(crate) fn next_from(&mut self, floor: u32) -> Option<Label>
        ensures { MatchOption result (AreStale floor self.old) (IsNext floor self.old self.new) }
    {
        while let Some(first) = self.pop() {
            if floor <= first.place {
                return Some(first);
            }
        }
        None
    }
}
