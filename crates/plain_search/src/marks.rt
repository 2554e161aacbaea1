ghost use Rattle.std.specs.Prelude.{◌≡◌, ◌^◌, ◌<◌, ◌↔◌, IfOk, IsTrue, MatchBool, OnOk, [], length, replicate, slice_index_or, slice_set};
ghost use Rattle.plain_search.specs.declared.reached.Mark.TheVariants.{Unseen, Seen, Settled};
ghost use Rattle.plain_search.specs.Marking.{mark_in, mark_of, IsMarkedBy};
ghost use Rattle.plain_search.specs.Searching.{IsSettled};

use crate::reached::Mark;
use ride_base::NoMemory;
use road_graph::NodeNo;
use std::alloc::Global;
use std::marker::Model;

/// The word of a node that is unseen.
const UNSEEN: u64 = u64::MAX;

/// The word of a node that waits at the distance 0. Words below it are places.
const SEEN: u64 = 1 << 32;

/// The mark of each node, as one word: its place where it is settled, `SEEN` and its distance where
/// it waits, and else `UNSEEN`. So one comparison tells whether a node needn't be looked for.
#[derive(Drop)]
pub(crate) struct Marks {
    words: Vec<u64>,
}

impl Model for Marks {
    ghost use Rattle.std.specs.Prelude.{List, map};
    ghost use Rattle.plain_search.specs.declared.reached.Mark.{Mark};
    ghost use Rattle.plain_search.specs.Marking.{mark_in};

    ghost Value = { List Mark };

    ghost view = { λ m. map mark_in m.words.items };
}

impl Marks {
    /// Marks of no node.
    pub(crate) fn new(alloc: Global) -> Marks
        ensures { result ≡ [] }
    {
        Marks {
            words: Vec::new(alloc),
        }
    }

    /// Marks so many nodes unseen, in the memory of what was marked.
    pub(crate) fn reset(&mut self, count: usize) -> Result<(), NoMemory>
        ensures { OnOk result (self.new ≡ replicate count Unseen) }
    {
        self.words.clear();
        self.words.resize(count, UNSEEN)?;
        Ok(())
    }

    /// For how many nodes there are marks.
    pub(crate) fn len(&self) -> usize
        ensures { result ≡ length self.now }
    {
        self.words.len()
    }

    /// The mark of the node with this number, also where it is in no graph.
    pub(crate) fn at(&self, number: usize) -> Mark
        ensures { result ≡ slice_index_or self.now number Unseen }
    {
        match self.words.as_slice().get(number) {
            Some(word) => mark_of_word(*word),
            None => Mark::Unseen,
        }
    }

    pub(crate) fn is_settled(&self, node: NodeNo) -> bool
        requires { node.0 < length self.now }
        ensures { IsTrue result ↔ IsSettled self.now node }
    {
        self.words[node.0 as usize] < SEEN
    }

    /// Whether a node is settled, or waits at this distance or less.
    pub(crate) fn is_known(&self, node: NodeNo, distance: u64) -> bool
        requires node { node.0 < length self.now }
        requires distance { distance < 2 ^ 63 }
        ensures { MatchBool result (IsMarkedBy (mark_of self.now node) distance)
            (IsMarkedBy (mark_of self.now node) distance → ⊥) }
    {
        self.words[node.0 as usize] <= SEEN + distance
    }

    /// Marks that a node waits at a distance.
    pub(crate) fn see(&mut self, node: NodeNo, distance: u64)
        requires node { node.0 < length self.old }
        requires distance { distance < 2 ^ 63 }
        ensures { self.new ≡ slice_set self.old node.0 (Seen distance) }
    {
        self.words[node.0 as usize] = SEEN + distance;
    }

    /// Marks that a node is settled at a place.
    pub(crate) fn settle(&mut self, node: NodeNo, place: u32)
        requires { node.0 < length self.old }
        ensures { self.new ≡ slice_set self.old node.0 (Settled place) }
    {
        self.words[node.0 as usize] = u64::from(place);
    }
}

/// The mark that a word tells.
fn mark_of_word(word: u64) -> Mark
    ensures { result ≡ mark_in word }
{
    if word < SEEN {
        Mark::Settled(word as u32)
    } else if word == UNSEEN {
        Mark::Unseen
    } else {
        Mark::Seen(word - SEEN)
    }
}
