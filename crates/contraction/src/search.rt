ghost use Rattle.std.specs.Prelude.{◌≡◌, ◌+◌, ◌^◌, ◌<◌, ◌≤◌, length, IfOk, OnOk, IsTrue};
ghost use Rattle.contraction.specs.declared.rows.End.TheVariants.{From};
ghost use Rattle.contraction.specs.Rows.{AreSound};
ghost use Rattle.contraction.specs.Searching.{AreUnset, IsMarked, IsUnmarked, IsSearch, IsSearchOfAny, IsLed, IsReached, Admits};

use crate::queue::{Candidate, Queue};
use ride_base::{Items, NoMemory};
use road_graph::{Graph, NodeNo};
use std::alloc::Global;
use upward_search::RankArc;

/// In which search a node was last reached, and how far it is from that search's start.
#[derive(Clone, Copy, Debug)]
pub(crate) struct Mark {
    stamp: u32,
    length: u64,
}

/// A search along the arcs that are left. Its marks stay for the next one, which has another stamp.
#[derive(Drop)]
pub(crate) struct Search {
    start: NodeNo,
    stamp: u32,
    marks: Vec<Mark>,
    waiting: Queue,
}

impl Search {
    /// A search for a graph that has reached nothing.
    pub(crate) fn new(alloc: Global, graph: &Graph) -> Result<Search, NoMemory>
        ensures { IfOk result (IsMarked (graph.now.nodes + 1)) }
    {
        let none = Mark {
            stamp: 0,
            length: 0,
        };
        Ok(Search {
            start: NodeNo(0),
            stamp: 0,
            marks: vec![in alloc; none; graph.nodes() as usize + 1]?,
            waiting: Queue::new(alloc),
        })
    }

    /// Whether the last search reached a node by arcs that are together no longer than this.
    pub(crate) fn is_reached(&self, node: NodeNo, most: u64) -> bool
        requires { node.0 < length self.now.marks.items }
        ensures { IsTrue result → IsReached self.now node most }
    {
        let mark = self.marks[node.0 as usize];
        mark.stamp == self.stamp && mark.length <= most
    }

    /// Searches from a node along arcs that don't lead to another one, no further than this, and takes so many candidates at most.
    pub(crate) fn run(
        &mut self,
        rows: &[Items<RankArc>],
        start: NodeNo,
        avoided: NodeNo,
        most: u64,
        takes: u32,
    ) -> Result<(), NoMemory>
        requires marked { IsMarked (length rows.now) self.old }
        requires sound { AreSound From rows.now }
        requires start { start.0 < length rows.now }
        requires most { most < 2 ^ 54 }
        ensures search { OnOk result (IsSearch rows.now self.new) }
        ensures start { OnOk result (self.new.start ≡ start) }
    {
        self.begin(start)?;
        'taking: for _ in 0..takes {
            let Some(nearest) = self.waiting.pop() else {
                return Ok(());
            };
            if most < nearest.key {
                return Ok(());
            }
            self.spread(rows, nearest, avoided, most)?;
        }
        Ok(())
    }

    /// Forgets the last search, and lets the start wait.
    fn begin(&mut self, start: NodeNo) -> Result<(), NoMemory>
        requires marked { IsMarked (length self.old.marks.items) self.old }
        requires start { start.0 < length self.old.marks.items }
        ensures search { OnOk result (IsSearchOfAny (length self.old.marks.items) self.new) }
        ensures start { OnOk result (self.new.start ≡ start) }
    {
        self.waiting.clear();
        self.next_stamp();
        self.start = start;
        self.offer(Candidate {
            key: 0,
            node: start,
        })?;
        Ok(())
    }

    /// Takes a stamp that no mark has.
    fn next_stamp(&mut self)
        requires { IsMarked (length self.old.marks.items) self.old }
        ensures unmarked { IsUnmarked (length self.old.marks.items) self.new }
        ensures waiting { self.new.waiting ≡ self.old.waiting }
    {
        if self.stamp == u32::MAX {
            wipe(&mut self.marks);
            self.stamp = 1;
        } else {
            self.stamp += 1;
        }
    }

    /// Offers the ends of the arcs out of a candidate's node, unless it was reached by a shorter way since.
    fn spread(
        &mut self,
        rows: &[Items<RankArc>],
        nearest: Candidate,
        avoided: NodeNo,
        most: u64,
    ) -> Result<(), NoMemory>
        requires search { IsSearch rows.now self.old }
        requires sound { AreSound From rows.now }
        requires led { IsLed rows.now self.old.start nearest }
        requires near { nearest.key ≤ most }
        requires most { most < 2 ^ 54 }
        ensures search { OnOk result (IsSearch rows.now self.new) }
        ensures start { OnOk result (self.new.start ≡ self.old.start) }
    {
        let place = nearest.node.0 as usize;
        if self.marks[place].length < nearest.key {
            return Ok(());
        }
        for arc in rows[place].as_slice() {
            let key = nearest.key + arc.length;
            if arc.to != avoided && key <= most {
                self.offer(Candidate { key, node: arc.to })?;
            }
        }
        Ok(())
    }

    /// Lets a candidate wait, unless its node was reached by no longer way.
    fn offer(&mut self, candidate: Candidate) -> Result<(), NoMemory>
        requires { candidate.node.0 < length self.old.marks.items }
        ensures admits { OnOk result (Admits self.old candidate self.new) }
        ensures start { OnOk result (self.new.start ≡ self.old.start) }
    {
        let mark = &mut self.marks[candidate.node.0 as usize];
        if mark.stamp == self.stamp && mark.length <= candidate.key {
            return Ok(());
        }
        *mark = Mark {
            stamp: self.stamp,
            length: candidate.key,
        };
        self.waiting.push(candidate)?;
        Ok(())
    }
}

/// Makes marks those of no search.
fn wipe(marks: &mut [Mark])
    ensures { AreUnset marks.new }
{
    for mark in marks.iter_mut() {
        *mark = Mark {
            stamp: 0,
            length: 0,
        };
    }
}
