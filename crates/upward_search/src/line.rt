ghost use Rattle.std.specs.Prelude.{◌≡◌, ℕ, ◌+◌, ◌<◌, ◌≤◌, ◌^◌, List, [], length, IfOk, MatchOption};
ghost use Rattle.upward_search.specs.Ladders.{Ladder};
ghost use Rattle.upward_search.specs.Places.{HasPlaceAt};
ghost use Rattle.upward_search.specs.Parts.{IsRoadPart, AreRoads, roads_length};
ghost use Rattle.upward_search.specs.Lines.{IsLine, LacksFrom, IsFrom};

use crate::slope::Label;
use ride_base::NoMemory;
use std::alloc::Global;

/// Roads one after another, of which none leads round in a length of 0: each as the place that it leads to and its length, and first the
/// place at which they begin.
#[derive(Drop)]
pub(crate) struct Line {
    pub(crate) roads: Vec<Label>,
    /// Where the places begin that are as far as the last.
    pub(crate) run: usize,
}

impl Line {
    /// No roads yet.
    pub(crate) fn begin(alloc: Global, place: u32) -> Result<Line, NoMemory>
        ensures { IfOk result (λ line.
            (h : Ladder) → IsLine h place line.roads.items line.run place 0) }
    {
        let mut roads = Vec::new(alloc);
        roads.push(Label { place, length: 0 })?;
        Ok(Line { roads, run: 0 })
    }

    /// Goes on by a road, and drops a round of length 0 that it ends.
    pub(crate) fn go_on(&mut self, road: Label) -> Result<(), NoMemory>
        ensures { IfOk result (λ _. (h : Ladder) (p q x : ℕ)
            → IsLine h p self.old.roads.items self.old.run q x
            → IsRoadPart h q road.place road.length
            → IsLine h p self.new.roads.items self.new.run road.place (x + road.length)) }
    {
        if road.length > 0 {
            self.run = self.roads.as_slice().len();
            self.roads.push(road)?;
            return Ok(());
        }
        if let Some(at) = place_from(self.roads.as_slice(), self.run, road.place) {
            self.roads.truncate(at + 1);
            return Ok(());
        }
        self.roads.push(road)?;
        Ok(())
    }
}

/// Where a place stands at an index or after it.
fn place_from(roads: &[Label], from: usize, place: u32) -> Option<usize>
    ensures { MatchOption result (LacksFrom roads.now from place) (IsFrom roads.now from place) }
{
    for index in from..roads.len() {
        if roads[index].place == place {
            return Some(index);
        }
    }
    None
}
