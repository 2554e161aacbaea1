ghost use Rattle.std.specs.Prelude.{◌≡◌, ◌<◌, ◌≤◌, List, [], ◌∷◌, ◌++◌, length, IfOk};

use ride_base::NoMemory;
use road_graph::Walk;
use smallvec::SmallVec;
use std::alloc::Global;
use std::marker::Model;

/// The walks of the legs that an insertion changes, in rising order of leg: at most four, which lie in the value itself.
#[derive(Debug, Drop)]
pub struct NewWalks {
    held: SmallVec<Walk, 4>,
}

impl Model for NewWalks {
    ghost use Rattle.std.specs.Prelude.{◌≡◌, ◌≤◌, List, length};
    ghost use Rattle.road_graph.specs.Paths.{Path};

    ghost Value = { List Path };

    ghost view = { λ w. w.held.items };

    ghost invariant = { λ w. (w.held.capacity ≡ 4) × (length w.held.items ≤ 4) };
}

impl NewWalks {
    /// No walks yet. It takes no memory.
    pub fn new(alloc: Global) -> NewWalks
        ensures { result ≡ [] }
    {
        NewWalks {
            held: SmallVec::new(alloc),
        }
    }

    /// Puts a walk at the end. It takes no memory.
    pub fn push(&mut self, walk: Walk)
        requires { length self.old < 4 }
        ensures { self.new ≡ self.old ++ walk ∷ [] }
    {
        self.held.push_reserved(walk);
    }

    /// The walks in their order.
    pub fn as_slice(&self) -> &[Walk]
        ensures value { result.now ≡ self.now }
        ensures few { length self.now ≤ 4 }
    {
        self.held.as_slice()
    }

    /// Equal walks. After an error nothing is left of them, and these are as they were.
    pub fn share(&self, alloc: Global) -> Result<NewWalks, NoMemory>
        ensures { IfOk result (λ walks. walks ≡ self.now) }
    {
        let mut walks = NewWalks::new(alloc);
        for walk in self.as_slice() {
            walks.push(walk.share(alloc)?);
        }
        Ok(walks)
    }
}

impl PartialEq for NewWalks {
    ghost use Rattle.std.specs.Cmp.Lexicographic.{pointwise};
    ghost use Rattle.road_graph.specs.Paths.{Path};

    ghost eq = { λ x y. pointwise ⟦<Walk as PartialEq>⟧.eq x y };

    ghost use Rattle.std.specs.Cmp.Lexicographic.{lists_per};
    ghost use Rattle.road_graph.specs.contracts.walk.WalkPartialEq.TheImpl.Laws.{laws-law};

    ghost laws = { lists_per laws-law };

    fn eq(&self, other: &Self) -> bool {
        self.as_slice() == other.as_slice()
    }
}

impl Eq for NewWalks {
    ghost use Rattle.std.specs.Cmp.Lexicographic.{lists_equiv};
    ghost use Rattle.road_graph.specs.contracts.walk.WalkEq.TheImpl.Laws.{laws-law};

    ghost laws = { lists_equiv laws-law };
}
