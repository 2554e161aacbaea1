ghost use Rattle.std.specs.Prelude.{◌≡◌, ℕ, ◌+◌, ◌*◌, ◌-◌, ◌^◌, ◌<◌, ◌≤◌, length, drop, replicate};
ghost use Rattle.std.specs.Prelude.{slice_index, slice_set, IfOk};
ghost use Rattle.board_core.specs.Arrivals.{HaveLeast, IsDue, IsFirstBy, IsTree, PassesNone};
ghost use Rattle.board_core.specs.Arrivals.{leaves_of};

use ride_base::NoMemory;
use std::alloc::Global;
use std::marker::Model;

/// The moment of a vehicle that has no stop ahead.
pub(crate) const NEVER: u64 = u64::MAX;

/// For each place of a fleet the moment at which its vehicle reaches its next stop, or `NEVER`. A tournament tree: each inner node has
/// the least moment of its two children, and one more leaf, of moment 0, stands behind the places, so that each search ends.
#[derive(Debug, Drop)]
pub(crate) struct Arrivals {
    places: usize,
    tree: Vec<u64>,
}

impl Model for Arrivals {
    ghost use Rattle.std.specs.Prelude.{ℕ, ◌+◌, ◌≤◌, List, take, drop};
    ghost use Rattle.board_core.specs.Arrivals.{IsTree};

    ghost Value = { List ℕ };

    ghost view = { λ a. take a.places (drop (a.places + 1) a.tree.items) };

    ghost invariant = { λ a. IsTree (a.places + 1) a.tree.items };
}

impl Arrivals {
    /// No vehicle of so many, at most 65,536, reaches a stop.
    pub(crate) fn never(alloc: Global, count: usize) -> Result<Arrivals, NoMemory>
        requires { count ≤ 65536 }
        ensures { IfOk result (λ arrivals. arrivals ≡ replicate count (2 ^ 64 - 1)) }
    {
        let mut tree = vec![in alloc; NEVER; 2 * count + 2]?;
        put_leaf(&mut tree, count, 0);
        Ok(Arrivals {
            places: count,
            tree,
        })
    }

    /// Sets the moment of a place.
    pub(crate) fn set(&mut self, place: usize, moment: u64)
        requires { place < length self.old }
        ensures { self.new ≡ slice_set self.old place moment }
    {
        put_leaf(&mut self.tree, place, moment);
    }

    /// The first place from one on whose moment is at most now.
    pub(crate) fn first_from(&self, place: usize, now: u64) -> Option<usize>
        ensures { IsFirstBy self.now place now result }
    {
        if place >= self.places {
            return None;
        }
        let (node, height) = climb(&self.tree, place, now);
        let found = descend(&self.tree, node, height, now) - (self.places + 1);
        if found < self.places {
            Some(found)
        } else {
            None
        }
    }
}

/// Sets the moment of a place's leaf, and mends the nodes above it.
pub(crate) fn put_leaf(tree: &mut [u64], place: usize, moment: u64)
    requires many { length tree.old ≡ 2 * leaves_of tree.old }
    requires place { place < leaves_of tree.old }
    requires least { HaveLeast (leaves_of tree.old) tree.old }
    ensures least { HaveLeast (leaves_of tree.old) tree.new }
    ensures leaves { drop (leaves_of tree.old) tree.new
        ≡ slice_set (drop (leaves_of tree.old) tree.old) place moment }
{
    let leaf = tree.len() / 2 + place;
    tree[leaf] = moment;
    let mut node = leaf / 2;
    while node > 0 {
        tree[node] = tree[2 * node].min(tree[2 * node + 1]);
        node /= 2;
    }
}

/// The first node from a place's leaf on that has a moment up to now, and how high it stands above the leaves.
fn climb(tree: &[u64], place: usize, now: u64) -> (usize, usize)
    requires tree { IsTree (leaves_of tree.now) tree.now }
    requires place { place < leaves_of tree.now }
    ensures due { IsDue (leaves_of tree.now) tree.now now result.0 result.1 }
    ensures passed { PassesNone (leaves_of tree.now) tree.now (leaves_of tree.now + place) now
        result.0 result.1 }
{
    let mut node = tree.len() / 2 + place;
    let mut height = 0;
    while tree[node] > now {
        node += 1;
        if node % 2 == 0 {
            node /= 2;
            height += 1;
        }
    }
    (node, height)
}

/// The first leaf below a node that has a moment up to now.
fn descend(tree: &[u64], node: usize, height: usize, now: u64) -> usize
    requires tree { IsTree (leaves_of tree.now) tree.now }
    requires due { IsDue (leaves_of tree.now) tree.now now node height }
    ensures due { IsDue (leaves_of tree.now) tree.now now result 0 }
    ensures passed { (leaf : ℕ) → PassesNone (leaves_of tree.now) tree.now leaf now node height →
        PassesNone (leaves_of tree.now) tree.now leaf now result 0 }
{
    let mut node = node;
    let mut height = height;
    while height > 0 {
        node = 2 * node;
        if tree[node] > now {
            node += 1;
        }
        height -= 1;
    }
    node
}
