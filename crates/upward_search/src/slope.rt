ghost use Rattle.std.specs.Prelude.{◌≡◌, ℕ, ◌+◌, ◌<◌, ◌≤◌, ◌^◌, length, slice_index, slice_range};
ghost use Rattle.upward_search.specs.Rows.{row, count_rows, IsUpward};

use ride_base::Items;
use std::marker::Model;

/// An arc to a node of a higher rank. Nodes go by their ranks' places, counted from 0.
#[derive(Clone, Copy, Debug, PartialEq, Eq)]
pub struct Arc {
    pub(crate) to: u32,
    /// The place that a shortcut leads over, which is below both ends; a road has its higher end here.
    pub(crate) middle: u32,
    pub(crate) length: u64,
}

/// A place and the length of a way to it.
#[derive(Clone, Copy, Debug, PartialEq, Eq, PartialOrd, Ord)]
pub struct Label {
    pub place: u32,
    pub length: u64,
}

/// The arcs that lead up from each place, row after row in one flat array.
#[derive(Drop)]
pub struct Slopes {
    /// Where the row of each place begins, and at last where the last one ends.
    pub(crate) bounds: Items<usize>,
    pub(crate) arcs: Items<Arc>,
}

impl Model for Slopes {
    ghost use Rattle.std.specs.Prelude.{List};
    ghost use Rattle.upward_search.specs.declared.slope.Arc.{Arc};
    ghost use Rattle.upward_search.specs.Rows.{rows_of, AreBounds, IsUpward};

    ghost Value = { List (List Arc) };

    ghost view = { λ s. rows_of s.bounds s.arcs };

    ghost invariant = { λ s. AreBounds s.bounds s.arcs × IsUpward (rows_of s.bounds s.arcs) };
}

impl Slopes {
    /// How many places there are.
    pub fn places(&self) -> u32
        ensures places { result ≡ length self.now }
        ensures kept { IsUpward self.now }
    {
        (self.bounds.len() - 1) as u32
    }

    /// How many arcs there are.
    pub(crate) fn count(&self) -> usize
        ensures count { result ≡ count_rows self.now }
        ensures few { result < 2 ^ 63 }
    {
        self.arcs.as_slice().len()
    }

    /// The arcs that lead up from a place.
    pub fn row(&self, place: u32) -> &[Arc]
        requires { place < length self.now }
        ensures row { result.now ≡ row self.now place }
        ensures kept { IsUpward self.now }
    {
        part(self.bounds.as_slice(), self.arcs.as_slice(), place)
    }
}

/// The arcs between a bound and the next.
fn part<'a>(bounds: &[usize], arcs: &'a [Arc], place: u32) -> &'a [Arc]
    requires next { place + 1 < length bounds.now }
    requires rises { slice_index bounds.now place ≤ slice_index bounds.now (place + 1) }
    requires inside { slice_index bounds.now (place + 1) ≤ length arcs.now }
    ensures { result.now ≡ slice_range arcs.now
        (slice_index bounds.now place)
        (slice_index bounds.now (place + 1)) }
{
    &arcs[bounds[place as usize]..bounds[place as usize + 1]]
}
