ghost use Rattle.std.specs.Prelude.{◌≡◌, ℕ, ◌+◌, ◌<◌, ◌≤◌, ◌^◌, length, MatchOption};
ghost use Rattle.upward_search.specs.Climbs.{IsRising};
ghost use Rattle.upward_search.specs.Places.{LacksPlace, HasPlaceAt, HasLength};

use crate::slope::Label;

/// Where a place stands in a rising list.
pub(crate) fn find(space: &[Label], place: u32) -> Option<usize>
    requires { IsRising space.now }
    ensures { MatchOption result (LacksPlace space.now place) (HasPlaceAt space.now place) }
{
    let mut low = 0;
    let mut high = space.len();
    'halving: while low < high {
        let middle = low + (high - low) / 2;
        let here = space[middle].place;
        if here == place {
            return Some(middle);
        }
        if here < place {
            low = middle + 1;
            continue;
        }
        high = middle;
    }
    None
}

/// The length at a place of a rising list.
pub(crate) fn length_at(space: &[Label], place: u32) -> Option<u64>
    requires { IsRising space.now }
    ensures { MatchOption result (LacksPlace space.now place) (HasLength space.now place) }
{
    let at = find(space, place)?;
    Some(space[at].length)
}
