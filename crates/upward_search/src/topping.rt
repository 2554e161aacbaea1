ghost use Rattle.std.specs.Prelude.{◌≡◌, ℕ, ◌+◌, ◌<◌, ◌≤◌, ◌^◌, length, MatchOption};
ghost use Rattle.upward_search.specs.Climbs.{IsRising};
ghost use Rattle.upward_search.specs.Sums.{AreShort, Common};
ghost use Rattle.upward_search.specs.Joints.{LacksJoint, IsJoint, IsTopAt};

use crate::finding::find;
use crate::slope::Label;

/// Where a place that both lists name stands in them, with lengths of this sum.
pub(crate) fn top_of(left: &[Label], right: &[Label], total: u64) -> Option<(usize, usize)>
    requires right { IsRising right.now }
    requires short { AreShort left.now }
    requires low { AreShort right.now }
    ensures { MatchOption result
        (Common left.now right.now total → ⊥)
        (IsTopAt left.now right.now total) }
{
    for index in 0..left.len() {
        if let Some(at) = joint(right, left[index], total) {
            return Some((index, at));
        }
    }
    None
}

fn joint(right: &[Label], label: Label, total: u64) -> Option<usize>
    requires right { IsRising right.now }
    requires short { label.length < 2 ^ 53 }
    requires low { AreShort right.now }
    ensures { MatchOption result
        (LacksJoint right.now label total)
        (IsJoint right.now label total) }
{
    let Some(at) = find(right, label.place) else {
        return None;
    };
    if label.length + right[at].length != total {
        return None;
    }
    Some(at)
}
