ghost use Rattle.std.specs.Prelude.{◌≡◌, ◌<◌, ◌^◌, MatchOption};
ghost use Rattle.upward_search.specs.Climbs.{IsRising};
ghost use Rattle.upward_search.specs.Sums.{HasNoCommon, IsLeastSum, IsPastBoth, IsPastLeft, IsPastRight, lesser_of, AreShort};

use crate::slope::Label;

/// How far two lists were compared, and the least sum so far.
#[derive(Clone, Copy)]
pub(crate) struct Meeting {
    pub(crate) left: usize,
    pub(crate) right: usize,
    pub(crate) least: Option<u64>,
}

/// The least sum of the lengths at a place that both lists name. None where there is no such place.
pub(crate) fn least_sum(left: &[Label], right: &[Label]) -> Option<u64>
    requires left { IsRising left.now }
    requires right { IsRising right.now }
    requires short { AreShort left.now }
    requires low { AreShort right.now }
    ensures { MatchOption result (HasNoCommon left.now right.now) (IsLeastSum left.now right.now) }
{
    let mut at = Meeting {
        left: 0,
        right: 0,
        least: None,
    };
    'comparing: while at.left < left.len() && at.right < right.len() {
        at = compared(at, left[at.left], right[at.right]);
    }
    at.least
}

/// Goes past the lower of two labels, or past both.
fn compared(at: Meeting, left: Label, right: Label) -> Meeting
    requires far { at.left < 2 ^ 63 }
    requires away { at.right < 2 ^ 63 }
    requires short { left.length < 2 ^ 53 }
    requires low { right.length < 2 ^ 53 }
    ensures same { left.place ≡ right.place → IsPastBoth at left right result }
    ensures left { left.place < right.place → IsPastLeft at result }
    ensures right { right.place < left.place → IsPastRight at result }
{
    if left.place < right.place {
        return Meeting {
            left: at.left + 1,
            right: at.right,
            least: at.least,
        };
    }
    if right.place < left.place {
        return Meeting {
            left: at.left,
            right: at.right + 1,
            least: at.least,
        };
    }
    Meeting {
        left: at.left + 1,
        right: at.right + 1,
        least: Some(lesser(at.least, left.length + right.length)),
    }
}

/// The lesser of two lengths of which the first may be absent.
pub(crate) fn lesser(least: Option<u64>, sum: u64) -> u64
    ensures { result ≡ lesser_of least sum }
{
    match least {
        Some(least) => least.min(sum),
        None => sum,
    }
}
