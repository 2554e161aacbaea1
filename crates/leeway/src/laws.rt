ghost use Rattle.leeway.specs.Ellipses.{FeasibleOnesLieInEllipses};

/// In a schedule that keeps its promises each feasible insertion's pickup is in the ellipse of its leg, and so is its dropoff, over
/// every graph. It does nothing: the law is its contract.
pub fn feasible_ones_lie_in_ellipses()
    ensures { FeasibleOnesLieInEllipses }
{}
