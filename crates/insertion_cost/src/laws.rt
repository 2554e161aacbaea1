ghost use Rattle.insertion_cost.specs.Laws.{LongerLegsAreNoCheaper, LaterFrontsAreNoCheaper};

/// Neither longer legs nor a later front of the same schedule make an insertion cheaper or feasible. It does nothing: the laws are its
/// contract.
pub fn prices_are_monotone()
    ensures longer_legs { LongerLegsAreNoCheaper }
    ensures later_fronts { LaterFrontsAreNoCheaper }
{}
