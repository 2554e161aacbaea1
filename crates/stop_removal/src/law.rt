ghost use Rattle.stop_removal.specs.Laws.{RemovalsKeepPromises};

/// A removal breaks no promise and makes no other stop later. It does nothing: the law is its contract.
pub fn removals_keep_promises()
    ensures { RemovalsKeepPromises }
{}
