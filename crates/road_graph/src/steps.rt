ghost use Rattle.std.specs.Prelude.{◌≡◌, ℕ, ◌+◌};

use std::marker::Model;
use std::thread::Threads;

/// A number that takes no bytes: a code without proofs of its own can neither set it nor read it.
///
/// Nothing in memory holds the number. It means how often `raise` was called because `new` and `raise`, which
/// are proved by hand, are all that makes or changes it: no other proof by hand may touch it.
#[derive(Drop)]
struct GhostCount {
    ghost total: { ℕ },
}

impl Model for GhostCount {
    ghost use base.Fml.{ftrue};

    ghost also_owns = { λ t. ftrue };
}

impl GhostCount {
    fn new() -> GhostCount
        ensures { result.total ≡ 0 }
    {
        GhostCount {}
    }

    fn raise(&mut self, by: usize)
        ensures { self.new.total ≡ self.old.total + by }
    {}
}

/// How many roads were read, and how many offers were asked for. Both take no bytes and have no upper end: contracts speak of them, and
/// no code can read them.
///
/// The ledger marks whose count it is, and holds nothing that is counted.
#[derive(Drop)]
pub struct Steps<L> {
    ledger: L,
    steps: GhostCount,
    asks: GhostCount,
}

impl<L> Model for Steps<L> {
    ghost Value = { ℕ × ℕ };

    ghost view = { λ s. (s.steps.total, s.asks.total) };
}

impl<L> Steps<L> {
    /// A count that begins at no step and no ask. Only a caller that may start threads makes one.
    pub fn start<R: Threads>(rt: &R, ledger: L) -> Steps<L>
        ensures { result ≡ (0, 0) }
    {
        Steps {
            ledger,
            steps: GhostCount::new(),
            asks: GhostCount::new(),
        }
    }

    /// Counts one road that is read. The asks stay.
    pub fn tick(&mut self)
        ensures { self.new ≡ (self.old.0 + 1, self.old.1) }
    {
        self.steps.raise(1);
    }

    /// Counts that many offers that are asked for, which may be none. The roads stay.
    pub fn ask(&mut self, count: usize)
        ensures { self.new ≡ (self.old.0, self.old.1 + count) }
    {
        self.asks.raise(count);
    }
}
