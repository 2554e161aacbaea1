ghost use Rattle.std.specs.Prelude.{◌≡◌, ℕ, ◌+◌};

use board_core::Entry;
use insertion_cost::Decision;
use std::fmt;

/// What is counted of a history.
#[derive(Clone, Copy, Debug, PartialEq, Eq)]
pub(crate) struct Sums {
    /// How many requests were submitted, those that were refused among them.
    pub(crate) requests: u64,
    /// How many a vehicle takes.
    pub(crate) assigned: u64,
    /// How many were accepted that no vehicle can take.
    pub(crate) nobody: u64,
    /// What the vehicles' offers cost, added up.
    pub(crate) cost: u128,
}

impl Sums {
    ghost use Rattle.dispatch_top.specs.Sums.{AreFew, HasRoom, counted, no_sums};

    /// Those of no entries.
    pub(crate) fn new() -> Sums
        ensures { result ≡ no_sums }
    {
        Sums {
            requests: 0,
            assigned: 0,
            nobody: 0,
            cost: 0,
        }
    }

    /// Counts one more entry.
    pub(crate) fn count(&mut self, entry: &Entry)
        requires { HasRoom self.old }
        ensures sums { self.new ≡ counted entry.now self.old }
        ensures few { (n : ℕ) → AreFew n self.old → AreFew (n + 1) self.new }
    {
        match entry {
            Entry::Submit(_request, _submitted) => self.requests += 1,
            Entry::Commit(_no, Decision::Assigned(assigned)) => {
                self.assigned += 1;
                self.cost += u128::from(assigned.offer.cost);
            }
            Entry::Commit(_no, Decision::Nobody) => self.nobody += 1,
            _ => {}
        }
    }
}

/// Each number on a line, behind its name.
impl fmt::Display for Sums {
    ghost use Rattle.std.specs.Prelude.{Some};
    ghost use Rattle.dispatch_top.specs.Sums.{sums_text};

    ghost output = { λ s. Some (sums_text s) };

    fn fmt<W: fmt::Write>(&self, f: &mut fmt::Formatter<W>) -> fmt::Result {
        writeln!(f, "requests {}", self.requests)?;
        writeln!(f, "assigned {}", self.assigned)?;
        writeln!(f, "nobody {}", self.nobody)?;
        writeln!(f, "cost {}", self.cost)
    }
}
