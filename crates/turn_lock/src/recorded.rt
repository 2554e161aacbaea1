//! What a value under the lock stands for.
ghost use Rattle.std.specs.Prelude.{◌≡◌, ℕ, ◌^◌, ◌≤◌, List, length};

/// A value that stands for a list of noted entries, each with the number of the desk that noted it.
pub trait Recorded {
    /// What a desk notes.
    type Entry;

    /// Where a list began. It is plain data for contracts alone: no value of it is made.
    type Origin;

    /// The entries that the value stands for, each with the number of its desk.
    ghost noted: { Self → List (ℕ × Self.Entry) };

    /// The value came from this origin.
    ghost IsFrom: { Self.Origin → Self → Type 0 };

    /// How many entries the value stands for.
    fn noted_count(&self) -> u64
        requires { length (noted self.now) ≤ 2 ^ 62 }
        ensures { result ≡ length (noted self.now) };
}
