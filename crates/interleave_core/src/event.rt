use stop_schedule::Request;

/// What happens to a world. An event that its actor can't do now does nothing.
#[derive(Clone, Copy, Debug, PartialEq, Eq)]
pub enum Event {
    /// A request is submitted; where it is refused, that is an entry too.
    Submit(Request),
    /// An actor that holds nothing claims the oldest request that no desk holds, and keeps the fleet as it is behind the claim.
    Claim(usize),
    /// An actor prices the request that it claimed and has not priced yet, on the fleet that it kept.
    Price(usize),
    /// An actor commits the request that it priced. Its answer is that of the fleet as it is then.
    Commit(usize),
    /// An actor gives back the request that it holds, priced or not.
    Back(usize),
    /// The clock is to move to this moment, at most 2^40, in the units of the roads' weights. A moment before the clock is refused, which
    /// is an entry too.
    Advance(u64),
    /// The board is closed, if it is open.
    Shut,
}
