/// The latest moment of a request and the latest end of a service, in the units of the roads' weights.
pub const LATEST_MOMENT: u64 = 1 << 40;

/// The latest time of a front, and so of a departure from the node where a schedule starts.
pub const LATEST_FRONT: u64 = 1 << 41;

/// Every time and every limit of a schedule is before it.
pub const END_OF_TIME: u64 = 1 << 60;

/// The most stops of a schedule.
pub const MOST_STOPS: usize = 64;

/// The most riders, on seats or in wheelchair spaces, that a vehicle holds and a request has.
pub const MOST_RIDERS: u32 = 16;

/// The most vehicles of a fleet.
pub const MOST_VEHICLES: usize = 65_536;
