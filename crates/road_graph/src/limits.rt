/// The most nodes that a graph may have.
pub const MOST_NODES: u32 = 2_097_152;

/// The most roads that a graph may have.
pub const MOST_ROADS: usize = 8_388_608;

/// Longer than each walk without a repeated node, and so than each distance, in the graph's weight units.
pub const FAR: u64 = 1 << 53;
