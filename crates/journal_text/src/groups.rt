use crate::certificate::Certificate;
use crate::text::TextEntry;
use plain_search::Potential;
use ride_base::Items;

/// A group of a journal that was read.
#[derive(Debug, PartialEq, Eq, Drop)]
pub struct Group {
    /// The number of its first line, from 1.
    pub line: u64,
    /// The entry.
    pub entry: TextEntry,
    /// The certificate of an answer, where one was printed.
    pub proof: Option<Certificate>,
    /// The potentials of joined legs that were printed, no more than joined walks.
    pub joins: Items<Potential>,
}
