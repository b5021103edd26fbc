//! What is known of a live entity without its bytes.

use entity_form::Header;

/// Where an entity stands in the collection of garbage, and whether it is held.
#[derive(Clone, Copy, Debug, PartialEq, Eq)]
pub struct State {
    pub pinned: bool,
    pub marked: bool,
    pub grey: bool,
    /// Whether the cycle whose sweep visited the id last has an odd number. So a sweep begins and ends without a pass over all rows.
    pub swept_odd: bool,
    /// The id behind this one in the grey queue, 0 for none.
    pub next: u64,
}

/// Where the entity of an id stands, with the numbers that it begins with.
#[derive(Clone, Copy, Debug, PartialEq, Eq)]
pub struct Row {
    /// The number of the data file.
    pub file: u64,
    /// The place of its first byte there.
    pub at: u64,
    pub header: Header,
    pub state: State,
}
