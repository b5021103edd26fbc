use graph_model::{Ids, StoreOp};

/// What an actor may do on a shard.
#[derive(Debug, Drop)]
pub enum Event {
    /// Takes credit, each of which may later grey an id.
    Reserve(u64),
    /// Gives credit back.
    Return(u64),
    /// Opens the next collection cycle.
    BeginCycle,
    /// A channel begins to mark, with the root and its pins.
    BeginMark,
    /// Follows the edges of grey ids.
    MarkSome(Ids),
    /// Brings ids in transit to their channel.
    Deliver(Ids),
    /// Reports a channel as begun.
    ReportBegun(u32),
    /// Ends marking in all channels.
    CloseCycle,
    /// Visits ids, and takes out those that are not marked.
    SweepSome(Ids),
    /// Reports a channel as swept.
    ReportSwept(u32),
    /// Opens a store.
    StoreBegin(StoreOp),
    /// Puts the channel's records of the open store into its table.
    StorePart,
    /// Ends the open store.
    StoreEnd,
    /// Confirms the channel's last part, once its store has ended.
    Confirm,
    /// Pins an id.
    Pin(u64),
    /// Takes a pin away.
    Unpin(u64),
    /// Moves bytes and changes nothing else.
    Tidy,
}

/// An event that an actor makes on a shard. The shards are the channels by number, and then the monitor.
#[derive(Debug, Drop)]
pub struct Step {
    pub actor: u32,
    pub shard: u32,
    pub event: Event,
}
