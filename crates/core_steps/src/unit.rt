/// What the last call of a channel that didn't do its work answered, which a caller of a shard looks at after it.
#[derive(Clone, Copy, Debug, PartialEq, Eq)]
pub enum Ending {
    /// Each call did its work; so for a monitor always.
    Sound,
    /// The disk failed.
    Fault,
    /// A log or a number is at its limit.
    Full { number: u64 },
    /// The disk doesn't hold the entity that was written to it.
    Broken { id: u64 },
}

/// An event without what it is about.
#[derive(Clone, Copy, Debug, PartialEq, Eq)]
pub enum EventKind {
    Reserve,
    Return,
    BeginCycle,
    BeginMark,
    MarkSome,
    Deliver,
    ReportBegun,
    CloseCycle,
    SweepSome,
    ReportSwept,
    StoreBegin,
    StorePart,
    StoreEnd,
    Confirm,
    Pin,
    Unpin,
    Tidy,
}

/// A channel or the monitor, with all that belongs to it, as one shard. It tells what it stands for in the core.
pub trait CoreUnit {
    ghost use Rattle.core_steps.specs.Told.{Told};

    ghost told: { Self → Told };
}
