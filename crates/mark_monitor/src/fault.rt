use std::error::Error;
use std::fmt;

/// Why the monitor does not begin or close a cycle.
#[derive(Clone, Copy, Debug, PartialEq, Eq)]
pub enum MonitorFault {
    /// A cycle doesn't begin where this channel, the least such, was not reported to have swept in the last.
    NotSwept { channel: u32 },
    /// A cycle doesn't close where so many grey ids, ids in transit and credits are out.
    Pending { n: u64 },
    /// It doesn't close where the store of this number is open.
    StoreOpen { number: u64 },
    /// It doesn't close where this channel, the least such, was not reported to have begun marking in it.
    NotBegun { channel: u32 },
}

impl fmt::Display for MonitorFault {
    fn fmt<W: fmt::Write>(&self, f: &mut fmt::Formatter<W>) -> fmt::Result {
        match self {
            MonitorFault::NotSwept { channel } => write!(f, "channel {channel} has not swept"),
            MonitorFault::Pending { n } => write!(f, "{n} ids and credits are pending"),
            MonitorFault::StoreOpen { number } => write!(f, "store {number} is open"),
            MonitorFault::NotBegun { channel } => write!(f, "channel {channel} has not begun"),
        }
    }
}

impl Error for MonitorFault {}
