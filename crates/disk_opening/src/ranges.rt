//! Where the chunks of a log stand, as its entries are read.

ghost use Rattle.std.specs.Prelude.{◌≡◌, ◌++◌, ◌∷◌, ◌-◌, [], OnOk, OnErr, filter, length, map, take};
ghost use Rattle.channel_files.specs.Chunks.{ranges_after, stands_elsewhere};
ghost use Rattle.disk_opening.specs.Ranges.{HasLowFile, range_in};

use std::alloc::{AllocError, Global};
use std::marker::Model;
use tx_entry::Entry;

/// Where a chunk stands, and the number of its store; 0 for a chunk that was transferred.
#[derive(Clone, Copy, Debug, PartialEq, Eq)]
pub struct ChunkRange {
    pub number: u64,
    pub file: u32,
    pub at: u64,
    pub length: u64,
}

/// The chunks of the stores that are not dropped and of all transfers, those in live files, in the order of the log.
#[derive(Debug, Drop)]
pub struct Ranges {
    items: Vec<ChunkRange>,
}

impl Model for Ranges {
    ghost use Rattle.std.specs.Prelude.{List, map};
    ghost use Rattle.channel_files.specs.Chunks.{Range};
    ghost use Rattle.disk_opening.specs.Ranges.{range_in};

    ghost Value = { List Range };

    ghost view = { λ ranges. map range_in ranges.items.items };
}

impl Ranges {
    /// No chunk.
    pub fn new(alloc: Global) -> Ranges
        ensures { result ≡ [] }
    {
        Ranges {
            items: Vec::new(alloc),
        }
    }

    pub fn as_slice(&self) -> &[ChunkRange]
        ensures { map range_in result.now ≡ self.now }
    {
        &self.items
    }

    /// The chunks behind one more entry. A Truncation takes the last chunk back, a Deletion those of its file. Without memory nothing changes.
    pub fn add(&mut self, entry: &Entry) -> Result<(), AllocError>
        requires { HasLowFile entry.now }
        ensures ok { OnOk result (self.new ≡ ranges_after self.old entry.now) }
        ensures err { OnErr result (self.new ≡ self.old) }
    {
        match *entry {
            Entry::Creation { .. } => Ok(()),
            Entry::Store {
                number,
                file,
                at,
                length,
                ..
            } => self.push(number, file as u32, at, length),
            Entry::Transfer {
                file,
                at,
                length,
                ..
            } => self.push(0, file as u32, at, length),
            Entry::Truncation { .. } => {
                self.take_back();
                Ok(())
            }
            Entry::Deletion { file } => {
                self.leave_out(file);
                Ok(())
            }
        }
    }

    fn push(&mut self, number: u64, file: u32, at: u64, length: u64) -> Result<(), AllocError>
        ensures ok { OnOk result (self.new ≡ self.old ++ record { number = number; file = file; at = at; length = length } ∷ []) }
        ensures err { OnErr result (self.new ≡ self.old) }
    {
        let range = ChunkRange {
            number,
            file,
            at,
            length,
        };
        self.items.push(range)?;
        Ok(())
    }

    /// Takes the last chunk back, if there is one.
    fn take_back(&mut self)
        ensures { self.new ≡ take (length self.old - 1) self.old }
    {
        let _last = self.items.pop();
    }

    /// Leaves out the chunks of a file.
    fn leave_out(&mut self, file: u64)
        ensures { self.new ≡ filter (stands_elsewhere file) self.old }
    {
        self.items.retain(|range| range.file as u64 != file);
    }
}
