//! A storage on one thread, and its disks.

use channel::Channel;
use core_hands::Hand;
use mark_monitor::Monitor;
use std::alloc::Global;
use std::marker::Model;
use store_io::Disk;

/// The bytes of an entity that was looked up stand in a window of as many bytes as the longest has.
pub(crate) const WINDOW: usize = 1_048_576;

/// A storage on one thread, over channels of which each has a disk of its own. Contracts see its channels, the monitor and the hand, which
/// with a book of the stores that were made are a core.
///
/// After `Fault`, `Full` and `Broken` the storage is given up: it is asked nothing more, and gives its disks back.
#[derive(Drop)]
pub struct StorageAlone<D: Disk> {
    pub(crate) alloc: Global,
    pub(crate) channels: Vec<Channel<D>>,
    pub(crate) monitor: Monitor,
    pub(crate) hand: Hand,
    pub(crate) window: Vec<u8>,
}

impl<D: Disk> Model for StorageAlone<D> {
    ghost use Rattle.std.specs.Prelude.{◌≡◌, length};
    ghost use Rattle.recovery.specs.Alone.{AloneState};

    ghost Value = { AloneState D };

    ghost use Rattle.std.specs.Coded.{codes, coded_ℕ};
    ghost use Rattle.std.specs.Ordering.{nat_cmp};
    ghost use Rattle.std.specs.FinMap.{code};
    ghost use Rattle.entity_index.specs.contracts.row.Row.{the_row};

    ghost coded = { Prim.hlevel (codes, code {R = nat_cmp} coded_ℕ the_row.coded, D.code) };

    ghost view = { λ s. record { channels = s.channels.items; monitor = s.monitor; hand = s.hand } };

    ghost invariant = { λ s. length s.window.items ≡ 1048576 };
}
