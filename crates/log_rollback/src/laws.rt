//! Laws on channels whose logs were taken back, and on what the disks hold.
ghost use Rattle.std.specs.Prelude.{ℕ, List};
ghost use Rattle.transactions_file.specs.Transactions.{Transactions};
ghost use Rattle.channel.specs.Images.{Image};
ghost use Rattle.recovery.specs.Stored.{Stored};
ghost use Rattle.store_opening.specs.Left.{LeaveNoMore, Leaves};
ghost use Rattle.log_rollback.specs.Held.{Hold};
ghost use Rattle.log_rollback.specs.Ready.{IsReadyToStart, IsRolledBack};

/// Where the disk of a channel was found right and its log was taken back, what a channel is made with is there: the log and the chunks, in what is read and
/// in what a stop leaves.
pub fn finished_channels_are_ready()
    ensures { (n j next m : ℕ) (old new : Image) (leaves : Leaves) (t : Transactions) → IsRolledBack n j next m old new leaves t → IsReadyToStart n j next m new leaves t }
{}

/// What the disks hold whatever a stop leaves they hold still, where no more may be left of them.
pub fn less_left_holds_the_same()
    ensures { (old new : List Leaves) (what : Stored) → LeaveNoMore old new → Hold old what → Hold new what }
{}
