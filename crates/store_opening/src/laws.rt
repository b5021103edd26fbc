//! Laws on what disks hold: where they are damaged, where something is taken back, and what their indexes give.
ghost use Rattle.std.specs.Prelude.{◌≡◌, ◌<◌, ℕ, List, length};
ghost use Rattle.oid_table.specs.Table.{Table};
ghost use Rattle.entity_index.specs.declared.row.Row.{Row};
ghost use Rattle.channel.specs.Images.{Image};
ghost use Rattle.recovery.specs.Images.{image_at};
ghost use Rattle.recovery.specs.Stored.{IsFault, IsStored, Stored, tables_at};
ghost use Rattle.disk_opening.specs.RowTables.{AreRowsThere, rows_at, rows_in, tables_in};
ghost use Rattle.store_opening.specs.Damage.{HaveChunksBelow, IsDamage};
ghost use Rattle.store_opening.specs.IndexesRead.{AreIndexesAt};
ghost use Rattle.store_opening.specs.TakenBack.{AreAfter};
ghost use Rattle.store_opening.specs.declared.fault.Cause.{Cause as AnyCause};

use recovery::{faults_hold_nothing, images_hold_one};

/// Disks of which a damage may be told hold nothing.
pub fn damages_hold_nothing()
    ensures { (images : List Image) (channel : ℕ) (cause : AnyCause) → IsDamage images channel cause → IsFault images }
{
    faults_hold_nothing();
}

/// What disks hold they hold still once what a stop left unfinished was taken back, or some of it: missing headers are written, and some of the last
/// stores have their Truncation that not all channels have.
pub fn taking_back_keeps_what_is_held()
    ensures { (old new : List Image) (what : Stored) → IsStored old what → AreAfter what.number old new → IsStored new what }
{
    images_hold_one();
}

/// The indexes of all channels, whose chunks are right up to a store, give the tables of what the disks hold there, and their rows stand on the disks.
pub fn indexes_give_the_tables()
    ensures there { (m next : ℕ) (images : List Image) (indexes : List (Table Row)) → length indexes ≡ length images → HaveChunksBelow images m next (length images) → AreIndexesAt m images indexes
        → (j : ℕ) → AreRowsThere (image_at images j) (rows_at (rows_in indexes) j) }
    ensures tables { (m next : ℕ) (images : List Image) (indexes : List (Table Row)) → length indexes ≡ length images → HaveChunksBelow images m next (length images) → AreIndexesAt m images indexes
        → 0 < length images → (x : ℕ) → tables_in images (rows_in indexes) x ≡ tables_at m images x }
{}
