//! The disk of a session is opened.

ghost use Rattle.std.specs.Prelude.{◌≡◌, ◌≤◌, [], length, IsTrue, IfOk, OnOk, IsErrOf};
ghost use Rattle.call_counts.specs.Counts.{Rose};
ghost use Rattle.gated_log.specs.Log.{payloads_of};
ghost use Rattle.gated_log.specs.Reading.{IsReading};
ghost use Rattle.plain_storage.specs.Held.{IsPlainFault, IsPlainStored, PlainHeld};
ghost use Rattle.plain_storage.specs.Images.{AreClean, EachPair, OtherFilesStay};
ghost use Rattle.plain_storage.specs.Keeping.{IsStart, Keeps, Plain, held_in};
ghost use Rattle.plain_storage.specs.Stores.{plain_header};
ghost use Rattle.plain_storage.specs.Types.{types_header};

use crate::fault::OpenFault;
use crate::finishing::finish_logs;
use crate::sound::is_sound;
use crate::storage::PlainStorage;
use crate::stores_log::read_stores_log;
use crate::tree::Tree;
use crate::type_log::read_types_log;
use gated_log::Opening;
use std::alloc::{AllocError, Global};
use std::collections::BTreeSet;
use store_io::Disk;
use type_dictionary::Dictionary;

/// The most bytes of a payload.
const WINDOW: usize = 1_048_576;

/// What was read of a disk of which no log is finished yet.
#[derive(Drop)]
struct ReadDisk {
    stores: Opening,
    types: Opening,
    graph: Tree,
    next_id: u64,
    dictionary: Dictionary,
}

fn window(alloc: Global, len: usize) -> Result<Vec<u8>, AllocError>
    ensures { IfOk result (λ window. length window.items ≡ len) }
{
    Ok(vec![in alloc; 0u8; len]?)
}

/// Reads both logs, and checks what they hold. Nothing is written.
fn read_disk<D: Disk>(alloc: Global, disk: &mut D) -> Result<ReadDisk, OpenFault>
    ensures stores { IfOk result (λ r. (r.stores.file ≡ 0) × (r.stores.header ≡ plain_header) × IsTrue r.stores.ended) }
    ensures types { IfOk result (λ r. (r.types.file ≡ 1) × (r.types.header ≡ types_header) × IsTrue r.types.ended) }
    ensures reading { IsTrue D.tells → IfOk result (λ r. IsReading r.stores (D.reads disk.old 0) × IsReading r.types (D.reads disk.old 1)) }
    ensures start { IfOk result (λ r. (p : Plain) → p.held ≡ [] → p.graph ≡ r.graph → p.next_id ≡ r.next_id → IsStart p r.dictionary) }
    ensures held { IsTrue D.tells → IfOk result (λ r. IsPlainStored (D.reads disk.old 0) (D.reads disk.old 1)
        (record { types = r.dictionary; graph = r.graph; number = length (payloads_of (D.reads disk.old 0)); next_id = r.next_id })) }
    ensures damaged { IsTrue D.tells → IsErrOf result OpenFault.Damaged → IsPlainFault (D.reads disk.old 0) (D.reads disk.old 1) }
    ensures reads { IsTrue D.tells → D.reads disk.new ≡ D.reads disk.old }
    ensures leaves { IsTrue D.tells → D.leaves disk.new ≡ D.leaves disk.old }
    ensures faults { D.faults disk.old ≤ D.faults disk.new }
    ensures cause { IsErrOf result OpenFault.Fault → Rose (D.faults disk.old) (D.faults disk.new) }
{
    let mut window = window(alloc, WINDOW)?;
    let (types, dictionary) = read_types_log(alloc, disk, &mut window)?;
    let (stores, graph, next_id) = read_stores_log(alloc, disk, &mut window)?;
    if !is_sound(alloc, &dictionary, &graph)? {
        return Err(OpenFault::Damaged);
    }
    Ok(ReadDisk {
        stores,
        types,
        graph,
        next_id,
        dictionary,
    })
}

/// Opens a disk: reads both logs, and gives the graph that the stores make with its types. A file of at most 9 bytes gets a header, and is
/// synced; a longer one is left as it is. Nothing is written before both files were read and checked.
pub fn open<D: Disk>(alloc: Global, disk: &mut D) -> Result<(PlainStorage, Dictionary), OpenFault>
    // Whatever a disk reads, what is opened is right.
    ensures start { IfOk result (λ p. IsStart p.0 p.1) }
    ensures keeps { IsTrue D.tells → IfOk result (λ p. Keeps p.0 p.1 (D.reads disk.new)) }
    ensures clean { IsTrue D.tells → AreClean (D.reads disk.old) (D.leaves disk.old) → OnOk result (AreClean (D.reads disk.new) (D.leaves disk.new)) }

    // Where it opens, it has what the two files held.
    ensures held { IsTrue D.tells → IfOk result (λ p. IsPlainStored (D.reads disk.old 0) (D.reads disk.old 1) (held_in p.0 p.1)) }
    ensures only { IsTrue D.tells → (held : PlainHeld) → IsPlainStored (D.reads disk.old 0) (D.reads disk.old 1) held → IfOk result (λ p. held_in p.0 p.1 ≡ held) }

    // `Damaged` exactly where the files hold nothing; nothing is changed then.
    ensures damaged { IsTrue D.tells → IsErrOf result OpenFault.Damaged → IsPlainFault (D.reads disk.old 0) (D.reads disk.old 1) }
    ensures fault_stays { IsTrue D.tells → IsPlainFault (D.reads disk.old 0) (D.reads disk.old 1) → (D.reads disk.new ≡ D.reads disk.old) × (D.leaves disk.new ≡ D.leaves disk.old) }
    ensures not_ok { IsTrue D.tells → IsPlainFault (D.reads disk.old 0) (D.reads disk.old 1) → OnOk result ⊥ }

    // Whatever is answered, each image holds what the files held.
    ensures stop { IsTrue D.tells → AreClean (D.reads disk.old) (D.leaves disk.old) → (held : PlainHeld) → IsPlainStored (D.reads disk.old 0) (D.reads disk.old 1) held
        → EachPair (D.leaves disk.new) (λ image0 image1. IsPlainStored image0 image1 held) }
    ensures others { IsTrue D.tells → OtherFilesStay (D.reads disk.old) (D.reads disk.new) (D.leaves disk.old) (D.leaves disk.new) }
    ensures faults { D.faults disk.old ≤ D.faults disk.new }
    ensures cause { IsErrOf result OpenFault.Fault → Rose (D.faults disk.old) (D.faults disk.new) }
{
    let read = read_disk(alloc, disk)?;
    let (stores_log, types_log) = finish_logs(read.stores, read.types, disk)?;
    let storage = PlainStorage {
        alloc,
        graph: read.graph,
        held: BTreeSet::new(alloc),
        next_id: read.next_id,
        stores_log,
        types_log,
    };
    Ok((storage, read.dictionary))
}
