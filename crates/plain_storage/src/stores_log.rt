//! The log of stores on a disk.

ghost use Rattle.std.specs.Prelude.{◌≡◌, ◌≤◌, ◌<◌, [], ℕ, List, IsTrue, length, IfOk, OnOk, IsErrOf, ◌⊎◌};
ghost use Rattle.call_counts.specs.Counts.{Rose};
ghost use Rattle.graph_model.specs.Graph.{Graph};
ghost use Rattle.gated_log.specs.Log.{payloads_of, IsNoLog};
ghost use Rattle.gated_log.specs.Reading.{IsReading, rest_of};
ghost use Rattle.plain_storage.specs.Logs.{IsLogFile};
ghost use Rattle.plain_storage.specs.Reading.{AreStores, AreStoresHeld, IsRightGraph};
ghost use Rattle.plain_storage.specs.Stores.{plain_header};

use crate::fault::OpenFault;
use crate::store_payload::read_store;
use crate::tree::Tree;
use gated_log::{Opening, begin};
use graph_model::FIRST_ID;
use std::alloc::Global;
use store_io::Disk;

/// The file of the log of stores.
pub const STORES_FILE: u32 = 0;

/// A file with the log of stores begins with this.
pub const STORES_HEADER: [u8; 8] = [69, 83, 80, 49, 2, 0, 1, 0];

/// The graph and the next id that the stores of the payloads leave which are still to come.
fn read_stores<D: Disk>(
    alloc: Global,
    opening: &mut Opening,
    disk: &mut D,
    window: &mut [u8],
) -> Result<(Tree, u64), OpenFault>
    requires window { 1048576 ≤ length window.old }
    requires file { opening.old.file ≡ 0 }
    requires first { opening.old.count ≡ 0 }
    requires reading { IsTrue D.tells → IsReading opening.old (D.reads disk.old 0) }
    ensures file { opening.new.file ≡ 0 }
    ensures header { opening.new.header ≡ opening.old.header }
    ensures ended { IfOk result (λ _. IsTrue opening.new.ended) }
    ensures reading { IsTrue D.tells → IsReading opening.new (D.reads disk.old 0) }
    ensures log { IsTrue D.tells → OnOk result (IsLogFile opening.old.header (payloads_of (D.reads disk.old 0)) (D.reads disk.old 0)) }
    ensures right { IfOk result (λ p. IsRightGraph p.1 p.0) }
    ensures read { IsTrue D.tells → IfOk result (λ p. AreStores 1 1024 (rest_of opening.old (D.reads disk.old 0)) p.1 [] p.0) }

    // `Damaged` exactly where the file is no log, or its payloads are no stores that may follow.
    ensures damaged { IsTrue D.tells → IsErrOf result OpenFault.Damaged → ((9 < length (D.reads disk.old 0)) × IsNoLog opening.old.header (D.reads disk.old 0))
        ⊎ ((next_id : ℕ) (graph : Graph) → ¬ (AreStores 1 1024 (rest_of opening.old (D.reads disk.old 0)) next_id [] graph)) }
    ensures reads { IsTrue D.tells → D.reads disk.new ≡ D.reads disk.old }
    ensures leaves { IsTrue D.tells → D.leaves disk.new ≡ D.leaves disk.old }
    ensures faults { D.faults disk.old ≤ D.faults disk.new }
    ensures cause { IsErrOf result OpenFault.Fault → Rose (D.faults disk.old) (D.faults disk.new) }
{
    let mut graph = Tree::new(alloc);
    let mut next_id = FIRST_ID;
    'stores: while let Some(n) = opening.next(disk, window)? {
        next_id = read_store(alloc, &window[..n], opening.count(), next_id, &mut graph)?;
    }
    Ok((graph, next_id))
}

/// Reads the log of stores to its end, and gives the graph and the next id that they leave. Nothing is written.
pub fn read_stores_log<D: Disk>(
    alloc: Global,
    disk: &mut D,
    window: &mut [u8],
) -> Result<(Opening, Tree, u64), OpenFault>
    requires { 1048576 ≤ length window.old }
    ensures opening { IfOk result (λ p. (p.0.file ≡ 0) × (p.0.header ≡ plain_header) × IsTrue p.0.ended) }
    ensures reading { IsTrue D.tells → IfOk result (λ p. IsReading p.0 (D.reads disk.old 0)) }
    ensures right { IfOk result (λ p. IsRightGraph p.2 p.1) }
    ensures held { IsTrue D.tells → IfOk result (λ p. AreStoresHeld (D.reads disk.old 0) p.2 p.1) }
    ensures damaged { IsTrue D.tells → IsErrOf result OpenFault.Damaged → (next_id : ℕ) (graph : Graph) → ¬ (AreStoresHeld (D.reads disk.old 0) next_id graph) }
    ensures reads { IsTrue D.tells → D.reads disk.new ≡ D.reads disk.old }
    ensures leaves { IsTrue D.tells → D.leaves disk.new ≡ D.leaves disk.old }
    ensures faults { D.faults disk.old ≤ D.faults disk.new }
    ensures cause { IsErrOf result OpenFault.Fault → Rose (D.faults disk.old) (D.faults disk.new) }
{
    let mut opening = begin(disk, STORES_FILE, STORES_HEADER)?;
    let (graph, next_id) = read_stores(alloc, &mut opening, disk, window)?;
    Ok((opening, graph, next_id))
}
