ghost use Rattle.std.specs.Prelude.{◌≡◌, ◌≤◌, [], length, IfOk};
ghost use Rattle.store_io.specs.MemDisk.{disk_reads};
ghost use Rattle.transactions_file.specs.Inventory.{start};
ghost use Rattle.transactions_file.specs.Transactions.{IsKept};

use crate::windows::window;
use gated_log::{LogFault, begin};
use std::alloc::Global;
use std::test::Fail;
use store_io::{Disk, MemDisk};
use transactions_file::{Inventory, InventoryFault, TransactionsFile};
use tx_entry::Entry;

/// Two stores in two files, and a third one that is dropped; the first file is moved and deleted.
const ENTRIES: [Entry; 8] = [
    Entry::Creation { file: 2 },
    Entry::Store {
        number: 1,
        file: 2,
        at: 0,
        length: 80,
        next_id: 1025,
    },
    Entry::Creation { file: 3 },
    Entry::Store {
        number: 2,
        file: 3,
        at: 0,
        length: 40,
        next_id: 1026,
    },
    Entry::Transfer {
        source: 2,
        file: 3,
        at: 40,
        length: 40,
    },
    Entry::Store {
        number: 3,
        file: 3,
        at: 80,
        length: 32,
        next_id: 1030,
    },
    Entry::Truncation {
        file: 3,
        new_length: 80,
        dropped: 3,
    },
    Entry::Deletion { file: 2 },
];

#[test]
fn entries_change_the_inventory(rt: HostRuntime) -> Result<(), Fail> {
    let mut inventory = Inventory::new(rt.alloc());
    for entry in ENTRIES {
        inventory.add(&entry)?;
    }
    assert_eq!(rt; inventory.files().as_slice(), [(3, 80)].as_slice());
    assert_eq!(rt; inventory.files().length_of(3), Some(80));
    assert_eq!(rt;
        (
            inventory.head(),
            inventory.last_store(),
            inventory.next_id()
        ),
        (Some(3), 2, 1026)
    );
    assert_eq!(rt; inventory.last_entry(), Some(Entry::Deletion { file: 2 }));
    for file in [2, 3] {
        let added = inventory.add(&Entry::Deletion { file });
        assert_eq!(rt; added, Err(InventoryFault::Order));
    }
    Ok(())
}

/// Opens the log of a disk without files.
fn open(alloc: Global, disk: &mut MemDisk, window: &mut [u8]) -> Result<TransactionsFile, LogFault>
    requires window { 1048576 ≤ length window.old }
    requires empty { disk_reads disk.old 0 ≡ [] }
    ensures file { IfOk result (λ t. t.log.file ≡ 0) }
    ensures kept { IfOk result (λ t. IsKept t (disk_reads disk.new 0)) }
    ensures start { IfOk result (λ t. t.inventory.state ≡ start) }
{
    let mut opening = begin(disk, 0, *b"ESC1\x01\x00\x02\x00")?;
    match opening.next(disk, window)? {
        Some(_) => Err(LogFault::Header),
        None => {
            let log = opening.finish(disk)?;
            Ok(TransactionsFile::join(log, Inventory::new(alloc)))
        }
    }
}

#[test]
fn entries_are_appended(rt: HostRuntime) -> Result<(), Fail> {
    let alloc = rt.alloc();
    let mut window = window(alloc)?;
    let mut disk = MemDisk::new(alloc, Vec::new(alloc), None);
    let mut transactions = open(alloc, &mut disk, &mut window)?;
    transactions.reserve_files()?;
    transactions.append(&mut disk, &Entry::Creation { file: 2 })?;
    assert_eq!(rt; transactions.length(), 23);
    assert_eq!(rt; transactions.inventory().head(), Some(2));
    assert_eq!(rt; disk.len(0)?, 23);
    let mut bytes = [0; 23];
    disk.read(0, 0, &mut bytes)?;
    let log = b"ESC1\x01\x00\x02\x00\x01\x09\x00\x00\x00\x01\x02\x00\x00\x00\x00\x00\x00\x00\x00";
    assert_eq!(rt; bytes.as_slice(), log.as_slice());
    Ok(())
}
