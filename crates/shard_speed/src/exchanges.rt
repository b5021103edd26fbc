// Plain exchanges on one word.
use atomic_table::{Play, Seat, Table, TableRule};
use graph_model::NoMemory;
use std::alloc::Global;

/// Any number may stand in the word.
struct Free;

impl TableRule<(), (), ()> for Free {
    ghost holds = { λ _ _. Unit {0} };

    ghost first = { λ _. tt };
}

impl Play<(), ()> for Free {
    ghost then = { λ _ _ _ _. Unit {0} };
}

/// So many exchanges on one word, each of which finds what the one before it left. Returns how many did.
pub fn exchange_often(alloc: Global, count: u64) -> Result<u64, NoMemory> {
    let (table, mut seat): (Table<(), (), (), Free, Global>, Seat<(), ()>) = Table::of_words(
        alloc,
        &[0],
        &(),
    )?;
    let mut last = 0;
    let mut found = 0u64;
    for number in 1..=count {
        if table.shared.swap::<Free>(&mut seat, 0, number) == last {
            found = found.wrapping_add(1);
        }
        last = number;
    }
    Ok(found)
}
