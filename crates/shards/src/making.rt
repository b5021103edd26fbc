ghost use Rattle.std.specs.Prelude.{◌≡◌, ◌≤◌, ◌<◌, ◌+◌, ℕ, List, [], map, length, replicate, slice_get, vec_capacity, Some, true, IfErr, IfOk, OnOk};
ghost use Rattle.core_steps.specs.Core.{new_hand};
ghost use Rattle.shards.specs.Known.{all_tell, session_pass};
ghost use Rattle.shards.specs.Making.{AreStart, IsFresh};
ghost use Rattle.shards.specs.Words.{word_of};

use crate::layout::{UnitSlot, word_of};
use crate::passes::Pass;
use crate::shards::{Shards, Spare, Start};
use crate::unit::BackedUnit;
use atomic_table::Table;
use core_hands::Hand;
use graph_model::{CHANNEL_LIMIT, NoMemory};
use std::alloc::Global;
use std::snapshot::Snapshot;
use std::sync::Mutex;

/// There was no memory. The units come back as they were.
pub struct MakeFault<C> {
    pub units: Vec<C>,
    pub hand: Hand,
}

/// Moves the units into slots.
fn fill<C>(units: &mut Vec<C>, slots: &mut Vec<UnitSlot<C>>)
    requires empty { slots.old.items ≡ [] }
    requires room { length units.old.items ≤ vec_capacity slots.old }
    ensures units { units.new.items ≡ [] }
    ensures capacity { vec_capacity units.new ≡ vec_capacity units.old }
    ensures slots { slots.new.items ≡ map Some units.old.items }
{
    while let Some(unit) = units.pop() {
        slots.push_reserved(UnitSlot::new(Some(unit)));
    }
    slots.reverse();
}

/// Moves the units out of slots.
fn refill<C>(mut slots: Vec<UnitSlot<C>>, units: &mut Vec<C>)
    requires full { (us : List C) × (slots.items ≡ map Some us) }
    requires empty { units.old.items ≡ [] }
    requires room { length slots.items ≤ vec_capacity units.old }
    ensures units { map Some units.new.items ≡ slots.items }
{
    while let Some(slot) = slots.pop() {
        let Some(unit) = slot.into_unit() else {
            unreachable!()
        };
        units.push_reserved(unit);
    }
    slots.destroy_empty();
    units.reverse();
}

/// As many words that are 0.
fn blank_words(alloc: Global, count: usize) -> Result<Vec<u64>, NoMemory>
    ensures { IfOk result (λ words. words.items ≡ replicate count 0) }
{
    Ok(vec![in alloc; 0u64; count]?)
}

/// A turn word for each unit and one for the stop, as many slots as units, and room for as many units as there may be.
fn room_for<C>(alloc: Global, units: &mut Vec<C>) -> Result<(Vec<u64>, Vec<UnitSlot<C>>), NoMemory>
    requires count { length units.old.items ≤ 65 }
    ensures units { units.new.items ≡ units.old.items }
    ensures words { IfOk result (λ room. room.0.items ≡ replicate (word_of (length units.old.items) + 1) 0) }
    ensures slots { IfOk result (λ room. room.1.items ≡ []) }
    ensures room { IfOk result (λ room. length units.old.items ≤ vec_capacity room.1) }
    ensures most { OnOk result (65 ≤ vec_capacity units.new) }
{
    units.reserve(CHANNEL_LIMIT + 1 - units.len())?;
    let words = blank_words(alloc, word_of(units.len() as u32) + 1)?;
    let slots = Vec::with_capacity(alloc, units.len())?;
    Ok((words, slots))
}

/// The units, which are the channels by number and then the monitor, as shards, and the pass of actor 0 with this hand. `MakeFault` is want of
/// memory.
pub fn make<C: BackedUnit>(
    alloc: Global,
    units: Vec<C>,
    hand: Hand,
    next_id: u64,
) -> Result<(Shards<C>, Pass<C>), MakeFault<C>>
    requires count { (1 < length units.items) × (length units.items ≤ 65) }
    requires fresh { (k : ℕ) (u : C) → slice_get units.items k ≡ Some u → IsFresh (C.told u) }
    requires start { all_tell (map C.told units.items) ≡ true → AreStart C.told C.backs units.items next_id }
    requires hand { hand ≡ new_hand }
    ensures table { IfOk result (λ made. made.1.table ≡ made.0.table) }
    ensures channels { IfOk result (λ made. made.0.channels + 1 ≡ length units.items) }
    ensures pass { IfOk result (λ made. made.1.known ≡ session_pass (map C.told units.items) next_id) }
    ensures fault { IfErr result (λ fault. (fault.units.items ≡ units.items) × (fault.hand ≡ hand)) }
{
    let mut units = units;
    let channels = units.len() as u32 - 1;
    let start = Start {
        units: Snapshot::of(&units),
        next_id,
    };
    let Ok((words, mut slots)) = room_for(alloc, &mut units) else {
        return Err(MakeFault { units, hand });
    };
    fill(&mut units, &mut slots);
    match Table::new(alloc, words.as_slice(), slots, &start) {
        Ok((table, seat)) => Ok((
            Shards {
                table,
                channels,
                spare: Mutex::new(Spare { units }),
            },
            Pass {
                badge: seat.into_badge(),
                hand,
                actor: 0,
                made: 1,
            },
        )),
        Err(refused) => {
            refill(refused.slots, &mut units);
            Err(MakeFault { units, hand })
        }
    }
}
