//! The region.

ghost use Rattle.std.specs.Prelude.{ℕ, List, length, ◌≡◌, ◌+◌, ◌-◌, ◌<◌, ◌≤◌, ◌%◌, ◌^◌, Some, None, IfOk, IfSome, IfNone, IsSome, replicate};
ghost use Rattle.std.specs.Borrow.{sem};
ghost use Rattle.entity_region.specs.Space.{size, live, most, free, rounded, bytes_at, block_at, with_block, with_bytes, AreWritten, IsLive, IsTaken, IsDisjoint, IsPacked, HasNoHole};
ghost use Rattle.entity_region.specs.Sound.{place_at, AreAll};

use crate::block::Block;
use crate::memory::NoMemory;
use crate::packing::{Ordered, move_blocks, order_blocks};
use crate::place::{Place, UNIT, units_of};
use crate::runs::Runs;
use crate::tree::{fill, first_fit, shape_for, top};
use std::alloc::Global;
use std::marker::Model;
use std_alloc::vec::run_mut;

/// A fixed region of bytes on the heap, and the blocks that were taken out of it.
///
/// All its memory is taken when it is made. A block begins at a multiple of 16 bytes and takes its bytes rounded up to 16.
#[derive(Drop)]
pub struct Region {
    bytes: Vec<u8>,
    // A unit of 16 bytes is `true` where a block has it, and past the last unit.
    units: Vec<bool>,
    nodes: Vec<Runs>,
    levels: u32,
    places: Vec<Option<Place>>,
    // The numbers of blocks: from `live` on those that are free.
    numbers: Vec<usize>,
    live: usize,
    free: usize,
    // Room to list all blocks while they are moved.
    order: Vec<Ordered>,
}

impl Model for Region {
    ghost use Rattle.entity_region.specs.Space.{Space};

    ghost Value = { Space };

    ghost use Rattle.std.specs.Prelude.{length};
    ghost use Rattle.entity_region.specs.Sound.{IsSound, space_of};

    ghost view = { λ r. space_of r.bytes.items r.places.items };

    ghost invariant = { λ r. IsSound r.bytes.items r.units.items r.nodes.items r.levels r.places.items r.numbers.items r.live r.free (length r.order.items) };
}

impl Region {
    ghost use Rattle.entity_region.specs.Lends.{LendsBytes};

    /// A region of so many bytes, out of which so many blocks may be taken at once.
    pub fn new(alloc: Global, bytes: usize, blocks: usize) -> Result<Region, NoMemory>
        requires even { bytes % 16 ≡ 0 }
        requires few { bytes ≤ 2 ^ 30 }
        ensures size { IfOk result (λ region. size region ≡ bytes) }
        ensures none { IfOk result (λ region. region.blocks ≡ replicate blocks None) }
    {
        let count = bytes / UNIT;
        let shape = shape_for(count);
        let mut units = vec![in alloc; true; shape.units]?;
        let mut nodes = vec![in alloc; Runs::NONE; shape.nodes]?;
        fill(shape.levels, &mut nodes, &mut units, 0, count, false);
        Ok(Region {
            bytes: vec![in alloc; 0; bytes]?,
            units,
            nodes,
            levels: shape.levels,
            places: no_places(alloc, blocks)?,
            numbers: all_numbers(alloc, blocks)?,
            live: 0,
            free: bytes,
            order: vec![in alloc; Ordered::NONE; blocks]?,
        })
    }

    /// The number of live blocks.
    pub fn live(&self) -> usize
        ensures count { result ≡ live self.now }
        ensures apart { IsDisjoint self.now }
    {
        self.live
    }

    /// The number of blocks that may be live at once.
    pub fn most(&self) -> usize
        ensures { result ≡ most self.now }
    {
        self.places.len()
    }

    /// The number of bytes that no live block takes.
    pub fn free(&self) -> usize
        ensures { result ≡ free self.now }
    {
        self.free
    }

    /// Takes a block of n bytes out of the first hole that holds them. Its bytes are whatever stood there. `None`
    /// exactly where no hole does.
    pub fn take(&mut self, n: usize) -> Option<Block>
        requires some { 0 < n }
        requires room { live self.old < most self.old }
        ensures taken { IfSome result (λ block. IsTaken self.old self.new n block) }
        ensures none { IfNone result (HasNoHole self.old (rounded n)) }
        ensures unchanged { IfNone result (self.new ≡ self.old) }
    {
        let wanted = units_of(n);
        if top(self.levels, &self.nodes, &self.units).most < wanted {
            return None;
        }
        let unit = first_fit(self.levels, &self.nodes, &self.units, wanted);
        fill(
            self.levels,
            &mut self.nodes,
            &mut self.units,
            unit,
            unit + wanted,
            true,
        );
        let number = self.numbers[self.live];
        self.places[number] = Some(Place { unit, len: n });
        self.live += 1;
        self.free -= UNIT * wanted;
        Some(Block { number })
    }

    /// The bytes of a block, lent.
    pub fn bytes(&self, block: &Block) -> &[u8]
        requires { IsLive self.now block.now }
        ensures { bytes_at self.now block.now ≡ Some result.now }
    {
        let place = place_of(&self.places, block.number);
        &self.bytes[UNIT * place.unit..UNIT * place.unit + place.len]
    }

    /// The bytes of a block, lent to be written.
    pub fn bytes_mut(&mut self, block: &Block) -> &mut [u8]
        requires { IsLive self.old block.now }
        ensures* writes_back { sem 𝓛 (LendsBytes self.entry block.now result) }
        ensures value { bytes_at self.old block.now ≡ Some result.now }
        ensures written { (bytes : List ℕ) → length bytes ≡ length result.now → AreWritten self.old (with_bytes self.old block.now bytes) block.now bytes }
    {
        let place = place_of(&self.places, block.number);
        let from = UNIT * place.unit;
        run_mut(&mut self.bytes, from, from + place.len)
    }

    /// Ends a block. Its hole joins its neighbours.
    pub fn give(&mut self, block: Block)
        requires { IsLive self.old block }
        ensures { self.new ≡ with_block self.old block None }
    {
        let number = block.number;
        let place = place_of(&self.places, number);
        let units = units_of(place.len);
        fill(
            self.levels,
            &mut self.nodes,
            &mut self.units,
            place.unit,
            place.unit + units,
            false,
        );
        self.places[number] = None;
        self.live -= 1;
        self.numbers[self.live] = number;
        self.free += UNIT * units;
    }

    /// Moves all blocks to the front, so that the free bytes are one hole behind them.
    pub fn pack(&mut self)
        ensures { IsPacked self.old self.new }
    {
        let listed = order_blocks(&self.places, &mut self.order);
        let used = move_blocks(&self.order[..listed], &mut self.places, &mut self.bytes);
        let count = self.bytes.len() / UNIT;
        fill(self.levels, &mut self.nodes, &mut self.units, 0, used, true);
        fill(
            self.levels,
            &mut self.nodes,
            &mut self.units,
            used,
            count,
            false,
        );
    }
}

/// Where a live block lies.
fn place_of(places: &[Option<Place>], number: usize) -> Place
    requires { IsSome (place_at places.now number) }
    ensures { place_at places.now number ≡ Some result }
{
    match places[number] {
        Some(place) => place,
        None => unreachable!(),
    }
}

/// The numbers below a bound.
fn all_numbers(alloc: Global, bound: usize) -> Result<Vec<usize>, NoMemory>
    ensures { IfOk result (λ numbers. AreAll bound numbers.items) }
{
    let mut numbers = Vec::with_capacity(alloc, bound)?;
    for number in 0..bound {
        numbers.push(number)?;
    }
    Ok(numbers)
}

/// As many places, of no blocks.
fn no_places(alloc: Global, bound: usize) -> Result<Vec<Option<Place>>, NoMemory>
    ensures { IfOk result (λ places. places.items ≡ replicate bound None) }
{
    let mut places = Vec::with_capacity(alloc, bound)?;
    for _number in 0..bound {
        places.push(None)?;
    }
    Ok(places)
}
