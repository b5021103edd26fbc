//! The cache.

ghost use Rattle.std.specs.Prelude.{◌≡◌, ◌≢◌, ℕ, ◌+◌, ◌<◌, ◌≤◌, ◌^◌, ◌⊎◌, [], Some, None, true, false, length, IfOk, IfSome, IfNone, option_copied, nat_eq};
ghost use Rattle.lru.specs.LruCache.{promoted};
ghost use Rattle.entity_region.specs.Space.{Space, live, most, free, rounded, IsTaken, IsHole, HasNoHole};
ghost use Rattle.entity_cache.specs.Contents.{most_entries};
ghost use Rattle.entity_cache.specs.Cached.{block_of, content_of, without, IsHeld, ForeignStay, StaysOrLeaves, HaveLeft, LastUsedStay, IsNewest, IsAside, IsOneHole, IsRoom};
ghost use Rattle.entity_cache.specs.Keeping.{HasRoom, HasKept, IsFresh};
ghost use Rattle.entity_cache.specs.declared.kept.Kept.TheVariants.{Yes, NoHole};

use crate::by_id::{ById, MOST_ENTRIES};
use crate::kept::Kept;
use entity_region::{Block, NoMemory, Region, UNIT};
use std::alloc::Global;
use std::marker::Model;

/// What was read of entities, by their ids. A content stands in a block of a region, which is handed in at each call: it
/// must be the same region each time.
#[derive(Drop)]
pub struct EntityCache {
    blocks: ById<Block>,
}

impl Model for EntityCache {
    ghost use Rattle.std.specs.Prelude.{List, ℕ};
    ghost use Rattle.std.specs.Coded.{coded_list, coded×, coded_ℕ};

    ghost Value = { List (ℕ × ℕ) };

    ghost coded = { coded_list (coded× coded_ℕ coded_ℕ) };

    ghost view = { λ cache. cache.blocks };
}

impl EntityCache {
    /// A cache of nothing, for any region.
    pub fn new(alloc: Global) -> Result<EntityCache, NoMemory>
        ensures empty { IfOk result (λ cache. cache ≡ []) }
        ensures held { IfOk result (λ cache. (region : Space) → IsHeld region cache) }
    {
        Ok(EntityCache {
            blocks: ById::new(alloc)?,
        })
    }

    /// How many entities are cached.
    pub fn len(&self) -> usize
        ensures count { result ≡ length self.now }
        ensures most { result ≤ most_entries }
    {
        self.blocks.len()
    }

    /// The content of an id, lent out of the region without a copy. `None` exactly where the id is not cached.
    pub fn content<'r>(&self, region: &'r Region, id: u64) -> Option<&'r [u8]>
        requires { IsHeld region.now self.now }
        ensures { option_copied result ≡ content_of region.now self.now id }
    {
        match self.blocks.peek(id) {
            Some(block) => Some(region.bytes(block)),
            None => None,
        }
    }

    /// Notes that an id was used, so that others are given up before it.
    pub fn touch(&mut self, id: u64)
        ensures held { (region : Space) → IsHeld region self.old → IsHeld region self.new }
        ensures all { (other : ℕ) → block_of self.new other ≡ block_of self.old other }
        ensures order { self.new ≡ promoted (nat_eq id) self.old }
        ensures count { length self.new ≡ length self.old }
    {
        self.blocks.touch(id);
    }

    /// Keeps these bytes as the content of an id, in place of what it had. The ids that were not used for the longest time
    /// are given up for it, as far as there is need.
    pub fn keep(&mut self, region: &mut Region, id: u64, bytes: &[u8]) -> Kept
        requires held { IsHeld region.old self.old }
        requires some { 0 < length bytes.now }
        requires room { live region.old < most region.old + length self.old }
        ensures held { IsHeld region.new self.new }
        ensures kept { result ≡ Yes → content_of region.new self.new id ≡ Some bytes.now }
        ensures unkept { result ≢ Yes → block_of self.new id ≡ None }
        ensures others { (other : ℕ) → other ≢ id → StaysOrLeaves region.old self.old region.new self.new other }
        ensures room { IsRoom region.old self.old (length bytes.now) → (other : ℕ) → other ≢ id → content_of region.new self.new other ≡ content_of region.old self.old other }
        ensures newest { result ≡ Yes → IsNewest self.new id }
        ensures last_used { LastUsedStay (without id self.old) (without id self.new) }
        ensures foreign { ForeignStay region.old self.old region.new self.new }
        ensures empty { result ≡ NoHole → self.new ≡ [] }
        ensures one_hole { result ≡ NoHole → IsOneHole region.new }
        ensures no_hole { result ≡ NoHole → HasNoHole region.new (rounded (length bytes.now)) }
    {
        self.forget(region, id);
        self.make_room(region);
        match self.find(region, bytes.len()) {
            Some(block) => self.put(region, id, block, bytes),
            None => Kept::NoHole,
        }
    }

    /// The id is not cached then, and its block ends.
    pub fn forget(&mut self, region: &mut Region, id: u64)
        requires { IsHeld region.old self.old }
        ensures held { IsHeld region.new self.new }
        ensures gone { block_of self.new id ≡ None }
        ensures others { (other : ℕ) → other ≢ id → content_of region.new self.new other ≡ content_of region.old self.old other }
        ensures order { self.new ≡ without id self.old }
        ensures foreign { ForeignStay region.old self.old region.new self.new }
        ensures holes { (at n : ℕ) → IsHole region.old at n → IsHole region.new at n }
    {
        match self.blocks.forget(id) {
            Some(block) => region.give(block),
            None => {}
        }
    }

    /// Takes a block of n bytes for something else than a content. The ids that were not used for the longest time are
    /// given up for it, as far as there is need.
    pub fn take(&mut self, region: &mut Region, n: usize) -> Option<Block>
        requires held { IsHeld region.old self.old }
        requires some { 0 < n }
        requires few { n < 2 ^ 63 }
        requires room { live region.old < most region.old + length self.old }
        ensures held { IsHeld region.new self.new }
        ensures others { (id : ℕ) → StaysOrLeaves region.old self.old region.new self.new id }
        ensures last_used { LastUsedStay self.old self.new }
        ensures taken { IfSome result (λ block. IsAside region.old self.old region.new self.new n block) }
        ensures room { IsRoom region.old self.old n → self.new ≡ self.old }
        ensures foreign { IfNone result (ForeignStay region.old self.old region.new self.new) }
        ensures empty { IfNone result (self.new ≡ []) }
        ensures one_hole { IfNone result (IsOneHole region.new) }
        ensures no_hole { IfNone result (HasNoHole region.new (rounded n)) }
    {
        self.make_room(region);
        self.find(region, n)
    }

    /// Gives up the id that was not used for the longest time, and answers whether there was one.
    fn give_up(&mut self, region: &mut Region) -> bool
        requires { IsHeld region.old self.old }
        ensures left { HaveLeft region.old self.old region.new self.new }
        ensures fewer { result ≡ true → length self.new < length self.old }
        ensures none { result ≡ false → self.new ≡ [] }
    {
        match self.blocks.give_up() {
            Some(given) => {
                region.give(given.1);
                true
            }
            None => false,
        }
    }

    /// Whether all entries or all blocks are in use.
    fn is_full(&self, region: &Region) -> bool
        ensures most { length self.now ≤ most_entries }
        ensures entries { result ≡ false → length self.now < most_entries }
        ensures blocks { result ≡ false → live region.now < most region.now }
        ensures full { result ≡ true → (most_entries ≤ length self.now) ⊎ (most region.now ≤ live region.now) }
    {
        self.blocks.len() == MOST_ENTRIES || region.live() >= region.most()
    }

    /// Gives up an id where all entries or all blocks are in use.
    fn make_room(&mut self, region: &mut Region)
        requires held { IsHeld region.old self.old }
        requires room { live region.old < most region.old + length self.old }
        ensures left { HaveLeft region.old self.old region.new self.new }
        ensures entries { length self.new < most_entries }
        ensures blocks { live region.new < most region.new }
        ensures same_region { length self.old < most_entries → live region.old < most region.old → region.new ≡ region.old }
        ensures same_cache { length self.old < most_entries → live region.old < most region.old → self.new ≡ self.old }
    {
        if self.is_full(region) {
            self.give_up(region);
        }
    }

    /// A block of so many bytes. Where the region has no hole for it, as many of the ids that were not used for the
    /// longest time are given up as need be, and the region is packed.
    fn find(&mut self, region: &mut Region, n: usize) -> Option<Block>
        requires held { IsHeld region.old self.old }
        requires some { 0 < n }
        requires few { n < 2 ^ 63 }
        requires room { live region.old < most region.old }
        ensures taken { IfSome result (λ block. HasRoom region.old self.old region.new self.new n block) }
        ensures left { IfNone result (HaveLeft region.old self.old region.new self.new) }
        ensures same { IfSome result (λ block. (at : ℕ) → IsHole region.old at (rounded n) → self.new ≡ self.old) }
        ensures first { IfSome result (λ block. (at : ℕ) → IsHole region.old at (rounded n) → IsTaken region.old region.new n block) }
        ensures full { IfNone result (HasNoHole region.old (rounded n)) }
        ensures empty { IfNone result (self.new ≡ []) }
        ensures one_hole { IfNone result (IsOneHole region.new) }
        ensures none { IfNone result (HasNoHole region.new (rounded n)) }
    {
        match region.take(n) {
            Some(block) => Some(block),
            None => {
                self.give_up_for(region, UNIT * n.div_ceil(UNIT));
                region.pack();
                region.take(n)
            }
        }
    }

    /// Gives up ids until so many bytes are free, or none is left.
    fn give_up_for(&mut self, region: &mut Region, wanted: usize)
        requires { IsHeld region.old self.old }
        ensures left { HaveLeft region.old self.old region.new self.new }
        ensures enough { (wanted ≤ free region.new) ⊎ (self.new ≡ []) }
    {
        'ids: while region.free() < wanted {
            if !self.give_up(region) {
                break;
            }
        }
    }

    /// Writes the bytes into a block that was taken for them, and keeps it.
    fn put(&mut self, region: &mut Region, id: u64, block: Block, bytes: &[u8]) -> Kept
        requires fresh { IsFresh region.old (length bytes.now) block }
        requires new { block_of self.old id ≡ None }
        requires room { length self.old < most_entries }
        ensures { (before : Space) → IsHeld before self.old → IsTaken before region.old (length bytes.now) block → HasKept before self.old region.new self.new id bytes.now result }
    {
        region.bytes_mut(&block).copy_from_slice(bytes);
        match self.blocks.keep(id, block) {
            Ok(()) => Kept::Yes,
            Err(refused) => {
                region.give(refused.content);
                Kept::NoMemory
            }
        }
    }
}
