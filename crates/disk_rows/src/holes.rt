//! What tests do with a region, and what stays true of it.

ghost use Rattle.std.specs.Prelude.{◌≡◌, ◌≢◌, ◌+◌, ◌<◌, IfOk};
ghost use Rattle.entity_region.specs.Space.{IsLive, live, most};

use entity_region::{Block, Region};
use std::test::Fail;

/// Takes a block beside one that stays live.
pub fn take_beside(region: &mut Region, n: usize, other: &Block) -> Result<Block, Fail>
    requires some { 0 < n }
    requires room { live region.old < most region.old }
    requires live { IsLive region.old other.now }
    ensures live { IfOk result (λ block. IsLive region.new block) }
    ensures stays { IfOk result (λ _. IsLive region.new other.now) }
    ensures apart { IfOk result (λ block. other.now ≢ block) }
    ensures most { most region.new ≡ most region.old }
{
    match region.take(n) {
        Some(block) => Ok(block),
        None => Err("no hole".into()),
    }
}

/// Gives a block back beside one that stays live.
pub fn give_beside(region: &mut Region, block: Block, other: &Block)
    requires live { IsLive region.old block }
    requires stays { IsLive region.old other.now }
    requires apart { other.now ≢ block }
    ensures stays { IsLive region.new other.now }
    ensures most { most region.new ≡ most region.old }
{
    region.give(block);
}

/// Asks for a block that no hole holds, after which the region is as before.
pub fn find_no_hole(region: &mut Region, n: usize) -> Result<(), Fail>
    requires some { 0 < n }
    requires room { live region.old < most region.old }
    ensures same { IfOk result (λ _. region.new ≡ region.old) }
{
    match region.take(n) {
        Some(_block) => Err("a hole".into()),
        None => Ok(()),
    }
}

/// Packs a region, in which a live block stays live.
pub fn pack_around(region: &mut Region, block: &Block)
    requires { IsLive region.old block.now }
    ensures stays { IsLive region.new block.now }
    ensures live { live region.new ≡ live region.old }
    ensures most { most region.new ≡ most region.old }
{
    region.pack();
}
