//! The handle of a block.

use std::marker::Model;

/// A block that was taken out of a region. It is named by a number, so it stays the same block when it is moved.
///
/// There is one handle for a block, and it cannot be copied: whoever gives the block back has no handle any more.
#[derive(Debug, Drop)]
pub struct Block {
    pub(crate) number: usize,
}

impl Model for Block {
    ghost use Rattle.std.specs.Prelude.{ℕ};

    ghost Value = { ℕ };

    ghost view = { λ block. block.number };
}
