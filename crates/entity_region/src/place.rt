//! Where a block lies.

ghost use Rattle.std.specs.Prelude.{◌≡◌};
ghost use Rattle.entity_region.specs.Sound.{units_of};

/// Blocks begin at multiples of so many bytes.
pub const UNIT: usize = 16;

/// The first unit of a block, and its number of bytes.
#[derive(Clone, Copy, Debug)]
pub(crate) struct Place {
    pub unit: usize,
    pub len: usize,
}

/// The number of units that hold so many bytes.
pub(crate) fn units_of(len: usize) -> usize
    ensures { result ≡ units_of len }
{
    len.div_ceil(UNIT)
}
