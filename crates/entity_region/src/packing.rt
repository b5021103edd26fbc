//! Moving blocks to the front.

ghost use Rattle.std.specs.Prelude.{◌≡◌, ◌≤◌, length, take};
ghost use Rattle.std.specs.List.Sorted.{IsNonDecreasingBy};
ghost use Rattle.entity_region.specs.Packing.{IsListed, IsMoved, IsPackedTo, IsReady, MayMove};

use crate::place::{Place, UNIT, units_of};

/// The number of a block, with the unit where it begins.
#[derive(Clone, Copy, Debug)]
pub(crate) struct Ordered {
    pub unit: usize,
    pub number: usize,
}

impl Ordered {
    /// Stands where no block is noted yet.
    pub(crate) const NONE: Ordered = Ordered { unit: 0, number: 0 };
}

/// Lists the live blocks in the order of their offsets, and answers how many they are.
pub(crate) fn order_blocks(places: &[Option<Place>], order: &mut [Ordered]) -> usize
    requires { length places.now ≤ length order.old }
    ensures count { length order.new ≡ length order.old }
    ensures within { result ≤ length order.new }
    ensures listed { IsListed places.now (take result order.new) }
    ensures rising { IsNonDecreasingBy (λ m. m.unit) (take result order.new) }
{
    let noted = note_blocks(places, order);
    order[..noted].sort_unstable_by_key(|block| block.unit);
    noted
}

/// Notes the live blocks, and answers how many they are.
fn note_blocks(places: &[Option<Place>], order: &mut [Ordered]) -> usize
    requires { length places.now ≤ length order.old }
    ensures within { result ≤ length order.new }
    ensures listed { IsListed places.now (take result order.new) }
{
    let mut noted = 0;
    'numbers: for (number, place) in places.iter().enumerate() {
        match place {
            Some(place) => {
                order[noted] = Ordered {
                    unit: place.unit,
                    number,
                };
                noted += 1;
            }
            None => {}
        }
    }
    noted
}

/// Moves the blocks to the front in this order, each once, and answers how many units they have.
pub(crate) fn move_blocks(
    order: &[Ordered],
    places: &mut [Option<Place>],
    bytes: &mut [u8],
) -> usize
    requires listed { IsListed places.old order.now }
    requires rising { IsNonDecreasingBy (λ m. m.unit) order.now }
    requires ready { IsReady bytes.old places.old }
    ensures { IsPackedTo bytes.old places.old bytes.new places.new result }
{
    let mut to = 0;
    'moves: for block in order {
        to = move_block(block.number, to, places, bytes);
    }
    to
}

/// Moves a block down to a unit, and answers the unit behind it.
fn move_block(number: usize, to: usize, places: &mut [Option<Place>], bytes: &mut [u8]) -> usize
    requires { MayMove places.old (length bytes.old) number to }
    ensures { IsMoved places.old places.new bytes.old bytes.new number to result }
{
    let Some(Place { unit, len }) = places[number] else {
        unreachable!()
    };
    let from = UNIT * unit;
    bytes.copy_within(from..from + len, UNIT * to);
    places[number] = Some(Place { unit: to, len });
    to + units_of(len)
}
