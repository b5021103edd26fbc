//! A tree over units. Each node knows the longest clear runs of its part, so the first run of a length is found
//! without a look at all units.

ghost use Rattle.std.specs.Prelude.{◌≡◌, ◌+◌, ◌<◌, ◌≤◌, ◌^◌, length};
ghost use Rattle.entity_region.specs.Units.{IsTree, IsFirstClear, IsFilled, IsLeaf, IsShape, IsThere, AreRuns};

use crate::runs::{Runs, first_among, scan};

/// A leaf has at most so many units, where there are not yet as many leaves as there may be.
const LEAF: usize = 128;

/// The most leaves.
const MOST_LEAVES: usize = 16_384;

/// How many levels, nodes and units a tree has.
#[derive(Drop)]
pub(crate) struct Shape {
    pub levels: u32,
    pub nodes: usize,
    pub units: usize,
}

/// The shape of a tree that has so many units or a few more, since its leaves are equal.
pub(crate) fn shape_for(count: usize) -> Shape
    requires { count < 2 ^ 32 }
    ensures fits { IsShape result.levels result.nodes result.units }
    ensures enough { count ≤ result.units }
{
    let (mut width, mut leaves) = (count, 1);
    let mut shape = Shape {
        levels: 0,
        nodes: 1,
        units: count,
    };
    'halve: while LEAF < width && leaves < MOST_LEAVES {
        if width % 2 == 1 {
            shape.units += leaves;
        }
        width = width.div_ceil(2);
        leaves *= 2;
        shape.nodes = 2 * shape.nodes + 1;
        shape.levels += 1;
    }
    shape
}

/// The runs of a tree's units.
pub(crate) fn top(levels: u32, nodes: &[Runs], units: &[bool]) -> Runs
    requires { IsTree levels nodes.now units.now }
    ensures { AreRuns units.now result }
{
    nodes[0]
}

/// The first place of so many clear units, where there is one.
pub(crate) fn first_fit(levels: u32, nodes: &[Runs], units: &[bool], wanted: usize) -> usize
    requires tree { IsTree levels nodes.now units.now }
    requires some { 0 < wanted }
    requires there { IsThere units.now wanted }
    ensures { IsFirstClear units.now wanted result }
{
    if levels == 0 {
        return first_among(units, wanted);
    }
    let half = units.len() / 2;
    let Some((_top, below)) = nodes.split_first() else {
        unreachable!()
    };
    let (left, right) = below.split_at(nodes.len() / 2);
    let (front, back) = units.split_at(half);
    let first = top(levels - 1, left, front);
    let second = top(levels - 1, right, back);
    if wanted <= first.most {
        first_fit(levels - 1, left, front, wanted)
    } else if wanted <= first.back + second.front {
        half - first.back
    } else {
        half + first_fit(levels - 1, right, back, wanted)
    }
}

/// Gives the units from one place to another a value.
pub(crate) fn fill(
    levels: u32,
    nodes: &mut [Runs],
    units: &mut [bool],
    from: usize,
    to: usize,
    used: bool,
)
    requires tree { IsTree levels nodes.old units.old }
    requires order { from ≤ to }
    requires inside { to ≤ length units.old }
    ensures tree { IsTree levels nodes.new units.new }
    ensures filled { IsFilled units.old units.new from to used }
{
    if from == to {
        return;
    }
    if levels == 0 {
        fill_leaf(nodes, units, from, to, used);
        return;
    }
    let half = units.len() / 2;
    let below_half = nodes.len() / 2;
    let Some((node, below)) = nodes.split_first_mut() else {
        unreachable!()
    };
    let (left, right) = below.split_at_mut(below_half);
    let (front, back) = units.split_at_mut(half);
    fill(levels - 1, left, front, from.min(half), to.min(half), used);
    fill(
        levels - 1,
        right,
        back,
        from.max(half) - half,
        to.max(half) - half,
        used,
    );
    let first = top(levels - 1, left, front);
    let second = top(levels - 1, right, back);
    *node = first.join(half, second, half);
}

fn fill_leaf(nodes: &mut [Runs], units: &mut [bool], from: usize, to: usize, used: bool)
    requires node { length nodes.old ≡ 1 }
    requires order { from ≤ to }
    requires inside { to ≤ length units.old }
    ensures leaf { IsLeaf nodes.new units.new }
    ensures filled { IsFilled units.old units.new from to used }
{
    units[from..to].fill(used);
    nodes[0] = scan(units);
}
