//! The longest clear runs of units.

ghost use Rattle.std.specs.Prelude.{◌≡◌, ◌+◌, ◌<◌, ◌≤◌, ◌^◌};
ghost use Rattle.entity_region.specs.Units.{AreRuns, IsFirstClear, IsThere, AreJoined};

/// The numbers of clear units at the front, at the back, and in the longest run.
#[derive(Clone, Copy, Debug)]
pub(crate) struct Runs {
    pub front: usize,
    pub back: usize,
    pub most: usize,
}

/// The runs of some units, each `true` where a block has it.
pub(crate) fn scan(units: &[bool]) -> Runs
    ensures { AreRuns units.now result }
{
    let mut front = 0;
    let mut back = 0;
    let mut most: usize = 0;
    'units: for (place, used) in units.iter().enumerate() {
        back = if *used { 0 } else { back + 1 };
        if back == place + 1 {
            front = back;
        }
        most = most.max(back);
    }
    Runs { front, back, most }
}

/// The first place of so many clear units among some that have such a run.
pub(crate) fn first_among(units: &[bool], wanted: usize) -> usize
    requires some { 0 < wanted }
    requires there { IsThere units.now wanted }
    ensures { IsFirstClear units.now wanted result }
{
    let mut run = 0;
    'units: for (place, used) in units.iter().enumerate() {
        run = if *used { 0 } else { run + 1 };
        if run == wanted {
            return place + 1 - wanted;
        }
    }
    unreachable!()
}

impl Runs {
    /// None are clear.
    pub(crate) const NONE: Runs = Runs {
        front: 0,
        back: 0,
        most: 0,
    };

    /// The runs of so many units with these and others behind them.
    pub(crate) fn join(self, len: usize, others: Runs, others_len: usize) -> Runs
        requires front { self.front ≤ len }
        requires back { self.back ≤ len }
        requires others_front { others.front ≤ others_len }
        requires others_back { others.back ≤ others_len }
        requires fits { len + others_len < 2 ^ 64 }
        ensures { AreJoined self len others others_len result }
    {
        Runs {
            front: if self.front == len {
                len + others.front
            } else {
                self.front
            },
            back: if others.back == others_len {
                others_len + self.back
            } else {
                others.back
            },
            most: self.most.max(others.most).max(self.back + others.front),
        }
    }
}
