//! What is drawn for a line, and which slots are bound.

ghost use Rattle.std.specs.Prelude.{◌≡◌, ◌<◌, ◌^◌};
ghost use Rattle.workload.specs.Draws.{draw_from, drawn as drawn_at, drops as drops_at, state_behind};

/// How many slots there are.
pub const SLOTS: usize = 64;

/// States are below this.
const STATES: u64 = 1 << 31;

/// What is drawn for one line.
#[derive(Clone, Copy)]
pub struct Draw {
    pub kind: u64,
    pub slot: u64,
    pub target: u64,
    pub value: u64,
}

impl Draw {
    /// Whether a bound slot becomes free.
    pub fn drops(&self) -> bool
        ensures { result ≡ drops_at self.now }
    {
        self.kind == 12 && self.slot != 0
    }
}

/// The state behind another one.
fn behind(state: u64) -> u64
    requires { state < 2 ^ 31 }
    ensures value { result ≡ state_behind state }
    ensures below { result < 2 ^ 31 }
{
    (state * 1_103_515_245 + 12_345) % STATES
}

/// A number below `count`, drawn at a state.
fn drawn(state: u64, count: u64) -> u64
    requires { 0 < count }
    ensures value { result ≡ drawn_at state count }
    ensures below { result < count }
{
    state / 65_536 % count
}

/// Draws for a line, and moves the state on.
pub fn next_draw(state: &mut u64) -> Draw
    requires { state.old < 2 ^ 31 }
    ensures value { result ≡ draw_from state.old }
    ensures slots { result.slot < 64 }
    ensures targets { result.target < 64 }
    ensures state { state.new ≡ state_behind (state_behind (state_behind (state_behind state.old))) }
    ensures below { state.new < 2 ^ 31 }
{
    let first = behind(*state);
    let second = behind(first);
    let third = behind(second);
    let fourth = behind(third);
    *state = fourth;
    Draw {
        kind: drawn(first, 16),
        slot: drawn(second, SLOTS as u64),
        target: drawn(third, SLOTS as u64),
        value: drawn(fourth, 1000),
    }
}
