//! Where a channel stands in the collection cycles.
ghost use Rattle.std.specs.Prelude.{◌≡◌};
ghost use Rattle.channel.specs.Stages.{parity_at};

/// A channel is done with a cycle, marks in it, or sweeps in it. Which ids it marked, which are grey and which a sweep has still to visit
/// stands in their rows.
#[derive(Clone, Copy, Debug, Drop)]
pub enum Stage {
    Idle { cycle: u64 },
    Marking { cycle: u64 },
    Sweeping { cycle: u64 },
}

/// The parity that a row keeps which is stored now, so that the first sweep to visit it is that of the next cycle, or that of this one
/// where the channel marks.
pub(crate) fn parity_at(stage: Stage) -> bool
    ensures { result ≡ parity_at stage }
{
    let cycle = match stage {
        Stage::Idle { cycle } | Stage::Sweeping { cycle } => cycle,
        Stage::Marking { cycle } => cycle.saturating_sub(1),
    };
    cycle % 2 == 1
}
