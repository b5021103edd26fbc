use core_steps::CoreUnit;

/// A unit that has more than it tells: a channel's disk, which stands for the stores that were made.
/// `backs` says how the units of a core, the channels and then the monitor, have that together. `turns` says what a turn makes of it, by an
/// event or by none. Each turn keeps it.
pub trait BackedUnit: CoreUnit {
    ghost use Rattle.std.specs.Prelude.{List, Option};
    ghost use Rattle.core_steps.specs.declared.event.Event.{Event};
    ghost use Rattle.core_steps.specs.Core.{Core};
    ghost use Rattle.shards.specs.Backed.{ActorsKeep, EventsKeep, RestsKeep};

    ghost backs: { Core → List Self → Type 0 };

    ghost turns: { Option Event → Self → Self → Type 0 };

    ghost events_keep: { EventsKeep Self.told backs turns };

    ghost rests_keep: { RestsKeep Self.told backs turns };

    ghost actors_keep: { ActorsKeep backs };
}
