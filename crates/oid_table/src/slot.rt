//! What stands at one place of a table.

ghost use Rattle.std.specs.Prelude.{◌≡◌, Some, IsSome, option_copied, option_map};
ghost use Rattle.std.specs.Borrow.{Lends, sem};

/// What stands at one place of a table.
#[derive(Drop)]
pub(crate) enum Slot<V> {
    Empty,
    Full(u64, V),
}

impl<V> Slot<V> {
    ghost use Rattle.oid_table.specs.Slots.{entry_of, value_of, with_value};
    ghost use Rattle.oid_table.specs.contracts.slot.Slot.{the_row};

    pub(crate) fn value(&self) -> Option<&V>
        ensures { option_copied result ≡ value_of self.now }
    {
        match self {
            Slot::Full(_, value) => Some(value),
            Slot::Empty => None,
        }
    }

    pub(crate) fn entry(&self) -> Option<(u64, &V)>
        ensures { option_map (λ entry. (entry.0, entry.1.now)) result ≡ entry_of self.now }
    {
        match self {
            Slot::Full(key, value) => Some((*key, value)),
            Slot::Empty => None,
        }
    }

    pub(crate) fn value_mut(&mut self) -> &mut V
        requires { IsSome (value_of self.old) }
        ensures* lends { sem 𝓛 (Lends (the_row V.row) V.row self.entry result (with_value self.entry.now)) }
        ensures value { value_of self.old ≡ Some result.now }
    {
        match self {
            Slot::Full(_, value) => value,
            Slot::Empty => unreachable!(),
        }
    }
}

impl<V: Drop> Slot<V> {
    ghost use Rattle.oid_table.specs.Slots.{value_of};

    pub(crate) fn into_value(self) -> Option<V>
        ensures { result ≡ value_of self }
    {
        match self {
            Slot::Full(_, value) => Some(value),
            Slot::Empty => None,
        }
    }
}
