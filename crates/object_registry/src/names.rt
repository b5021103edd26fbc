//! The names that are bound.

ghost use Rattle.std.specs.Prelude.{◌≡◌, ◌∷◌, None, IfOk, OnOk, OnErr, IsTrue};
ghost use Rattle.std.specs.String.{string_cmp};
ghost use Rattle.std.specs.BTreeMap.{IsOrdered};
ghost use Rattle.session_model.specs.Answer.{id_in};
ghost use Rattle.session_model.specs.Sound.{are_distinct};
ghost use Rattle.object_registry.specs.Bindings.{SameNames, binding, unbound};
ghost use Rattle.object_registry.specs.Entries.{bindings_of};
ghost use Rattle.object_registry.specs.Registered.{bound_ids};

use std::alloc::{AllocError, Global};
use std::collections::BTreeMap;

/// The id of each name that is bound.
pub type Names = BTreeMap<String, u64>;

/// The id that a name is bound to.
pub fn find(names: &Names, name: &str) -> Option<u64>
    ensures { result ≡ id_in (bindings_of names.now.entries) name.now }
{
    names.get(name).copied()
}

/// Binds a name that is free to an id.
pub fn bind(alloc: Global, names: &mut Names, name: &str, id: u64) -> Result<(), AllocError>
    ensures ok { OnOk result (SameNames (bindings_of names.new.entries) (binding name.now id ∷ bindings_of names.old.entries)) }
    ensures err { OnErr result (names.new.entries ≡ names.old.entries) }
    ensures ordered { OnOk result (IsOrdered string_cmp names.new) }
{
    let name = String::from_str(alloc, name)?;
    names.insert(name, id)?;
    Ok(())
}

/// Leaves a name unbound, and gives the id that it was bound to.
pub fn unbind(names: &mut Names, name: &str) -> Option<u64>
    ensures was { result ≡ id_in (bindings_of names.old.entries) name.now }
    ensures names { SameNames (bindings_of names.new.entries) (unbound name.now (bindings_of names.old.entries)) }
    ensures ordered { IsOrdered string_cmp names.new }
{
    names.remove(name)
}

/// The ids that are bound, in the order of the names.
pub fn ids_of(alloc: Global, names: &Names) -> Result<Vec<u64>, AllocError>
    ensures { IfOk result (λ ids. ids.items ≡ bound_ids (bindings_of names.now.entries)) }
{
    names.values().copied().collect(alloc)
}
