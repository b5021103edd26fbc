//! What a gathered object leads to.

ghost use Rattle.std.specs.Prelude.{◌≡◌, ◌∷◌, ◌++◌, ◌&&◌, [], not, nat_eq, option_copied, OnOk};
ghost use Rattle.std.specs.List.{flat_map};
ghost use Rattle.entity_form.specs.Values.{refs_of};
ghost use Rattle.session_model.specs.Instances.{instance_at};
ghost use Rattle.object_registry.specs.References.{without_none};
ghost use Rattle.storer.specs.Gathered.{gathering_graph, is_taken, taken};

use crate::gathering::Gathering;
use entity_form::Value;
use graph_model::NoMemory;
use object_registry::{Edges, Instance, Registry};

/// The instances of a registry, each with an edge to those of the instances that it names which are gathered with it.
#[derive(Drop)]
pub struct GatherEdges<'a> {
    pub registry: &'a Registry,
    pub gathering: Gathering,
}

impl<'a> Edges for GatherEdges<'a> {
    ghost graph = { λ edges. gathering_graph edges.gathering edges.registry.now.instances };

    fn push_edges(&self, id: u64, ids: &mut Vec<u64>) -> Result<(), NoMemory> {
        match self.registry.copy(id) {
            Some(instance) => push_values(
                self.registry,
                self.gathering,
                instance.object().values.as_slice(),
                ids,
            ),
            None => Ok(()),
        }
    }
}

fn is_gathered(gathering: Gathering, instance: Option<&Instance>) -> bool
    ensures { result ≡ is_taken gathering (option_copied instance.entry) }
{
    match (gathering, instance) {
        (_, None) => false,
        (Gathering::Lazy, Some(instance)) => !instance.is_saved(),
        (Gathering::Eager, Some(_)) => true,
    }
}

fn is_followed(registry: &Registry, gathering: Gathering, id: u64) -> bool
    ensures { result ≡ (not (nat_eq id 0) && is_taken gathering (instance_at registry.now.instances id)) }
{
    id != 0 && is_gathered(gathering, registry.copy(id))
}

fn push_id(
    registry: &Registry,
    gathering: Gathering,
    id: u64,
    ids: &mut Vec<u64>,
) -> Result<(), NoMemory>
    ensures { OnOk result (ids.new.items ≡ ids.old.items ++ without_none (taken gathering registry.now.instances (id ∷ []))) }
{
    if is_followed(registry, gathering, id) {
        ids.push(id)?;
    }
    Ok(())
}

fn push_ids(
    registry: &Registry,
    gathering: Gathering,
    named: &[u64],
    ids: &mut Vec<u64>,
) -> Result<(), NoMemory>
    ensures { OnOk result (ids.new.items ≡ ids.old.items ++ without_none (taken gathering registry.now.instances named.now)) }
{
    for id in named {
        push_id(registry, gathering, *id, ids)?;
    }
    Ok(())
}

fn push_value(
    registry: &Registry,
    gathering: Gathering,
    value: &Value,
    ids: &mut Vec<u64>,
) -> Result<(), NoMemory>
    ensures { OnOk result (ids.new.items ≡ ids.old.items ++ without_none (taken gathering registry.now.instances (refs_of value.now))) }
{
    match value {
        Value::Ref(id) => push_id(registry, gathering, *id, ids),
        Value::Lazy(id) => push_id(registry, gathering, *id, ids),
        Value::Refs(named) => push_ids(registry, gathering, named.as_slice(), ids),
        Value::Int(_) => Ok(()),
        Value::Text(_) => Ok(()),
        Value::Bytes(_) => Ok(()),
    }
}

/// Puts the ids that values name and that are gathered at the end of a list, without 0.
fn push_values(
    registry: &Registry,
    gathering: Gathering,
    values: &[Value],
    ids: &mut Vec<u64>,
) -> Result<(), NoMemory>
    ensures { OnOk result (ids.new.items ≡ ids.old.items ++ without_none (taken gathering registry.now.instances (flat_map refs_of values.now))) }
{
    for value in values {
        push_value(registry, gathering, value, ids)?;
    }
    Ok(())
}
