//! The loading of an id, and of what it leads to.

ghost use Rattle.std.specs.Prelude.{◌≡◌, ℕ, List, IfOk, OnOk, MatchOption, IsTrue};
ghost use Rattle.graph_model.specs.Graph.{Graph, ids};
ghost use Rattle.graph_model.specs.Ids.{rises};
ghost use Rattle.refactor_table.specs.declared.name.Pair.{Pair as AnyPair};
ghost use Rattle.session_model.specs.Instances.{Instances};
ghost use Rattle.type_desc.specs.declared.desc.TypeDesc.{TypeDesc as AnyDesc};
ghost use Rattle.lazy_refs.specs.Advances.{IsAskedNext, IsDoneNext, IsUndone, IsUndoneNext};
ghost use Rattle.lazy_refs.specs.Steps.{IsBrokenAtAsked, IsGiven, IsLoading, IsStep, IsTypedStep};
ghost use Rattle.lazy_refs.specs.Mappings.{AreMappings, AreTypedIn, Becomes, IsTyped, seen};
ghost use Rattle.lazy_refs.specs.Walks.{AreKnown, Ends, IsNextStep, IsAsFar, IsNext, Takes, Turns, TurnsBy, TurnsWith, begun, lower_of, of_reason};

use crate::mapping::{Mapper, Mappings, Outcome, read};
use crate::references::push_values;
use crate::step::{LoadStep, Reason, Refused};
use entity_form::Object;
use graph_model::{Entity, NoMemory};
use object_registry::{Loaded, Registry};
use refactor_table::RefactorTable;
use std::alloc::Global;
use std::collections::{BTreeMap, BTreeSet};
use std::marker::Model;
use type_dictionary::Dictionary;

/// The loading of an id, and of what it leads to. Contracts see how far it has come.
#[derive(Debug, Drop)]
pub struct Loading {
    alloc: Global,
    /// The id whose entity the next call takes.
    asked: u64,
    /// The ids whose entities were taken.
    done: BTreeSet<u64>,
    /// Ids that were named; some may be done or stand here twice.
    waiting: Vec<u64>,
    loaded: Vec<(u64, Object)>,
    /// The least of the done ids that cannot be converted.
    refused: Option<Refused>,
    mappings: Mappings,
}

impl Model for Loading {
    ghost use Rattle.lazy_refs.specs.Walks.{Progress};

    ghost Value = { Progress };

    ghost view = { λ l. record {
      asked = l.asked;
      done = l.done.keys;
      waiting = l.waiting.items;
      loaded = l.loaded.items;
      refused = l.refused;
      mappings = l.mappings.entries;
    } };
}

/// The refusal with the lesser id.
fn lesser(old: Option<Refused>, new: Refused) -> Option<Refused>
    ensures { result ≡ lower_of old new }
{
    match old {
        Some(refused) if refused.id < new.id => Some(refused),
        _ => Some(new),
    }
}

/// Takes the last waiting id that is not done, and those behind it, off the list.
fn next_waiting(waiting: &mut Vec<u64>, done: &BTreeSet<u64>) -> Option<u64>
    ensures { MatchOption result (AreKnown done.now.keys waiting.old.items) (IsNext done.now.keys waiting.old.items waiting.new.items) }
{
    while let Some(id) = waiting.pop() {
        if !done.contains(&id) {
            return Some(id);
        }
    }
    None
}

impl Loading {
    /// The loading of the id. It takes no memory.
    pub fn start(alloc: Global, id: u64) -> Loading
        ensures begun { result ≡ begun id }
        // For any types, pairs and objects in memory, and in every graph.
        ensures loading { (types : List AnyDesc) (pairs : List AnyPair) (instances : Instances) (g : Graph) → IsTrue (rises (ids g)) → IsLoading types pairs instances g id result }
        ensures mappings { (types : List AnyDesc) (pairs : List AnyPair) → AreMappings types pairs result.mappings }
        ensures typed { (types : List AnyDesc) → AreTypedIn types result.loaded }
    {
        Loading {
            alloc,
            asked: id,
            done: BTreeSet::new(alloc),
            waiting: Vec::new(alloc),
            loaded: Vec::new(alloc),
            refused: None,
            mappings: BTreeMap::new(alloc),
        }
    }

    /// Takes the object of the asked id as loaded.
    fn load(&mut self, registry: &Registry, object: Object) -> Result<(), NoMemory>
        ensures takes { OnOk result (Takes registry.now.instances (seen (Outcome.Loaded object)) self.old self.new) }
        ensures mappings { OnOk result (self.new.mappings ≡ self.old.mappings) }
    {
        self.done.insert(self.asked)?;
        push_values(registry, object.values.as_slice(), &mut self.waiting)?;
        self.loaded.push((self.asked, object))?;
        Ok(())
    }

    /// Takes the asked id as one that cannot be converted.
    fn refuse(&mut self, reason: Reason) -> Result<(), NoMemory>
        ensures takes { OnOk result ((instances : Instances) → Takes instances (of_reason reason) self.old self.new) }
        ensures mappings { OnOk result (self.new.mappings ≡ self.old.mappings) }
    {
        self.done.insert(self.asked)?;
        let refused = Refused {
            id: self.asked,
            reason,
        };
        self.refused = lesser(self.refused, refused);
        Ok(())
    }

    /// Takes what became of the asked id.
    fn keep(&mut self, registry: &Registry, outcome: Outcome) -> Result<(), NoMemory>
        ensures takes { OnOk result (Takes registry.now.instances (seen outcome) self.old self.new) }
        ensures mappings { OnOk result (self.new.mappings ≡ self.old.mappings) }
    {
        match outcome {
            Outcome::Loaded(object) => self.load(registry, object),
            Outcome::NoType => self.refuse(Reason::NoType),
            Outcome::WrongKind => self.refuse(Reason::WrongKind),
        }
    }

    /// The answer where no id is left.
    fn finish(&mut self) -> LoadStep
        ensures ends { Ends self.old result }
        ensures mappings { self.new.mappings ≡ self.old.mappings }
    {
        match self.refused {
            None => {
                let loaded = std::mem::replace(&mut self.loaded, Vec::new(self.alloc));
                LoadStep::Ready(Loaded::new(loaded))
            }
            Some(
                Refused {
                    id,
                    reason: Reason::NoType,
                },
            ) => LoadStep::NoType { id },
            Some(
                Refused {
                    id,
                    reason: Reason::WrongKind,
                },
            ) => LoadStep::WrongKind { id },
        }
    }

    /// Asks for the next id, where one is left.
    fn go_on(&mut self) -> LoadStep
        ensures step { IsNextStep self.old self.new result }
        ensures mappings { self.new.mappings ≡ self.old.mappings }
    {
        match next_waiting(&mut self.waiting, &self.done) {
            Some(id) => {
                self.asked = id;
                LoadStep::Want(id)
            }
            None => self.finish(),
        }
    }

    /// Takes what became of the asked id, and goes on.
    fn turn(&mut self, registry: &Registry, outcome: Outcome) -> Result<LoadStep, NoMemory>
        ensures step { IfOk result (Turns registry.now.instances (seen outcome) self.old self.new) }
        ensures mappings { OnOk result (self.new.mappings ≡ self.old.mappings) }
    {
        match self.keep(registry, outcome) {
            Ok(()) => Ok(self.go_on()),
            Err(NoMemory) => Err(NoMemory),
        }
    }

    /// What becomes of the asked id's object.
    fn convert(
        &mut self,
        types: &Dictionary,
        table: &RefactorTable,
        object: Object,
    ) -> Result<Outcome, NoMemory>
        requires typed { IsTyped types.now object }
        requires mappings { AreMappings types.now table.now self.old.mappings }
        ensures outcome { IfOk result (Becomes types.now table.now object) }
        ensures mappings { OnOk result (AreMappings types.now table.now self.new.mappings) }
        ensures progress { OnOk result (IsAsFar self.old self.new) }
    {
        let mapper = Mapper {
            alloc: self.alloc,
            types,
            table,
        };
        mapper.convert(&mut self.mappings, object)
    }

    /// Takes the object that the asked id's entity holds.
    fn take_object(
        &mut self,
        registry: &Registry,
        types: &Dictionary,
        table: &RefactorTable,
        object: Object,
    ) -> Result<LoadStep, NoMemory>
        requires typed { IsTyped types.now object }
        requires mappings { AreMappings types.now table.now self.old.mappings }
        ensures step { IfOk result (TurnsBy types.now table.now registry.now.instances object self.old self.new) }
        ensures mappings { OnOk result (AreMappings types.now table.now self.new.mappings) }
    {
        match self.convert(types, table, object) {
            Ok(outcome) => self.turn(registry, outcome),
            Err(NoMemory) => Err(NoMemory),
        }
    }

    /// Takes the asked id's entity.
    fn take(
        &mut self,
        registry: &Registry,
        types: &Dictionary,
        table: &RefactorTable,
        entity: &Entity,
    ) -> Result<LoadStep, NoMemory>
        requires mappings { AreMappings types.now table.now self.old.mappings }
        ensures step { IfOk result (TurnsWith types.now table.now registry.now.instances entity.now self.old self.new) }
        ensures mappings { OnOk result (AreMappings types.now table.now self.new.mappings) }
    {
        match read(self.alloc, types, self.asked, entity) {
            Ok(Some(object)) => self.take_object(registry, types, table, object),
            Ok(None) => Ok(LoadStep::Broken { id: self.asked }),
            Err(NoMemory) => Err(NoMemory),
        }
    }

    /// Takes the entity of the id that the call before asked for, and tells what is to be done next. The first call
    /// is given none, and so is a call that is to ask once more. After `NoMemory`, and after any other step than
    /// `Want`, the loading is given up.
    pub fn next(
        &mut self,
        registry: &Registry,
        types: &Dictionary,
        table: &RefactorTable,
        given: Option<Entity>,
    ) -> Result<LoadStep, NoMemory>
        // Types and pairs are those of the calls before.
        requires mappings { AreMappings types.now table.now self.old.mappings }
        requires typed { AreTypedIn types.now self.old.loaded }
        ensures mappings { OnOk result (AreMappings types.now table.now self.new.mappings) }
        ensures typed { IfOk result (IsTypedStep types.now self.new) }
        // The entity that was given is not well-formed.
        ensures broken { IfOk result (IsBrokenAtAsked types.now self.old given) }
        ensures done { IfOk result (IsDoneNext given self.old self.new) }
        ensures asks { IfOk result (IsAskedNext self.new) }
        // An id that is asked for was not taken before.
        ensures undone { IsUndone self.old → IfOk result (IsUndoneNext self.new) }
        // In every graph that has the entity, the walk is where it should be.
        ensures step { (g : Graph) (start : ℕ) → IsLoading types.now table.now registry.now.instances g start self.old → IsGiven g self.old given
            → IfOk result (IsStep types.now table.now registry.now.instances g start self.new) }
    {
        match given {
            None => Ok(LoadStep::Want(self.asked)),
            Some(entity) => self.take(registry, types, table, &entity),
        }
    }
}
