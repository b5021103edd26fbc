//! What becomes of the entities of a stored type.

ghost use Rattle.std.specs.Prelude.{◌≡◌, ℕ, Some, IfOk, OnOk, IsSome, IsSomeAnd};
ghost use Rattle.type_desc.specs.OwnNames.{HaveOwnNames};
ghost use Rattle.type_dictionary.specs.Latest.{desc_of};
ghost use Rattle.entity_form.specs.Values.{kinds_of};
ghost use Rattle.refactor_table.specs.Pairs.{AreSound};
ghost use Rattle.session_model.specs.Types.{target_name};
ghost use Rattle.lazy_refs.specs.Forms.{IsReadAs};
ghost use Rattle.lazy_refs.specs.Mappings.{AreMappings, Becomes, IsMappingBetween, IsMappingFrom, IsMappingOf, IsTyped, mapping_at};

use entity_form::{DecodeFault, Object, decode};
use graph_model::{Entity, NoMemory, ROOT_ID};
use legacy_mapping::{Plan, PlanFault, convert, plan};
use refactor_table::RefactorTable;
use std::alloc::Global;
use std::collections::BTreeMap;
use type_desc::{Text, TypeDesc};
use type_dictionary::{Dictionary, ROOT_TYPE_ID};

/// What becomes of the entities of a stored type.
#[derive(Debug, Drop)]
pub enum Mapping {
    /// They become objects of the type with this id, by this plan.
    Converted { new_type: u64, plan: Plan },
    /// The target name has no type.
    NoType,
    /// A member and its source are of two kinds.
    WrongKind,
}

/// What became of an object.
#[derive(Debug, Drop)]
pub enum Outcome {
    /// An object of the latest type of the target name.
    Loaded(Object),
    NoType,
    WrongKind,
}

/// The mappings of the stored types that were met, by their ids.
pub type Mappings = BTreeMap<u64, Mapping>;

/// The types and the pairs by which stored objects become objects of the latest types.
#[derive(Drop)]
pub struct Mapper<'a> {
    pub alloc: Global,
    pub types: &'a Dictionary,
    pub table: &'a RefactorTable,
}

/// The object that the entity of an id holds, or `None` where the entity is not well-formed: its type is not known, it has not the type's form,
/// or it has the root's type and is not the root, or the other way round.
pub fn read(
    alloc: Global,
    types: &Dictionary,
    id: u64,
    entity: &Entity,
) -> Result<Option<Object>, NoMemory>
    ensures { IfOk result (IsReadAs types.now id entity.now) }
{
    if (entity.type_id == ROOT_TYPE_ID) != (id == ROOT_ID) {
        return Ok(None);
    }
    match types.by_id(entity.type_id) {
        Some(desc) => match decode(alloc, entity, desc) {
            Ok(object) => Ok(Some(object)),
            Err(DecodeFault::BadForm { at: _ }) => Ok(None),
            Err(DecodeFault::NoMemory) => Err(NoMemory),
        },
        None => Ok(None),
    }
}

impl<'a> Mapper<'a> {
    /// The new name of a type.
    fn target(&self, name: &'a Text) -> &'a Text
        ensures target { result.now ≡ target_name self.now.table.now name.now }
        ensures sound { AreSound self.now.table.now }
    {
        self.table.new_type(name).unwrap_or(name)
    }

    /// The mapping from one type to another.
    fn between(&self, old: &TypeDesc, new_type: u64, new: &TypeDesc) -> Result<Mapping, NoMemory>
        requires old_names { HaveOwnNames old.now.members }
        requires new_names { HaveOwnNames new.now.members }
        requires sound { AreSound self.now.table.now }
        ensures { IfOk result (IsMappingBetween self.now.table.now old.now new_type new.now) }
    {
        match plan(self.alloc, old, new, self.table) {
            Ok(plan) => Ok(Mapping::Converted { new_type, plan }),
            Err(PlanFault::KindDiffers { member: _ }) => Ok(Mapping::WrongKind),
            Err(PlanFault::NoMemory) => Err(NoMemory),
        }
    }

    /// The mapping from a type to the latest type of its target name.
    fn to_latest(&self, old: &'a TypeDesc) -> Result<Mapping, NoMemory>
        requires { HaveOwnNames old.now.members }
        ensures { IfOk result (IsMappingFrom self.now.types.now self.now.table.now old.now) }
    {
        let name = self.target(&old.name);
        match self.types.latest(name) {
            Some(new_type) => match self.types.by_id(new_type) {
                Some(new) => self.between(old, new_type, new),
                None => Ok(Mapping::NoType),
            },
            None => Ok(Mapping::NoType),
        }
    }

    /// The mapping of a stored type.
    fn mapping(&self, type_id: u64) -> Result<Mapping, NoMemory>
        requires { IsSome (desc_of self.now.types.now type_id) }
        ensures { IfOk result (IsMappingOf self.now.types.now self.now.table.now type_id) }
    {
        match self.types.by_id(type_id) {
            Some(old) => self.to_latest(old),
            None => unreachable!(),
        }
    }

    /// Sees to it that the mapping of a stored type is kept.
    fn prepare(&self, kept: &mut Mappings, type_id: u64) -> Result<(), NoMemory>
        requires known { IsSome (desc_of self.now.types.now type_id) }
        requires kept { AreMappings self.now.types.now self.now.table.now kept.old.entries }
        ensures kept { OnOk result (AreMappings self.now.types.now self.now.table.now kept.new.entries) }
        ensures here { OnOk result (IsSome (mapping_at kept.new.entries type_id)) }
    {
        if kept.contains_key(&type_id) {
            return Ok(());
        }
        match self.mapping(type_id) {
            Ok(mapping) => {
                kept.insert(type_id, mapping)?;
                Ok(())
            }
            Err(NoMemory) => Err(NoMemory),
        }
    }

    /// What the mapping of its type makes of an object.
    fn apply(&self, mapping: &Mapping, object: Object) -> Result<Outcome, NoMemory>
        requires typed { IsTyped self.now.types.now object }
        requires mapping { IsMappingOf self.now.types.now self.now.table.now object.type_id mapping.now }
        ensures { IfOk result (Becomes self.now.types.now self.now.table.now object) }
    {
        match mapping {
            Mapping::Converted { new_type, plan } => match self.types.by_id(*new_type) {
                Some(new) => match convert(self.alloc, object, *new_type, new, plan) {
                    Ok(object) => Ok(Outcome::Loaded(object)),
                    Err(type_desc::NoMemory) => Err(NoMemory),
                },
                None => unreachable!(),
            },
            Mapping::NoType => Ok(Outcome::NoType),
            Mapping::WrongKind => Ok(Outcome::WrongKind),
        }
    }

    /// What becomes of an object. The mapping of its type is made once, and kept.
    pub fn convert(&self, kept: &mut Mappings, object: Object) -> Result<Outcome, NoMemory>
        requires typed { IsTyped self.now.types.now object }
        requires kept { AreMappings self.now.types.now self.now.table.now kept.old.entries }
        ensures kept { OnOk result (AreMappings self.now.types.now self.now.table.now kept.new.entries) }
        ensures outcome { IfOk result (Becomes self.now.types.now self.now.table.now object) }
    {
        match self.prepare(kept, object.type_id) {
            Ok(()) => match kept.get(&object.type_id) {
                Some(mapping) => self.apply(mapping, object),
                None => unreachable!(),
            },
            Err(NoMemory) => Err(NoMemory),
        }
    }
}
