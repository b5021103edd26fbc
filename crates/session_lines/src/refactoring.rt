//! The line that adds a pair of names: `refactor`.

ghost use Rattle.std.specs.Prelude.{◌≡◌, ◌&&◌, ◌++◌, ◌∷◌, [], ℕ, Bool, List, Some, IfOk, MatchResult, OnOk};
ghost use Rattle.std.specs.List.{list_any};
ghost use Rattle.std.specs.Str.{bytes_eq};
ghost use Rattle.graph_model.specs.Served.{Storage};
ghost use Rattle.type_desc.specs.declared.desc.TypeDesc.{TypeDesc as AnyDesc};
ghost use Rattle.refactor_table.specs.Names.{AreOfOneForm};
ghost use Rattle.refactor_table.specs.Pairs.{IsFresh, pair_of};
ghost use Rattle.session_model.specs.Answer.{State, differs, has_other_kind, kind_in, refactor_turn};
ghost use Rattle.session_model.specs.Types.{is_same_kind, kind_of_member, latest_desc, type_in};
ghost use Rattle.session_lines.specs.Stands.{IsAtState};
ghost use Rattle.session_lines.specs.Due.{Meets};
ghost use Rattle.session_lines.specs.Pairings.{MayBePaired, MayNotBePaired, names_root};
ghost use Rattle.session_lines.specs.Refusals.{Says};
ghost use Rattle.session_lines.specs.Steady.{IsSteadyOutcome, KnowsObjects};
ghost use Rattle.session_lines.specs.Steps.{IsShort};

use crate::answers::{line, outcome_of};
use crate::memory::Memory;
use crate::outcome::Outcome;
use crate::places::{index_in, is_root_type};
use crate::refusal::{Refusal, Stop};
use graph_model::{Bytes, NoMemory};
use refactor_table::{AddFault, RefName, RefactorTable};
use type_desc::{Kind, Text, TypeDesc};
use type_dictionary::Dictionary;

/// The type that is named, or of which a member is.
fn type_in(name: &RefName) -> &Text
    ensures { result.now ≡ type_in name.now }
{
    match name {
        RefName::OfType(type_name) | RefName::OfMember(type_name, _) => type_name,
    }
}

/// Whether one of the two types is the built-in one.
fn names_root(old: &RefName, new: &RefName) -> bool
    ensures { result ≡ names_root old.now new.now }
{
    is_root_type(type_in(old)) || is_root_type(type_in(new))
}

/// The kind of a type's member of this name.
fn kind_of(desc: &TypeDesc, member: &Text) -> Option<Kind>
    ensures { result ≡ kind_of_member desc.now member.now }
{
    let index = index_in(desc, member)?;
    match desc.members.as_slice().get(index) {
        Some(found) => Some(found.kind),
        None => None,
    }
}

/// The kind of the member in the latest type of the name.
fn latest_kind(types: &Dictionary, type_name: &Text, member: &Text) -> Option<Kind>
    ensures { result ≡ kind_in (latest_desc types.now type_name.now) member.now }
{
    let id = types.latest(type_name)?;
    match types.by_id(id) {
        Some(desc) => kind_of(desc, member),
        None => None,
    }
}

fn is_same_kind(kind: Kind, other: Kind) -> bool
    ensures { result ≡ is_same_kind kind other }
{
    kind == other
}

/// Whether the type has this name, and the member with another kind.
fn has_other_kind(desc: &TypeDesc, type_name: &Text, member: &Text, kind: Kind) -> bool
    ensures { result ≡ (bytes_eq desc.now.name type_name.now && has_other_kind (kind_of_member desc.now member.now) (Some kind)) }
{
    match kind_of(desc, member) {
        Some(found) => desc.name.is_same(type_name) && !is_same_kind(found, kind),
        None => false,
    }
}

/// Whether a type of this name has the member with another kind.
fn some_differ(types: &[TypeDesc], type_name: &Text, member: &Text, kind: Kind) -> bool
    ensures { result ≡ list_any (λ (desc : AnyDesc). bytes_eq desc.name type_name.now && has_other_kind (kind_of_member desc member.now) (Some kind)) types.now }
{
    types
        .iter()
        .any(|desc| has_other_kind(desc, type_name, member, kind))
}

/// Whether some type has the old member with another kind than the new member has in the latest type of its name.
fn differs(types: &Dictionary, old: &RefName, new: &RefName) -> bool
    ensures { (state : State) → state.types ≡ types.now → result ≡ differs state old.now new.now }
{
    let RefName::OfMember(old_type, old_member) = old else {
        return false;
    };
    let RefName::OfMember(new_type, new_member) = new else {
        return false;
    };
    match latest_kind(types, new_type, new_member) {
        Some(kind) => some_differ(types.as_slice(), old_type, old_member, kind),
        None => false,
    }
}

/// Whether the pair may be added: `Reserved`, `Duplicate`, `WrongKind`.
fn may_pair(memory: &Memory, old: &RefName, new: &RefName) -> Result<(), Stop>
    ensures { MatchResult result (λ _. MayBePaired memory.now.types memory.now.table old.now new.now) (MayNotBePaired memory.now.types memory.now.table old.now new.now) }
{
    if names_root(old, new) {
        return Err(Stop::Refused(Refusal::Reserved));
    }
    if memory.table.clash(old, new).is_some() {
        return Err(Stop::Refused(Refusal::Duplicate));
    }
    if differs(&memory.types, old, new) {
        return Err(Stop::Refused(Refusal::WrongKind));
    }
    Ok(())
}

/// Adds a pair of which no name is taken.
fn add(table: &mut RefactorTable, old: RefName, new: RefName) -> Result<(), NoMemory>
    requires one_form { AreOfOneForm old new }
    requires fresh { IsFresh table.old old new }
    ensures { OnOk result (table.new ≡ table.old ++ pair_of old new ∷ []) }
{
    match table.add(old, new) {
        Ok(()) => Ok(()),
        Err(AddFault::Duplicate { row: _ }) => unreachable!(),
        Err(AddFault::NoMemory) => Err(NoMemory),
    }
}

/// Adds the pair, which is answered `ok`.
fn pair(memory: &mut Memory, old: RefName, new: RefName) -> Result<Bytes, Stop>
    requires { AreOfOneForm old new }
    ensures known { KnowsObjects memory.old → KnowsObjects memory.new }
    ensures says { (storage : Storage) (state : State) → IsAtState memory.old storage state → Says result memory.new storage (refactor_turn state old new) }
{
    match may_pair(memory, &old, &new) {
        Ok(()) => {
            add(&mut memory.table, old, new)?;
            Ok(line(memory.alloc, "ok")?)
        }
        Err(stop) => Err(stop),
    }
}

/// `refactor OLD NEW`: objects of the old type become such of the new one where they are loaded, or a member's value comes from the old member.
pub fn refactor(memory: &mut Memory, old: RefName, new: RefName) -> Result<Outcome, NoMemory>
    requires one_form { AreOfOneForm old new }
    requires known { KnowsObjects memory.old }
    ensures known { OnOk result (KnowsObjects memory.new) }
    ensures steady { IfOk result (IsSteadyOutcome memory.new) }
    ensures meets { (is_next_type : List (List ℕ) → List ℕ → Bool) (storage : Storage) (state : State) → IsAtState memory.old storage state
        → IfOk result (λ outcome. Meets is_next_type outcome memory.new storage (refactor_turn state old new)) }
    ensures short { IfOk result IsShort }
{
    let alloc = memory.alloc;
    let said = pair(memory, old, new);
    outcome_of(alloc, said)
}
