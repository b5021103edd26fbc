//! Plans of conversion.

ghost use Rattle.std.specs.Prelude.{◌≡◌, ◌≢◌, ◌<◌, List, Option, Some, ℕ, map, length, slice_get, IfOk, IfErr, OnOk, IsTrue, IsFalse};
ghost use Rattle.std.specs.Option.{ForSome};
ghost use Rattle.type_desc.specs.OwnNames.{HaveOwnNames};
ghost use Rattle.entity_form.specs.Values.{kinds_of};
ghost use Rattle.legacy_mapping.specs.Conversion.{Suits};
ghost use Rattle.legacy_mapping.specs.Faults.{HaveOneKind, StandsAgainst};
ghost use Rattle.legacy_mapping.specs.Sources.{AreApart, AreSources};
ghost use Rattle.type_desc.specs.declared.desc.Member.{Member as AnyMember};

use crate::fault::PlanFault;
use crate::search::Search;
use crate::sources::Plan;
use refactor_table::RefactorTable;
use std::alloc::Global;
use type_desc::{Kind, Member, TypeDesc};

/// Whether the member that is the source, if there is one, has this kind.
fn has_kind(members: &[Member], source: Option<usize>, kind: Kind) -> bool
    requires { ForSome source (λ i. i < length members.now) }
    ensures same { IsTrue result → ForSome source (λ i. slice_get (map (λ (m : AnyMember). m.kind) members.now) i ≡ Some kind) }
    ensures other { IsFalse result → (i : ℕ) × (m : AnyMember) × (source ≡ Some i) × (slice_get members.now i ≡ Some m) × (m.kind ≢ kind) }
{
    match source {
        Some(i) => members[i].kind == kind,
        None => true,
    }
}

/// The plan for the objects of an older type that become objects of a newer one.
pub fn plan(
    alloc: Global,
    old: &TypeDesc,
    new: &TypeDesc,
    table: &RefactorTable,
) -> Result<Plan, PlanFault>
    requires old_names { HaveOwnNames old.now.members }
    requires new_names { HaveOwnNames new.now.members }
    ensures sources { IfOk result (AreSources table.now old.now new.now) }
    // There are no others.
    ensures only { IfOk result (λ p. (sources : List (Option ℕ)) → AreSources table.now old.now new.now sources → p ≡ sources) }
    // Each source has its member's kind.
    ensures one_kind { OnOk result (HaveOneKind table.now old.now new.now) }
    ensures suits { IfOk result (Suits (kinds_of old.now) (kinds_of new.now)) }
    ensures apart { IfOk result AreApart }
    ensures fault { IfErr result (StandsAgainst table.now old.now new.now) }
{
    let search = Search::new(alloc, old, new, table)?;
    let old_members = old.members.as_slice();
    let new_members = new.members.as_slice();
    let mut sources = Vec::new(alloc);
    for (k, member) in new_members.iter().enumerate() {
        let source = search.source(&member.name);
        if !has_kind(old_members, source, member.kind) {
            return Err(PlanFault::KindDiffers { member: k as u64 });
        }
        sources.push(source)?;
    }
    Ok(Plan::new(sources))
}
