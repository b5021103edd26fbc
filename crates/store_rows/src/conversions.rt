ghost use Rattle.std.specs.Prelude.{◌≡◌, ◌∷◌, [], IfOk, IfSome};
ghost use Rattle.type_desc.specs.OwnNames.{HaveOwnNames};
ghost use Rattle.entity_form.specs.Values.{kinds_of};

use entity_form::{Object, Value, Values};
use legacy_mapping::{Plan, PlanFault, convert, plan, target};
use refactor_table::{AddFault, RefName, RefactorTable};
use std::alloc::{AllocError, Global};
use std::test::Fail;
use type_desc::{Kind, Member, Members, Text, TypeDesc};

/// A type with two members of this kind, or `None` where they have one name.
fn two_members(
    alloc: Global,
    name: &str,
    kind: Kind,
    first: &str,
    second: &str,
) -> Result<Option<TypeDesc>, AllocError>
    ensures own_names { IfOk result (λ found. IfSome found (λ d. HaveOwnNames d.members)) }
    ensures kinds { IfOk result (λ found. IfSome found (λ d. kinds_of d ≡ kind ∷ kind ∷ [])) }
{
    if first == second {
        return Ok(None);
    }
    let first = Member {
        kind,
        name: Text::new(alloc, first)?,
    };
    let second = Member {
        kind,
        name: Text::new(alloc, second)?,
    };
    let members = vec![in alloc; first, second]?;
    Ok(Some(TypeDesc {
        name: Text::new(alloc, name)?,
        members: Members::new(members),
    }))
}

/// `A` is `B` now, and its member `x` is `y` of `B`.
fn two_pairs(alloc: Global) -> Result<RefactorTable, AddFault> {
    let mut table = RefactorTable::new(alloc);
    let old = RefName::OfType(Text::new(alloc, "A")?);
    let new = RefName::OfType(Text::new(alloc, "B")?);
    table.add(old, new)?;
    let old = RefName::OfMember(Text::new(alloc, "A")?, Text::new(alloc, "x")?);
    let new = RefName::OfMember(Text::new(alloc, "B")?, Text::new(alloc, "y")?);
    table.add(old, new)?;
    Ok(table)
}

/// The plan from `x` and `y` of `A` to `y` and `z` of another type.
fn plan_to(alloc: Global, kind: Kind, table: &RefactorTable) -> Result<Option<Plan>, PlanFault> {
    let Some(old) = two_members(alloc, "A", Kind::Int, "x", "y")? else {
        return Ok(None);
    };
    let Some(new) = two_members(alloc, "B", kind, "y", "z")? else {
        return Ok(None);
    };
    Ok(Some(plan(alloc, &old, &new, table)?))
}

#[test]
fn a_plan_is_made(rt: HostRuntime) -> Result<(), Fail> {
    let alloc = rt.alloc();
    let table = two_pairs(alloc)?;
    let name = target(alloc, &Text::new(alloc, "A")?, &table)?;
    assert_eq!(rt; name.as_str(), "B");
    let plan = plan_to(alloc, Kind::Int, &table)?;
    assert!(rt; plan.is_some_and(|plan| plan.as_slice() == [Some(0), None].as_slice()));
    let fault = plan_to(alloc, Kind::Text, &table).err();
    assert_eq!(rt; fault, Some(PlanFault::KindDiffers { member: 0 }));
    Ok(())
}

/// 5 and 6 of `A` as an object of `B`.
fn converted(alloc: Global, table: &RefactorTable) -> Result<Option<Object>, Fail> {
    let Some(old) = two_members(alloc, "A", Kind::Int, "x", "y")? else {
        return Ok(None);
    };
    let Some(new) = two_members(alloc, "B", Kind::Int, "y", "z")? else {
        return Ok(None);
    };
    let plan = plan(alloc, &old, &new, table)?;
    let values = vec![in alloc; Value::Int(5), Value::Int(6)]?;
    let object = Object {
        type_id: 16,
        values: Values::new(values),
    };
    Ok(Some(convert(alloc, object, 17, &new, &plan)?))
}

fn is_five_and_zero(object: &Object) -> bool {
    match object.values.as_slice() {
        [Value::Int(y), Value::Int(z)] => object.type_id == 17 && *y == 5 && *z == 0,
        _ => false,
    }
}

#[test]
fn an_object_is_converted(rt: HostRuntime) -> Result<(), Fail> {
    let table = two_pairs(rt.alloc())?;
    let object = converted(rt.alloc(), &table)?;
    assert!(rt; object.is_some_and(|object| is_five_and_zero(&object)));
    Ok(())
}
