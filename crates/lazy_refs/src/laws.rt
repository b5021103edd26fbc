//! What always holds of the model's conversion. The bodies are empty.

ghost use Rattle.std.specs.Prelude.{◌≡◌, ◌↔◌, List, Some};
ghost use Rattle.type_desc.specs.OwnNames.{HaveOwnNames};
ghost use Rattle.type_dictionary.specs.Latest.{desc_of};
ghost use Rattle.entity_form.specs.Form.{Holds};
ghost use Rattle.entity_form.specs.Values.{kinds_of};
ghost use Rattle.entity_form.specs.declared.value.Value.{Value as AnyValue};
ghost use Rattle.graph_model.specs.declared.entity.Entity.{Entity as AnyEntity};
ghost use Rattle.refactor_table.specs.Pairs.{AreSound};
ghost use Rattle.refactor_table.specs.declared.name.Pair.{Pair as AnyPair};
ghost use Rattle.session_model.specs.Loading.{Converted, conversion};
ghost use Rattle.type_desc.specs.declared.desc.TypeDesc.{TypeDesc as AnyDesc};
ghost use Rattle.lazy_refs.specs.Tables.{IsByTable};

/// An entity that has its type's form becomes what the table of conversion says, and nothing else: an object by the
/// sources of its members, or none where kinds differ or no type has the target name.
pub fn conversions_are_by_the_table()
    ensures { (types : List AnyDesc) (pairs : List AnyPair) (entity : AnyEntity) (old : AnyDesc) (values : List AnyValue) (converted : Converted)
        → AreSound pairs → HaveOwnNames old.members → desc_of types entity.type_id ≡ Some old → Holds (kinds_of old) entity.refs entity.plain values
        → (conversion types pairs entity ≡ converted) ↔ IsByTable types pairs old values converted }
{}
