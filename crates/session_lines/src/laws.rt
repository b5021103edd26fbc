//! What always holds of an export's text. The body is empty.

ghost use Rattle.std.specs.Prelude.{◌≡◌, ◌++◌, ◌∷◌, [], List, ℕ, Some};
ghost use Rattle.graph_export.specs.Line.{line};
ghost use Rattle.graph_model.specs.declared.entity.Record.{Record};
ghost use Rattle.type_desc.specs.declared.desc.Kind.{Kind};
ghost use Rattle.type_desc.specs.declared.desc.TypeDesc.{TypeDesc};
ghost use Rattle.type_dictionary.specs.Latest.{desc_of};
ghost use Rattle.entity_form.specs.Form.{Holds};
ghost use Rattle.entity_form.specs.Values.{kinds_of};
ghost use Rattle.entity_form.specs.declared.value.Object.{Object};
ghost use Rattle.entity_form.specs.declared.value.Value.{Value};
ghost use Rattle.session_model.specs.Answer.{State, exported};

/// The text of an exported entity is the line of the object whose values it holds, by its stored type; and it holds no other values.
pub fn exports_tell_what_is_held()
    ensures text { (state : State) (r : Record) (desc : TypeDesc) (object : Object) → desc_of state.types r.entity.type_id ≡ Some desc → object.type_id ≡ r.entity.type_id
        → Holds (kinds_of desc) r.entity.refs r.entity.plain object.values → exported state r ≡ line r.id object desc ++ 10 ∷ [] }
    ensures one { (kinds : List Kind) (refs plain : List ℕ) (values others : List Value) → Holds kinds refs plain values → Holds kinds refs plain others → values ≡ others }
{}
