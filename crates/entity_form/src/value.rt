ghost use Rattle.std.specs.Prelude.{◌≡◌, ◌↔◌, [], length, IsTrue};

use graph_model::{Bytes, Ids};
use std::marker::Model;
use type_desc::Text;

/// What a member of an object holds.
#[derive(Clone, Debug, Drop)]
pub enum Value {
    Int(i64),
    Text(Text),
    Bytes(Bytes),
    Ref(u64),
    Lazy(u64),
    Refs(Ids),
}

/// Values in order, which contracts see as a list.
#[derive(Clone, Debug, Drop)]
pub struct Values {
    items: Vec<Value>,
}

impl Model for Values {
    ghost use Rattle.std.specs.Prelude.{List};
    ghost use Rattle.entity_form.specs.declared.value.Value.{Value as AnyValue};

    ghost Value = { List AnyValue };

    ghost view = { λ values. values.items.items };
}

impl Values {
    /// The values of a `Vec`.
    pub fn new(items: Vec<Value>) -> Values
        ensures { result ≡ items.items }
    {
        Values { items }
    }

    /// The values, lent.
    pub fn as_slice(&self) -> &[Value]
        ensures { result.now ≡ self.now }
    {
        self.items.as_slice()
    }

    /// The values as a `Vec`, without a copy.
    pub fn into_vec(self) -> Vec<Value>
        ensures { result.items ≡ self }
    {
        self.items
    }

    /// How many there are.
    pub fn len(&self) -> usize
        ensures { result ≡ length self.now }
    {
        self.items.len()
    }

    /// Whether there is none.
    pub fn is_empty(&self) -> bool
        ensures { IsTrue result ↔ (self.now ≡ []) }
    {
        self.items.is_empty()
    }
}

/// An object of a type, its values in the order of the type's members.
#[derive(Clone, Debug, Drop)]
pub struct Object {
    pub type_id: u64,
    pub values: Values,
}
