//! An object in memory.

ghost use Rattle.std.specs.Prelude.{◌≡◌, ◌<◌, ◌++◌, ◌∷◌, [], true, false, length, IfSome, IsSome, IsSomeAnd, OnOk, OnErr};
ghost use Rattle.entity_form.specs.declared.value.Value.TheVariants.{Refs};
ghost use Rattle.session_model.specs.Answer.{without_at};
ghost use Rattle.session_model.specs.Instances.{kept_refs};
ghost use Rattle.object_registry.specs.Registered.{refs_at, unsaved, loaded, with_member};
ghost use Rattle.object_registry.specs.References.{without_none};

use crate::members::{push_to, take_from};
use crate::references::{push_all_eager_refs, push_all_refs};
use entity_form::{Object, Value, Values};
use graph_model::NoMemory;
use std::alloc::Global;
use std::marker::Model;

/// An object in memory, whether it was loaded or stored, and whether it was set since.
#[derive(Debug, Drop)]
pub struct Instance {
    object: Object,
    saved: bool,
    changed: bool,
}

impl Model for Instance {
    ghost use Rattle.session_model.specs.Instances.{Instance as AnyInstance};

    ghost Value = { AnyInstance };

    ghost view = { λ i. record { object = i.object; saved = i.saved; changed = i.changed } };
}

impl Instance {
    /// An object that was never stored.
    pub fn unsaved(object: Object) -> Instance
        ensures { result ≡ unsaved object }
    {
        Instance {
            object,
            saved: false,
            changed: false,
        }
    }

    /// An object as it was loaded.
    pub fn loaded(object: Object) -> Instance
        ensures { result ≡ loaded object }
    {
        Instance {
            object,
            saved: true,
            changed: false,
        }
    }

    pub fn object(&self) -> &Object
        ensures { result.now ≡ self.now.object }
    {
        &self.object
    }

    /// Whether it was loaded or stored.
    pub fn is_saved(&self) -> bool
        ensures { result ≡ self.now.saved }
    {
        self.saved
    }

    /// Whether it was set since it was loaded or stored.
    pub fn is_changed(&self) -> bool
        ensures { result ≡ self.now.changed }
    {
        self.changed
    }

    /// Takes it as stored just now.
    pub(crate) fn store(&mut self)
        ensures { self.new ≡ record self.old { saved = true; changed = false } }
    {
        self.saved = true;
        self.changed = false;
    }

    /// The values, which a change puts back.
    fn lift_values(&mut self, alloc: Global) -> Vec<Value>
        ensures lifted { result.items ≡ self.old.object.values }
        ensures rest { self.new ≡ record self.old { object = record self.old.object { values = [] } } }
    {
        std::mem::replace(&mut self.object.values, Values::new(Vec::new(alloc))).into_vec()
    }

    /// Takes changed values.
    fn change(&mut self, values: Vec<Value>)
        ensures { self.new ≡ record self.old { object = record self.old.object { values = values.items }; changed = true } }
    {
        self.object.values = Values::new(values);
        self.changed = true;
    }

    /// Gives the member with this index, from 0, another value.
    pub(crate) fn set(&mut self, alloc: Global, member: u32, value: Value)
        requires { member < length self.old.object.values }
        ensures { self.new ≡ with_member self.old member value }
    {
        let mut values = self.lift_values(alloc);
        values[member as usize] = value;
        self.change(values);
    }

    /// Puts an id behind the last of a `refs` member, by its index from 0. With no memory, the instance stays.
    pub(crate) fn push_ref(
        &mut self,
        alloc: Global,
        member: u32,
        target: u64,
    ) -> Result<(), NoMemory>
        requires { IsSome (refs_at self.old member) }
        ensures ok { OnOk result (IfSome (refs_at self.old member) (λ ids. self.new ≡ with_member self.old member (Refs (ids ++ target ∷ [])))) }
        ensures err { OnErr result (self.new ≡ self.old) }
    {
        let mut values = self.lift_values(alloc);
        let pushed = push_to(alloc, &mut values[member as usize], target);
        match pushed {
            Ok(()) => self.change(values),
            Err(_) => self.object.values = Values::new(values),
        }
        pushed
    }

    /// Takes the id with this index out of a `refs` member, by the member's index from 0.
    pub(crate) fn take_ref(&mut self, alloc: Global, member: u32, at: usize)
        requires { IsSomeAnd (refs_at self.old member) (λ ids. at < length ids) }
        ensures { IfSome (refs_at self.old member) (λ ids. self.new ≡ with_member self.old member (Refs (without_at ids at))) }
    {
        let mut values = self.lift_values(alloc);
        take_from(alloc, &mut values[member as usize], at);
        self.change(values);
    }

    /// Puts what a change keeps at the end of a list: the references other than 0, without those of `lazy` members of an unchanged instance.
    pub(crate) fn push_kept(&self, ids: &mut Vec<u64>) -> Result<(), NoMemory>
        ensures { OnOk result (ids.new.items ≡ ids.old.items ++ without_none (kept_refs self.now)) }
    {
        if self.changed {
            push_all_refs(self.object.values.as_slice(), ids)
        } else {
            push_all_eager_refs(self.object.values.as_slice(), ids)
        }
    }
}
