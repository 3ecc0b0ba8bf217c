//! The table of event conditions.

ghost use Rattle.std.specs.Prelude.{◌≡◌, ◌==◌, ◌<◌, ◌≤◌, ◌↔◌, [], IfOk, IfSome, IsSome, Some, length, nat_lt, option_map, slice_get, take};
ghost use Rattle.std.specs.List.{IsDistinct};
ghost use Rattle.std.specs.Map.{keys_of};
ghost use Rattle.std.specs.Option.{option_copied};
ghost use Rattle.mms_types.specs.Order.{key_eq};
ghost use Rattle.object_names.specs.Listing.{names_after};
ghost use Rattle.object_names.specs.Scopes.{has_any_of};
ghost use Rattle.event_cond.specs.Conditions.{condition, named};
ghost use Rattle.event_cond.specs.Deletion.{without_client};

use crate::Condition;
use crate::kept::Kept;
use mms_types::{Identifier, Key, Memory, ObjectName, Scope};
use object_names::{Named, Names};
use std::alloc::Global;
use std::marker::Model;

/// The event conditions of a device (ISO 9506-1, event management). Contracts see the list of them under their names,
/// in order of definition.
pub struct Conditions {
    pub(crate) rows: Named<Kept>,
}

impl Model for Conditions {
    ghost use Rattle.std.specs.Prelude.{◌≤◌, length};
    ghost use Rattle.event_cond.specs.Conditions.{Rows};

    ghost Value = { Rows };

    ghost view = { λ conditions. conditions.rows };

    ghost invariant = { λ conditions. length conditions.rows ≤ 256 };
}

impl Conditions {
    /// No conditions. Nothing is allocated.
    pub fn new(alloc: Global) -> Conditions
        ensures { result ≡ [] }
    {
        Conditions {
            rows: Named::new(alloc),
        }
    }

    /// How many conditions there are: at most 256, and no two of one name.
    pub fn len(&self) -> usize
        ensures count { result ≡ length self.now }
        ensures most { length self.now ≤ 256 }
        ensures distinct { IsDistinct key_eq (keys_of self.now) }
    {
        self.rows.len()
    }

    /// Whether there is none.
    pub fn is_empty(&self) -> bool
        ensures { result ≡ (length self.now == 0) }
    {
        self.rows.is_empty()
    }

    /// The name and the condition at a place, counted from 0 in order of definition. None exactly where there are not
    /// as many. It takes no memory.
    pub fn at(&self, place: usize) -> Option<(&Key, &Condition)>
        ensures row { IfSome result (λ row. slice_get self.now place
            ≡ Some (row.0.now, row.1.now)) }
        ensures found { IsSome result ↔ (place < length self.now) }
    {
        match self.rows.at(place) {
            None => None,
            Some((key, kept)) => Some((key, &kept.condition)),
        }
    }

    /// The condition of that name: None exactly where it is missing. The time doesn't grow with the table.
    pub fn get(&self, key: &Key) -> Option<&Condition>
        ensures { option_copied result ≡ named key.now self.now }
    {
        match self.rows.get(key) {
            None => None,
            Some(kept) => Some(&kept.condition),
        }
    }

    /// The condition that a client names so, as `get` has it; no key is made of the name.
    pub fn named(&self, client: u32, name: &ObjectName) -> Option<&Condition>
        ensures { option_copied result ≡ condition client name.now self.now }
    {
        match self.rows.named(client, name) {
            None => None,
            Some(kept) => Some(&kept.condition),
        }
    }

    /// Whether some condition has a name of that scope. It takes no memory.
    pub fn has_any_of(&self, scope: &Scope) -> bool
        ensures { result ≡ has_any_of scope.now self.now }
    {
        self.rows.has_any_of(scope)
    }

    /// The names of conditions of a scope that come after that one, which need not be there, in order of octets: the
    /// first `most` of them, and whether more are left (ISO 9506-2, GetNameList). The one refusal is want of memory.
    pub fn names_after(
        &self,
        alloc: Global,
        scope: &Scope,
        after: Option<&Identifier>,
        most: usize,
    ) -> Result<Names, Memory>
        ensures list { IfOk result (λ names. names.list
            ≡ take most (names_after scope.now (option_copied after.entry) self.now)) }
        ensures more { IfOk result (λ names. names.more
            ≡ nat_lt most (length (names_after scope.now
            (option_copied after.entry) self.now))) }
    {
        self.rows.names_after(alloc, scope, after, most)
    }

    /// A client is lost: the conditions of its association are removed, and nobody is told. All others stay, also those
    /// that are enabled. It takes no memory.
    #[tactic(auto, using(object_names::proofs::Fewer::still_few))]
    pub fn lose(&mut self, client: u32)
        ensures { self.new ≡ without_client client self.old }
    {
        self.rows.remove_all_of(&Scope::Association(client));
    }

    /// A copy, with its rows in the same order. The one refusal is want of memory.
    pub fn copy(&self, alloc: Global) -> Result<Conditions, Memory>
        ensures { IfOk result (λ conditions. conditions ≡ self.now) }
    {
        Ok(Conditions {
            rows: self.rows.copy(alloc)?,
        })
    }
}

impl Drop for Conditions {
    fn drop(self) {
        let Conditions { rows: _rows } = self;
    }
}
