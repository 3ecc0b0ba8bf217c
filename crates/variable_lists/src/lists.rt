ghost use Rattle.std.specs.Prelude.{◌≡◌, ◌≢◌, ◌==◌, ◌<◌, ◌↔◌, [], Bool, IfOk, IfSome, IsSome, None, OnErr, OnOk, Some, length, nat_lt, slice_get, take};
ghost use Rattle.std.specs.Option.{option_copied};
ghost use Rattle.object_names.specs.Listing.{names_after};
ghost use Rattle.object_names.specs.Scopes.{has_any_of};
ghost use Rattle.object_names.specs.Selected.{selected};
ghost use Rattle.variable_lists.specs.Lists.{attributes, define_cause, defined, deletion, members, without, without_client};

use crate::VariableList;
use mms_types::{
    DefineNamedVariableList, Deleted, Identifier, Key, ListAttributes, Memory, ObjectName, Scope,
    ServiceError, Spec,
};
use object_names::{Named, Names, Selection};
use std::alloc::Global;
use std::marker::Model;

/// The most lists.
const MOST_LISTS: usize = 256;

/// The lists of variables of a device. Contracts see the list of them under their names, in the order in which they
/// were defined.
pub struct Lists {
    rows: Named<VariableList>,
}

impl Model for Lists {
    ghost use Rattle.std.specs.Prelude.{◌≤◌, length};
    ghost use Rattle.variable_lists.specs.Lists.{Rows};

    ghost Value = { Rows };

    ghost view = { λ lists. lists.rows };

    ghost invariant = { λ lists. length lists.rows ≤ 256 };
}

impl Lists {
    /// No lists. Nothing is allocated.
    pub fn new(alloc: Global) -> Lists
        ensures { result ≡ [] }
    {
        Lists {
            rows: Named::new(alloc),
        }
    }

    /// How many lists there are.
    pub fn len(&self) -> usize
        ensures { result ≡ length self.now }
    {
        self.rows.len()
    }

    /// Whether there is none.
    pub fn is_empty(&self) -> bool
        ensures { result ≡ (length self.now == 0) }
    {
        self.rows.is_empty()
    }

    /// The name and the list at a place, counted from 0 in the order in which lists were defined. None exactly where
    /// there are not as many. It takes no memory.
    pub fn at(&self, place: usize) -> Option<(&Key, &VariableList)>
        ensures row { IfSome result (λ row. slice_get self.now place
            ≡ Some (row.0.now, row.1.now)) }
        ensures found { IsSome result ↔ (place < length self.now) }
    {
        self.rows.at(place)
    }

    /// The variables of the list that a client names so, as they were given: None exactly where it is missing.
    pub fn members(&self, client: u32, name: &ObjectName) -> Option<&[Spec]>
        ensures { option_copied result ≡ members client name.now self.now }
    {
        let list = self.rows.named(client, name)?;
        Some(list.variables.as_slice())
    }

    /// What the list is that a client names so, with its variables copied: None exactly where it is missing; then no
    /// memory is taken (ISO 9506-2, GetNamedVariableListAttributes-Response).
    pub fn attributes(
        &self,
        alloc: Global,
        client: u32,
        name: &ObjectName,
    ) -> Result<Option<ListAttributes>, Memory>
        ensures told { IfOk result (λ told. told ≡ attributes client name.now self.now) }
        ensures wants { OnErr result (attributes client name.now self.now ≢ None) }
    {
        match self.rows.named(client, name) {
            None => Ok(None),
            Some(list) => Ok(Some(ListAttributes {
                deletable: true,
                variables: list.variables.copy(alloc)?,
            })),
        }
    }

    /// Why a list is not defined: the first condition that holds. `domain_live` is whether the domain of its scope is
    /// live, where it has one, and `members_there` whether each of its variables has its name and its cell.
    pub fn define_cause(
        &self,
        client: u32,
        asked: &DefineNamedVariableList,
        domain_live: bool,
        members_there: bool,
    ) -> Option<ServiceError>
        ensures { result ≡ define_cause domain_live members_there client asked.now self.now }
    {
        if matches!(asked.name, ObjectName::Domain { .. }) && !domain_live {
            return Some(ServiceError::OBJECT_UNDEFINED);
        }
        if self.members(client, &asked.name).is_some() {
            return Some(ServiceError::OBJECT_EXISTS);
        }
        if !members_there {
            return Some(ServiceError::OBJECT_NON_EXISTENT);
        }
        if self.rows.len() >= MOST_LISTS {
            return Some(ServiceError::CAPABILITY_UNAVAILABLE);
        }
        None
    }

    /// Defines a list: it is the last one, with its variables copied. The one refusal is want of memory; then all is
    /// as before.
    #[tactic(auto, using(crate::proofs::Unopposed::nothing_against))]
    pub fn define(
        &mut self,
        alloc: Global,
        client: u32,
        asked: &DefineNamedVariableList,
    ) -> Result<(), Memory>
        requires { (live : Bool) × (there : Bool)
            × (define_cause live there client asked.now self.old ≡ None) }
        ensures defined { OnOk result (self.new ≡ defined client asked.now self.old) }
        ensures kept { OnErr result (self.new ≡ self.old) }
    {
        let key = asked.name.key(alloc, client)?;
        let list = VariableList {
            variables: asked.variables.copy(alloc)?,
        };
        self.rows.insert(key, list)?;
        Ok(())
    }

    /// How many lists a selection has, and how many of them it deletes: all.
    pub fn deletion(&self, selection: &Selection<'_>) -> Deleted
        ensures { result ≡ deletion (selected selection.entry.now) self.now }
    {
        self.rows.count(selection)
    }

    /// Deletes the lists that a selection has. It takes no memory.
    #[tactic(auto, using(object_names::proofs::Fewer::still_few))]
    pub fn delete(&mut self, selection: &Selection<'_>)
        ensures { self.new ≡ without (selected selection.entry.now) self.old }
    {
        self.rows.delete(selection);
    }

    /// A client is lost: the lists of its association are removed. It takes no memory.
    #[tactic(auto, using(object_names::proofs::Fewer::still_few))]
    pub fn lose(&mut self, client: u32)
        ensures { self.new ≡ without_client client self.old }
    {
        self.rows.remove_all_of(&Scope::Association(client));
    }

    /// Whether some list has a name of that scope. It takes no memory.
    pub fn has_any_of(&self, scope: &Scope) -> bool
        ensures { result ≡ has_any_of scope.now self.now }
    {
        self.rows.has_any_of(scope)
    }

    /// The names of lists of a scope that come after that one, which need not be there, in order of octets: the first
    /// `most` of them, and whether more are left (ISO 9506-2, GetNameList). The one refusal is want of memory.
    pub fn names_after(
        &self,
        alloc: Global,
        scope: &Scope,
        after: Option<&Identifier>,
        most: usize,
    ) -> Result<Names, Memory>
        ensures list { IfOk result (λ names. names.list
            ≡ take most (names_after scope.now (option_copied after.entry) self.now)) }
        ensures more { IfOk result (λ names. names.more
            ≡ nat_lt most (length (names_after scope.now (option_copied after.entry) self.now))) }
    {
        self.rows.names_after(alloc, scope, after, most)
    }

    /// A copy, with its rows in the same order. The one refusal is want of memory.
    pub fn copy(&self, alloc: Global) -> Result<Lists, Memory>
        ensures { IfOk result (λ lists. lists ≡ self.now) }
    {
        Ok(Lists {
            rows: self.rows.copy(alloc)?,
        })
    }
}

impl Drop for Lists {
    fn drop(self) {
        let Lists { rows: _rows } = self;
    }
}
