ghost use Rattle.std.specs.Prelude.{◌≡◌, ◌==◌, ◌<◌, ◌≤◌, ◌↔◌, ◌∷◌, ◌++◌, [], IfOk, IfSome, IsSome, None, OnErr, OnOk, Some, filter, length, nat_lt, slice_get, take, true};
ghost use Rattle.std.specs.List.{IsDistinct, list_all, list_any};
ghost use Rattle.std.specs.Map.{keys_of, lookup};
ghost use Rattle.std.specs.Option.{option_copied};
ghost use Rattle.mms_types.specs.Order.{key_eq, scope_eq};
ghost use Rattle.object_names.specs.Listing.{is_listed, names_after};
ghost use Rattle.object_names.specs.Scopes.{has_any_of};
ghost use Rattle.indexmap.specs.IndexMap.{spare};
ghost use Rattle.event_enrol.specs.Enrolments.{has_own_names, number_on};
ghost use Rattle.event_enrol.specs.Going.{stays};

use crate::Enrolment;
use crate::going::Going;
use crate::group::{Group, Member, join, leave};
use domain_load::{comes_after, copied_names, put_name};
use indexmap::IndexMap;
use mms_types::{Identifier, Key, Memory, Scope};
use object_names::Names;
use std::alloc::Global;
use std::marker::Model;

/// The event enrollments of a device (ISO 9506-1, event management). Contracts see the list of them under their names,
/// in the order in which they were defined.
pub struct Enrolments {
    pub(crate) rows: IndexMap<Key, Enrolment>,
    /// Those on each condition, in the same order.
    pub(crate) groups: IndexMap<Key, Group>,
}

impl Model for Enrolments {
    ghost use Rattle.std.specs.Prelude.{◌≡◌, ◌≤◌, length, true};
    ghost use Rattle.std.specs.List.{list_all};
    ghost use Rattle.event_enrol.specs.Enrolments.{Rows, has_own_names};
    ghost use Rattle.event_enrol.specs.Groups.{IsIndexOf};

    ghost Value = { Rows };

    ghost view = { λ table. table.rows.entries };

    ghost invariant = { λ table. (length table.rows.entries ≤ 1024)
        × (list_all has_own_names table.rows.entries ≡ true)
        × IsIndexOf table.rows.entries table.groups.entries };
}

impl Enrolments {
    /// No enrollments. Nothing is allocated.
    pub fn new(alloc: Global) -> Enrolments
        ensures { result ≡ [] }
    {
        Enrolments {
            rows: IndexMap::new(alloc),
            groups: IndexMap::new(alloc),
        }
    }

    /// How many enrollments there are: at most 1,024, and no two of one name.
    pub fn len(&self) -> usize
        ensures count { result ≡ length self.now }
        ensures most { length self.now ≤ 1024 }
        ensures distinct { IsDistinct key_eq (keys_of self.now) }
    {
        self.rows.len()
    }

    /// Whether there is none.
    pub fn is_empty(&self) -> bool
        ensures { result ≡ (length self.now == 0) }
    {
        self.rows.is_empty()
    }

    /// The name and the enrollment at a place, counted from 0 in the order in which they were defined. None exactly
    /// where there are not as many. It takes no memory.
    pub fn at(&self, place: usize) -> Option<(&Key, &Enrolment)>
        ensures row { IfSome result (λ row. slice_get self.now place
            ≡ Some (row.0.now, row.1.now)) }
        ensures found { IsSome result ↔ (place < length self.now) }
    {
        self.rows.get_index(place)
    }

    /// How many enrollments there are on a condition, of all clients (ISO 9506-2,
    /// ReportEventConditionStatus-Response). The time doesn't grow with the table.
    pub fn number_on(&self, condition: &Key) -> u32
        ensures { result ≡ number_on condition.now self.now }
    {
        match self.groups.get(condition) {
            None => 0,
            Some(group) => group.as_slice().len() as u32,
        }
    }

    /// The names of enrollments of a scope that come after that one, which need not be there, in order of octets: the
    /// first `most` of them, and whether more are left (ISO 9506-2, GetNameList). The one refusal is want of memory.
    pub fn names_after(
        &self,
        alloc: Global,
        scope: &Scope,
        after: Option<&Identifier>,
        most: usize,
    ) -> Result<Names, Memory>
        ensures list { IfOk result (λ names. names.list
            ≡ take most (names_after scope.now (option_copied after.entry) self.now)) }
        ensures more { IfOk result (λ names. names.more
            ≡ nat_lt most (length (names_after scope.now (option_copied after.entry) self.now))) }
    {
        first_names(alloc, &self.rows, scope, after, most)
    }

    /// Whether some enrollment has a name of that scope. It takes no memory.
    #[tactic(auto, using(crate::proofs::Kept::any_key))]
    pub fn has_any_of(&self, scope: &Scope) -> bool
        ensures { result ≡ has_any_of scope.now self.now }
    {
        has_key_of(self.rows.keys().as_slice(), scope)
    }

    /// Puts an enrollment under a name that the table doesn't have: it is the last one. The one refusal is want of
    /// memory; then all is as before.
    pub(crate) fn put(&mut self, alloc: Global, key: Key, row: Enrolment) -> Result<(), Memory>
        requires new { lookup (key_eq key) self.old ≡ None }
        requires room { length self.old < 1024 }
        requires own { has_own_names (key, row) ≡ true }
        ensures placed { OnOk result (self.new ≡ self.old ++ (key, row) ∷ []) }
        ensures kept { OnErr result (self.new ≡ self.old) }
    {
        let member = Member {
            enrolment: key.copy(alloc)?,
            client: row.client,
            transitions: row.transitions,
        };
        self.rows.reserve(1)?;
        join(alloc, &mut self.groups, &row.condition, member)?;
        put_row(&mut self.rows, key, row);
        Ok(())
    }

    /// Takes out those that go. All others stay as they are, in their order. It takes no memory.
    pub(crate) fn take_out(&mut self, by: &Going<'_>)
        ensures { self.new ≡ filter (stays by.now) self.old }
    {
        leave(&mut self.groups, by);
        drop_rows(&mut self.rows, by);
    }

    /// A copy, with its rows in the same order. The one refusal is want of memory.
    pub fn copy(&self, alloc: Global) -> Result<Enrolments, Memory>
        ensures { IfOk result (λ copy. copy ≡ self.now) }
    {
        copied(alloc, &self.rows)
    }
}

/// Whether some key is of that scope.
fn has_key_of(keys: &[Key], scope: &Scope) -> bool
    ensures { result ≡ list_any (λ key. scope_eq key.scope scope.now) keys.now }
{
    keys.iter().any(|key| key.scope == *scope)
}

/// Whether a key is of the scope and its name comes after that one, where there is one.
fn is_listed(key: &Key, scope: &Scope, after: Option<&Identifier>) -> bool
    ensures { result ≡ is_listed scope.now (option_copied after.entry) key.now }
{
    key.scope == *scope && comes_after(after, &key.item)
}

/// Puts a row at the end, for which there is room.
fn put_row(rows: &mut IndexMap<Key, Enrolment>, key: Key, row: Enrolment)
    requires new { lookup (key_eq key) rows.old.entries ≡ None }
    requires room { 1 ≤ spare rows.old }
    ensures { rows.new.entries ≡ rows.old.entries ++ (key, row) ∷ [] }
{
    let Ok(_) = rows.insert(key, row) else {
        unreachable!()
    };
}

/// The rows that stay are left.
fn drop_rows(rows: &mut IndexMap<Key, Enrolment>, by: &Going<'_>)
    ensures { rows.new.entries ≡ filter (stays by.now) rows.old.entries }
{
    rows.retain(
        |key: &Key, row: &mut Enrolment| -> bool
            ensures { (result ≡ stays by.entry.now (key.now, row.old)) × (row.new ≡ row.old) }
        { !by.goes(key, row.client, &row.condition) },
    );
}

/// The names of rows of a scope that come after that one, in order of octets: the first `most` of them, and whether
/// more are left. The one refusal is want of memory.
fn first_names(
    alloc: Global,
    rows: &IndexMap<Key, Enrolment>,
    scope: &Scope,
    after: Option<&Identifier>,
    most: usize,
) -> Result<Names, Memory>
    ensures list { IfOk result (λ names. names.list
        ≡ take most (names_after scope.now (option_copied after.entry) rows.now.entries)) }
    ensures more { IfOk result (λ names. names.more
        ≡ nat_lt most (length (names_after scope.now (option_copied after.entry)
        rows.now.entries))) }
{
    let mut first = Vec::new(alloc);
    let mut count = 0usize;
    let mut left = rows.len();
    while left > 0 {
        left -= 1;
        let Some((key, _)) = rows.get_index(left) else {
            unreachable!()
        };
        if is_listed(key, scope, after) {
            put_name(&mut first, &key.item, most)?;
            count += 1;
        }
    }
    Ok(Names {
        list: copied_names(alloc, &first)?,
        more: most < count,
    })
}

/// The rows, copied, with their index. The one refusal is want of memory.
fn copied(alloc: Global, rows: &IndexMap<Key, Enrolment>) -> Result<Enrolments, Memory>
    requires few { length rows.now.entries ≤ 1024 }
    requires own { list_all has_own_names rows.now.entries ≡ true }
    ensures { IfOk result (λ copies. copies ≡ rows.now.entries) }
{
    let _distinct = rows.len();
    let mut copies = Enrolments::new(alloc);
    for (key, row) in rows.iter() {
        let key = key.copy(alloc)?;
        let row = row.copy(alloc)?;
        copies.put(alloc, key, row)?;
    }
    Ok(copies)
}

impl Drop for Enrolments {
    fn drop(self) {
        let Enrolments {
            rows: _rows,
            groups: _groups,
        } = self;
    }
}
