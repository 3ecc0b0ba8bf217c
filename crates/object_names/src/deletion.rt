//! Deletion of names: which a request selects, and how many rows of a table have them.
ghost use Rattle.std.specs.Prelude.{◌≡◌, ◌≤◌, Bool, not, true, IfOk, length};
ghost use Rattle.object_names.specs.Deletion.{deleted, goes, is_listed_by, left, matched, selects};
ghost use Rattle.std.specs.Map.{lookup};
ghost use Rattle.mms_types.specs.Order.{key_eq};
ghost use Rattle.object_names.specs.Borrowed.{key_meant};
ghost use Rattle.object_names.specs.Selected.{deleted_by, is_among, matched_by, selected};

use crate::Named;
use crate::borrowed::{KeyRef, ScopeRef};
use crate::copying::each_name_stands_once;
use crate::index::{Keeps, has_any_of, leave};
use indexmap::IndexSet;
use mms_types::{DeleteNames, DeleteScope, Deleted, Key, Memory, ObjectName};
use std::alloc::Global;

/// The names that a deletion selects.
#[derive(Drop)]
pub enum Selection<'a> {
    /// These.
    Names(IndexSet<KeyRef<'a>>),
    /// All of that scope.
    Scope(ScopeRef<'a>),
    /// None.
    Nothing,
}

#[tactic(auto, using(crate::proofs::Listed::listed_more))]
/// The names that a client gives, each once.
fn listed<'a>(
    alloc: Global,
    client: u32,
    names: &'a [ObjectName],
) -> Result<IndexSet<KeyRef<'a>>, Memory>
    ensures { IfOk result (λ set. is_among set.keys ≡ is_listed_by client names.now) }
{
    let mut set = IndexSet::new(alloc);
    for name in names {
        set.insert(KeyRef::of(client, name))?;
    }
    Ok(set)
}

impl<'a> Selection<'a> {
    /// These names, as a client gives them. The one refusal is want of memory.
    pub fn of_names(
        alloc: Global,
        client: u32,
        names: &'a [ObjectName],
    ) -> Result<Selection<'a>, Memory>
        ensures { IfOk result (λ selection. selected selection ≡ is_listed_by client names.now) }
    {
        Ok(Selection::Names(listed(alloc, client, names)?))
    }

    /// The names that a client's request selects.
    pub fn of(alloc: Global, client: u32, asked: &'a DeleteNames) -> Result<Selection<'a>, Memory>
        ensures { IfOk result (λ selection. selected selection ≡ selects client asked.now) }
    {
        match asked.scope {
            DeleteScope::Specific => match &asked.names {
                Some(names) => Selection::of_names(alloc, client, names.as_slice()),
                None => Ok(Selection::Nothing),
            },
            DeleteScope::Association => Ok(Selection::Scope(ScopeRef::Association(client))),
            DeleteScope::Domain => match &asked.domain {
                Some(domain) => Ok(Selection::Scope(ScopeRef::Domain(domain))),
                None => Ok(Selection::Nothing),
            },
            DeleteScope::Vmd => Ok(Selection::Scope(ScopeRef::Vmd)),
        }
    }

    /// Whether the name is among them. The time does not grow with how many there are.
    pub fn has(&self, key: &Key) -> bool
        ensures { result ≡ selected self.entry.now key.now }
    {
        match self {
            Selection::Names(names) => names.contains(key),
            Selection::Scope(scope) => scope.is(&key.scope),
            Selection::Nothing => false,
        }
    }
}

/// A row of a table, of which some can't be deleted.
pub trait Deletable: Drop {
    ghost is_fixed: { Self → Bool };

    /// Whether it can't be deleted.
    fn is_fixed(&self) -> bool
        ensures { result ≡ is_fixed self.now };
}

/// The rows that a selection doesn't have, or that can't be deleted.
#[derive(Drop)]
struct Unselected<'a, 'b> {
    selection: &'a Selection<'b>,
}

impl<'a, 'b, T: Deletable> Keeps<T> for Unselected<'a, 'b> {
    ghost stays = { λ by row. not (goes T.is_fixed (selected by.selection.now) row) };

    fn stays(&self, key: &Key, value: &T) -> bool {
        !self.selection.has(key) || value.is_fixed()
    }
}

impl<T: Deletable> Named<T> {
    /// How many rows have the name, which is one at most, and how many of them can be deleted.
    fn count_one(&self, name: KeyRef<'_>) -> Deleted
        ensures matched { result.matched
            ≡ matched_by (lookup (key_eq (key_meant name.entry)) self.now) }
        ensures deleted { result.deleted
            ≡ deleted_by T.is_fixed (lookup (key_eq (key_meant name.entry)) self.now) }
    {
        match self.rows.get(name) {
            None => Deleted {
                matched: 0,
                deleted: 0,
            },
            Some(value) => Deleted {
                matched: 1,
                deleted: if value.is_fixed() { 0 } else { 1 },
            },
        }
    }

    /// How many rows have one of the names, and how many of them can be deleted: each name is looked up, so the time does
    /// not grow with the table.
    fn count_named(&self, names: &IndexSet<KeyRef<'_>>) -> Deleted
        requires { length self.now ≤ 4294967295 }
        ensures matched { result.matched ≡ matched (is_among names.now.keys) self.now }
        ensures deleted { result.deleted ≡ deleted T.is_fixed (is_among names.now.keys) self.now }
    {
        each_name_stands_once(self);
        let mut counts = Deleted {
            matched: 0,
            deleted: 0,
        };
        for place in 0..names.len() {
            let Some(name) = names.get_index(place) else {
                unreachable!()
            };
            let here = self.count_one(*name);
            counts.matched += here.matched;
            counts.deleted += here.deleted;
        }
        counts
    }

    /// How many rows have a name of the selection, and how many of them can be deleted. Where names are listed each is
    /// looked up; else the table is gone through, where it has a name of the scope.
    pub fn count(&self, selection: &Selection<'_>) -> Deleted
        requires { length self.now ≤ 4294967295 }
        ensures matched { result.matched ≡ matched (selected selection.entry.now) self.now }
        ensures deleted { result.deleted
            ≡ deleted T.is_fixed (selected selection.entry.now) self.now }
    {
        if let Selection::Names(names) = selection {
            return self.count_named(names);
        }
        if let Selection::Scope(scope) = selection {
            if !has_any_of(&self.rows, &self.places, *scope) {
                return Deleted {
                    matched: 0,
                    deleted: 0,
                };
            }
        }
        let mut counts = Deleted {
            matched: 0,
            deleted: 0,
        };
        for (key, value) in self.rows.iter() {
            if selection.has(key) {
                counts.matched += 1;
                if !value.is_fixed() {
                    counts.deleted += 1;
                }
            }
        }
        counts
    }

    /// Whether no row with one of the names can be deleted: each name is looked up.
    fn keeps_named(&self, names: &IndexSet<KeyRef<'_>>) -> bool
        ensures { result ≡ true → deleted T.is_fixed (is_among names.now.keys) self.now ≡ 0 }
    {
        each_name_stands_once(self);
        for place in 0..names.len() {
            let Some(name) = names.get_index(place) else {
                unreachable!()
            };
            if self.count_one(*name).deleted > 0 {
                return false;
            }
        }
        true
    }

    /// Takes the rows out that have a name of the selection and can be deleted. All others stay as they are, in their
    /// order. Where names are listed of which none can be deleted, or a scope is selected of which there is no name, the
    /// table isn't gone through. It takes no memory.
    pub fn delete(&mut self, selection: &Selection<'_>)
        ensures { self.new ≡ left T.is_fixed (selected selection.entry.now) self.old }
    {
        if let Selection::Names(names) = selection {
            if self.keeps_named(names) {
                return;
            }
        }
        if let Selection::Scope(scope) = selection {
            if !has_any_of(&self.rows, &self.places, *scope) {
                return;
            }
        }
        self.take_out(selection);
    }

    /// Takes out the rows that are selected and may go, in one pass over the table.
    fn take_out(&mut self, selection: &Selection<'_>)
        ensures { self.new ≡ left T.is_fixed (selected selection.entry.now) self.old }
    {
        leave(
            &self.rows,
            &mut self.places,
            &mut self.ranks,
            &Unselected { selection },
        );
        self.rows.retain(
            |key: &Key, value: &mut T| -> bool
                ensures { (result ≡ not (goes T.is_fixed (selected selection.entry.now)
                    (key.now, value.old))) × (value.new ≡ value.old) }
            { !selection.has(key) || value.is_fixed() },
        );
    }
}
