//! The index of a table: the places of its rows in order of their names. Names of one scope stand side by side there.
ghost use Rattle.std.specs.Prelude.{◌≡◌, ◌≤◌, ◌<◌, ◌+◌, ◌-◌, if◌then◌else◌, Bool, true, not, IfOk, length, map, filter, nat_eq, nat_lt, slice_get, slice_index_or, take};
ghost use Rattle.std.specs.Map.{keys_of};
ghost use Rattle.std.specs.Option.{option_copied};
ghost use Rattle.mms_types.specs.Order.{scope_order};
ghost use Rattle.object_names.specs.Borrowed.{scope_meant};
ghost use Rattle.object_names.specs.Index.{AreRanks, IsIndexOf, IsSplit, is_front, is_front_at, key_at};
ghost use Rattle.object_names.specs.Listing.{names_after};
ghost use Rattle.object_names.specs.Scopes.{has_any_of};

use crate::Names;
use crate::borrowed::ScopeRef;
use indexmap::IndexMap;
use mms_types::{Identifier, Identifiers, Key, Memory, Scope};
use std::alloc::Global;
use std::cmp::Ordering;

impl<'a> ScopeRef<'a> {
    /// That scope, borrowed.
    pub(crate) fn of(scope: &'a Scope) -> ScopeRef<'a>
        ensures { scope_meant result ≡ scope.now }
    {
        match scope {
            Scope::Vmd => ScopeRef::Vmd,
            Scope::Domain(domain) => ScopeRef::Domain(domain),
            Scope::Association(client) => ScopeRef::Association(*client),
        }
    }

    /// Where another scope stands beside this one.
    fn beside(self, other: &Scope) -> Ordering
        ensures { result ≡ scope_order other.now (scope_meant self.entry) }
    {
        match (other, self) {
            (Scope::Vmd, ScopeRef::Vmd) => Ordering::Equal,
            (Scope::Vmd, _) => Ordering::Less,
            (_, ScopeRef::Vmd) => Ordering::Greater,
            (Scope::Domain(domain), ScopeRef::Domain(own)) => domain.cmp(own),
            (Scope::Domain(_), ScopeRef::Association(_)) => Ordering::Less,
            (Scope::Association(_), ScopeRef::Domain(_)) => Ordering::Greater,
            (Scope::Association(client), ScopeRef::Association(own)) => client.cmp(&own),
        }
    }
}

/// Whether a key stands in front of the names of the scope that come after that one.
fn is_front(key: &Key, scope: ScopeRef<'_>, after: Option<&Identifier>) -> bool
    ensures { result ≡ is_front (scope_meant scope.entry) (option_copied after.entry) key.now }
{
    match scope.beside(&key.scope) {
        Ordering::Less => true,
        Ordering::Greater => false,
        Ordering::Equal => match after {
            None => false,
            Some(before) => !(*before < key.item),
        },
    }
}

/// Whether the row at a place does.
fn is_front_at<T: Drop>(
    rows: &IndexMap<Key, T>,
    place: usize,
    scope: ScopeRef<'_>,
    after: Option<&Identifier>,
) -> bool
    ensures { result ≡ is_front_at (is_front (scope_meant scope.entry) (option_copied after.entry))
        (slice_get (keys_of rows.now.entries) place) }
{
    match rows.get_index(place) {
        None => false,
        Some((key, _)) => is_front(key, scope, after),
    }
}

/// How many names of an index stand in front of the names of the scope that come after that one.
pub(crate) fn first_place<T: Drop>(
    rows: &IndexMap<Key, T>,
    places: &[usize],
    scope: ScopeRef<'_>,
    after: Option<&Identifier>,
) -> usize
    requires { IsIndexOf (keys_of rows.now.entries) places.now }
    ensures within { result ≤ length places.now }
    ensures split { IsSplit (is_front (scope_meant scope.entry) (option_copied after.entry))
        (map (key_at (keys_of rows.now.entries)) places.now) result }
{
    places.partition_point(|place| is_front_at(rows, *place, scope, after))
}

/// Whether any row has a name of that scope.
pub(crate) fn has_any_of<T: Drop>(
    rows: &IndexMap<Key, T>,
    places: &[usize],
    scope: ScopeRef<'_>,
) -> bool
    requires { IsIndexOf (keys_of rows.now.entries) places.now }
    ensures { result ≡ has_any_of (scope_meant scope.entry) rows.now.entries }
{
    let first = first_place(rows, places, scope, None);
    if first >= places.len() {
        return false;
    }
    match rows.get_index(places[first]) {
        None => false,
        Some((key, _)) => scope.is(&key.scope),
    }
}

/// The names of a scope that come after that one, in order of octets: the first `most` of them, and whether more are
/// left. The one refusal is want of memory.
pub(crate) fn names_after<T: Drop>(
    alloc: Global,
    rows: &IndexMap<Key, T>,
    places: &[usize],
    scope: ScopeRef<'_>,
    after: Option<&Identifier>,
    most: usize,
) -> Result<Names, Memory>
    requires { IsIndexOf (keys_of rows.now.entries) places.now }
    ensures list { IfOk result (λ names. names.list
        ≡ take most
        (names_after (scope_meant scope.entry) (option_copied after.entry) rows.now.entries)) }
    ensures more { IfOk result (λ names. names.more
        ≡ nat_lt most (length (names_after (scope_meant scope.entry) (option_copied after.entry)
        rows.now.entries))) }
{
    let mut list = Identifiers::new(alloc);
    let first = first_place(rows, places, scope, after);
    for at in first..places.len() {
        let Some((key, _)) = rows.get_index(places[at]) else {
            unreachable!()
        };
        if !scope.is(&key.scope) {
            return Ok(Names { list, more: false });
        }
        if list.len() >= most {
            return Ok(Names { list, more: true });
        }
        list.push(key.item.copy(alloc)?)?;
    }
    Ok(Names { list, more: false })
}

/// Which rows stay.
pub(crate) trait Keeps<T: Drop> {
    ghost use Rattle.mms_types.specs.declared.key.Key.{Key};

    ghost stays: { Self → Key × T → Bool };

    /// Whether a row stays.
    fn stays(&self, key: &Key, value: &T) -> bool
        ensures { result ≡ stays self.now (key.now, value.now) };
}

/// One more than so many, where it stays.
fn counted(kept: usize, stays: bool) -> usize
    requires { kept < 9223372036854775808 }
    ensures { result ≡ kept + (if stays then 1 else 0) }
{
    if stays { kept + 1 } else { kept }
}

/// The rank of a row: how many stay up to it, where it does, and else 0.
fn ranked(kept: usize, stays: bool) -> usize
    ensures { result ≡ (if stays then kept else 0) }
{
    if stays { kept } else { 0 }
}

/// Numbers the rows that stay from 1, in their order, and those that go by 0.
fn rank<T: Drop, K: Keeps<T>>(rows: &IndexMap<Key, T>, by: &K, ranks: &mut Vec<usize>)
    requires { length rows.now.entries ≤ length ranks.old.items }
    ensures ranks { AreRanks (K.stays by.now) rows.now.entries ranks.new.items }
    ensures len { length ranks.new.items ≡ length ranks.old.items }
{
    let mut kept = 0usize;
    for place in 0..rows.len() {
        let Some((key, value)) = rows.get_index(place) else {
            unreachable!()
        };
        let stays = by.stays(key, value);
        kept = counted(kept, stays);
        ranks[place] = ranked(kept, stays);
    }
}

/// The rank at a place, and 0 where there is none.
fn rank_at(ranks: &[usize], place: usize) -> usize
    ensures { result ≡ slice_index_or ranks.now place 0 }
{
    match ranks.get(place) {
        None => 0,
        Some(rank) => *rank,
    }
}

/// Takes the places of rows out that go, which have the rank 0.
fn drop_unranked(places: &mut Vec<usize>, ranks: &[usize])
    ensures { places.new.items
        ≡ filter (λ place. not (nat_eq (slice_index_or ranks.now place 0) 0)) places.old.items }
{
    places.retain(|place| rank_at(ranks, *place) != 0);
}

/// Numbers the places by the ranks of their rows, from 0.
fn renumber(places: &mut Vec<usize>, ranks: &[usize])
    ensures { places.new.items
        ≡ map (λ place. slice_index_or ranks.now place 0 - 1) places.old.items }
{
    for at in 0..places.len() {
        places[at] = rank_at(ranks, places[at]).saturating_sub(1);
    }
}

/// Makes the index that of the rows that stay. It takes no memory.
pub(crate) fn leave<T: Drop, K: Keeps<T>>(
    rows: &IndexMap<Key, T>,
    places: &mut Vec<usize>,
    ranks: &mut Vec<usize>,
    by: &K,
)
    requires index { IsIndexOf (keys_of rows.now.entries) places.old.items }
    requires room { length rows.now.entries ≤ length ranks.old.items }
    ensures len { length ranks.new.items ≡ length ranks.old.items }
    ensures index { IsIndexOf
        (keys_of (filter (K.stays by.now) rows.now.entries)) places.new.items }
{
    rank(rows, by, ranks);
    let numbers = ranks.as_slice();
    drop_unranked(places, numbers);
    renumber(places, numbers);
}
