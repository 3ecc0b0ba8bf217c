//! Names in order of octets, of which only the first so many are wanted.
ghost use Rattle.std.specs.Prelude.{◌≡◌, ◌≤◌, ◌∷◌, ◌++◌, drop, IfOk, OnErr, OnOk, length, map, slice_get, take};
ghost use Rattle.domain_load.specs.Kept.{comes_before};
ghost use Rattle.std.specs.Option.{option_copied};
ghost use Rattle.object_names.specs.Listing.{comes_after, insert_name, sorted_names};

use mms_types::{Identifier, Identifiers, Memory};
use std::alloc::Global;

/// Whether the name at a place comes before that one. No where there are not as many.
fn comes_before(names: &[&Identifier], place: usize, name: &Identifier) -> bool
    ensures { result ≡ comes_before name.now (slice_get (map (λ name. name.now) names.now) place) }
{
    match names.get(place) {
        None => false,
        Some(other) => **other < *name,
    }
}

/// The place of a name among names in order: that of the first that doesn't come before it.
fn place_of(names: &[&Identifier], name: &Identifier) -> usize
    ensures within { result ≤ length names.now }
    ensures place { insert_name name.now (map (λ name. name.now) names.now)
        ≡ take result (map (λ name. name.now) names.now)
        ++ name.now ∷ drop result (map (λ name. name.now) names.now) }
{
    let mut place = 0;
    while comes_before(names, place, name) {
        place += 1;
    }
    place
}

/// Puts a name at its place among names in order of octets, of which the first so many stay. The one refusal is want of
/// memory; then the names are as before.
pub fn put_name<'a>(
    names: &mut Vec<&'a Identifier>,
    name: &'a Identifier,
    most: usize,
) -> Result<(), Memory>
    ensures placed { OnOk result (map (λ name. name.now) names.new.items
        ≡ take most (insert_name name.now (map (λ name. name.now) names.old.items))) }
    ensures kept { OnErr result (map (λ name. name.now) names.new.items
        ≡ map (λ name. name.now) names.old.items) }
{
    let place = place_of(names, name);
    names.insert(place, name)?;
    names.truncate(most);
    Ok(())
}

/// Names, copied, in their order. The one refusal is want of memory.
pub fn copied_names(alloc: Global, names: &[&Identifier]) -> Result<Identifiers, Memory>
    ensures { IfOk result (λ copies. copies ≡ map (λ name. name.now) names.now) }
{
    let mut copies = Identifiers::new(alloc);
    for name in names {
        copies.push(name.copy(alloc)?)?;
    }
    Ok(copies)
}

/// The names in order of octets, copied.
pub(crate) fn in_order(alloc: Global, names: &[Identifier]) -> Result<Identifiers, Memory>
    ensures { IfOk result (λ sorted. sorted ≡ sorted_names names.now) }
{
    let mut sorted = Vec::new(alloc);
    let mut left = names.len();
    while left > 0 {
        left -= 1;
        put_name(&mut sorted, &names[left], names.len())?;
    }
    copied_names(alloc, &sorted)
}

/// Whether a name comes after that one, where there is one.
pub fn comes_after(after: Option<&Identifier>, name: &Identifier) -> bool
    ensures { result ≡ comes_after (option_copied after.entry) name.now }
{
    match after {
        None => true,
        Some(before) => *before < *name,
    }
}
