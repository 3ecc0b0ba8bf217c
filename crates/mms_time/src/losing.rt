//! The loss of a client.

ghost use Rattle.std.specs.Prelude.{◌≡◌, IfOk, OnErr, OnOk, Some, false, map, true};
ghost use Rattle.std.specs.List.{list_any};
ghost use Rattle.std.specs.Map.{keys_of, lookup};
ghost use Rattle.mms_types.specs.Moments.{IsDated};
ghost use Rattle.mms_types.specs.Order.{key_eq};
ghost use Rattle.token_sem.specs.Semaphore.{owned_by};
ghost use Rattle.mms_time.specs.Semaphores.{changed_row, entries_of};
ghost use Rattle.mms_time.specs.Loss.{all_changed, grants_of, grants_of_each, keyed, left_rows, lost, lost_grants, owned_rows, owns_any, semaphore_without, sorted_keys};

use crate::{Semaphore, SemaphoreRow, Semaphores};
use mms_types::{Key, Memory, Moment, Scope};
use object_names::Copied;
use std::alloc::Global;
use token_sem::Grant;

/// Names in order.
#[tactic(auto, using(crate::proofs::KeyOrder::sort_gives))]
fn in_order<'a>(mut keys: Vec<&'a Key>) -> Vec<&'a Key>
    ensures { map (λ key. key.now) result.items
        ≡ sorted_keys (map (λ key. key.now) keys.entry.items) }
{
    keys.sort_unstable();
    keys
}

/// The names of the semaphores of which the client owns a token.
fn owned_keys<'a>(
    alloc: Global,
    semaphores: &'a Semaphores,
    client: u32,
) -> Result<Vec<&'a Key>, Memory>
    ensures { IfOk result (λ keys.
        map (λ key. key.now) keys.items ≡ keys_of (owned_rows client semaphores.now)) }
{
    let mut keys = Vec::new(alloc);
    for place in 0..semaphores.len() {
        let Some((key, row)) = semaphores.at(place) else {
            unreachable!()
        };
        if row.owns(client) {
            keys.push(key)?;
        }
    }
    Ok(keys)
}

impl SemaphoreRow {
    /// Who is granted a token where a client is lost.
    #[tactic(auto, using(crate::proofs::Unowned::none_granted, crate::proofs::Unowned::none_granted_in))]
    fn grants(&self, alloc: Global, client: u32, now: Moment) -> Result<Vec<Grant>, Memory>
        requires { IsDated now }
        ensures { IfOk result (λ grants. grants.items ≡ grants_of client now (Some self.now)) }
    {
        match &self.semaphore {
            Semaphore::Token(tokens) => {
                if !tokens.owns(client) {
                    return Ok(Vec::new(alloc));
                }
                let mut left = tokens.copy(alloc)?;
                left.lose(alloc, client, now)
            }
            Semaphore::Pool(pool) => {
                if !pool.owns(client) {
                    return Ok(Vec::new(alloc));
                }
                let mut left = pool.copy(alloc)?;
                left.lose(alloc, client, now)
            }
        }
    }

    /// A client is lost, of this semaphore alone (ISO 9506-1, TakeControl, relinquishIfConnectionLost): its queued
    /// entries go; then each of its owner entries, in order of number, becomes hung where its token is kept, and else
    /// goes, and its token is granted to the entry that is served next, or is free. Who is granted a token is told in
    /// that order. The one refusal is want of memory, only where the client owns a token; then all is as before.
    pub fn lose(&mut self, alloc: Global, client: u32, now: Moment) -> Result<Vec<Grant>, Memory>
        requires { IsDated now }
        ensures grants { IfOk result (λ grants.
            grants.items ≡ grants_of client now (Some self.old)) }
        ensures lost { OnOk result (self.new
            ≡ changed_row (semaphore_without client now) self.old) }
        ensures kept { OnErr result (self.new ≡ self.old) }
        ensures wants { OnErr result (list_any (owned_by client) (entries_of self.old) ≡ true) }
    {
        match &mut self.semaphore {
            Semaphore::Token(tokens) => tokens.lose(alloc, client, now),
            Semaphore::Pool(pool) => pool.lose(alloc, client, now),
        }
    }
}

/// Whether the client owns a token of any of the semaphores.
fn owns_any(semaphores: &Semaphores, client: u32) -> bool
    ensures { result ≡ owns_any client semaphores.now }
{
    for place in 0..semaphores.len() {
        let Some((_, row)) = semaphores.at(place) else {
            unreachable!()
        };
        if row.owns(client) {
            return true;
        }
    }
    false
}

/// Who is granted a token in the semaphore of that name where a client is lost.
fn grants_at(
    alloc: Global,
    semaphores: &Semaphores,
    key: &Key,
    client: u32,
    now: Moment,
) -> Result<Vec<Grant>, Memory>
    requires { IsDated now }
    ensures { IfOk result (λ grants.
        grants.items ≡ grants_of client now (lookup (key_eq key.now) semaphores.now)) }
{
    match semaphores.get(key) {
        None => Ok(Vec::new(alloc)),
        Some(row) => row.grants(alloc, client, now),
    }
}

/// Grants with the name of their semaphore, copied.
fn keyed(alloc: Global, key: &Key, grants: &[Grant]) -> Result<Vec<(Key, Grant)>, Memory>
    ensures { IfOk result (λ all. all.items ≡ keyed key.now grants.now) }
{
    let mut all = Vec::new(alloc);
    for grant in grants {
        all.push((key.copy(alloc)?, *grant))?;
    }
    Ok(all)
}

/// Who is granted a token where a client is lost, by name of semaphore and number of the client's entry.
fn grants_of_each(
    alloc: Global,
    semaphores: &Semaphores,
    client: u32,
    now: Moment,
) -> Result<Vec<(Key, Grant)>, Memory>
    requires { IsDated now }
    ensures { IfOk result (λ grants. grants.items ≡ grants_of_each client now semaphores.now) }
{
    let _rows = semaphores.len();
    let keys = in_order(owned_keys(alloc, semaphores, client)?);
    let mut grants = Vec::new(alloc);
    for key in &keys {
        let here = grants_at(alloc, semaphores, *key, client, now)?;
        let mut more = keyed(alloc, *key, &here)?;
        grants.append(&mut more)?;
    }
    Ok(grants)
}

/// Who is granted a token where a client is lost, each with the name of the semaphore, by that name and the number of
/// the client's entry. Nothing changes yet. Memory is wanted only where the client owns a token.
#[tactic(auto, using(crate::proofs::Unowned::none_told))]
pub fn lose_told(
    alloc: Global,
    semaphores: &Semaphores,
    client: u32,
    now: Moment,
) -> Result<Vec<(Key, Grant)>, Memory>
    requires { IsDated now }
    ensures told { IfOk result (λ grants. grants.items ≡ lost_grants client now semaphores.now) }
    ensures wants { OnErr result (owns_any client semaphores.now ≡ true) }
{
    if !owns_any(semaphores, client) {
        return Ok(Vec::new(alloc));
    }
    let grants = grants_of_each(alloc, semaphores, client, now)?;
    Ok(grants)
}

/// The semaphores of which the client owns a token, copied, when they have lost it.
fn left_rows(
    alloc: Global,
    semaphores: &Semaphores,
    client: u32,
    now: Moment,
) -> Result<Vec<SemaphoreRow>, Memory>
    requires { IsDated now }
    ensures { IfOk result (λ left. left.items ≡ left_rows client now semaphores.now) }
{
    let mut left = Vec::new(alloc);
    for place in 0..semaphores.len() {
        let Some((_, row)) = semaphores.at(place) else {
            unreachable!()
        };
        if row.owns(client) {
            let mut copy = row.copied(alloc)?;
            copy.lose(alloc, client, now)?;
            left.push(copy)?;
        }
    }
    Ok(left)
}

impl SemaphoreRow {
    /// A client is lost that owns no token. It takes no memory.
    fn lose_waiter(&mut self, alloc: Global, client: u32, now: Moment)
        requires now { IsDated now }
        requires unowned { list_any (owned_by client) (entries_of self.old) ≡ false }
        ensures { self.new ≡ changed_row (semaphore_without client now) self.old }
    {
        let Ok(_grants) = self.lose(alloc, client, now) else {
            unreachable!()
        };
    }
}

/// Each semaphore loses a client: those of which it owns a token are put in place as they are left, and the others lose
/// what waits. It takes no memory.
fn lose_each(
    alloc: Global,
    semaphores: &mut Semaphores,
    client: u32,
    now: Moment,
    left: Vec<SemaphoreRow>,
)
    requires now { IsDated now }
    requires left { left.items ≡ left_rows client now semaphores.old }
    ensures { semaphores.new ≡ all_changed (semaphore_without client now) semaphores.old }
{
    let mut left = left.into_iter();
    for place in 0..semaphores.len() {
        let Some(row) = semaphores.at_mut(place) else {
            unreachable!()
        };
        if row.owns(client) {
            let Some(new) = left.next() else {
                unreachable!()
            };
            *row = new;
        } else {
            row.lose_waiter(alloc, client, now);
        }
    }
}

/// A client is lost, where those semaphores are there as they are left of which it owns a token. It takes no memory.
fn lose_with(
    alloc: Global,
    semaphores: &mut Semaphores,
    client: u32,
    now: Moment,
    left: Vec<SemaphoreRow>,
)
    requires now { IsDated now }
    requires left { left.items ≡ left_rows client now semaphores.old }
    ensures { semaphores.new ≡ lost client now semaphores.old }
{
    lose_each(alloc, semaphores, client, now, left);
    semaphores.remove_all_of(&Scope::Association(client));
}

#[tactic(auto, using(crate::proofs::Unowned::none_told, crate::proofs::Owned::none_left))]
/// A client is lost (ISO 9506-1, TakeControl, relinquishIfConnectionLost): its queued entries go; then each of its
/// owner entries becomes hung where its token is kept, and else goes, and its token is granted to the entry that is
/// served next, or is free; then the semaphores of its association go. Who is granted a token is told with the name of
/// its semaphore, by that name and the number of the client's entry. Those semaphores alone are copied of which the
/// client owns a token. The one refusal is want of memory, only where it owns one; then all is as before.
pub fn lose(
    alloc: Global,
    semaphores: &mut Semaphores,
    client: u32,
    now: Moment,
) -> Result<Vec<(Key, Grant)>, Memory>
    requires { IsDated now }
    ensures grants { IfOk result (λ grants. grants.items ≡ lost_grants client now semaphores.old) }
    ensures lost { OnOk result (semaphores.new ≡ lost client now semaphores.old) }
    ensures kept { OnErr result (semaphores.new ≡ semaphores.old) }
    ensures wants { OnErr result (owns_any client semaphores.old ≡ true) }
{
    if !owns_any(semaphores, client) {
        lose_with(alloc, semaphores, client, now, Vec::new(alloc));
        return Ok(Vec::new(alloc));
    }
    let grants = grants_of_each(alloc, semaphores, client, now)?;
    let left = left_rows(alloc, semaphores, client, now)?;
    lose_with(alloc, semaphores, client, now, left);
    Ok(grants)
}
