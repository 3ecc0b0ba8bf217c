//! A client is lost on drafts, of which there are as many as it has entries in.

ghost use Rattle.std.specs.Prelude.{◌≡◌, ◌++◌, ◌≤◌, All, false, IfOk, length, map, OnOk, Some, true};
ghost use Rattle.std.specs.List.{list_any};
ghost use Rattle.mms_types.specs.Moments.{IsDated};
ghost use Rattle.mms_types.specs.Order.{key_eq};
ghost use Rattle.mms_types.specs.declared.key.Scope.TheVariants.{Association};
ghost use Rattle.object_names.specs.Scopes.{has_any_of};
ghost use Rattle.mms_time.specs.Loss.{grants_of, lost};
ghost use Rattle.sem_ticks.specs.Drafts.{become, drafted, AreDrafts, KeepsLeast};
ghost use Rattle.sem_ticks.specs.Losing.{draft_told, drafts_told, granted_by, has_entry, names_before, with_draft, AreLost, HasNone, IsLost};
ghost use Rattle.sem_ticks.specs.Ticks.{abort_told};

use crate::drafts::{Draft, draft_of};
use crate::granted::Granted;
use crate::ticks::Happening;
use mms_time::{SemaphoreRow, Semaphores};
use mms_types::{Key, Memory, Moment};
use std::alloc::Global;
use token_sem::Grant;

/// Whether the client has an entry of the semaphore.
fn has_entry(row: &SemaphoreRow, client: u32) -> bool
    ensures { result ≡ has_entry client row.now }
{
    row.entries().iter().any(|entry| entry.client == client)
}

/// Whether a draft has that name.
fn is_named(drafts: &[Draft<'_>], key: &Key) -> bool
    ensures { result ≡ list_any (λ d. key_eq key.now d.key.now) drafts.now }
{
    drafts.iter().any(|draft| key == draft.key)
}

/// How many of the first drafts have names that come before that one.
fn names_before(drafts: &[Draft<'_>], key: &Key) -> usize
    ensures number { result ≡ names_before key.now drafts.now }
    ensures within { result ≤ length drafts.now }
{
    let mut before = 0;
    while before < drafts.len() && drafts[before].key.cmp(key).is_lt() {
        before += 1;
    }
    before
}

/// One draft more, at the place of its name.
fn insert_draft<'a>(drafts: &mut Vec<Draft<'a>>, draft: Draft<'a>) -> Result<(), Memory>
    ensures { OnOk result (drafts.new.items ≡ with_draft draft.entry drafts.old.items) }
{
    let place = names_before(drafts, draft.key);
    drafts.insert(place, draft)?;
    Ok(())
}

/// Has the semaphores among the drafts of which the client has an entry.
fn draft_those_of<'a>(
    alloc: Global,
    semaphores: &'a Semaphores,
    drafts: &mut Vec<Draft<'a>>,
    until: Moment,
    client: u32,
) -> Result<(), Memory>
    requires { AreDrafts until semaphores.now drafts.old.items }
    ensures drafts { OnOk result (AreDrafts until semaphores.now drafts.new.items) }
    ensures same { OnOk result (become (drafted drafts.new.items) semaphores.now
        ≡ become (drafted drafts.old.items) semaphores.now) }
    ensures none { OnOk result (HasNone client semaphores.now drafts.new.items) }
{
    let _until = until;
    for place in 0..semaphores.len() {
        let Some((key, row)) = semaphores.at(place) else {
            unreachable!()
        };
        if has_entry(row, client) && !is_named(drafts, key) {
            insert_draft(drafts, draft_of(alloc, semaphores, key, place)?)?;
        }
    }
    Ok(())
}

impl Draft<'_> {
    /// A client is lost.
    fn lose(&mut self, alloc: Global, client: u32, now: Moment) -> Result<Vec<Grant>, Memory>
        requires { IsDated now }
        ensures grants { IfOk result (λ grants.
            grants.items ≡ grants_of client now (Some self.old.row)) }
        ensures lost { OnOk result (IsLost client now self.old self.new) }
    {
        let grants = self.row.lose(alloc, client, now)?;
        self.due = self.row.deadline();
        Ok(grants)
    }
}

/// A grant in a draft, with what is answered.
pub(crate) fn granted_in(alloc: Global, draft: &Draft<'_>, grant: &Grant) -> Result<Granted, Memory>
    ensures { IfOk result (λ told. told ≡ granted_by draft.now.row.semaphore grant.now) }
{
    Ok(Granted {
        client: grant.client,
        invoke: grant.invoke,
        answer: draft.row.grant_answer(alloc, grant)?,
    })
}

/// Tells who is granted a token in a draft.
fn tell_grants_in(
    alloc: Global,
    draft: &Draft<'_>,
    happened: &mut Vec<Happening>,
    grants: &[Grant],
) -> Result<(), Memory>
    ensures { OnOk result (happened.new.items ≡ happened.old.items
        ++ map Happening.Grants (map (granted_by draft.now.row.semaphore) grants.now)) }
{
    for grant in grants {
        let told = granted_in(alloc, draft, grant)?;
        happened.push(Happening::Grants(told))?;
    }
    Ok(())
}

/// The draft loses the client, and who is granted a token is told.
fn lose_draft(
    alloc: Global,
    draft: &mut Draft<'_>,
    happened: &mut Vec<Happening>,
    client: u32,
    now: Moment,
) -> Result<(), Memory>
    requires dated { IsDated now }
    requires least { KeepsLeast draft.old }
    ensures lost { OnOk result (IsLost client now draft.old draft.new) }
    ensures told { OnOk result (happened.new.items
        ≡ happened.old.items ++ map Happening.Grants (draft_told client now draft.old)) }
{
    if !has_entry(&draft.row, client) {
        return Ok(());
    }
    let grants = draft.lose(alloc, client, now)?;
    tell_grants_in(alloc, draft, happened, &grants)
}

/// Each draft loses the client, and who is granted a token is told, in order of the names.
fn lose_drafts(
    alloc: Global,
    drafts: &mut Vec<Draft<'_>>,
    happened: &mut Vec<Happening>,
    client: u32,
    now: Moment,
) -> Result<(), Memory>
    requires dated { IsDated now }
    requires least { All KeepsLeast drafts.old.items }
    ensures lost { OnOk result (AreLost client now drafts.old.items drafts.new.items) }
    ensures told { OnOk result (happened.new.items
        ≡ happened.old.items ++ map Happening.Grants (drafts_told client now drafts.old.items)) }
{
    for place in 0..drafts.len() {
        lose_draft(alloc, &mut drafts[place], happened, client, now)?;
    }
    Ok(())
}

/// Aborts the association of a client, of which no semaphores are: it is lost. Those semaphores come to the drafts of
/// which it has an entry.
pub(crate) fn abort_in<'a>(
    alloc: Global,
    semaphores: &'a Semaphores,
    drafts: &mut Vec<Draft<'a>>,
    happened: &mut Vec<Happening>,
    until: Moment,
    client: u32,
    now: Moment,
) -> Result<(), Memory>
    requires drafts { AreDrafts until semaphores.now drafts.old.items }
    requires dated { IsDated now }
    requires scope { has_any_of (Association client) semaphores.now ≡ false }
    ensures drafts { OnOk result (AreDrafts until semaphores.now drafts.new.items) }
    ensures lost { OnOk result (become (drafted drafts.new.items) semaphores.now
        ≡ lost client now (become (drafted drafts.old.items) semaphores.now)) }
    ensures told { OnOk result (happened.new.items ≡ happened.old.items
        ++ abort_told true client now (become (drafted drafts.old.items) semaphores.now)) }
{
    let _rows = semaphores.len();
    draft_those_of(alloc, semaphores, drafts, until, client)?;
    happened.push(Happening::Aborts(client))?;
    lose_drafts(alloc, drafts, happened, client, now)
}
