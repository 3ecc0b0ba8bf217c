//! The semaphores of which a deadline is due, copied, each to change by itself.

ghost use Rattle.std.specs.Prelude.{◌≡◌, ◌≢◌, [], All, IfOk, IfSome, OnErr, Some, map, option_map, slice_get};
ghost use Rattle.std.specs.List.Sorted.{IsPermutation, IsSorted};
ghost use Rattle.std.specs.Map.{keys_of};
ghost use Rattle.mms_types.specs.Moments.{IsDated};
ghost use Rattle.mms_types.specs.Order.{key_order};
ghost use Rattle.token_sem.specs.Semaphore.{deadline_at};
ghost use Rattle.mms_time.specs.Deadlines.{expired_in, first_due, next_due, without_due};
ghost use Rattle.mms_time.specs.Semaphores.{changed_row, entries_of};
ghost use Rattle.sem_ticks.specs.Drafts.{become, drafted, is_due, next_named, sooner_next, due_rows, named, placed, AreDrafts, Ascend, IsNextOf, IsPlaced, KeepsLeast};

use mms_time::{Due, SemaphoreRow, Semaphores};
use mms_types::{Key, Memory, Moment};
use object_names::Copied;
use std::alloc::Global;
use token_sem::{Deadline, Expired};

/// A semaphore that is copied.
#[derive(Drop)]
pub(crate) struct Draft<'a> {
    /// Its name.
    pub(crate) key: &'a Key,
    /// Where it stands in the table.
    pub(crate) place: usize,
    /// What it has become.
    pub(crate) row: SemaphoreRow,
    /// Its least deadline.
    pub(crate) due: Option<Deadline>,
}

/// A deadline of the draft at a place.
#[derive(Clone, Copy)]
pub(crate) struct Next<'a> {
    /// The place of the draft among the drafts.
    pub(crate) place: usize,
    /// Its least deadline.
    pub(crate) due: Due<'a>,
}

/// Whether a deadline of the semaphore is at most that moment.
fn is_due(row: &SemaphoreRow, until: Moment) -> bool
    ensures { result ≡ is_due until row.now }
{
    if row.entries().is_empty() {
        return false;
    }
    match row.deadline() {
        None => false,
        Some(due) => due.at.0 <= until.0,
    }
}

/// The sooner of the first deadline of those drafts before, and of one draft more, whose name comes after.
fn sooner_of<'a>(first: Option<Next<'a>>, place: usize, draft: &Draft<'a>) -> Option<Next<'a>>
    ensures { result ≡ sooner_next first.entry place draft.now }
{
    let Some(due) = draft.due else {
        return first;
    };
    if let Some(next) = first {
        let sooner = due.at.0 < next.due.at.0
            || (due.at.0 == next.due.at.0 && due.kind < next.due.kind);
        if !sooner {
            return first;
        }
    }
    Some(Next {
        place,
        due: Due {
            at: due.at,
            kind: due.kind,
            key: draft.key,
            entry: due.number,
        },
    })
}

/// The least deadline of all drafts.
fn first_of<'a>(drafts: &[Draft<'a>]) -> Option<Next<'a>>
    requires ascend { Ascend drafts.now }
    requires least { All KeepsLeast drafts.now }
    ensures least { option_map next_named result ≡ first_due (drafted drafts.now) }
    ensures of { IfSome result (IsNextOf drafts.now) }
{
    let mut first = None;
    for place in 0..drafts.len() {
        first = sooner_of(first, place, &drafts[place]);
    }
    first
}

/// The least of all deadlines, where it is at most that moment: it is that of a draft.
pub(crate) fn next_of<'a>(
    semaphores: &Semaphores,
    drafts: &[Draft<'a>],
    until: Moment,
) -> Option<Next<'a>>
    requires { AreDrafts until semaphores.now drafts.now }
    ensures least { option_map next_named result
        ≡ next_due until (become (drafted drafts.now) semaphores.now) }
    ensures of { IfSome result (IsNextOf drafts.now) }
{
    let _rows = semaphores.len();
    match first_of(drafts) {
        None => None,
        Some(next) => {
            if next.due.at.0 <= until.0 {
                Some(next)
            } else {
                None
            }
        }
    }
}

/// The names of the semaphores of which a deadline is at most that moment, each with its place in the table. Memory is
/// wanted only where there is one.
pub(crate) fn due_places<'a>(
    alloc: Global,
    semaphores: &'a Semaphores,
    until: Moment,
) -> Result<Vec<(&'a Key, usize)>, Memory>
    ensures keys { IfOk result (λ due.
        map (λ p. p.0.now) due.items ≡ keys_of (due_rows until semaphores.now)) }
    ensures places { IfOk result (λ due. All (IsPlaced semaphores.now) due.items) }
    ensures wants { OnErr result (due_rows until semaphores.now ≢ []) }
{
    let mut due = Vec::new(alloc);
    for place in 0..semaphores.len() {
        let Some((key, row)) = semaphores.at(place) else {
            unreachable!()
        };
        if is_due(row, until) {
            due.push((key, place))?;
        }
    }
    Ok(due)
}

/// Names in order, with their places.
fn in_order<'a>(mut due: Vec<(&'a Key, usize)>) -> Vec<(&'a Key, usize)>
    ensures same { IsPermutation due.entry.items result.items }
    ensures sorted { IsSorted (λ a b. key_order a.0.now b.0.now) result.items }
{
    due.sort_unstable();
    due
}

/// The semaphore at a place, copied.
pub(crate) fn draft_of<'a>(
    alloc: Global,
    semaphores: &Semaphores,
    key: &'a Key,
    place: usize,
) -> Result<Draft<'a>, Memory>
    requires { slice_get (keys_of semaphores.now) place ≡ Some key.now }
    ensures key { IfOk result (λ d. (d.key.now ≡ key.now) × (d.place ≡ place)) }
    ensures row { IfOk result (λ d. slice_get semaphores.now place ≡ Some (named d)) }
    ensures least { IfOk result KeepsLeast }
{
    let Some((_, row)) = semaphores.at(place) else {
        unreachable!()
    };
    let row = row.copied(alloc)?;
    let due = row.deadline();
    Ok(Draft {
        key,
        place,
        row,
        due,
    })
}

/// The semaphores at these places, copied, in order of their names.
pub(crate) fn drafts_of<'a>(
    alloc: Global,
    semaphores: &Semaphores,
    until: Moment,
    due: Vec<(&'a Key, usize)>,
) -> Result<Vec<Draft<'a>>, Memory>
    requires keys { map (λ p. p.0.now) due.items ≡ keys_of (due_rows until semaphores.now) }
    requires places { All (IsPlaced semaphores.now) due.items }
    ensures drafts { IfOk result (λ drafts. AreDrafts until semaphores.now drafts.items) }
    ensures copies { IfOk result (λ drafts.
        become (drafted drafts.items) semaphores.now ≡ semaphores.now) }
{
    let _rows = semaphores.len();
    let _until = until;
    let due = in_order(due);
    let mut drafts = Vec::with_capacity(alloc, due.len())?;
    for named in &due {
        drafts.push(draft_of(alloc, semaphores, named.0, named.1)?)?;
    }
    Ok(drafts)
}

impl Draft<'_> {
    /// Meets the deadline of an entry.
    pub(crate) fn expire(&mut self, entry: u64, now: Moment) -> Expired
        requires due { deadline_at entry (entries_of self.old.row) ≡ Some now }
        requires now { IsDated now }
        ensures told { expired_in entry self.old.row ≡ Some result }
        ensures row { self.new.row ≡ changed_row (without_due entry now) self.old.row }
        ensures key { (self.new.key ≡ self.old.key) × (self.new.place ≡ self.old.place) }
        ensures least { KeepsLeast self.new }
    {
        let expired = self.row.expire(entry, now);
        self.due = self.row.deadline();
        expired
    }
}

/// What the drafts have become, each with its place in the table.
pub(crate) fn rows_of(
    alloc: Global,
    drafts: Vec<Draft<'_>>,
) -> Result<Vec<(usize, SemaphoreRow)>, Memory>
    ensures { IfOk result (λ rows. rows.items ≡ map placed drafts.entry.items) }
{
    let mut rows = Vec::with_capacity(alloc, drafts.len())?;
    for draft in drafts {
        rows.push((draft.place, draft.row))?;
    }
    Ok(rows)
}
