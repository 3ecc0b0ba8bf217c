//! The deadlines of all semaphores.

ghost use Rattle.std.specs.Prelude.{◌≡◌, IfSome, Some, option_map};
ghost use Rattle.mms_types.specs.Moments.{IsDated};
ghost use Rattle.token_sem.specs.Semaphore.{deadline_at, first_deadline, least};
ghost use Rattle.mms_time.specs.Deadlines.{deadline_in, deadlines_of, due_meant, due_order, due_sooner, expire_after, expired, expired_in, first_due, next_due, pick, without_due};
ghost use Rattle.mms_time.specs.Semaphores.{changed_row, entries_of};

use crate::{Semaphore, SemaphoreRow, Semaphores};
use mms_types::{Key, Moment};
use std::cmp::Ordering;
use token_sem::{Deadline, Expired};

/// A deadline of an entry of a semaphore.
#[derive(Clone, Copy)]
pub struct Due<'a> {
    /// When it is met.
    pub at: Moment,
    /// `Deadline::CONTROL_TIME_OUT` or `Deadline::ACCEPTABLE_DELAY`.
    pub kind: u8,
    /// The name of the semaphore.
    pub key: &'a Key,
    /// The number of the entry.
    pub entry: u64,
}

/// The order in which deadlines are met.
fn due_order(a: &Due<'_>, b: &Due<'_>) -> Ordering
    ensures { result ≡ due_order (due_meant a.now) (due_meant b.now) }
{
    let kinds = a.at.0.cmp(&b.at.0).then(a.kind.cmp(&b.kind));
    kinds
        .then_with(|| a.key.cmp(b.key))
        .then(a.entry.cmp(&b.entry))
}

/// The sooner of two.
fn sooner_of<'a>(first: Option<Due<'a>>, next: Option<Due<'a>>) -> Option<Due<'a>>
    ensures { option_map due_meant result
        ≡ pick due_sooner (option_map due_meant first.entry) (option_map due_meant next.entry) }
{
    match (first, next) {
        (first, None) => first,
        (None, Some(due)) => Some(due),
        (Some(first), Some(due)) => {
            Some(if due_order(&due, &first).is_lt() {
                due
            } else {
                first
            })
        }
    }
}

impl SemaphoreRow {
    /// The least deadline of its entries: by moment, of one moment a control time-out before acceptable delays, then by
    /// the entry's number. None where none of them has any. It takes no memory.
    #[inline(always)]
    pub fn deadline(&self) -> Option<Deadline>
        ensures least { result ≡ first_deadline (entries_of self.now) }
        ensures stands { IfSome result (λ d.
            deadline_at d.number (entries_of self.now) ≡ Some d.at) }
    {
        match &self.semaphore {
            Semaphore::Token(tokens) => tokens.deadline(),
            Semaphore::Pool(pool) => pool.deadline(),
        }
    }
}

/// The least deadline of the semaphore of that name.
fn due_of<'a>(key: &'a Key, row: &SemaphoreRow) -> Option<Due<'a>>
    ensures least { option_map due_meant result
        ≡ least due_sooner (deadlines_of (key.now, row.now)) }
    ensures stands { IfSome result (λ due.
        deadline_at due.entry (entries_of row.now) ≡ Some due.at) }
    ensures key { IfSome result (λ due. due.key.now ≡ key.now) }
{
    match row.deadline() {
        None => None,
        Some(deadline) => Some(Due {
            at: deadline.at,
            kind: deadline.kind,
            key,
            entry: deadline.number,
        }),
    }
}

/// The least deadline of all semaphores.
pub(crate) fn first_due<'a>(semaphores: &'a Semaphores) -> Option<Due<'a>>
    ensures least { option_map due_meant result ≡ first_due semaphores.now }
    ensures stands { IfSome result (λ due.
        deadline_in due.key.now due.entry semaphores.now ≡ Some due.at) }
{
    let mut first = None;
    for place in 0..semaphores.len() {
        let Some((key, row)) = semaphores.at(place) else {
            unreachable!()
        };
        first = sooner_of(first, due_of(key, row));
    }
    first
}

/// The least of all deadlines, where it is at most that moment: by moment, of one moment control time-outs before
/// acceptable delays, then by name, then by the entry's number. None exactly where no deadline is at most that moment.
/// It takes no memory.
pub fn next_due<'a>(semaphores: &'a Semaphores, until: Moment) -> Option<Due<'a>>
    ensures least { option_map due_meant result ≡ next_due until semaphores.now }
    ensures stands { IfSome result (λ due.
        deadline_in due.key.now due.entry semaphores.now ≡ Some due.at) }
{
    match first_due(semaphores) {
        None => None,
        Some(due) => { if due.at.0 <= until.0 { Some(due) } else { None } }
    }
}

impl SemaphoreRow {
    /// Meets the deadline of an entry of this semaphore, as `expire` meets it in the one that is named. It takes no
    /// memory.
    pub fn expire(&mut self, entry: u64, now: Moment) -> Expired
        requires due { deadline_at entry (entries_of self.old) ≡ Some now }
        requires now { IsDated now }
        ensures told { expired_in entry self.old ≡ Some result }
        ensures row { self.new ≡ changed_row (without_due entry now) self.old }
    {
        match &mut self.semaphore {
            Semaphore::Token(tokens) => tokens.expire(entry, now),
            Semaphore::Pool(pool) => pool.expire(entry, now),
        }
    }
}

/// Meets the deadline of an entry of the semaphore of that name (ISO 9506-1, TakeControl, acceptableDelay and
/// controlTimeOut): the entry goes, and where it had a token, that is granted to the entry that is served next, or is
/// free. It tells whose entry it was, whether it waited, whether its client is lost, and who gets the token. It takes
/// no memory.
pub fn expire(semaphores: &mut Semaphores, key: &Key, entry: u64, now: Moment) -> Expired
    requires due { deadline_in key.now entry semaphores.old ≡ Some now }
    requires now { IsDated now }
    ensures told { expired key.now entry semaphores.old ≡ Some result }
    ensures table { semaphores.new ≡ expire_after key.now entry now semaphores.old }
{
    let Some(row) = semaphores.get_mut(key) else {
        unreachable!()
    };
    row.expire(entry, now)
}
