//! ReportSemaphoreStatus, ReportPoolSemaphoreStatus and ReportSemaphoreEntryStatus.

ghost use Rattle.std.specs.Prelude.{◌≡◌, ◌<◌, ◌≤◌, [], All, IfOk, IfSome, IsOk};
ghost use Rattle.std.specs.Option.{option_copied};
ghost use Rattle.mms_types.specs.Serves.{Serves, ServesAlways};
ghost use Rattle.mms_time.specs.Semaphores.{entries_of, names_in, semaphore};
ghost use Rattle.mms_time.specs.Statuses.{entry_status, entry_status_answer, entry_status_cause, entry_statuses, is_in_state, is_listed, left_until, name_follows, pool_status, pool_status_answer, pool_status_cause, status, status_cause, status_in, token_status};

use crate::tokens::name_at;
use crate::{Semaphore, SemaphoreRow, Semaphores};
use mms_types::{
    EntryClass, EntryNumber, EntryState, EntryStatus, EntryStatuses, Identifier, Listed, Memory,
    Moment, NamedToken, ObjectName, Octets, PoolStatus, Refuse, ReportPoolSemaphoreStatus,
    ReportSemaphoreEntryStatus, SemaphoreClass, SemaphoreStatus, ServiceError,
};
use pool_sem::{PoolSem, TokenState};
use std::alloc::Global;
use token_sem::{SemEntry, SemState};

/// The most entries that are told at once.
const MOST_ENTRIES: usize = 6;

/// The most tokens that are told at once.
const MOST_TOKENS: usize = 12;

impl SemaphoreRow {
    /// What the semaphore is and has.
    fn status(&self) -> SemaphoreStatus
        ensures { result ≡ status_in self.now.configured self.now.semaphore }
    {
        match &self.semaphore {
            Semaphore::Token(tokens) => SemaphoreStatus {
                deletable: !self.configured,
                class: SemaphoreClass::Token,
                tokens: tokens.tokens(),
                owned: tokens.owned(),
                hung: tokens.hung(),
            },
            Semaphore::Pool(pool) => SemaphoreStatus {
                deletable: !self.configured,
                class: SemaphoreClass::Pool,
                tokens: pool.tokens().len() as u16,
                owned: pool.owned(),
                hung: pool.hung(),
            },
        }
    }

    /// The entries, in order of number.
    pub fn entries(&self) -> &[SemEntry]
        ensures { result.now ≡ entries_of self.now }
    {
        match &self.semaphore {
            Semaphore::Token(tokens) => tokens.entries(),
            Semaphore::Pool(pool) => pool.entries(),
        }
    }

    /// The names of its tokens, in order of octets: none where they are equal.
    pub fn names(&self) -> &[Identifier]
        ensures { result.now ≡ names_in self.now.semaphore }
    {
        match &self.semaphore {
            Semaphore::Token(_) => &[],
            Semaphore::Pool(pool) => pool.tokens(),
        }
    }
}

/// What a semaphore is and has (ISO 9506-2, ReportSemaphoreStatus). Object-non-existent where it is missing. It takes
/// no memory.
pub fn report_semaphore_status(
    semaphores: &Semaphores,
    client: u32,
    name: &ObjectName,
) -> Result<SemaphoreStatus, ServiceError>
    ensures { ServesAlways result (status_cause client name.now semaphores.now)
        (status client name.now semaphores.now) }
{
    match semaphores.named(client, name) {
        None => Err(ServiceError::OBJECT_NON_EXISTENT),
        Some(row) => Ok(row.status()),
    }
}

/// Whether a name comes after that one.
fn comes_after(name: &Identifier, after: Option<&Identifier>) -> bool
    ensures { result ≡ name_follows (option_copied after.entry) name.now }
{
    match after {
        None => true,
        Some(other) => other.cmp(name).is_lt(),
    }
}

/// What is told of a token of a pool.
fn token_status(
    alloc: Global,
    pool: &PoolSem,
    place: usize,
    name: &Identifier,
) -> Result<NamedToken, Memory>
    requires { place < 256 }
    ensures { IfOk result (λ told. told ≡ token_status pool.now (place, name.now)) }
{
    let name = name.copy(alloc)?;
    Ok(match pool.token_state(place as u32) {
        TokenState::Free => NamedToken::Free(name),
        TokenState::Owned => NamedToken::Owned(name),
        TokenState::Hung => NamedToken::Hung(name),
    })
}

/// The first of the tokens that come after that name, and whether there are more.
fn pool_status(
    alloc: Global,
    pool: &PoolSem,
    after: Option<&Identifier>,
) -> Result<PoolStatus, Memory>
    ensures { IfOk result (λ told. told ≡ pool_status (option_copied after.entry) pool.now) }
{
    let names = pool.tokens();
    let mut list = Listed::new(alloc);
    for place in 0..names.len() {
        let Some(name) = names.get(place) else {
            unreachable!()
        };
        if comes_after(name, after) {
            if list.len() == MOST_TOKENS {
                return Ok(PoolStatus {
                    tokens: list,
                    more: true,
                });
            }
            list.push(token_status(alloc, pool, place, name)?)?;
        }
    }
    Ok(PoolStatus {
        tokens: list,
        more: false,
    })
}

/// The tokens of a pool (ISO 9506-2, ReportPoolSemaphoreStatus), free, owned and hung, in order of octets after the
/// name that is given, which need not be there: the first 12 of them, and whether there are more. Object-non-existent
/// where the semaphore is missing; type-inconsistent where it is a token semaphore.
pub fn report_pool_semaphore_status(
    alloc: Global,
    semaphores: &Semaphores,
    client: u32,
    asked: &ReportPoolSemaphoreStatus,
) -> Result<PoolStatus, Refuse>
    ensures { Serves result (pool_status_cause client asked.now.name semaphores.now)
        (pool_status_answer client asked.now semaphores.now) }
{
    let Some(row) = semaphores.named(client, &asked.name) else {
        return Err(Refuse::Service(ServiceError::OBJECT_NON_EXISTENT));
    };
    match &row.semaphore {
        Semaphore::Token(_) => Err(Refuse::Service(ServiceError::TYPE_INCONSISTENT)),
        Semaphore::Pool(pool) => Ok(pool_status(alloc, pool, asked.after.as_ref())?),
    }
}

/// Whether the entry has the state.
fn is_in_state(entry: &SemEntry, state: EntryState) -> bool
    ensures { result ≡ is_in_state state entry.now }
{
    match state {
        EntryState::Queued => matches!(entry.state, SemState::Queued),
        EntryState::Owner => matches!(entry.state, SemState::Owner),
        EntryState::Hung => matches!(entry.state, SemState::Hung),
    }
}

/// Whether the entry has the state, and its number is greater.
fn is_listed(entry: &SemEntry, state: EntryState, after: Option<EntryNumber>) -> bool
    ensures { result ≡ is_listed state after entry.now }
{
    if !is_in_state(entry, state) {
        return false;
    }
    match after {
        None => true,
        Some(number) => u64::from_be_bytes(number.octets) < entry.number,
    }
}

/// How many milliseconds are left until that moment. More than 32 bits tell are told by no answer, and count as want of
/// memory; no request names so many.
fn left_until(now: Moment, at: Moment) -> Result<u32, Memory>
    ensures left { IfOk result (λ left. left ≡ left_until now at) }
    ensures near { left_until now at ≤ 4294967295 → IsOk result }
{
    let left = at.0.saturating_sub(now.0);
    if left <= u64::from(u32::MAX) {
        Ok(left as u32)
    } else {
        Err(Memory::wanting())
    }
}

/// How many milliseconds are left until the deadline.
fn remaining(entry: &SemEntry, now: Moment) -> Result<Option<u32>, Memory>
    ensures left { IfOk result (λ left. left ≡ (entry_status [] now entry.now).remaining) }
    ensures near { IfSome entry.now.deadline (λ at. left_until now at ≤ 4294967295) → IsOk result }
{
    match entry.deadline {
        None => Ok(None),
        Some(at) => Ok(Some(left_until(now, at)?)),
    }
}

/// What is told of an entry.
fn entry_status(
    alloc: Global,
    names: &[Identifier],
    entry: &SemEntry,
    now: Moment,
) -> Result<EntryStatus, Memory>
    ensures { IfOk result (λ told. told ≡ entry_status names.now now entry.now) }
{
    Ok(EntryStatus {
        number: Octets::from_slice(alloc, &entry.number.to_be_bytes())?,
        class: EntryClass::Simple,
        client: entry.client,
        token: name_at(alloc, entry.token, names)?,
        priority: entry.priority,
        remaining: remaining(entry, now)?,
        abort: entry.abort,
        relinquish: !entry.keep,
    })
}

/// The first of the entries that are listed, and whether there are more.
#[tactic(auto, using(crate::proofs::Listed::listed_more, crate::proofs::Listed::listed_all))]
fn entry_statuses(
    alloc: Global,
    names: &[Identifier],
    entries: &[SemEntry],
    now: Moment,
    state: EntryState,
    after: Option<EntryNumber>,
) -> Result<EntryStatuses, Memory>
    ensures { IfOk result (λ told. told ≡ entry_statuses names.now now state after entries.now) }
{
    let mut list = Listed::new(alloc);
    for entry in entries {
        if is_listed(entry, state, after) {
            if list.len() == MOST_ENTRIES {
                return Ok(EntryStatuses {
                    entries: list,
                    more: true,
                });
            }
            list.push(entry_status(alloc, names, entry, now)?)?;
        }
    }
    Ok(EntryStatuses {
        entries: list,
        more: false,
    })
}

/// The entries of a semaphore that have a state (ISO 9506-2, ReportSemaphoreEntryStatus), in order of number after the
/// one that is given, which need not be there: the first 6 of them, and whether there are more. Object-non-existent
/// where the semaphore is missing. Want of memory also where a deadline is further away than 2^32 - 1 milliseconds, which
/// an answer can't tell, and which none of a device is.
pub fn report_semaphore_entry_status(
    alloc: Global,
    semaphores: &Semaphores,
    client: u32,
    now: Moment,
    asked: &ReportSemaphoreEntryStatus,
) -> Result<EntryStatuses, Refuse>
    ensures { Serves result (entry_status_cause client asked.now semaphores.now)
        (entry_status_answer client now asked.now semaphores.now) }
{
    let Some(row) = semaphores.named(client, &asked.name) else {
        return Err(Refuse::Service(ServiceError::OBJECT_NON_EXISTENT));
    };
    Ok(entry_statuses(
        alloc,
        row.names(),
        row.entries(),
        now,
        asked.state,
        asked.after,
    )?)
}
