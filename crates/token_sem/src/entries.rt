//! What is done on the entries of a semaphore, of equal tokens or of a pool.

ghost use Rattle.std.specs.Prelude.{◌≡◌, ◌<◌, [], ◌∷◌, ◌++◌, Err, IfOk, IsOk, OnErr, OnOk, count_by, filter, vec_capacity, vec_len};
ghost use Rattle.mms_types.specs.Moments.{IsDated};
ghost use Rattle.token_sem.specs.Entries.{grant_of, owner_from};
ghost use Rattle.token_sem.specs.Semaphore.{aborts, after, deadline_after, entry_of, grant_to, has_claim, hung_of, hung_to_preempt, is_hung, is_owner, numbered, outcome_later, owned_by, owner_of, tokens_held};
ghost use Rattle.token_sem.specs.declared.entry.SemState.TheVariants.{Owner, Queued};
ghost use Rattle.token_sem.specs.declared.entry.TakeRefused.TheVariants.{Memory as OutOfMemory};

use crate::{Ask, Grant, SemEntry, SemState, TakeOutcome, TakeRefused};
use mms_types::{Memory, Moment};
use std::alloc::Global;

/// So many milliseconds later.
pub fn after(now: Moment, ms: u32) -> Moment
    requires { IsDated now }
    ensures { result ≡ after now ms }
{
    Moment(now.0 + u64::from(ms))
}

/// When control times out of an entry that becomes owner now.
fn deadline_after(now: Moment, control: Option<u32>) -> Option<Moment>
    requires { IsDated now }
    ensures { result ≡ deadline_after now control }
{
    match control {
        None => None,
        Some(ms) => { if ms == 0 { None } else { Some(after(now, ms)) } }
    }
}

/// The entry, when it becomes owner, of that token where tokens have names.
pub(crate) fn owner_from(token: Option<u32>, now: Moment, entry: &SemEntry) -> SemEntry
    requires { IsDated now }
    ensures { result ≡ owner_from token now entry.now }
{
    let mut owner = *entry;
    owner.state = SemState::Owner;
    owner.deadline = deadline_after(now, owner.control);
    if token.is_some() {
        owner.token = token;
    }
    owner
}

/// Who is told that a token was granted: the token is named where it has a name and none was asked for.
pub(crate) fn granted(token: Option<u32>, entry: &SemEntry) -> Grant
    ensures { result ≡ grant_of token entry.now }
{
    Grant {
        client: entry.client,
        invoke: entry.invoke,
        entry: entry.number,
        token: if entry.token.is_some() { None } else { token },
    }
}

/// The client's owner entry.
pub(crate) fn owner_of(client: u32, entries: &[SemEntry]) -> Option<SemEntry>
    ensures { result ≡ owner_of client entries.now }
{
    entries
        .iter()
        .copied()
        .find(|entry| entry.client == client && entry.is_owner())
}

/// How many tokens are owned or hung.
pub(crate) fn tokens_held(entries: &[SemEntry]) -> usize
    ensures { result ≡ tokens_held entries.now }
{
    entries.iter().filter(|entry| entry.holds()).count()
}

/// How many tokens are owned.
pub fn owned(entries: &[SemEntry]) -> usize
    ensures { result ≡ count_by is_owner entries.now }
{
    entries.iter().filter(|entry| entry.is_owner()).count()
}

/// How many tokens are hung.
pub fn hung(entries: &[SemEntry]) -> usize
    ensures { result ≡ count_by is_hung entries.now }
{
    entries.iter().filter(|entry| entry.is_hung()).count()
}

/// Whether the client waits for a token or owns one.
pub(crate) fn has_claim(client: u32, entries: &[SemEntry]) -> bool
    ensures { result ≡ has_claim client entries.now }
{
    entries
        .iter()
        .any(|entry| entry.client == client && !entry.is_hung())
}

/// The hung entry whose token a request takes that names that client.
pub(crate) fn hung_to_preempt(client: Option<u32>, entries: &[SemEntry]) -> Option<SemEntry>
    ensures { result ≡ hung_to_preempt client entries.now }
{
    match client {
        None => None,
        Some(client) => hung_of(client, entries),
    }
}

/// The client's hung entry of least number.
fn hung_of(client: u32, entries: &[SemEntry]) -> Option<SemEntry>
    ensures { result ≡ hung_of client entries.now }
{
    entries
        .iter()
        .copied()
        .find(|entry| entry.client == client && entry.is_hung())
}

/// What a request comes to for which no token is there.
pub(crate) fn outcome_later(delay: Option<u32>, now: Moment) -> TakeOutcome
    requires { IsDated now }
    ensures { result ≡ outcome_later delay now }
{
    match delay {
        None => TakeOutcome::WaitsForEver,
        Some(0) => TakeOutcome::TimesOut,
        Some(ms) => TakeOutcome::WaitsUntil(after(now, ms)),
    }
}

/// The entry that a request makes.
fn entry_of(number: u64, ask: &Ask, state: SemState, deadline: Option<Moment>) -> SemEntry
    ensures { result ≡ entry_of number ask.now state deadline }
{
    SemEntry {
        number,
        client: ask.client,
        invoke: ask.invoke,
        token: None,
        priority: ask.priority,
        control: ask.control,
        abort: ask.abort,
        keep: ask.keep,
        state,
        deadline,
    }
}

/// The entry of a request that gets a token.
pub fn owner_entry(number: u64, ask: &Ask, now: Moment) -> SemEntry
    requires { IsDated now }
    ensures { result ≡ entry_of number ask.now Owner (deadline_after now ask.now.control) }
{
    let deadline = deadline_after(now, ask.control);
    entry_of(number, ask, SemState::Owner, deadline)
}

/// The entry of a request that waits.
pub fn queued_entry(number: u64, ask: &Ask, deadline: Option<Moment>) -> SemEntry
    ensures { result ≡ entry_of number ask.now Queued deadline }
{
    entry_of(number, ask, SemState::Queued, deadline)
}

/// Who is told that a request gets a token.
pub fn grant_to(number: u64, ask: &Ask) -> Grant
    ensures { result ≡ grant_to number ask.now }
{
    Grant {
        client: ask.client,
        invoke: ask.invoke,
        entry: number,
        token: None,
    }
}

/// Appends an entry. It takes no memory where there is room. The one refusal is want of memory; then the entries are as
/// before.
pub(crate) fn push(entries: &mut Vec<SemEntry>, entry: SemEntry) -> Result<(), TakeRefused>
    ensures ok { OnOk result (entries.new.items ≡ entries.old.items ++ entry ∷ []) }
    ensures err { OnErr result (entries.new.items ≡ entries.old.items) }
    ensures memory { OnErr result (result ≡ Err OutOfMemory) }
    ensures enough { vec_len entries.old < vec_capacity entries.old → IsOk result }
{
    match entries.push(entry) {
        Ok(()) => Ok(()),
        Err(_) => Err(TakeRefused::Memory),
    }
}

/// The entry of that number.
pub fn numbered(number: u64, entries: &[SemEntry]) -> Option<SemEntry>
    ensures { result ≡ numbered number entries.now }
{
    entries.iter().copied().find(|entry| entry.number == number)
}

/// Whether a request's client is lost where control times out.
pub fn aborts(abort: Option<bool>) -> bool
    ensures { result ≡ aborts abort }
{
    match abort {
        None => false,
        Some(abort) => abort,
    }
}

/// The owner entries of the client. The one refusal is want of memory.
pub fn owners_of(alloc: Global, client: u32, entries: &[SemEntry]) -> Result<Vec<SemEntry>, Memory>
    ensures { IfOk result (λ owners. owners.items ≡ filter (owned_by client) entries.now) }
{
    let owners: Vec<SemEntry> = entries
        .iter()
        .copied()
        .filter(|entry| entry.client == client && entry.is_owner())
        .collect(alloc)?;
    Ok(owners)
}
