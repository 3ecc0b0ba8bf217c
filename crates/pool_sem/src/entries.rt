//! What is done on the entries of a pool. What equal tokens have in common with it stands in `token_sem`.

ghost use Rattle.std.specs.Prelude.{◌≡◌, ℕ, ◌≤◌, ◌&&◌, Some, count_by, find};
ghost use Rattle.mms_types.specs.Moments.{IsDated};
ghost use Rattle.token_sem.specs.Semaphore.{earlier, owned_by};
ghost use Rattle.pool_sem.specs.Pools.{NamesRise, grant_to, has, has_claim, hung_to_preempt, is_claim, is_hung_of, lower, names, outcome_later, owner_entry, owner_of, place_of, queued_entry, suits, token_state, token_told};

use crate::{PoolOutcome, TokenState};
use mms_types::{Identifier, Moment};
use token_sem::entries::after;
use token_sem::{Ask, Grant, SemEntry, entries as of_tokens};

/// Whether a token was named, and it is that one.
fn names(asked: Option<u32>, token: Option<u32>) -> bool
    ensures { result ≡ names asked token }
{
    asked.is_some() && asked == token
}

/// Whether no token was named, or it is that one.
fn suits(asked: Option<u32>, token: Option<u32>) -> bool
    ensures { result ≡ suits asked token }
{
    asked.is_none() || asked == token
}

/// Whether the entry is owner of that token, or hung with it.
fn has(token: u32, entry: &SemEntry) -> bool
    ensures { result ≡ has token entry.now }
{
    entry.holds() && entry.token == Some(token)
}

/// Which token an answer names.
fn token_told(asked: Option<u32>, got: Option<u32>) -> Option<u32>
    ensures { result ≡ token_told asked got }
{
    if asked.is_some() { None } else { got }
}

/// Whether the entry is the client's owner entry of that token.
fn owns(client: u32, token: Option<u32>, entry: &SemEntry) -> bool
    ensures { result ≡ (owned_by client entry.now && names token entry.now.token) }
{
    entry.client == client && entry.is_owner() && names(token, entry.token)
}

/// The client's owner entry of that token, of which there is one at most. It is looked for from both ends: who took a
/// token lately stands last where nobody waits, and where many wait they come after those that have tokens.
pub(crate) fn owner_of(client: u32, token: Option<u32>, entries: &[SemEntry]) -> Option<SemEntry>
    requires { (place : ℕ) → count_by (has place) entries.now ≤ 1 }
    ensures { result ≡ owner_of client token entries.now }
{
    let mut low = 0;
    let mut high = entries.len();
    while low < high {
        high -= 1;
        let last = &entries[high];
        if owns(client, token, last) {
            return Some(*last);
        }
        let first = &entries[low];
        if owns(client, token, first) {
            return Some(*first);
        }
        low += 1;
    }
    None
}

/// Whether the entry has the client refused.
fn is_claim(client: u32, asked: Option<u32>, entry: &SemEntry) -> bool
    ensures { result ≡ is_claim client asked entry.now }
{
    entry.client == client && (entry.is_queued() || (entry.is_owner() && names(asked, entry.token)))
}

/// Whether the client waits for a token of the pool, or owns the one that it names.
pub(crate) fn has_claim(client: u32, asked: Option<u32>, entries: &[SemEntry]) -> bool
    ensures { result ≡ has_claim client asked entries.now }
{
    entries.iter().any(|entry| is_claim(client, asked, entry))
}

/// Whether the token of the one stands before that of the other.
fn lower(a: &SemEntry, b: &SemEntry) -> bool
    ensures { result ≡ lower a.now b.now }
{
    a.token < b.token
}

/// Of the best so far and one more the one with the lower token.
fn lowest(best: Option<SemEntry>, entry: &SemEntry) -> Option<SemEntry>
    ensures { result ≡ earlier lower best entry.now }
{
    match best {
        None => Some(*entry),
        Some(found) => Some(if lower(entry, &found) { *entry } else { found }),
    }
}

/// Whether it is a hung entry of the client, with a token that suits.
fn is_hung_of(client: u32, asked: Option<u32>, entry: &SemEntry) -> bool
    ensures { result ≡ is_hung_of client asked entry.now }
{
    entry.client == client && entry.is_hung() && suits(asked, entry.token)
}

/// Of the client's hung entries whose tokens suit the one with the least token.
fn hung_of(client: u32, asked: Option<u32>, entries: &[SemEntry]) -> Option<SemEntry>
    ensures { result ≡ hung_to_preempt (Some client) asked entries.now }
{
    entries
        .iter()
        .filter(|entry| is_hung_of(client, asked, entry))
        .fold(None, |best, entry| lowest(best, entry))
}

/// The hung entry whose token a request takes that names that client.
pub(crate) fn hung_to_preempt(
    client: Option<u32>,
    asked: Option<u32>,
    entries: &[SemEntry],
) -> Option<SemEntry>
    ensures { result ≡ hung_to_preempt client asked entries.now }
{
    match client {
        None => None,
        Some(client) => hung_of(client, asked, entries),
    }
}

/// What a request comes to for which no token is there.
pub(crate) fn outcome_later(delay: Option<u32>, now: Moment) -> PoolOutcome
    requires { IsDated now }
    ensures { result ≡ outcome_later delay now }
{
    match delay {
        None => PoolOutcome::WaitsForEver,
        Some(0) => PoolOutcome::TimesOut,
        Some(ms) => PoolOutcome::WaitsUntil(after(now, ms)),
    }
}

/// The entry of a request that gets that token.
pub(crate) fn owner_entry(number: u64, ask: &Ask, token: Option<u32>, now: Moment) -> SemEntry
    requires { IsDated now }
    ensures { result ≡ owner_entry number ask.now token now }
{
    let mut entry = of_tokens::owner_entry(number, ask, now);
    entry.token = token;
    entry
}

/// The entry of a request that waits.
pub(crate) fn queued_entry(number: u64, ask: &Ask, deadline: Option<Moment>) -> SemEntry
    ensures { result ≡ queued_entry number ask.now deadline }
{
    let mut entry = of_tokens::queued_entry(number, ask, deadline);
    entry.token = ask.token;
    entry
}

/// Who is told that a request gets that token.
pub(crate) fn grant_to(number: u64, ask: &Ask, token: Option<u32>) -> Grant
    ensures { result ≡ grant_to number ask.now token }
{
    Grant {
        client: ask.client,
        invoke: ask.invoke,
        entry: number,
        token: token_told(ask.token, token),
    }
}

/// What is told of a token.
pub(crate) fn token_state(token: u32, entries: &[SemEntry]) -> TokenState
    ensures { result ≡ token_state token entries.now }
{
    match holder(token, entries) {
        None => TokenState::Free,
        Some(entry) => {
            if entry.is_owner() {
                TokenState::Owned
            } else {
                TokenState::Hung
            }
        }
    }
}

/// The entry that has the token.
fn holder(token: u32, entries: &[SemEntry]) -> Option<SemEntry>
    ensures { result ≡ find (has token) entries.now }
{
    entries.iter().copied().find(|entry| has(token, entry))
}

/// The place of the token of that name.
pub(crate) fn place_of(name: &Identifier, tokens: &[Identifier]) -> Option<usize>
    requires { NamesRise tokens.now }
    ensures place { result ≡ place_of name.now tokens.now }
{
    match tokens.binary_search(name) {
        Ok(place) => Some(place),
        Err(_) => None,
    }
}
