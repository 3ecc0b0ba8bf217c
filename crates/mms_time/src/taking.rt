//! TakeControl, RelinquishControl, and Cancel of a TakeControl.

ghost use Rattle.std.specs.Prelude.{◌≡◌, ◌+◌, ◌<◌, ◌^◌, Err, IfOk, IsOk, OnErr, OnOk, Some, length, option_map, true};
ghost use Rattle.std.specs.Option.{option_copied};
ghost use Rattle.mms_types.specs.Errors.{first_of};
ghost use Rattle.mms_types.specs.Moments.{IsDated};
ghost use Rattle.mms_types.specs.declared.refuse.Refuse.TheVariants.{Memory as OutOfMemory};
ghost use Rattle.mms_types.specs.Serves.{Serves, ServesAlways};
ghost use Rattle.pool_sem.specs.Pools as pool;
ghost use Rattle.pool_sem.specs.Pools.{is_place, token_told};
ghost use Rattle.token_sem.specs.Semaphore.{after_take, is_queued, makes_entry, numbered, outcome};
ghost use Rattle.mms_time.specs.Semaphores.{changed_row, entries_of, entry_in, entry_waits, made_in, semaphore};
ghost use Rattle.mms_time.specs.Services.{ask_of, cancel_after, cancelled, is_named, makes_entry_in, makes_entry_of, names_token, pool_answer, relinquish_cause, relinquish_conditions_in, relinquish_grant, relinquish_grant_in, relinquished, take_after, take_cause, take_conditions_in, take_told, take_told_in, with_take, with_token_back, without_entry};
ghost use Rattle.mms_time.specs.declared.row.Semaphore.TheVariants.{Token, Pool};

use crate::tokens::{name_at, named_answer, place_asked};
use crate::{Semaphore, SemaphoreRow, Semaphores};
use mms_types::{
    Identifier, Key, Memory, Moment, Refuse, RelinquishControl, ServiceError, TakeControl,
    TakeControlAnswer,
};
use pool_sem::PoolSem;
use std::alloc::Global;
use token_sem::entries::numbered;
use token_sem::{Ask, Grant, SemEntry, TakeRefused, TokenSem};

/// What comes of a TakeControl that is not refused.
#[derive(Drop)]
pub enum TakeDone {
    /// The client has a token, and is answered.
    Answered(TakeControlAnswer),
    /// The client waits in the entry of this number, and is not answered yet.
    Waits(u64),
}

/// Why no token of a token semaphore is taken.
fn token_take_cause(tokens: &TokenSem, client: u32, asked: &TakeControl) -> Option<ServiceError>
    ensures { result ≡ first_of (take_conditions_in client asked.now (Token tokens.now)) }
{
    if asked.token.is_some() {
        return Some(ServiceError::TYPE_INCONSISTENT);
    }
    if tokens.has_claim(client) {
        return Some(ServiceError::OBJECT_STATE_CONFLICT);
    }
    if !tokens.has_token(asked.preempt) && asked.delay == Some(0) {
        return Some(ServiceError::TIMEOUT);
    }
    None
}

/// Why no token of a pool is taken.
fn pool_take_cause(pool: &PoolSem, client: u32, asked: &TakeControl) -> Option<ServiceError>
    ensures { result ≡ first_of (take_conditions_in client asked.now (Pool pool.now)) }
{
    let place = place_asked(pool, asked.token.as_ref());
    if asked.token.is_some() && place.is_none() {
        return Some(ServiceError::OBJECT_NON_EXISTENT);
    }
    if pool.has_claim(client, place) {
        return Some(ServiceError::OBJECT_STATE_CONFLICT);
    }
    if !pool.has_token(asked.preempt, place) && asked.delay == Some(0) {
        return Some(ServiceError::TIMEOUT);
    }
    None
}

/// Why no token of a semaphore is taken.
fn take_cause(semaphore: &Semaphore, client: u32, asked: &TakeControl) -> Option<ServiceError>
    ensures { result ≡ first_of (take_conditions_in client asked.now semaphore.now) }
{
    match semaphore {
        Semaphore::Token(tokens) => token_take_cause(tokens, client, asked),
        Semaphore::Pool(pool) => pool_take_cause(pool, client, asked),
    }
}

/// As many entries as a semaphore has numbers for. That it made so many counts as want of memory.
const MOST_MADE: u64 = 1 << 63;

/// The number of the next entry.
fn next_number(made: u64) -> Result<u64, Memory>
    ensures number { IfOk result (λ number. number ≡ made + 1) }
    ensures left { made < 2 ^ 63 → IsOk result }
{
    if made < MOST_MADE {
        Ok(made + 1)
    } else {
        Err(Memory::wanting())
    }
}

/// Which token an answer names.
fn token_told(asked: Option<u32>, got: Option<u32>) -> Option<u32>
    ensures { result ≡ token_told asked got }
{
    if asked.is_some() { None } else { got }
}

/// What is answered to a client that gets a token of a pool, by the place that it asked for.
fn pool_answer(
    alloc: Global,
    pool: &PoolSem,
    preempt: Option<u32>,
    place: Option<u32>,
) -> Result<TakeControlAnswer, Memory>
    ensures told { IfOk result (λ answer. answer ≡ pool_answer preempt place pool.now) }
    ensures wants { OnErr result (is_named (pool_answer preempt place pool.now) ≡ true) }
{
    let told = token_told(place, pool.token_got(preempt, place));
    Ok(named_answer(name_at(alloc, told, pool.tokens())?))
}

/// Whether the client has a token of a pool or waits.
fn pool_take_told(alloc: Global, pool: &PoolSem, asked: &TakeControl) -> Result<TakeDone, Memory>
    ensures told { IfOk result (λ done. done ≡ take_told_in asked.now (Pool pool.now)) }
    ensures wants { pool.now.made < 2 ^ 63
        → OnErr result (names_token (take_told_in asked.now (Pool pool.now)) ≡ true) }
{
    let place = place_asked(pool, asked.token.as_ref());
    if pool.has_token(asked.preempt, place) {
        Ok(TakeDone::Answered(pool_answer(alloc, pool, asked.preempt, place)?))
    } else {
        Ok(TakeDone::Waits(next_number(pool.made())?))
    }
}

/// Whether the client has a token or waits.
fn take_told(alloc: Global, semaphore: &Semaphore, asked: &TakeControl) -> Result<TakeDone, Memory>
    ensures told { IfOk result (λ done. done ≡ take_told_in asked.now semaphore.now) }
    ensures wants { made_in semaphore.now < 2 ^ 63
        → OnErr result (names_token (take_told_in asked.now semaphore.now) ≡ true) }
{
    match semaphore {
        Semaphore::Token(tokens) => {
            if tokens.has_token(asked.preempt) {
                Ok(TakeDone::Answered(TakeControlAnswer::NoResult))
            } else {
                Ok(TakeDone::Waits(next_number(tokens.made())?))
            }
        }
        Semaphore::Pool(pool) => pool_take_told(alloc, pool, asked),
    }
}

/// What a client is told that asks for a token (ISO 9506-2, TakeControl): that it has one, with its name where a pool
/// was asked for any, or nothing yet, where it waits. Object-non-existent where the semaphore is missing;
/// type-inconsistent where a token of a token semaphore is named; object-non-existent where the pool has no token of
/// that name; object-state-conflict where the client waits for a token of it, or owns one of a token semaphore or the
/// one that it names; timeout where no token is to be had and the client does not wait. Nothing is taken yet. Want of
/// memory is told of no request that is refused, and while the semaphore made fewer than 2^63 entries only where the
/// client is told the name of its token.
pub fn take_control_told(
    alloc: Global,
    semaphores: &Semaphores,
    client: u32,
    asked: &TakeControl,
) -> Result<TakeDone, Refuse>
    ensures told { Serves result (take_cause client asked.now semaphores.now)
        (take_told client asked.now semaphores.now) }
    ensures wants { (row : SemaphoreRow) → semaphore client asked.now.name semaphores.now ≡ Some row
        → made_in row.semaphore < 2 ^ 63 → result ≡ Err OutOfMemory
        → names_token (take_told_in asked.now row.semaphore) ≡ true }
{
    match semaphores.named(client, &asked.name) {
        None => Err(Refuse::Service(ServiceError::OBJECT_NON_EXISTENT)),
        Some(row) => row.take_told(alloc, client, asked),
    }
}

/// The request on one semaphore, for the token of that place or any.
fn ask_of(client: u32, invoke: u32, token: Option<u32>, asked: &TakeControl) -> Ask
    ensures { result ≡ ask_of client invoke token asked.now }
{
    Ask {
        client,
        invoke,
        token,
        priority: asked.priority,
        delay: asked.delay,
        control: asked.control,
        abort: asked.abort,
        keep: !asked.relinquish,
        preempt: asked.preempt,
    }
}

/// Asks for a token of a token semaphore. The one refusal is want of memory, and only where an entry is made; then all
/// is as before.
#[tactic(auto, using(crate::proofs::Untaken::none_taken))]
fn take_token(tokens: &mut TokenSem, ask: &Ask, now: Moment) -> Result<(), Memory>
    requires unnamed { ask.now.token ≡ None }
    requires now { IsDated now }
    ensures taken { OnOk result (tokens.new ≡ after_take tokens.old ask.now now) }
    ensures kept { OnErr result (tokens.new ≡ tokens.old) }
    ensures wants { OnErr result (makes_entry (outcome tokens.old ask.now now) ≡ true) }
{
    if tokens.made() >= MOST_MADE {
        return if tokens.makes_entry(ask, now) {
            Err(Memory::wanting())
        } else {
            Ok(())
        };
    }
    match tokens.take(ask, now) {
        Err(TakeRefused::Memory) => Err(Memory::wanting()),
        _ => Ok(()),
    }
}

/// Takes a token of a pool, or waits for it.
#[tactic(auto, using(crate::proofs::Untaken::none_taken_of))]
fn take_of_pool(named: &mut PoolSem, ask: &Ask, now: Moment) -> Result<(), Memory>
    requires place { is_place (length named.old.tokens) ask.now.token ≡ true }
    requires now { IsDated now }
    ensures taken { OnOk result (named.new ≡ pool.after_take named.old ask.now now) }
    ensures kept { OnErr result (named.new ≡ named.old) }
    ensures wants { OnErr result (pool.makes_entry (pool.outcome named.old ask.now now) ≡ true) }
{
    if named.made() >= MOST_MADE {
        return if named.makes_entry(ask, now) {
            Err(Memory::wanting())
        } else {
            Ok(())
        };
    }
    match named.take(ask, now) {
        Err(TakeRefused::Memory) => Err(Memory::wanting()),
        _ => Ok(()),
    }
}

impl SemaphoreRow {
    /// What a client is told that asks for a token of this semaphore, as `take_control_told` tells it of the one that is
    /// named. Nothing is taken yet. Want of memory is told of no request that is refused, and while the semaphore made
    /// fewer than 2^63 entries only where the client is told the name of its token.
    pub fn take_told(
        &self,
        alloc: Global,
        client: u32,
        asked: &TakeControl,
    ) -> Result<TakeDone, Refuse>
        ensures told { Serves result
            (first_of (take_conditions_in client asked.now self.now.semaphore))
            (Some (take_told_in asked.now self.now.semaphore)) }
        ensures wants { made_in self.now.semaphore < 2 ^ 63 → result ≡ Err OutOfMemory
            → names_token (take_told_in asked.now self.now.semaphore) ≡ true }
    {
        match take_cause(&self.semaphore, client, asked) {
            Some(error) => Err(Refuse::Service(error)),
            None => Ok(take_told(alloc, &self.semaphore, asked)?),
        }
    }

    /// Who is granted the token of this semaphore that the client gives back, as `relinquish_control_told` tells it of
    /// the one that is named. Nothing is given back yet, and no memory is taken.
    pub fn relinquish_told(
        &self,
        client: u32,
        asked: &RelinquishControl,
    ) -> Result<Option<Grant>, ServiceError>
        ensures { ServesAlways result
            (first_of (relinquish_conditions_in client asked.now self.now.semaphore))
            (Some (relinquish_grant_in client asked.now self.now.semaphore)) }
    {
        match relinquish_cause(&self.semaphore, client, asked) {
            Some(error) => Err(error),
            None => Ok(relinquish_grant(&self.semaphore, client, asked)),
        }
    }

    /// Asks for a token of this semaphore: the client has it, or waits. The one refusal is want of memory, and only
    /// where an entry is made; then all is as before.
    pub fn take(
        &mut self,
        client: u32,
        invoke: u32,
        asked: &TakeControl,
        now: Moment,
    ) -> Result<(), Memory>
        requires now { IsDated now }
        ensures taken { OnOk result
            (self.new ≡ changed_row (with_take client invoke asked.now now) self.old) }
        ensures kept { OnErr result (self.new ≡ self.old) }
        ensures wants { OnErr result
            (makes_entry_in client invoke asked.now now self.old.semaphore ≡ true) }
    {
        match &mut self.semaphore {
            Semaphore::Token(tokens) => {
                take_token(tokens, &ask_of(client, invoke, None, asked), now)
            }
            Semaphore::Pool(pool) => {
                let place = place_asked(pool, asked.token.as_ref());
                take_of_pool(pool, &ask_of(client, invoke, place, asked), now)
            }
        }
    }

    /// Gives the client's token of this semaphore back, of a pool the one that is named: it is granted to the entry that
    /// is served next with it, or is free. It takes no memory.
    pub fn relinquish(&mut self, client: u32, token: Option<&Identifier>, now: Moment)
        requires { IsDated now }
        ensures { self.new
            ≡ changed_row (with_token_back client (option_copied token.entry) now) self.old }
    {
        match &mut self.semaphore {
            Semaphore::Token(tokens) => {
                let _ = tokens.relinquish(client, None, now);
            }
            Semaphore::Pool(pool) => {
                let place = place_asked(pool, token);
                let _ = pool.relinquish(client, place, now);
            }
        }
    }

    /// A queued entry goes.
    fn cancel(&mut self, entry: u64)
        requires { option_map is_queued (numbered entry (entries_of self.old)) ≡ Some true }
        ensures { self.new ≡ changed_row (without_entry entry) self.old }
    {
        match &mut self.semaphore {
            Semaphore::Token(tokens) => tokens.cancel(entry),
            Semaphore::Pool(pool) => pool.cancel(entry),
        }
    }
}

/// Asks for a token (ISO 9506-1, TakeControl): the client has it, or waits. The one refusal is want of memory, and only
/// where an entry is made; then all is as before.
pub fn take_control(
    semaphores: &mut Semaphores,
    client: u32,
    invoke: u32,
    now: Moment,
    asked: &TakeControl,
) -> Result<(), Memory>
    requires now { IsDated now }
    ensures taken { OnOk result
        (semaphores.new ≡ take_after client invoke now asked.now semaphores.old) }
    ensures kept { OnErr result (semaphores.new ≡ semaphores.old) }
    ensures wants { OnErr result (makes_entry_of client invoke asked.now now
        (semaphore client asked.now.name semaphores.old) ≡ true) }
{
    match semaphores.named_mut(client, &asked.name) {
        None => Ok(()),
        Some(row) => row.take(client, invoke, asked, now),
    }
}

/// Why a token of a token semaphore is not given back.
fn token_relinquish_cause(
    tokens: &TokenSem,
    client: u32,
    asked: &RelinquishControl,
) -> Option<ServiceError>
    ensures { result ≡ first_of (relinquish_conditions_in client asked.now (Token tokens.now)) }
{
    if asked.token.is_some() {
        return Some(ServiceError::TYPE_INCONSISTENT);
    }
    if !tokens.owns(client) {
        return Some(ServiceError::OBJECT_STATE_CONFLICT);
    }
    None
}

/// Why a token of a pool is not given back.
fn pool_relinquish_cause(
    pool: &PoolSem,
    client: u32,
    asked: &RelinquishControl,
) -> Option<ServiceError>
    ensures { result ≡ first_of (relinquish_conditions_in client asked.now (Pool pool.now)) }
{
    if asked.token.is_none() {
        return Some(ServiceError::TYPE_INCONSISTENT);
    }
    let place = place_asked(pool, asked.token.as_ref());
    if place.is_none() {
        return Some(ServiceError::OBJECT_NON_EXISTENT);
    }
    if !pool.owns_token(client, place) {
        return Some(ServiceError::OBJECT_STATE_CONFLICT);
    }
    None
}

/// Why a token is not given back.
fn relinquish_cause(
    semaphore: &Semaphore,
    client: u32,
    asked: &RelinquishControl,
) -> Option<ServiceError>
    ensures { result ≡ first_of (relinquish_conditions_in client asked.now semaphore.now) }
{
    match semaphore {
        Semaphore::Token(tokens) => token_relinquish_cause(tokens, client, asked),
        Semaphore::Pool(pool) => pool_relinquish_cause(pool, client, asked),
    }
}

/// Who is granted the token that the client gives back.
fn relinquish_grant(semaphore: &Semaphore, client: u32, asked: &RelinquishControl) -> Option<Grant>
    ensures { result ≡ relinquish_grant_in client asked.now semaphore.now }
{
    match semaphore {
        Semaphore::Token(tokens) => tokens.heir(client),
        Semaphore::Pool(pool) => pool.heir(client, place_asked(pool, asked.token.as_ref())),
    }
}

/// Who is granted the token that a client gives back (ISO 9506-2, RelinquishControl), if anyone is; the client itself
/// is answered at once. Object-non-existent where the semaphore is missing; type-inconsistent where a token of a token
/// semaphore is named, or none of a pool; object-non-existent where the pool has no token of that name;
/// object-state-conflict where the client owns none, or not that one. Nothing is given back yet, and no memory is
/// taken.
pub fn relinquish_control_told(
    semaphores: &Semaphores,
    client: u32,
    asked: &RelinquishControl,
) -> Result<Option<Grant>, ServiceError>
    ensures { ServesAlways result (relinquish_cause client asked.now semaphores.now)
        (relinquish_grant client asked.now semaphores.now) }
{
    match semaphores.named(client, &asked.name) {
        None => Err(ServiceError::OBJECT_NON_EXISTENT),
        Some(row) => row.relinquish_told(client, asked),
    }
}

/// Gives the client's token of the semaphore of that name back (ISO 9506-1, RelinquishControl), of a pool the one that
/// is named: it is granted to the entry that is served next with it, or is free. It takes no memory.
pub fn relinquish_control(
    semaphores: &mut Semaphores,
    key: &Key,
    client: u32,
    token: Option<&Identifier>,
    now: Moment,
)
    requires { IsDated now }
    ensures { semaphores.new
        ≡ relinquished key.now client (option_copied token.entry) now semaphores.old }
{
    if let Some(row) = semaphores.get_mut(key) {
        row.relinquish(client, token, now);
    }
}

/// Whether the entry of that number is there and waits.
fn waits(entries: &[SemEntry], number: u64) -> bool
    ensures { result ≡ entry_waits (numbered number entries.now) }
{
    match numbered(number, entries) {
        None => false,
        Some(entry) => entry.is_queued(),
    }
}

/// Whether the entry of that number waits in the semaphore of that name.
fn waits_at(semaphores: &Semaphores, key: &Key, entry: u64) -> bool
    ensures { result ≡ entry_waits (entry_in key.now entry semaphores.now) }
{
    match semaphores.get(key) {
        None => false,
        Some(row) => waits(row.entries(), entry),
    }
}

/// Takes a queued entry out of the semaphore of that name.
fn cancel_entry(semaphores: &mut Semaphores, key: &Key, entry: u64)
    requires { option_map is_queued (entry_in key.now entry semaphores.old) ≡ Some true }
    ensures { semaphores.new ≡ cancel_after key.now entry semaphores.old }
{
    if let Some(row) = semaphores.get_mut(key) {
        row.cancel(entry);
    }
}

/// Takes the entry of that number out of the semaphore of that name, where it waits there (ISO 9506-1, Cancel of a
/// TakeControl). It takes no memory.
pub fn cancel_take(semaphores: &mut Semaphores, key: &Key, entry: u64)
    ensures { semaphores.new ≡ cancelled key.now entry semaphores.old }
{
    if waits_at(semaphores, key, entry) {
        cancel_entry(semaphores, key, entry);
    }
}
