//! Tokens of a pool by their names.

ghost use Rattle.std.specs.Prelude.{◌≡◌, ◌≢◌, IfOk, None, OnErr, length, true};
ghost use Rattle.std.specs.Option.{option_copied};
ghost use Rattle.pool_sem.specs.Pools.{is_place};
ghost use Rattle.mms_time.specs.Semaphores.{names_in};
ghost use Rattle.mms_time.specs.Services.{grant_answer, grant_answer_in, is_named, name_at, named_answer, place_asked};

use crate::{Semaphore, SemaphoreRow, Semaphores};
use mms_types::{Identifier, Key, Memory, TakeControlAnswer};
use pool_sem::PoolSem;
use std::alloc::Global;
use token_sem::Grant;

/// The place of the token that is named. None also where the pool has no such token.
pub(crate) fn place_asked(pool: &PoolSem, asked: Option<&Identifier>) -> Option<u32>
    ensures place { result ≡ place_asked (option_copied asked.entry) pool.now.tokens }
    ensures there { is_place (length pool.now.tokens) result ≡ true }
{
    match asked {
        None => None,
        Some(name) => pool.place_of(name),
    }
}

/// The name of the token at that place, copied. Memory is wanted only for a name that is there.
pub(crate) fn name_at(
    alloc: Global,
    token: Option<u32>,
    names: &[Identifier],
) -> Result<Option<Identifier>, Memory>
    ensures name { IfOk result (λ name. name ≡ name_at token names.now) }
    ensures wants { OnErr result (name_at token names.now ≢ None) }
{
    match token {
        None => Ok(None),
        Some(place) => match names.get(place as usize) {
            None => Ok(None),
            Some(name) => Ok(Some(name.copy(alloc)?)),
        },
    }
}

/// What a client is answered that has a token, which is named where it has a name to tell.
pub(crate) fn named_answer(name: Option<Identifier>) -> TakeControlAnswer
    ensures { result ≡ named_answer name }
{
    match name {
        None => TakeControlAnswer::NoResult,
        Some(name) => TakeControlAnswer::NamedToken(name),
    }
}

impl SemaphoreRow {
    /// What the client is answered that was granted a token of this semaphore, as `grant_answer` tells it of the one that
    /// is named. The one refusal is want of memory, and only where a name is told.
    pub fn grant_answer(&self, alloc: Global, grant: &Grant) -> Result<TakeControlAnswer, Memory>
        ensures told { IfOk result (λ answer.
            answer ≡ grant_answer_in grant.now self.now.semaphore) }
        ensures wants { OnErr result
            (is_named (grant_answer_in grant.now self.now.semaphore) ≡ true) }
    {
        match &self.semaphore {
            Semaphore::Token(_) => Ok(TakeControlAnswer::NoResult),
            Semaphore::Pool(pool) => Ok(named_answer(name_at(alloc, grant.token, pool.tokens())?)),
        }
    }
}

/// What the client is answered that was granted a token of the semaphore of that name (ISO 9506-2, TakeControl): its
/// name, where a pool was asked for any, and no result else. The names of a pool's tokens never change. The one refusal
/// is want of memory, and only where a name is told.
pub fn grant_answer(
    alloc: Global,
    semaphores: &Semaphores,
    key: &Key,
    grant: &Grant,
) -> Result<TakeControlAnswer, Memory>
    ensures told { IfOk result (λ answer.
        answer ≡ grant_answer key.now grant.now semaphores.now) }
    ensures wants { OnErr result
        (is_named (grant_answer key.now grant.now semaphores.now) ≡ true) }
{
    match semaphores.get(key) {
        None => Ok(TakeControlAnswer::NoResult),
        Some(row) => row.grant_answer(alloc, grant),
    }
}
