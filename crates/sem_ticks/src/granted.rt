//! Who is granted a token.

ghost use Rattle.std.specs.Prelude.{◌≡◌, ◌≢◌, Err, IfOk, None, OnErr, Some, [], true};
ghost use Rattle.mms_types.specs.Moments.{IsDated};
ghost use Rattle.mms_types.specs.Serves.{Serves};
ghost use Rattle.mms_types.specs.declared.refuse.Refuse.TheVariants.{Memory as OutOfMemory};
ghost use Rattle.mms_time.specs.Loss.{owns_any};
ghost use Rattle.mms_time.specs.Services.{is_named, relinquish_cause, relinquish_grant};
ghost use Rattle.sem_ticks.specs.Granted.{all_granted, granted, lost_granted, relinquish_granted};

use mms_time::{Semaphores, grant_answer, relinquish_control_told};
use mms_types::{Key, Memory, Moment, Refuse, RelinquishControl, TakeControlAnswer};
use std::alloc::Global;
use token_sem::Grant;

/// A client that waited for a token has one: its request of that invokeID is answered so (ISO 9506-2, TakeControl).
#[derive(Drop)]
pub struct Granted {
    /// The client.
    pub client: u32,
    /// The invokeID of its request.
    pub invoke: u32,
    /// The name of the token where a pool was asked for any, and no result else.
    pub answer: TakeControlAnswer,
}

/// A grant in the semaphore of that name, with what is answered. Memory is wanted only where a name is told.
pub(crate) fn with_answer(
    alloc: Global,
    semaphores: &Semaphores,
    key: &Key,
    grant: &Grant,
) -> Result<Granted, Memory>
    ensures told { IfOk result (λ told. told ≡ granted semaphores.now (key.now, grant.now)) }
    ensures wants { OnErr result
        (is_named (granted semaphores.now (key.now, grant.now)).answer ≡ true) }
{
    Ok(Granted {
        client: grant.client,
        invoke: grant.invoke,
        answer: grant_answer(alloc, semaphores, key, grant)?,
    })
}

/// Grants, each in the semaphore of its name, with what is answered.
fn all_granted(
    alloc: Global,
    semaphores: &Semaphores,
    grants: &[(Key, Grant)],
) -> Result<Vec<Granted>, Memory>
    ensures told { IfOk result (λ told. told.items ≡ all_granted semaphores.now grants.now) }
    ensures wants { OnErr result (grants.now ≢ []) }
{
    let mut told = Vec::with_capacity(alloc, grants.len())?;
    for named in grants {
        told.push(with_answer(alloc, semaphores, &named.0, &named.1)?)?;
    }
    Ok(told)
}

/// Who is granted the token that a client gives back, if anyone is, or why it isn't given back (ISO 9506-1,
/// RelinquishControl), as `mms_time` has it. Nothing changes. Want of memory is told of no request that is refused, nor
/// where nobody is granted the token.
pub fn relinquish_told(
    alloc: Global,
    semaphores: &Semaphores,
    client: u32,
    asked: &RelinquishControl,
) -> Result<Option<Granted>, Refuse>
    ensures told { Serves result (relinquish_cause client asked.now semaphores.now)
        (relinquish_granted client asked.now semaphores.now) }
    ensures wants { result ≡ Err OutOfMemory
        → relinquish_grant client asked.now semaphores.now ≢ Some None }
{
    match relinquish_control_told(semaphores, client, asked) {
        Err(error) => Err(Refuse::Service(error)),
        Ok(None) => Ok(None),
        Ok(Some(grant)) => {
            let key = asked.name.key(alloc, client)?;
            Ok(Some(with_answer(alloc, semaphores, &key, &grant)?))
        }
    }
}

/// Who is granted a token where a client is lost, by name of semaphore and number of the client's entry. Nothing
/// changes. Memory is wanted only where the client owns a token.
pub fn lose_told(
    alloc: Global,
    semaphores: &Semaphores,
    client: u32,
    now: Moment,
) -> Result<Vec<Granted>, Memory>
    requires { IsDated now }
    ensures told { IfOk result (λ grants. grants.items ≡ lost_granted client now semaphores.now) }
    ensures wants { OnErr result (owns_any client semaphores.now ≡ true) }
{
    let grants = mms_time::lose_told(alloc, semaphores, client, now)?;
    all_granted(alloc, semaphores, &grants)
}
