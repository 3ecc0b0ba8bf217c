//! DefineSemaphore and DeleteSemaphore.

ghost use Rattle.std.specs.Prelude.{◌≡◌, ◌==◌, Bool, None, OnErr, OnOk, length, not};
ghost use Rattle.mms_time.specs.Semaphores.{entries_of};
ghost use Rattle.mms_time.specs.Services.{define_after, define_cause, delete_cause, deleted};

use crate::{Semaphore, SemaphoreRow, Semaphores};
use mms_types::{DefineSemaphore, Key, Memory, ObjectName, ServiceError};
use std::alloc::Global;
use token_sem::TokenSem;

/// The most semaphores.
const MOST_SEMAPHORES: usize = 256;

/// Why a semaphore is not defined (ISO 9506-2, DefineSemaphore): object-undefined where the domain of its scope is not
/// live, as `domain_live` tells; object-exists where there is one of that name; capability-unavailable where there are
/// 256.
pub fn define_semaphore_cause(
    semaphores: &Semaphores,
    client: u32,
    asked: &DefineSemaphore,
    domain_live: bool,
) -> Option<ServiceError>
    ensures { result ≡ define_cause domain_live client asked.now semaphores.now }
{
    if matches!(asked.name, ObjectName::Domain { .. }) && !domain_live {
        return Some(ServiceError::OBJECT_UNDEFINED);
    }
    if semaphores.named(client, &asked.name).is_some() {
        return Some(ServiceError::OBJECT_EXISTS);
    }
    if semaphores.len() >= MOST_SEMAPHORES {
        return Some(ServiceError::CAPABILITY_UNAVAILABLE);
    }
    None
}

/// Defines a semaphore (ISO 9506-1, DefineSemaphore): it is the last one of its part, and its tokens are free. The
/// one refusal is want of memory; then all is as before.
#[tactic(auto, using(crate::proofs::Unopposed::nothing_against, crate::proofs::Defined::defined_last))]
pub fn define_semaphore(
    alloc: Global,
    semaphores: &mut Semaphores,
    client: u32,
    asked: &DefineSemaphore,
) -> Result<(), Memory>
    requires { (live : Bool) × (define_cause live client asked.now semaphores.old ≡ None) }
    ensures defined { OnOk result (semaphores.new ≡ define_after client asked.now semaphores.old) }
    ensures kept { OnErr result (semaphores.new ≡ semaphores.old) }
{
    let key = asked.name.key(alloc, client)?;
    let row = SemaphoreRow {
        configured: false,
        semaphore: Semaphore::Token(TokenSem::new(alloc, asked.tokens)?),
    };
    semaphores.insert(key, row)?;
    Ok(())
}

impl SemaphoreRow {
    /// Whether there is any entry.
    fn is_in_use(&self) -> bool
        ensures { result ≡ not (length (entries_of self.now) == 0) }
    {
        match &self.semaphore {
            Semaphore::Token(tokens) => tokens.in_use(),
            Semaphore::Pool(pool) => pool.in_use(),
        }
    }
}

/// Why a semaphore is not deleted (ISO 9506-2, DeleteSemaphore): object-non-existent where it is missing;
/// object-access-denied where it was configured; object-constraint-conflict where it has an entry.
pub fn delete_semaphore_cause(
    semaphores: &Semaphores,
    client: u32,
    name: &ObjectName,
) -> Option<ServiceError>
    ensures { result ≡ delete_cause client name.now semaphores.now }
{
    let Some(row) = semaphores.named(client, name) else {
        return Some(ServiceError::OBJECT_NON_EXISTENT);
    };
    if row.configured {
        return Some(ServiceError::OBJECT_ACCESS_DENIED);
    }
    if row.is_in_use() {
        return Some(ServiceError::OBJECT_CONSTRAINT_CONFLICT);
    }
    None
}

/// Deletes the semaphore of that name (ISO 9506-1, DeleteSemaphore). It takes no memory.
pub fn delete_semaphore(semaphores: &mut Semaphores, key: &Key)
    ensures { semaphores.new ≡ deleted key.now semaphores.old }
{
    semaphores.remove(key);
}
