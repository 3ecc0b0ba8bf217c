//! The guards of variables.

ghost use Rattle.std.specs.Prelude.{◌≡◌};
ghost use Rattle.std.specs.List.{list_any};
ghost use Rattle.token_sem.specs.Semaphore.{owned_by};
ghost use Rattle.mms_time.specs.Guards.{owns_guard};
ghost use Rattle.mms_time.specs.Semaphores.{entries_of};

use crate::{Semaphore, SemaphoreRow, Semaphores};
use mms_types::Identifier;

impl SemaphoreRow {
    /// Whether the client has an owner entry.
    pub(crate) fn owns(&self, client: u32) -> bool
        ensures { result ≡ list_any (owned_by client) (entries_of self.now) }
    {
        match &self.semaphore {
            Semaphore::Token(tokens) => tokens.owns(client),
            Semaphore::Pool(pool) => pool.owns(client),
        }
    }
}

/// Whether the client owns a token of the semaphore of the VMD of that name, which guards variables. False where there
/// is no such semaphore; a hung token is owned by nobody. It takes no memory.
pub fn owns_guard(semaphores: &Semaphores, client: u32, guard: &Identifier) -> bool
    ensures { result ≡ owns_guard client guard.now semaphores.now }
{
    match semaphores.of_vmd(guard) {
        None => false,
        Some(row) => row.owns(client),
    }
}
