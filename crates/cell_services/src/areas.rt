//! What the tables of other areas tell a request.

ghost use Rattle.std.specs.Prelude.{◌≡◌, IfOk};
ghost use Rattle.mms_time.specs.Guards.{owns_guard};
ghost use Rattle.cell_services.specs.Facts.{is_scope_used};
ghost use Rattle.cell_services.specs.Tables.{Tables as Rows};

use mms_journal::Journals;
use mms_time::{Semaphores, owns_guard};
use mms_types::{Identifier, Memory, Scope};
use serve_events::EventTables;
use std::alloc::Global;
use variable_services::VariableTables;
use variables::OwnsGuards;

/// The guards of which a client owns a token, as they are looked up among the semaphores.
#[derive(Drop)]
pub struct GuardsOf<'a> {
    /// The client.
    pub client: u32,
    /// The semaphores.
    pub semaphores: &'a Semaphores,
}

impl<'a> OwnsGuards for GuardsOf<'a> {
    ghost owns = { λ by guard. owns_guard by.client guard by.semaphores.now };

    fn owns(&self, guard: &Identifier) -> bool {
        owns_guard(self.semaphores, self.client, guard)
    }
}

/// Whether some object has that domain for its scope: a variable, a list of variables, an event condition, an event
/// enrollment, a journal or a semaphore.
pub fn is_scope_used(
    alloc: Global,
    variables: &VariableTables,
    events: &EventTables,
    journals: &Journals,
    semaphores: &Semaphores,
    domain: &Identifier,
) -> Result<bool, Memory>
    ensures { IfOk result (λ used. (t : Rows) → t.variables ≡ variables.now
        → t.events ≡ events.now → t.journals ≡ journals.now
        → t.semaphores ≡ semaphores.now → used ≡ is_scope_used domain.now t) }
{
    let scope = Scope::Domain(domain.copy(alloc)?);
    Ok(
        variables.vars.has_any_of(&scope)
            || variables.lists.has_any_of(&scope)
            || events.conditions.has_any_of(&scope)
            || events.enrolments.has_any_of(&scope)
            || journals.has_any_of(&scope)
            || semaphores.has_any_of(&scope),
    )
}
