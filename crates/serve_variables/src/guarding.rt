//! The guards of the variables that a request writes: semaphores of the VMD, of which a client has to own a token that
//! writes.

ghost use Rattle.std.specs.Prelude.{◌≡◌, is_some};
ghost use Rattle.std.specs.List.{list_any};
ghost use Rattle.serve_variables.specs.Variables.{guards_asked};

use mms_types::VariableRequest;
use variable_services::VariableTables;

/// Whether a request of a client writes a variable that has a guard.
pub fn is_guarded(variables: &VariableTables, client: u32, asked: VariableRequest<'_>) -> bool
    ensures { result ≡ list_any is_some (guards_asked asked.entry client variables.now) }
{
    match asked {
        VariableRequest::Write(asked) => variables.is_guarded(client, asked),
        _ => false,
    }
}
