//! A request that waits is cancelled (ISO 9506-1, Cancel).

ghost use Rattle.std.specs.Prelude.{◌≡◌, OnErr, OnOk};
ghost use Rattle.std.specs.Option.{option_copied, option_map};
ghost use Rattle.cell_client.specs.Association.{cancel_told};
ghost use Rattle.cell_client.specs.Effects.{felt_all, settled};
ghost use Rattle.serve_semaphores.specs.Tokens.{rows_cancelled, waiting_of};

use association::{ClientPart, Waiting};
use cell_client::{Client, ClientTold, cancel_response, refusal};
use mms_time::{Semaphores, cancel_take};
use mms_types::{Memory, ServiceError};
use std::alloc::Global;

/// The request of that invokeID, where it waits.
fn waiting_of(part: &ClientPart, invoke: u32) -> Option<&Waiting>
    ensures { option_map (λ w. w.now) result ≡ waiting_of invoke part.now.row.waiting }
{
    part.waiting().iter().find(|row| row.invoke == invoke)
}

/// The entry of a request that waits is taken out, where there is one.
fn take_out(rows: &mut Semaphores, request: Option<&Waiting>)
    ensures { rows.new ≡ rows_cancelled (option_copied request.entry) rows.old }
{
    if let Some(request) = request {
        cancel_take(rows, &request.key, request.entry);
    }
}

/// Cancels the request of that invokeID: its entry waits no more, the cancellation is answered, and then the request,
/// with service-preempt and cancel. Without memory the part and the semaphores are as before.
pub fn cancel(
    alloc: Global,
    own: &mut Client,
    rows: &mut Semaphores,
    invoke: u32,
) -> Result<(), Memory>
    ensures told { OnOk result
        (own.new ≡ settled (felt_all (cancel_told invoke) own.old.row)) }
    ensures done { OnOk result
        (rows.new ≡ rows_cancelled (waiting_of invoke own.old.row.waiting) rows.old) }
    ensures kept { OnErr result (own.new ≡ own.old) }
    ensures same { OnErr result (rows.new ≡ rows.old) }
{
    let response = cancel_response(alloc, invoke)?;
    let refused = refusal(alloc, invoke, ServiceError::CANCEL)?;
    own.reserve(2, 0)?;
    take_out(rows, waiting_of(own.part(), invoke));
    own.tell(ClientTold::Answers(invoke));
    own.tell(response);
    own.tell(refused);
    Ok(())
}
