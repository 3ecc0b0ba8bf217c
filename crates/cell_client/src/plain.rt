//! What is answered to a request that is never refused and that the row of its client alone answers.

ghost use Rattle.std.specs.Prelude.{◌≡◌, IfOk};
ghost use Rattle.cell_client.specs.Requests.{identity};

use association::ClientPart;
use mms_types::{Answer, IdentifyAnswer, Memory, StatusAnswer};
use std::alloc::Global;

/// State changes are allowed, and the device is operational (ISO 9506-2, Status).
pub const STATUS: Answer = Answer::Status(StatusAnswer {
    logical: 0,
    physical: 0,
});

/// The device's texts (ISO 9506-2, Identify).
#[inline(always)]
pub fn identity(alloc: Global, part: &ClientPart) -> Result<Answer, Memory>
    ensures { IfOk result (λ answer. answer ≡ identity part.now.row) }
{
    let device = part.constants();
    Ok(Answer::Identify(IdentifyAnswer {
        vendor: device.vendor.copy(alloc)?,
        model: device.model.copy(alloc)?,
        revision: device.revision.copy(alloc)?,
    }))
}
