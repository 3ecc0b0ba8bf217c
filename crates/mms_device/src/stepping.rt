//! An event's step on the parts that a caller holds.

ghost use Rattle.std.specs.Prelude.{◌≡◌, ◌≤◌, length, OnErr, OnOk};
ghost use Rattle.mms_types.specs.Actors.{IsAmong};
ghost use Rattle.mms_types.specs.declared.event.CellEvent.TheVariants.{Drain};
ghost use Rattle.part_table.specs.Held.{held_at, IsHandOf};
ghost use Rattle.step_parts.specs.After.{after};
ghost use Rattle.step_parts.specs.Partition.{client_place, outbox_held, parts_of, IsClient};
ghost use Rattle.step_parts.specs.State.{State};
ghost use Rattle.mms_device.specs.Stepping.{MayStep};

use cell_client::Found;
use mms_types::{CellEvent, Memory, What};
use part_table::Pass;
use std::alloc::Global;
use step_apply::apply_by;
use step_parts::Cell;

/// Does the step of an event, whose octets come to that, on the parts that the caller holds.
pub(crate) fn on_hand(
    alloc: Global,
    pass: &mut Pass<Cell>,
    event: &CellEvent,
    found: &Option<Found<'_>>,
) -> Result<(), Memory>
    requires may { MayStep event.now found.now pass.old.hand }
    ensures pass { pass.new ≡ record pass.old { hand = pass.new.hand } }
    ensures done { OnOk result (pass.new.hand ≡ after event.now pass.old.hand) }
    ensures kept { OnErr result (pass.new ≡ pass.old) }
{
    apply_by(alloc, event, found, pass.hand_mut())
}

/// Takes what is to be sent to a client out of its part, which the caller holds.
pub(crate) fn drain(client: u32, pass: &mut Pass<Cell>) -> Vec<What>
    requires small { client ≤ 64 }
    requires held { IsClient (held_at pass.old.hand (client_place client)) }
    ensures pass { pass.new ≡ record pass.old { hand = pass.new.hand } }
    ensures outputs { result.items ≡ outbox_held (held_at pass.old.hand (client_place client)) }
    ensures parts { (s : State) → IsHandOf pass.old.hand (parts_of s)
        → IsAmong (length s.clients) (Drain client)
        → pass.new.hand ≡ after (Drain client) pass.old.hand }
{
    step_apply::drain(client, pass.hand_mut())
}
