//! What the parts that are held show.

ghost use Rattle.std.specs.Prelude.{◌≡◌, ◌≤◌, Some, IfNone, IfSome};
ghost use Rattle.std.specs.Option.{option_copied};
ghost use Rattle.mms_types.specs.Moments.{IsDated};
ghost use Rattle.part_table.specs.Held.{held_at};
ghost use Rattle.cell_services.specs.Facts.{is_domain_live};
ghost use Rattle.step_parts.specs.Partition.{client_place, clock_in, clock_place, domains_in, domains_place, IsClient};

use crate::tables::{BEFORE_CLIENTS, DOMAINS};
use crate::{Cell, Part};
use association::ClientPart;
use mms_types::{Identifier, Moment};
use part_table::Hand;

/// The part of a client, which is held.
pub fn client_held(held: &Hand<Cell>, client: u32) -> &ClientPart
    requires small { client ≤ 64 }
    requires held { IsClient (held_at held.now (client_place client)) }
    ensures { held_at held.now (client_place client) ≡ Some (Part.Client result.now) }
{
    match held.get(BEFORE_CLIENTS + client) {
        Some(Part::Client(client)) => client.part(),
        _ => unreachable!(),
    }
}

/// The part of a client, where it is held.
pub fn part_held(held: &Hand<Cell>, client: u32) -> Option<&ClientPart>
    requires small { client ≤ 64 }
    ensures some { IfSome result (λ part.
        held_at held.now (client_place client) ≡ Some (Part.Client part.now)) }
    ensures none { IfNone result (IsClient (held_at held.now (client_place client)) → ⊥) }
{
    match held.get(BEFORE_CLIENTS + client) {
        Some(Part::Client(client)) => Some(client.part()),
        _ => None,
    }
}

/// The moment, where the clock is held, and else 0.
pub fn now_held(held: &Hand<Cell>) -> Moment
    ensures moment { result.0 ≡ clock_in (held_at held.now clock_place) }
    ensures dated { IsDated result }
{
    match held.get(0) {
        Some(Part::Clock(clock)) => clock.now(),
        _ => Moment(0),
    }
}

/// Whether that domain is live, by the domains that are held; false where none has to be.
pub fn live_held(held: &Hand<Cell>, domain: Option<&Identifier>) -> bool
    ensures { result ≡ is_domain_live (option_copied domain.entry)
        (domains_in (held_at held.now domains_place)) }
{
    let Some(name) = domain else {
        return false;
    };
    match held.get(u32::from(DOMAINS)) {
        Some(Part::Domains(table)) => table.domains().is_live(name),
        _ => false,
    }
}
