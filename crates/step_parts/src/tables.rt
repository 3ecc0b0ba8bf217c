//! The numbers of the parts of tables.

ghost use Rattle.std.specs.Prelude.{◌≡◌, ◌+◌, ◌≤◌, length};
ghost use Rattle.step_parts.specs.Partition.{clients_among, semaphores_place};

use crate::Cell;
use part_table::Hand;

/// How many parts are no client's.
const TABLES: u32 = 7;

/// How many clients there are, by the parts that have a place in a hand.
pub fn clients_of(held: &Hand<Cell>) -> u32
    requires { length held.now ≤ 256 }
    ensures { result ≡ clients_among (length held.now) }
{
    (held.places() as u32).saturating_sub(TABLES)
}

/// The clock.
pub const CLOCK: u8 = 0;

/// Variables and their lists.
pub const VARIABLES: u8 = 1;

/// Domains and uploads.
pub const DOMAINS: u8 = 2;

/// Program invocations.
pub const PROGRAMS: u8 = 3;

/// Event conditions and the enrollments on them.
pub const EVENTS: u8 = 4;

/// Journals.
pub const JOURNALS: u8 = 5;

/// The number of the semaphores' part, which stands behind those of so many clients.
pub fn semaphores(clients: u32) -> u8
    requires { clients ≤ 64 }
    ensures { result ≡ semaphores_place clients }
{
    6 + clients as u8
}

/// The part of client c is this one and c.
pub const BEFORE_CLIENTS: u32 = 5;
