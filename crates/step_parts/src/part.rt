//! The parts of the device.

use cell_client::Client;
use cell_services::Clock;
use mms_journal::Journals;
use mms_time::Semaphores;
use program_inv::Programs;
use serve_domains::DomainTables;
use serve_events::EventTables;
use variable_services::VariableTables;

/// A part of the device. With n clients there are n + 7 of them, in this order, with a part for each client.
pub enum Part {
    /// Part 0.
    Clock(Clock),
    /// Part 1: cells, named variables and lists of variables.
    Variables(VariableTables),
    /// Part 2: domains and uploads.
    Domains(DomainTables),
    /// Part 3: program invocations.
    Programs(Programs),
    /// Part 4: event conditions and the enrollments on them.
    Events(EventTables),
    /// Part 5: journals.
    Journals(Journals),
    /// Part 5 + c, of client c.
    Client(Client),
    /// Part 6 + n: semaphores.
    Semaphores(Semaphores),
}

impl Drop for Part {
    fn drop(self) {
        match self {
            Part::Clock(_clock) => {}
            Part::Variables(_variables) => {}
            Part::Domains(_domains) => {}
            Part::Programs(_programs) => {}
            Part::Events(_events) => {}
            Part::Journals(_journals) => {}
            Part::Client(_client) => {}
            Part::Semaphores(_semaphores) => {}
        }
    }
}
