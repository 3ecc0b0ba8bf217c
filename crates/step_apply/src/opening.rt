//! The parts at the start.

ghost use Rattle.std.specs.Prelude.{◌≡◌, IfOk, OnOk, map, [], ◌∷◌, ◌++◌};
ghost use Rattle.std.specs.Box.{box_value};
ghost use Rattle.cell_config.specs.Said.{IsConfig};
ghost use Rattle.mms_time.specs.Opening as pools;
ghost use Rattle.variable_services.specs.Services.{configured};
ghost use Rattle.step_parts.specs.State.{start, device_of};
ghost use Rattle.step_parts.specs.Partition.{parts_of};

use association::Constants;
use cell_client::Client;
use cell_config::Config;
use cell_services::Clock;
use mms_journal::Journals;
use mms_time::Semaphores;
use mms_types::Memory;
use program_inv::Programs;
use serve_domains::DomainTables;
use serve_events::EventTables;
use std::alloc::Global;
use step_parts::Part;
use variable_services::VariableTables;

/// What never changes of the device.
fn device(alloc: Global, config: &Config) -> Result<Constants, Memory>
    ensures { IfOk result (λ constants. constants ≡ device_of config.now) }
{
    Ok(Constants {
        edition: config.edition,
        vendor: config.vendor.copy(alloc)?,
        model: config.model.copy(alloc)?,
        revision: config.revision.copy(alloc)?,
    })
}

/// The cells and variables that are configured.
fn variables(alloc: Global, config: &Config) -> Result<VariableTables, Memory>
    requires config { IsConfig config.now }
    ensures { IfOk result (λ tables. tables
        ≡ configured config.now.cells config.now.variables) }
{
    let cells = config.cells.copy(alloc)?;
    VariableTables::new(alloc, cells, config.variables.copy(alloc)?)
}

/// The pools that are configured.
fn semaphores(alloc: Global, config: &Config) -> Result<Semaphores, Memory>
    requires config { IsConfig config.now }
    ensures { IfOk result (λ semaphores. semaphores ≡ pools.configured config.now.pools) }
{
    mms_time::configured(alloc, config.pools.copy(alloc)?)
}

/// Appends a part.
fn put(alloc: Global, parts: &mut Vec<Box<Part>>, part: Part) -> Result<(), Memory>
    ensures { OnOk result (map box_value parts.new.items
        ≡ map box_value parts.old.items ++ part ∷ []) }
{
    parts.push(Box::new(alloc, part)?)?;
    Ok(())
}

/// The parts of a configured device at the start: it is the configured moment, there are the configured cells,
/// variables and pools, and as many clients as are configured, no association is open, nothing waits and nothing is to
/// be sent.
#[tactic(auto, using(step_parts::proofs::PartsAfter::start_more))]
pub fn start_parts(alloc: Global, config: &Config) -> Result<Vec<Box<Part>>, Memory>
    requires config { IsConfig config.now }
    ensures { IfOk result (λ parts. map box_value parts.items ≡ parts_of (start config.now)) }
{
    let mut parts = Vec::with_capacity(alloc, config.clients as usize + 7)?;
    put(alloc, &mut parts, Part::Clock(Clock::new(config.start)))?;
    put(
        alloc,
        &mut parts,
        Part::Variables(variables(alloc, config)?),
    )?;
    put(alloc, &mut parts, Part::Domains(DomainTables::empty(alloc)))?;
    put(alloc, &mut parts, Part::Programs(Programs::new(alloc)))?;
    put(alloc, &mut parts, Part::Events(EventTables::empty(alloc)))?;
    put(alloc, &mut parts, Part::Journals(Journals::new(alloc)))?;
    for client in 0..config.clients {
        let device = device(alloc, config)?;
        put(
            alloc,
            &mut parts,
            Part::Client(Client::new(alloc, client + 1, device)),
        )?;
    }
    let semaphores = semaphores(alloc, config)?;
    put(alloc, &mut parts, Part::Semaphores(semaphores))?;
    Ok(parts)
}
