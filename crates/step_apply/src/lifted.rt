//! The tables that are lifted out of held parts: an event is served on them, and they are put back.

ghost use Rattle.std.specs.Prelude.{◌≡◌, ◌≤◌, length};
ghost use Rattle.step_apply.specs.Lifting.{tabled};
ghost use Rattle.cell_services.specs.Meant.{no_tables};
ghost use Rattle.step_parts.specs.Partition.{clients_among, tables_held};

use cell_services::Tables;
use part_table::Hand;
use std::alloc::Global;
use step_parts::Cell;
use step_parts::slots::exchange;
use step_parts::tables::semaphores;

/// Exchanges the tables with those of the parts that are held.
fn exchange_all(held: &mut Hand<Cell>, clients: u32, tables: &mut Tables)
    requires many { clients ≡ clients_among (length held.old) }
    requires few { clients ≤ 64 }
    ensures parts { held.new ≡ tabled tables.old held.old }
    ensures tables { tables.old ≡ no_tables → tables.new ≡ tables_held clients held.old }
{
    exchange(held, 0, &mut tables.clock);
    exchange(held, 1, &mut tables.variables);
    exchange(held, 2, &mut tables.domains);
    exchange(held, 3, &mut tables.programs);
    exchange(held, 4, &mut tables.events);
    exchange(held, 5, &mut tables.journals);
    let place = u32::from(semaphores(clients));
    exchange(held, place, &mut tables.semaphores);
}

/// Lifts the tables out of the parts that are held, and leaves empty ones there.
pub(crate) fn lift(alloc: Global, held: &mut Hand<Cell>, clients: u32) -> Tables
    requires many { clients ≡ clients_among (length held.old) }
    requires few { clients ≤ 64 }
    ensures tables { result ≡ tables_held clients held.old }
    ensures left { held.new ≡ tabled no_tables held.old }
{
    let mut tables = Tables::empty(alloc);
    exchange_all(held, clients, &mut tables);
    tables
}

/// Puts the tables back into the parts that are held.
pub(crate) fn lower(held: &mut Hand<Cell>, clients: u32, tables: Tables)
    requires many { clients ≡ clients_among (length held.old) }
    requires few { clients ≤ 64 }
    ensures { held.new ≡ tabled tables held.old }
{
    let mut tables = tables;
    exchange_all(held, clients, &mut tables);
}
