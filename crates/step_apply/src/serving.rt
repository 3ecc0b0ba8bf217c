//! An event is served on the tables that held parts show.

ghost use Rattle.std.specs.Prelude.{◌≡◌, ◌+◌, ◌≤◌, length, OnOk, OnErr, IfOk};
ghost use Rattle.part_table.specs.Held.{IsHandOf};
ghost use Rattle.parted_state.specs.Lifted.{put_in_place, tables_shown};
ghost use Rattle.step_parts.specs.State.{State};
ghost use Rattle.cell_services.specs.Acts.{all_done, plan_done};
ghost use Rattle.cell_services.specs.Changes.{MayChange};
ghost use Rattle.step_apply.specs.Tasks.{task_done, HoldsOwn, IsLeftTo, IsTimely};
ghost use Rattle.step_parts.specs.Partition.{cell, clients_among, parts_of};
ghost use Rattle.step_apply.specs.Rooms.{room_to, with_rooms, IsSettled};

use crate::lifted::{lift, lower};
use crate::telling::{make_rooms, release_all, tell_all};
use cell_client::{Act, ClientTold};
use cell_services::{Plan, Tables, planned, time_planned};
use mms_types::Memory;
use part_table::Hand;
use std::alloc::Global;
use step_parts::Cell;
use step_parts::held::client_held;

/// What is done on the tables.
#[derive(Clone, Copy)]
pub(crate) enum Task<'a> {
    /// What a client does: it is heard, or lost.
    Client(u32, Act<'a>),
    /// So many milliseconds go by.
    Time(u32),
}

/// Plans a task. Nothing changes here.
fn plan(alloc: Global, held: &Hand<Cell>, tables: &Tables, task: &Task<'_>) -> Result<Plan, Memory>
    requires own { HoldsOwn task.now held.now }
    requires time { IsTimely task.now tables.now }
    requires left { IsLeftTo task.now }
    ensures done { IfOk result (λ plan. plan_done tables.now plan.change plan.told.items
        ≡ task_done tables.now held.now task.now) }
    ensures may { IfOk result (λ plan. MayChange plan.change tables.now) }
{
    match *task {
        Task::Client(client, act) => planned(
            alloc,
            tables,
            client,
            client_held(held, client),
            &act,
        ),
        Task::Time(ms) => time_planned(alloc, tables, ms),
    }
}

/// Does on the tables that were lifted what is to be done, and answers who is told what, with room made for it. What
/// is done is planned first; the tables change last. Without memory the tables and the parts are as before.
fn done(
    alloc: Global,
    held: &mut Hand<Cell>,
    clients: u32,
    tables: &mut Tables,
    task: &Task<'_>,
) -> Result<Vec<(u32, ClientTold)>, Memory>
    requires few { clients ≤ 64 }
    requires settled { IsSettled (clients + 1) held.old }
    requires own { HoldsOwn task.now held.old }
    requires time { IsTimely task.now tables.old }
    requires left { IsLeftTo task.now }
    ensures done { IfOk result (λ told.
        all_done tables.new told.items ≡ task_done tables.old held.old task.now) }
    ensures rooms { IfOk result (λ told.
        held.new ≡ with_rooms (clients + 1) (room_to told.items) held.old) }
    ensures kept { OnErr result (held.new ≡ held.old) }
    ensures same { OnErr result (tables.new ≡ tables.old) }
{
    let Plan { change, told } = plan(alloc, held, tables, task)?;
    make_rooms(held, clients, told.as_slice())?;
    if let Err(error) = tables.change(alloc, change) {
        release_all(held, clients);
        return Err(error);
    }
    Ok(told)
}

/// Does something on the tables that held parts show. The tables are lifted out of the parts, what is done is planned
/// on them, and room is made in the part of each client that is told something. Then the tables change, they are put
/// back, and the clients are told, which can't fail. Without memory the parts are as before.
pub(crate) fn serve(
    alloc: Global,
    held: &mut Hand<Cell>,
    clients: u32,
    task: &Task<'_>,
) -> Result<(), Memory>
    requires of { (s : State) × IsHandOf held.old (parts_of s) }
    requires many { clients ≡ clients_among (length held.old) }
    requires few { clients ≤ 64 }
    requires own { HoldsOwn task.now held.old }
    requires time { IsTimely task.now (tables_shown cell held.old) }
    requires left { IsLeftTo task.now }
    ensures put { OnOk result (held.new
        ≡ put_in_place cell (task_done (tables_shown cell held.old) held.old task.now) held.old) }
    ensures kept { OnErr result (held.new ≡ held.old) }
{
    let mut tables = lift(alloc, held, clients);
    match done(alloc, held, clients, &mut tables, task) {
        Err(error) => {
            lower(held, clients, tables);
            Err(error)
        }
        Ok(told) => {
            lower(held, clients, tables);
            tell_all(held, clients, told);
            Ok(())
        }
    }
}
