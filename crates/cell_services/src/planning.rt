//! What is done on the tables is planned first: all is read and made that may want memory, and nothing changes.

ghost use Rattle.std.specs.Prelude.{◌≡◌, ◌≢◌, ◌≤◌, ◌+◌, ◌++◌, ◌∷◌, IfOk, OnErr, OnOk, None};
ghost use Rattle.cell_services.specs.Acts.{act_done, plan_done, IsLeft};
ghost use Rattle.cell_ticks.specs.Deadlines.{next_due};
ghost use Rattle.cell_services.specs.Tables.{Tables as Rows, last_moment, moment_after};
ghost use Rattle.cell_services.specs.Changes.{changed, MayChange};
ghost use Rattle.cell_client.specs.Effects.{tell};
ghost use Rattle.mms_types.specs.declared.pdu.Pdu.TheVariants as pdu;
ghost use Rattle.cell_client.specs.Association.{abort_told, conclusion_told, keeps_open, sends, Concludes};
ghost use Rattle.cell_services.specs.Serving.{all_told, happened_told, happening_told, hears, loses, loss_also, passes};
ghost use Rattle.cell_client.specs.Telling.{effects_told};

use crate::tables::CellsOf;
use crate::{Change, Tables};
use association::ClientPart;
use cell_client::{
    Act, ClientTold, answer_octets, conclude_error, conclude_response, one_told, refusal,
};
use cell_ticks::{DatedHappening, DeviceTicked, tick_told};
use event_ticks::TurnTold;
use mms_pdu::Writer;
use mms_types::{Answer, Memory, Moment, ServiceError, What};
use sem_ticks::{Happening, lose_told};
use serve_events::{EventTables, tell_notices};
use serve_semaphores::{tell_grant, tell_grants};
use std::alloc::Global;

/// What is to be done, of which nothing is done yet.
#[derive(Drop)]
pub struct Plan {
    /// How the tables change.
    pub change: Change,
    /// Who is told what, in order.
    pub told: Vec<(u32, ClientTold)>,
}

/// A client is lost, of which it is told that; tokens that it had are granted to others, which are told so.
fn lost_plan(
    alloc: Global,
    tables: &Tables,
    part: &ClientPart,
    told: Vec<(u32, ClientTold)>,
) -> Result<Plan, Memory>
    ensures told { IfOk result (λ plan. effects_told plan.told.items
        ≡ effects_told told.items ++ loss_also part.now.row.client tables.now) }
    ensures change { IfOk result (λ plan. plan.change ≡ Change.Loses part.now.row.client) }
{
    let client = part.client();
    let grants = lose_told(alloc, &tables.semaphores, client, tables.moment())?;
    let mut told = told;
    tell_grants(alloc, &mut told, grants)?;
    Ok(Plan {
        change: Change::Loses(client),
        told,
    })
}

/// A conclusion is refused, and nothing changes.
fn refused_plan(alloc: Global, client: u32) -> Result<Plan, Memory>
    ensures told { IfOk result (λ plan. effects_told plan.told.items ≡ tell client keeps_open) }
    ensures change { IfOk result (λ plan. plan.change ≡ Change.Nothing) }
{
    Ok(Plan {
        change: Change::Nothing,
        told: one_told(alloc, client, conclude_error(alloc)?)?,
    })
}

/// A conclusion is granted: the client is lost.
fn granted_plan(
    alloc: Global,
    tables: &Tables,
    client: u32,
    part: &ClientPart,
) -> Result<Plan, Memory>
    ensures told { IfOk result (λ plan. effects_told plan.told.items
        ≡ tell client conclusion_told ++ loss_also part.now.row.client tables.now) }
    ensures change { IfOk result (λ plan. plan.change ≡ Change.Loses part.now.row.client) }
{
    let mut told = one_told(alloc, client, conclude_response(alloc)?)?;
    told.push((client, ClientTold::Closes))?;
    lost_plan(alloc, tables, part, told)
}

/// A conclusion is refused where the client has an open upload, and else granted.
fn conclusion_plan(
    alloc: Global,
    tables: &Tables,
    client: u32,
    part: &ClientPart,
) -> Result<Plan, Memory>
    ensures done { IfOk result (λ plan. plan_done tables.now plan.change plan.told.items
        ≡ hears tables.now part.now.row client Concludes) }
    ensures may { IfOk result (λ plan. MayChange plan.change tables.now) }
{
    if tables.domains.has_upload(part.client()) {
        return refused_plan(alloc, client);
    }
    granted_plan(alloc, tables, client, part)
}

/// A load is answered for which nothing more can be asked of the client, and the association is aborted.
fn exhausted_plan(
    alloc: Global,
    tables: &Tables,
    client: u32,
    part: &ClientPart,
    invoke: u32,
) -> Result<Plan, Memory>
    ensures told { IfOk result (λ plan. effects_told plan.told.items
        ≡ tell client (sends (pdu.ConfirmedResponse invoke Answer.InitiateDownloadSequence)
        ∷ abort_told) ++ loss_also part.now.row.client tables.now) }
    ensures change { IfOk result (λ plan. plan.change ≡ Change.Loses part.now.row.client) }
{
    let answer = answer_octets(alloc, invoke, &Answer::InitiateDownloadSequence)?;
    let told = vec![in alloc;
        (client, ClientTold::Sends(What::Octets(answer))),
        (client, ClientTold::Sends(What::Abort)),
        (client, ClientTold::Closes),
    ]?;
    lost_plan(alloc, tables, part, told)
}

/// The association is aborted.
fn abort_plan(
    alloc: Global,
    tables: &Tables,
    client: u32,
    part: &ClientPart,
) -> Result<Plan, Memory>
    ensures told { IfOk result (λ plan. effects_told plan.told.items
        ≡ tell client abort_told ++ loss_also part.now.row.client tables.now) }
    ensures change { IfOk result (λ plan. plan.change ≡ Change.Loses part.now.row.client) }
{
    let told = vec![in alloc;
        (client, ClientTold::Sends(What::Abort)),
        (client, ClientTold::Closes),
    ]?;
    lost_plan(alloc, tables, part, told)
}

/// The client is lost, where there is an association.
fn loss_plan(alloc: Global, tables: &Tables, client: u32, part: &ClientPart) -> Result<Plan, Memory>
    ensures done { IfOk result (λ plan. plan_done tables.now plan.change plan.told.items
        ≡ loses tables.now part.now.row client) }
    ensures may { IfOk result (λ plan. (t : Rows) → MayChange plan.change t) }
{
    if part.negotiated().is_none() {
        return Ok(Plan {
            change: Change::Nothing,
            told: Vec::new(alloc),
        });
    }
    let told = vec![in alloc; (client, ClientTold::Closes)]?;
    lost_plan(alloc, tables, part, told)
}

/// What happened to semaphores is told to whom it concerns.
fn tell_happening(
    alloc: Global,
    told: &mut Vec<(u32, ClientTold)>,
    happening: Happening,
) -> Result<(), Memory>
    ensures { OnOk result (effects_told told.new.items
        ≡ effects_told told.old.items ++ happening_told happening) }
{
    match happening {
        Happening::WaitEnds { client, invoke } => {
            told.push((client, ClientTold::Answers(invoke)))?;
            told.push((client, refusal(alloc, invoke, ServiceError::TIMEOUT)?))?;
        }
        Happening::Grants(grant) => tell_grant(alloc, told, grant)?,
        Happening::Aborts(client) => {
            told.push((client, ClientTold::Sends(What::Abort)))?;
            told.push((client, ClientTold::Closes))?;
        }
    }
    Ok(())
}

/// What happened on the device is told to whom it concerns. What is told of conditions is spelled into `out`.
fn tell_happened(
    alloc: Global,
    out: &mut Writer,
    told: &mut Vec<(u32, ClientTold)>,
    happened: cell_ticks::Happening,
) -> Result<(), Memory>
    ensures { OnOk result (effects_told told.new.items
        ≡ effects_told told.old.items ++ happened_told happened) }
{
    match happened {
        cell_ticks::Happening::Semaphores(happening) => tell_happening(alloc, told, happening),
        cell_ticks::Happening::Turns(TurnTold { turned, notices }) => {
            tell_notices(alloc, out, told, &turned, notices)
        }
    }
}

/// All that happened is told, in order.
fn all_told(alloc: Global, happened: Vec<DatedHappening>) -> Result<Vec<(u32, ClientTold)>, Memory>
    ensures { IfOk result (λ told. effects_told told.items ≡ all_told happened.items) }
{
    let mut out = Writer::new(alloc);
    let mut told = Vec::new(alloc);
    for DatedHappening { happening, .. } in happened {
        tell_happened(alloc, &mut out, &mut told, happening)?;
    }
    Ok(told)
}

/// What happened while so many milliseconds went by.
fn ticked_plan(alloc: Global, ms: u32, ticked: DeviceTicked) -> Result<Plan, Memory>
    ensures told { IfOk result (λ plan. effects_told plan.told.items
        ≡ all_told ticked.happened.items) }
    ensures change { IfOk result (λ plan. plan.change
        ≡ Change.Ticks ms ticked.changed ticked.losses) }
{
    let DeviceTicked {
        changed,
        losses,
        happened,
    } = ticked;
    Ok(Plan {
        change: Change::Ticks {
            ms,
            changed,
            losses,
        },
        told: all_told(alloc, happened)?,
    })
}

/// Plans that so many milliseconds go by. Nothing changes here. Where no deadline is met, no memory is taken.
pub fn time_planned(alloc: Global, tables: &Tables, ms: u32) -> Result<Plan, Memory>
    requires { tables.now.now + ms ≤ last_moment }
    ensures done { IfOk result (λ plan.
        plan_done tables.now plan.change plan.told.items ≡ passes ms tables.now) }
    ensures may { IfOk result (λ plan. MayChange plan.change tables.now) }
    ensures wants { OnErr result (next_due (moment_after ms tables.now)
        tables.now.semaphores tables.now.events.conditions ≢ None) }
{
    let until = Moment(tables.clock.now().0 + u64::from(ms));
    let cells = CellsOf {
        variables: &tables.variables,
    };
    let EventTables {
        conditions,
        enrolments,
    } = &tables.events;
    match tick_told(
        alloc,
        &tables.semaphores,
        conditions,
        enrolments,
        &cells,
        until,
    )? {
        None => Ok(Plan {
            change: Change::Passes(ms),
            told: Vec::new(alloc),
        }),
        Some(ticked) => ticked_plan(alloc, ms, ticked),
    }
}

/// Plans what a client with that part does on several tables: it is lost. Nothing changes here.
pub fn planned(
    alloc: Global,
    tables: &Tables,
    client: u32,
    part: &ClientPart,
    act: &Act<'_>,
) -> Result<Plan, Memory>
    requires left { IsLeft act.now }
    ensures done { IfOk result (λ plan. plan_done tables.now plan.change plan.told.items
        ≡ act_done tables.now part.now.row client act.now) }
    ensures may { IfOk result (λ plan. MayChange plan.change tables.now) }
{
    match *act {
        Act::Request { .. } | Act::Reply { .. } | Act::Cancel { .. } => unreachable!(),
        Act::Exhausts { invoke } => exhausted_plan(alloc, tables, client, part, invoke),
        Act::Conclusion => conclusion_plan(alloc, tables, client, part),
        Act::Abort => abort_plan(alloc, tables, client, part),
        Act::Loss => loss_plan(alloc, tables, client, part),
    }
}
