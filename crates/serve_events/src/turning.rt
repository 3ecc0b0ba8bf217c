//! Event conditions come to other states by a request, or go (ISO 9506-1, DeleteEventCondition,
//! AlterEventConditionMonitoring and TriggerEvent), and clients are told.

ghost use Rattle.std.specs.Prelude.{◌≡◌, ◌∷◌, false, true, IfNone, IfOk, IfSome, None, OnErr, OnOk, OnSome, Some, if◌then◌else◌};
ghost use Rattle.mms_types.specs.Moments.{IsDated};
ghost use Rattle.mms_types.specs.declared.pdu.Pdu.TheVariants as pdu;
ghost use Rattle.cell_client.specs.Areas.{IsServedIn, IsToldIn};
ghost use Rattle.cell_client.specs.Association.{sends};
ghost use Rattle.cell_client.specs.Effects.{felt_all, settled};
ghost use Rattle.cell_client.specs.Facts.{Facts};
ghost use Rattle.cell_client.specs.Requests.{fits, request_told, size_of};
ghost use Rattle.cell_client.specs.Telling.{effects_told};
ghost use Rattle.serve_events.specs.Events.{request_in, turned, without_named, without_turned};
ghost use Rattle.serve_events.specs.Turns.{turned_after, turns_of};

use crate::EventTables;
use crate::notices::tell_turns;
use cell_client::{Client, ClientTold, answer_within, size_of};
use event_cond::Conditions;
use event_enrol::Enrolments;
use mms_types::{Answer, EventRequest, Listed, Memory, Moment, ServiceError, Turned};
use std::alloc::Global;

/// What a request leaves to be done by which clients are told of transitions.
#[derive(Drop)]
pub struct Turning {
    /// Who is told what, in order: first its own client, that it is answered.
    pub told: Vec<(u32, ClientTold)>,
    /// The transitions that it makes, in order.
    pub turns: Listed<Turned>,
}

/// Takes out the conditions of these transitions.
#[tactic(auto, using(crate::proofs::Turned::first_named))]
fn take_conditions(conditions: &mut Conditions, turns: &[Turned])
    ensures { conditions.new ≡ without_named turns.now conditions.old }
{
    let mut rest = turns;
    while let Some((turned, later)) = rest.split_first() {
        conditions.remove(&turned.condition);
        rest = later;
    }
}

/// Takes out the enrollments on the conditions of these transitions.
#[tactic(auto, using(crate::proofs::Turned::first_turned))]
fn take_enrolments(enrolments: &mut Enrolments, turns: &[Turned])
    ensures { enrolments.new ≡ without_turned turns.now enrolments.old }
{
    let mut rest = turns;
    while let Some((turned, later)) = rest.split_first() {
        enrolments.forget(&turned.condition);
        rest = later;
    }
}

/// Does on the tables what a request of a client does that makes these transitions. It takes no memory.
pub(crate) fn turn_over(
    tables: &mut EventTables,
    client: u32,
    now: Moment,
    is_true: bool,
    asked: EventRequest<'_>,
    turns: &[Turned],
)
    requires now { IsDated now }
    requires turns { turns.now ≡ turns_of client now is_true asked tables.old }
    ensures { tables.new ≡ turned_after client now is_true asked.entry tables.old }
{
    match asked {
        EventRequest::DeleteEventCondition(_) => {
            take_conditions(&mut tables.conditions, turns);
            take_enrolments(&mut tables.enrolments, turns);
        }
        EventRequest::AlterEventConditionMonitoring(asked) => {
            tables.conditions.alter(client, now, asked, is_true);
        }
        EventRequest::TriggerEvent(asked) => tables.conditions.trigger(client, now, asked),
        _ => {}
    }
}

/// A request is done by which nobody is told of a transition, and its client answered, unless the answer is too long.
fn turn_alone(
    alloc: Global,
    own: &mut Client,
    tables: &mut EventTables,
    now: Moment,
    is_true: bool,
    invoke: u32,
    asked: EventRequest<'_>,
    answer: &Answer,
    turns: &[Turned],
) -> Result<(), Memory>
    requires now { IsDated now }
    requires turns { turns.now
        ≡ turns_of own.old.row.client now is_true asked tables.old }
    ensures told { OnOk result (own.new ≡ settled (felt_all
        (request_told (size_of own.old.row.association) invoke None (Some answer.now))
        own.old.row)) }
    ensures turned { OnOk result (tables.new
        ≡ (if fits (size_of own.old.row.association) invoke (Some answer.now)
        then turned_after own.old.row.client now is_true asked.entry tables.old
        else tables.old)) }
    ensures kept { OnErr result (own.new ≡ own.old) }
    ensures same { OnErr result (tables.new ≡ tables.old) }
{
    let client = own.part().client();
    let Some(octets) = own.ready(alloc, invoke, answer)? else {
        return Ok(());
    };
    turn_over(tables, client, now, is_true, asked, turns);
    own.push(octets);
    Ok(())
}

/// What a client is told first whose request tells of transitions: that it is answered. None where the answer is too
/// long: it is refused.
fn answer_first(
    alloc: Global,
    own: &mut Client,
    invoke: u32,
    answer: &Answer,
    told: Vec<(u32, ClientTold)>,
) -> Result<Option<Vec<(u32, ClientTold)>>, Memory>
    ensures fits { IfOk result (λ all. IfSome all (λ _.
        fits (size_of own.old.row.association) invoke (Some answer.now) ≡ true)) }
    ensures told { IfOk result (λ all. IfSome all (λ list. effects_told list.items
        ≡ (own.old.row.client, sends (pdu.ConfirmedResponse invoke answer.now))
        ∷ effects_told told.items)) }
    ensures unchanged { IfOk result (λ all. OnSome all (own.new ≡ own.old)) }
    ensures long { IfOk result (λ all. IfNone all
        (fits (size_of own.old.row.association) invoke (Some answer.now) ≡ false)) }
    ensures refused { IfOk result (λ all. IfNone all (own.new ≡ settled (felt_all
        (request_told (size_of own.old.row.association) invoke None (Some answer.now))
        own.old.row))) }
    ensures kept { OnErr result (own.new ≡ own.old) }
{
    let client = own.part().client();
    let mut told = told;
    match answer_within(alloc, size_of(own.part()), invoke, answer)? {
        None => {
            own.refuse(alloc, invoke, ServiceError::OTHER)?;
            Ok(None)
        }
        Some(sent) => {
            told.insert(0, (client, sent))?;
            Ok(Some(told))
        }
    }
}

/// A request is done that nothing is against and that makes these transitions. Where clients are told of them, that is
/// left to be done, and all stays as it is.
pub(crate) fn turn(
    alloc: Global,
    own: &mut Client,
    tables: &mut EventTables,
    now: Moment,
    is_true: bool,
    invoke: u32,
    asked: EventRequest<'_>,
    answer: &Answer,
    turns: Listed<Turned>,
) -> Result<Option<Turning>, Memory>
    requires now { IsDated now }
    requires turns { turns ≡ turns_of own.old.row.client now is_true asked tables.old }
    requires unopposed { (facts : Facts) → facts.now ≡ now → facts.truth ≡ is_true
        → (request_in asked).cause facts tables.old own.old.row ≡ None }
    requires effect { (facts : Facts) → facts.now ≡ now → facts.truth ≡ is_true
        → (request_in asked).effect facts tables.old own.old.row invoke
        ≡ turned tables.old (turned_after own.old.row.client now is_true asked tables.old)
        answer.now (turns_of own.old.row.client now is_true asked tables.old) }
    ensures served { IfOk result (λ left. IfNone left ((facts : Facts) → facts.now ≡ now
        → facts.truth ≡ is_true
        → IsServedIn (request_in asked.entry) facts invoke own.old.row
        tables.old tables.new own.new)) }
    ensures left { IfOk result (λ left. IfSome left (λ l. (facts : Facts) → facts.now ≡ now
        → facts.truth ≡ is_true
        → IsToldIn (request_in asked.entry) facts invoke own.old.row tables.old
        (turned_after own.old.row.client now is_true asked.entry tables.old)
        (effects_told l.told.items))) }
    ensures turns { IfOk result (λ left. IfSome left (λ l. l.turns
        ≡ turns_of own.old.row.client now is_true asked.entry tables.old)) }
    ensures unchanged { IfOk result (λ left. OnSome left (own.new ≡ own.old)) }
    ensures untouched { IfOk result (λ left. OnSome left (tables.new ≡ tables.old)) }
    ensures kept { OnErr result (own.new ≡ own.old) }
    ensures same { OnErr result (tables.new ≡ tables.old) }
{
    let mut told = Vec::new(alloc);
    tell_turns(alloc, &mut told, &tables.enrolments, turns.as_slice())?;
    if told.is_empty() {
        let turns = turns.as_slice();
        turn_alone(
            alloc, own, tables, now, is_true, invoke, asked, answer, turns,
        )?;
        return Ok(None);
    }
    match answer_first(alloc, own, invoke, answer, told)? {
        None => Ok(None),
        Some(told) => Ok(Some(Turning { told, turns })),
    }
}
