//! Clients are told of transitions (ISO 9506-2, EventNotification).

ghost use Rattle.std.specs.Prelude.{◌≡◌, ◌∷◌, ◌++◌, [], IfOk, OnErr, OnOk, take, vec_len};
ghost use Rattle.std.specs.Option.{SomeIff, option_map};
ghost use Rattle.mms_types.specs.Moments.{IsDated};
ghost use Rattle.event_cond.specs.Services.{time_of_day};
ghost use Rattle.event_enrol.specs.Enrolments.{notices};
ghost use Rattle.cell_client.specs.Telling.{effect_of, effects_told};
ghost use Rattle.serve_events.specs.Told.{notice_told, notices_told, state_numbered, turns_told};

use cell_client::{ClientTold, notification};
use event_enrol::Enrolments;
use mms_pdu::Writer;
use mms_types::{
    ConditionState, EventNotification, EventTime, Memory, Moment, Notice, Notices, TimeOfDay,
    Turned,
};
use std::alloc::Global;

/// The state of that number.
fn state_numbered(number: u8) -> ConditionState
    ensures { result ≡ state_numbered number }
{
    if number == 0 {
        ConditionState::Disabled
    } else if number == 1 {
        ConditionState::Idle
    } else {
        ConditionState::Active
    }
}

/// The state of that number, where there is one.
fn state_of(number: Option<u8>) -> Option<ConditionState>
    ensures { result ≡ option_map state_numbered number }
{
    match number {
        None => None,
        Some(number) => Some(state_numbered(number)),
    }
}

/// How a moment is told. None exactly beyond the last one.
fn time_of_day(at: Moment) -> Option<TimeOfDay>
    ensures { SomeIff result (IsDated at) (time_of_day at) }
{
    if !at.is_dated() {
        return None;
    }
    Some(TimeOfDay::of(at))
}

/// One client is told of a transition. No transition takes place beyond the last moment; one that did counts as want of
/// memory.
fn told_of(
    alloc: Global,
    out: &mut Writer,
    turned: &Turned,
    notice: Notice,
) -> Result<(u32, ClientTold), Memory>
    ensures { IfOk result (λ told. (told.0, effect_of told.1) ≡ notice_told turned.now notice) }
{
    let Some(time) = time_of_day(turned.at) else {
        return Err(Memory::wanting());
    };
    let (client, enrolment, condition) = notice.into_parts();
    let told = EventNotification {
        enrolment,
        condition,
        severity: turned.severity,
        state: state_of(turned.state),
        time: EventTime::TimeOfDay(time),
    };
    Ok((client, notification(alloc, out, &told)?))
}

/// Tells one client of a transition, after what is told before. The one refusal is want of memory; then what is told is
/// as before.
fn tell_one(
    alloc: Global,
    out: &mut Writer,
    told: &mut Vec<(u32, ClientTold)>,
    turned: &Turned,
    notice: Notice,
) -> Result<(), Memory>
    ensures told { OnOk result (effects_told told.new.items
        ≡ effects_told told.old.items ++ notice_told turned.now notice ∷ []) }
    ensures first { take (vec_len told.old) told.new.items ≡ told.old.items }
    ensures kept { OnErr result (told.new.items ≡ told.old.items) }
{
    told.push(told_of(alloc, out, turned, notice)?)?;
    Ok(())
}

/// Tells the clients of these notices of a transition, in order, after what is told before. What is told is spelled
/// into `out`, whose octets are given up. The one refusal is want of memory; then what is told is as before.
pub fn tell_notices(
    alloc: Global,
    out: &mut Writer,
    told: &mut Vec<(u32, ClientTold)>,
    turned: &Turned,
    notices: Notices,
) -> Result<(), Memory>
    ensures told { OnOk result (effects_told told.new.items
        ≡ effects_told told.old.items ++ notices_told turned.now notices) }
    ensures first { take (vec_len told.old) told.new.items ≡ told.old.items }
    ensures kept { OnErr result (told.new.items ≡ told.old.items) }
{
    let before = told.len();
    for notice in notices.into_vec() {
        if let Err(error) = tell_one(alloc, out, told, turned, notice) {
            told.truncate(before);
            return Err(error);
        }
    }
    Ok(())
}

/// Tells the clients of the enrollments of one transition, after what is told before. The one refusal is want of
/// memory; then what is told is as before.
fn tell_turn(
    alloc: Global,
    out: &mut Writer,
    told: &mut Vec<(u32, ClientTold)>,
    enrolments: &Enrolments,
    turned: &Turned,
) -> Result<(), Memory>
    ensures told { OnOk result (effects_told told.new.items
        ≡ effects_told told.old.items
        ++ notices_told turned.now (notices turned.now enrolments.now)) }
    ensures first { take (vec_len told.old) told.new.items ≡ told.old.items }
    ensures kept { OnErr result (told.new.items ≡ told.old.items) }
{
    let notices = enrolments.notices(alloc, turned)?;
    tell_notices(alloc, out, told, turned, notices)
}

/// Tells the clients of the enrollments of transitions, one after the other, after what is told before: of each those
/// that have its bit, in the order in which they were defined. The one refusal is want of memory; then what is told is
/// as before.
pub fn tell_turns(
    alloc: Global,
    told: &mut Vec<(u32, ClientTold)>,
    enrolments: &Enrolments,
    turns: &[Turned],
) -> Result<(), Memory>
    ensures told { OnOk result (effects_told told.new.items
        ≡ effects_told told.old.items ++ turns_told enrolments.now turns.now) }
    ensures first { take (vec_len told.old) told.new.items ≡ told.old.items }
    ensures kept { OnErr result (told.new.items ≡ told.old.items) }
{
    let before = told.len();
    let mut out = Writer::new(alloc);
    let mut rest = turns;
    while let Some((turned, later)) = rest.split_first() {
        if let Err(error) = tell_turn(alloc, &mut out, told, enrolments, turned) {
            told.truncate(before);
            return Err(error);
        }
        rest = later;
    }
    Ok(())
}
