//! What time does to event conditions and enrollments, where each condition is met at its first evaluation alone.

ghost use Rattle.std.specs.Prelude.{◌≡◌, ◌≢◌, [], IfOk, None, OnErr, filter_map};
ghost use Rattle.mms_types.specs.Moments.{IsDated};
ghost use Rattle.event_cond.specs.Skips.{first_turns};
ghost use Rattle.event_ticks.specs.Skipping.{told_left};
ghost use Rattle.event_ticks.specs.Ticks.{begun, ticked, told_of};

use crate::losing::{is_left, lose_conditions, lose_enrolments, none_lost};
use crate::ticks::{Loss, TurnTold};
use event_cond::{Cells, Conditions, each_condition_is_sound};
use event_enrol::Enrolments;
use mms_types::{Memory, Moment, Turned};
use std::alloc::Global;

/// A transition, told to the enrollments as they are.
fn told_of(alloc: Global, enrolments: &Enrolments, turned: Turned) -> Result<TurnTold, Memory>
    ensures { IfOk result (λ told. told ≡ told_of enrolments.now turned) }
{
    let notices = enrolments.notices(alloc, &turned)?;
    Ok(TurnTold { turned, notices })
}

/// A transition, where its condition is left then, told to the enrollments that are left then, which are copied where a
/// client is lost by then.
fn told_left(
    alloc: Global,
    enrolments: &Enrolments,
    losses: &[Loss],
    turned: Turned,
) -> Result<Option<TurnTold>, Memory>
    ensures { IfOk result (λ told. told ≡ told_left losses.now enrolments.now turned) }
{
    if !is_left(turned.at, losses, &turned.condition) {
        return Ok(None);
    }
    if none_lost(losses, turned.at) {
        return Ok(Some(told_of(alloc, enrolments, turned)?));
    }
    let mut left = enrolments.copy(alloc)?;
    lose_enrolments(&mut left, losses, turned.at);
    Ok(Some(told_of(alloc, &left, turned)?))
}

/// Transitions, each where its condition is left then, told to the enrollments that are left then.
fn all_told(
    alloc: Global,
    enrolments: &Enrolments,
    losses: &[Loss],
    turns: Vec<Turned>,
) -> Result<Vec<TurnTold>, Memory>
    ensures { IfOk result (λ told. told.items
        ≡ filter_map (told_left losses.now enrolments.now) turns.items) }
{
    let mut told = Vec::new(alloc);
    for turned in turns {
        if let Some(one) = told_left(alloc, enrolments, losses, turned)? {
            told.push(one)?;
        }
    }
    Ok(told)
}

/// What is told where time goes by up to a moment, no cell changes meanwhile, and clients are lost at the moments
/// given, in order (ISO 9506-1, event condition, monitored): every evaluation that is at most that moment is made at
/// its own moment, by names of one moment, and after the losses of its moment; each transition is told to the
/// enrollments as they are then. Nothing changes. The one refusal is want of memory, only where the state of a
/// condition changes.
pub fn tick_told<C: Cells>(
    alloc: Global,
    conditions: &Conditions,
    enrolments: &Enrolments,
    losses: &[Loss],
    cells: &C,
    until: Moment,
) -> Result<Vec<TurnTold>, Memory>
    requires { IsDated until }
    ensures told { IfOk result (λ told. told.items ≡ (ticked (C.says cells.now) until
        (begun conditions.now enrolments.now losses.now)).told) }
    ensures wants { OnErr result (first_turns until (C.says cells.now) conditions.now ≢ []) }
{
    let _distinct = conditions.len();
    each_condition_is_sound(conditions);
    let turns = conditions.first_turns(alloc, until, cells)?;
    if turns.is_empty() {
        return Ok(Vec::new(alloc));
    }
    all_told(alloc, enrolments, losses, turns)
}

/// Lets time go by up to a moment, as `tick_told` tells it: what becomes of the conditions and the enrollments. It
/// takes no memory.
pub fn tick<C: Cells>(
    conditions: &mut Conditions,
    enrolments: &mut Enrolments,
    losses: &[Loss],
    cells: &C,
    until: Moment,
)
    requires { IsDated until }
    ensures conditions { conditions.new ≡ (ticked (C.says cells.now) until
        (begun conditions.old enrolments.old losses.now)).conditions }
    ensures enrolments { enrolments.new ≡ (ticked (C.says cells.now) until
        (begun conditions.old enrolments.old losses.now)).enrolments }
{
    let _distinct = conditions.len();
    each_condition_is_sound(conditions);
    conditions.skip(until, cells);
    lose_conditions(conditions, losses, until);
    lose_enrolments(enrolments, losses, until);
}
