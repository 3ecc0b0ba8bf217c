//! The next deadline of a device.

ghost use Rattle.std.specs.Prelude.{◌≡◌, is_some, option_map};
ghost use Rattle.mms_time.specs.Deadlines.{due_meant, until_only};
ghost use Rattle.event_cond.specs.Evaluations.{evaluation_meant};
ghost use Rattle.cell_ticks.specs.Coded.{sooner_if};
ghost use Rattle.cell_ticks.specs.Deadlines.{evaluation_due, next_due};

use event_cond::Conditions;
use mms_time::{Due, Semaphores};
use mms_types::{Key, Moment};

/// The kind of a deadline that is the evaluation of an event condition, beside `Deadline::CONTROL_TIME_OUT` and
/// `Deadline::ACCEPTABLE_DELAY`.
pub const EVALUATION: u8 = 2;

/// An evaluation as a deadline, where it is at most that moment.
fn evaluation_until<'a>(next: Option<(Moment, &'a Key)>, until: Moment) -> Option<Due<'a>>
    ensures { option_map due_meant result
        ≡ until_only until (option_map evaluation_due (option_map evaluation_meant next.entry)) }
{
    let (at, key) = next?;
    if at.0 > until.0 {
        return None;
    }
    Some(Due {
        at,
        kind: EVALUATION,
        key,
        entry: 0,
    })
}

/// The sooner of two, by their moments, and of one moment the first.
fn sooner_of<'a>(first: Option<Due<'a>>, second: Option<Due<'a>>) -> Option<Due<'a>>
    ensures { option_map due_meant result
        ≡ sooner_if (option_map due_meant first.entry) (option_map due_meant second.entry) }
{
    match (first, second) {
        (first, None) => first,
        (None, Some(second)) => Some(second),
        (Some(first), Some(second)) => {
            Some(if first.at.0 <= second.at.0 {
                first
            } else {
                second
            })
        }
    }
}

/// The least of all deadlines of a device, where it is at most that moment: by moment, of one moment control time-outs
/// before acceptable delays and these before the evaluations of event conditions, then by name, then by the entry's
/// number, which is 0 of an evaluation. None exactly where no deadline is at most that moment. It takes no memory.
pub fn next_due<'a>(
    semaphores: &'a Semaphores,
    conditions: &'a Conditions,
    until: Moment,
) -> Option<Due<'a>>
    ensures { option_map due_meant result ≡ next_due until semaphores.now conditions.now }
{
    let first = mms_time::next_due(semaphores, until);
    sooner_of(first, evaluation_until(conditions.next_evaluation(), until))
}

/// Whether a deadline of a semaphore or an evaluation is at most that moment. It takes no memory.
pub fn is_due(semaphores: &Semaphores, conditions: &Conditions, until: Moment) -> bool
    ensures { result ≡ is_some (next_due until semaphores.now conditions.now) }
{
    if semaphores.is_due(until) {
        return true;
    }
    conditions.is_due(until)
}
