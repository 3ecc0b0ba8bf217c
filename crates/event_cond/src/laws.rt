//! Laws over conditions.

ghost use Rattle.std.specs.Prelude.{◌≡◌, ◌<◌, ◌≤◌, ℕ, [], All, None, Some, false};
ghost use Rattle.mms_types.specs.declared.key.Key.{Key};
ghost use Rattle.mms_types.specs.declared.moment.Moment.{Moment};
ghost use Rattle.event_cond.specs.Conditions.{Rows};
ghost use Rattle.event_cond.specs.Evaluations.{evaluations, next_evaluation, sooner};
ghost use Rattle.event_cond.specs.Kept.{IsCondition};
ghost use Rattle.event_cond.specs.Multiples.{IsMultiple, least_multiple};

use crate::Conditions;
use crate::kept::Kept;

/// What holds of a condition.
fn condition_is_sound(kept: &Kept)
    ensures { IsCondition kept.now }
{
    let _ = &kept.condition;
}

/// Of every event condition it holds at any time, so after each call too: a monitored one has an interval of 10
/// milliseconds or more, and its next evaluation, which it has exactly where it is enabled, is at a multiple of it
/// since its definition. One that is network-triggered watches nothing, and is idle, by what a condition is.
pub fn each_condition_is_sound(conditions: &Conditions)
    ensures { All (λ row. IsCondition row.1) conditions.now }
{
    for place in 0..conditions.rows.len() {
        let Some((_, kept)) = conditions.rows.at(place) else {
            unreachable!()
        };
        condition_is_sound(kept);
    }
}

/// The least multiple of an interval since a moment that lies after another one is a multiple, lies after it, and no
/// multiple that lies after it is less.
pub fn a_least_multiple_is_the_least()
    ensures multiple { (since after : Moment) (interval : ℕ)
        → IsMultiple since interval (least_multiple since interval after) }
    ensures after { (since after : Moment) (interval : ℕ) → 0 < interval → since.0 ≤ after.0
        → after.0 < (least_multiple since interval after).0 }
    ensures least { (since after other : Moment) (interval : ℕ) → 0 < interval → since.0 ≤ after.0
        → IsMultiple since interval other → after.0 < other.0
        → (least_multiple since interval after).0 ≤ other.0 }
{}

/// No evaluation comes before the next one. Where there is none, none is to come.
pub fn the_next_evaluation_is_the_least()
    ensures least { (rows : Rows) (e : Moment × Key) → next_evaluation rows ≡ Some e
        → All (λ x. sooner x e ≡ false) (evaluations rows) }
    ensures none { (rows : Rows) → next_evaluation rows ≡ None → evaluations rows ≡ [] }
{}
