//! Laws of time. Each function has no body: its contract is the law.

ghost use Rattle.std.specs.Prelude.{◌≡◌, ◌<◌, ◌≤◌, Bool, All, None, Some, false};
ghost use Rattle.mms_types.specs.Order.{key_eq};
ghost use Rattle.mms_types.specs.declared.key.Key.{Key};
ghost use Rattle.mms_types.specs.declared.moment.Moment.{Moment};
ghost use Rattle.event_cond.specs.Conditions.{Rows, after_evaluate, evaluate_told};
ghost use Rattle.event_cond.specs.Evaluations.{evaluations};
ghost use Rattle.event_cond.specs.Skips.{Saying};
ghost use Rattle.event_ticks.specs.Skipping.{skipping};
ghost use Rattle.event_ticks.specs.Sound.{AreSound};
ghost use Rattle.event_ticks.specs.Ticks.{Ticking, next_met, ticked};

/// No cell changes within a tick. So it comes to the same, and the same is told in the same order, where each condition
/// is met at its first evaluation alone, and its next evaluation is then the first that lies after the tick: however
/// many evaluations there are.
pub fn evaluations_are_skipped()
    ensures { (cells : Saying) (until : Moment) (s : Ticking) → AreSound s.conditions
        → ticked cells until s ≡ skipping cells until s }
{}

/// A tick is what comes next, again and again: where nothing comes up to its end, all stays as it is; else the first of
/// the evaluations and the losses is met, a loss before the evaluations of its moment, and then the tick goes on. It
/// ends where nothing comes any more.
pub fn a_tick_meets_what_comes_next()
    ensures rests { (cells : Saying) (until : Moment) (s : Ticking) → next_met cells until s ≡ None
        → ticked cells until s ≡ s }
    ensures meets { (cells : Saying) (until : Moment) (s t : Ticking) → AreSound s.conditions
        → next_met cells until s ≡ Some t → ticked cells until s ≡ ticked cells until t }
    ensures ends { (cells : Saying) (until : Moment) (s : Ticking) → AreSound s.conditions
        → next_met cells until (ticked cells until s) ≡ None }
{}

/// A tick leaves the conditions sound: each has a name of its own, an interval of 10 milliseconds or more, and its next
/// evaluation at a multiple of it since its definition.
pub fn the_conditions_stay_sound()
    ensures { (cells : Saying) (until : Moment) (s : Ticking) → AreSound s.conditions
        → AreSound (ticked cells until s).conditions }
{}

/// After a tick every evaluation lies after the moment to which time went by.
pub fn every_evaluation_lies_ahead()
    ensures { (cells : Saying) (until : Moment) (s : Ticking) → AreSound s.conditions
        → All (λ e. until.0 < e.0.0) (evaluations (ticked cells until s).conditions) }
{}

/// Time that goes by up to one moment and then up to a later one is time that goes by up to the later: the same is told
/// in the same order, and conditions and enrollments are the same.
pub fn two_ticks_are_one()
    ensures { (cells : Saying) (first later : Moment) (s : Ticking) → AreSound s.conditions
        → first.0 ≤ later.0
        → ticked cells later (ticked cells first s) ≡ ticked cells later s }
{}

/// The evaluations of two conditions commute: neither changes what the other one tells or comes to.
pub fn evaluations_commute()
    ensures rows { (one other : Key) (first second : Moment) (a b : Bool) (rows : Rows)
        → key_eq one other ≡ false
        → after_evaluate other second b (after_evaluate one first a rows)
        ≡ after_evaluate one first a (after_evaluate other second b rows) }
    ensures told { (one other : Key) (first second : Moment) (a b : Bool) (rows : Rows)
        → key_eq one other ≡ false
        → evaluate_told other second b (after_evaluate one first a rows)
        ≡ evaluate_told other second b rows }
{}
