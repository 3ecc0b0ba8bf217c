//! Laws of time. Each function has no body: its contract is the law.

ghost use Rattle.std.specs.Prelude.{◌≡◌, ◌<◌, ◌≤◌, All, None, Some, false};
ghost use Rattle.mms_types.specs.declared.moment.Moment.{Moment};
ghost use Rattle.mms_time.specs.Deadlines.{NamedDeadline, due_sooner};
ghost use Rattle.mms_time.specs.Semaphores.{Rows as Semaphores};
ghost use Rattle.event_cond.specs.Conditions.{Rows as Conditions};
ghost use Rattle.event_cond.specs.Skips.{Saying};
ghost use Rattle.event_enrol.specs.Enrolments.{Rows as Enrolments};
ghost use Rattle.cell_ticks.specs.Deadlines.{all_deadlines, next_due};
ghost use Rattle.cell_ticks.specs.Parts.{in_parts};
ghost use Rattle.cell_ticks.specs.Sound.{IsSound};
ghost use Rattle.cell_ticks.specs.Ticks.{Ticking, begun, next_met, ticked, ticked_on};

/// A tick has two parts. Semaphores become what they become where there are no conditions, and the same happens to
/// them. Conditions and enrollments become what they become where there are no semaphores, and the clients are lost,
/// each at its moment, whose associations the semaphores' part aborts. What happens is both in one, by moments, and of
/// one moment what happens to semaphores comes before any evaluation.
pub fn a_tick_has_two_parts()
    ensures { (cells : Saying) (until : Moment)
        (semaphores : Semaphores) (conditions : Conditions) (enrolments : Enrolments)
        → IsSound (begun semaphores conditions enrolments)
        → ticked cells until semaphores conditions enrolments
        ≡ in_parts cells until semaphores conditions enrolments }
{}

/// A tick is what comes next, again and again: where nothing is due up to its end, all stays as it is; else the least
/// of all deadlines is met, and then the tick goes on. It ends where nothing is due any more.
pub fn a_tick_meets_what_comes_next()
    ensures rests { (cells : Saying) (until : Moment) (s : Ticking) → next_met cells until s ≡ None
        → ticked_on cells until s ≡ s }
    ensures meets { (cells : Saying) (until : Moment) (s t : Ticking) → IsSound s
        → next_met cells until s ≡ Some t → ticked_on cells until s ≡ ticked_on cells until t }
    ensures ends { (cells : Saying) (until : Moment) (s : Ticking) → IsSound s
        → next_met cells until (ticked_on cells until s) ≡ None }
{}

/// A tick leaves the semaphores and the conditions sound: no token is owned twice, no free token is waited for, and the
/// next evaluation of each condition is at a multiple of its interval since its definition.
pub fn the_device_stays_sound()
    ensures { (cells : Saying) (until : Moment) (s : Ticking) → IsSound s
        → IsSound (ticked_on cells until s) }
{}

/// After a tick every deadline lies after the moment to which time went by, evaluations included.
pub fn every_deadline_lies_ahead()
    ensures { (cells : Saying) (until : Moment) (s : Ticking) → IsSound s
        → All (λ d. until.0 < d.at.0) (all_deadlines (ticked_on cells until s).semaphores
        (ticked_on cells until s).conditions) }
{}

/// Time that goes by up to one moment and then up to a later one is time that goes by up to the later: the same happens
/// in the same order, and semaphores, conditions and enrollments are the same.
pub fn two_ticks_are_one()
    ensures { (cells : Saying) (first later : Moment) (s : Ticking) → IsSound s
        → first.0 ≤ later.0
        → ticked_on cells later (ticked_on cells first s) ≡ ticked_on cells later s }
{}

/// The next deadline is met by the moment that is asked for, and no deadline of any semaphore and no evaluation comes
/// before it. Where there is none, all come after that moment.
pub fn the_next_deadline_is_the_least()
    ensures least { (until : Moment) (semaphores : Semaphores) (conditions : Conditions)
        (d : NamedDeadline) → next_due until semaphores conditions ≡ Some d
        → All (λ x. due_sooner x d ≡ false) (all_deadlines semaphores conditions) }
    ensures by_then { (until : Moment) (semaphores : Semaphores) (conditions : Conditions)
        (d : NamedDeadline) → next_due until semaphores conditions ≡ Some d → d.at.0 ≤ until.0 }
    ensures none { (until : Moment) (semaphores : Semaphores) (conditions : Conditions)
        → next_due until semaphores conditions ≡ None
        → All (λ x. until.0 < x.at.0) (all_deadlines semaphores conditions) }
{}
