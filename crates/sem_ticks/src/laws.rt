//! Laws of time. Each function has no body: its contract is the law.

ghost use Rattle.std.specs.Prelude.{◌≡◌, ◌≢◌, ◌≤◌, ℕ, Bool, List, None, Option, Some, []};
ghost use Rattle.mms_types.specs.declared.key.Key.{Key};
ghost use Rattle.mms_types.specs.declared.semaphore.DefineSemaphore.{DefineSemaphore};
ghost use Rattle.mms_types.specs.declared.semaphore.TakeControl.{TakeControl};
ghost use Rattle.token_sem.specs.declared.entry.Expired.{Expired};
ghost use Rattle.mms_time.specs.Deadlines.{NamedDeadline, expired, next_due};
ghost use Rattle.mms_time.specs.Loss.{lost};
ghost use Rattle.mms_time.specs.Services.{cancelled, define_after, define_cause, deleted, relinquished, take_after};
ghost use Rattle.mms_types.specs.declared.moment.Moment.{Moment};
ghost use Rattle.mms_time.specs.Semaphores.{Rows};
ghost use Rattle.sem_ticks.specs.Dated.{Dating, HappenBy, HappenFrom, IsInOrder, LieFrom, dated, dated_on, next_dated, undated};
ghost use Rattle.sem_ticks.specs.Settling.{settle};
ghost use Rattle.sem_ticks.specs.Sound.{AreSound, LieAhead};
ghost use Rattle.sem_ticks.specs.Ticks.{entries_left, met_as, next_met, ticked, ticked_on, Ticking};

/// A tick is what comes next, again and again, and no number of turns shows: where no deadline is due up to its end, all
/// stays as it is; else the least of them is met, and then the tick goes on. What is due is there to be met, and at the
/// end nothing is due any more. As many turns as there are entries always suffice: with more it comes to the same, without
/// moments and with them.
pub fn a_tick_meets_what_comes_next()
    ensures none { (until : Moment) (s : Ticking) → next_due until s.rows ≡ None
        → ticked_on until s ≡ s }
    ensures next { (until : Moment) (s : Ticking) (d : NamedDeadline) (x : Expired)
        → next_due until s.rows ≡ Some d → expired d.key d.entry s.rows ≡ Some x
        → ticked_on until s ≡ ticked_on until (met_as s d x) }
    ensures there { (until : Moment) (rows : Rows) (d : NamedDeadline)
        → AreSound rows → next_due until rows ≡ Some d → expired d.key d.entry rows ≢ None }
    ensures left { (until : Moment) (s : Ticking)
        → AreSound s.rows → next_due until (ticked_on until s).rows ≡ None }
    ensures enough { (until : Moment) (s : Ticking) (turns : ℕ)
        → entries_left s.rows ≤ turns → settle (next_met until) turns s ≡ ticked_on until s }
    ensures enough_dated { (until : Moment) (s : Dating) (turns : ℕ)
        → entries_left s.rows ≤ turns → settle (next_dated until) turns s ≡ dated_on until s }
{}

/// Time that goes by up to one moment and then up to a later one is time that goes by up to the later: the same happens in
/// the same order, and the semaphores are the same.
pub fn two_ticks_are_one()
    ensures { (first later : Moment) (s : Ticking) → first.0 ≤ later.0
        → ticked_on later (ticked_on first s) ≡ ticked_on later s }
{}

/// Every deadline lies ahead at any time: after a tick it lies after the moment to which time went by, and what a
/// request, a cancel or a loss does at a moment leaves each after that.
pub fn every_deadline_lies_ahead()
    ensures none { (now : Moment) → LieAhead now [] }
    ensures taken { (now : Moment) (client invoke : ℕ) (asked : TakeControl) (rows : Rows)
        → LieAhead now rows → LieAhead now (take_after client invoke now asked rows) }
    ensures relinquished { (now : Moment) (key : Key) (client : ℕ) (token : Option (List ℕ))
        (rows : Rows)
        → LieAhead now rows → LieAhead now (relinquished key client token now rows) }
    ensures cancelled { (now : Moment) (key : Key) (number : ℕ) (rows : Rows)
        → LieAhead now rows → LieAhead now (cancelled key number rows) }
    ensures defined { (now : Moment) (client : ℕ) (asked : DefineSemaphore) (rows : Rows)
        → LieAhead now rows → LieAhead now (define_after client asked rows) }
    ensures deleted { (now : Moment) (key : Key) (rows : Rows)
        → LieAhead now rows → LieAhead now (deleted key rows) }
    ensures lost { (now : Moment) (client : ℕ) (rows : Rows)
        → LieAhead now rows → LieAhead now (lost client now rows) }
    ensures ticked { (until : Moment) (rows : Rows)
        → AreSound rows → LieAhead until (ticked until rows).rows }
{}

/// Of the semaphores of a device it holds at any time that each has a name of its own, that its entries are distinct and in
/// order of number, that no more tokens are owned or hung than there are, and that where one is free no entry waits: it
/// holds where there is none, and whatever a request, a cancel, a loss or time does keeps it. So no token is owned twice,
/// and no free token is waited for, after any of them.
pub fn the_semaphores_stay_sound()
    ensures none { AreSound [] }
    ensures taken { (client invoke : ℕ) (now : Moment) (asked : TakeControl) (rows : Rows)
        → AreSound rows → AreSound (take_after client invoke now asked rows) }
    ensures relinquished { (key : Key) (client : ℕ) (token : Option (List ℕ)) (now : Moment)
        (rows : Rows)
        → AreSound rows → AreSound (relinquished key client token now rows) }
    ensures cancelled { (key : Key) (number : ℕ) (rows : Rows)
        → AreSound rows → AreSound (cancelled key number rows) }
    ensures defined { (live : Bool) (client : ℕ) (asked : DefineSemaphore) (rows : Rows)
        → define_cause live client asked rows ≡ None
        → AreSound rows → AreSound (define_after client asked rows) }
    ensures deleted { (key : Key) (rows : Rows) → AreSound rows → AreSound (deleted key rows) }
    ensures lost { (client : ℕ) (now : Moment) (rows : Rows)
        → AreSound rows → AreSound (lost client now rows) }
    ensures ticked { (until : Moment) (rows : Rows)
        → AreSound rows → AreSound (ticked until rows).rows }
{}

/// Whatever happens has a moment, that of the deadline by which it happens: without the moments it is what happens, and the
/// semaphores become the same. Nothing happens before what happened before it, nor before a moment that no deadline lies
/// before, nor after the end.
pub fn what_happens_has_its_moment()
    ensures same { (until : Moment) (rows : Rows) → undated (dated until rows) ≡ ticked until rows }
    ensures in_order { (until : Moment) (rows : Rows) → IsInOrder (dated until rows).happened }
    ensures from { (until low : Moment) (rows : Rows)
        → LieFrom low rows → HappenFrom low (dated until rows).happened }
    ensures by_then { (until : Moment) (rows : Rows)
        → HappenBy until (dated until rows).happened }
{}
