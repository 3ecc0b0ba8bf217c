//! Laws over all semaphores of a device.

ghost use Rattle.std.specs.Prelude.{◌≡◌, ◌⊎◌, ◌+◌, ◌<◌, ◌≤◌, ℕ, All, None, Ok, Some, false, if◌then◌else◌};
ghost use Rattle.mms_types.specs.Errors.{first_of};
ghost use Rattle.mms_types.specs.declared.moment.Moment.{Moment as Instant};
ghost use Rattle.mms_types.specs.declared.semaphore.RelinquishControl.{RelinquishControl};
ghost use Rattle.mms_types.specs.declared.semaphore.TakeControl.{TakeControl};
ghost use Rattle.token_sem.specs.Semaphore.{Sem, grant_to, has_token, numbered, relinquish_answer, take_answer};
ghost use Rattle.token_sem.specs.declared.entry.SemEntry.{SemEntry};
ghost use Rattle.token_sem.specs.declared.entry.Taken.TheVariants.{Granted, Waits};
ghost use Rattle.mms_time.specs.Deadlines.{NamedDeadline, all_deadlines, due_sooner, next_due};
ghost use Rattle.mms_time.specs.Entered.{IsTaken, MayBePreempted};
ghost use Rattle.mms_time.specs.Semaphores.{IsSound, Rows, entries_in, made_in};
ghost use Rattle.pool_sem.specs.Pools as pool;
ghost use Rattle.mms_time.specs.Services.{ask_of, place_asked, pool_ask, pool_grant, relinquish_conditions_in, relinquish_grant_in, take_conditions_in, take_told_in, with_take};
ghost use Rattle.mms_time.specs.declared.row.Semaphore.{Semaphore as AnySemaphore};
ghost use Rattle.mms_time.specs.declared.row.Semaphore.TheVariants.{Token, Pool};

use crate::{Semaphore, SemaphoreRow, Semaphores};

/// What holds of a semaphore.
fn semaphore_is_sound(row: &SemaphoreRow)
    ensures { IsSound row.now.semaphore }
{
    match &row.semaphore {
        Semaphore::Token(tokens) => {
            let _ = tokens.tokens();
        }
        Semaphore::Pool(pool) => {
            let _ = pool.tokens();
        }
    }
}

/// Of every semaphore of a device it holds at any time, so after each call too: its entries are distinct and in order
/// of number, no more tokens are owned or hung than there are, each token of a pool by one entry at most, and no entry
/// waits for a token that is free.
pub fn each_semaphore_is_sound(semaphores: &Semaphores)
    ensures { All (λ row. IsSound row.1.semaphore) semaphores.now }
{
    for place in 0..semaphores.len() {
        let Some((_, row)) = semaphores.at(place) else {
            unreachable!()
        };
        semaphore_is_sound(row);
    }
}

/// The next deadline is met by the moment that is asked for, and no deadline of any semaphore comes before it. Where
/// there is none, all deadlines come after that moment.
pub fn the_next_deadline_is_the_least()
    ensures least { (until : Instant) (rows : Rows) (d : NamedDeadline)
        → next_due until rows ≡ Some d → All (λ x. due_sooner x d ≡ false) (all_deadlines rows) }
    ensures by_then { (until : Instant) (rows : Rows) (d : NamedDeadline)
        → next_due until rows ≡ Some d → d.at.0 ≤ until.0 }
    ensures none { (until : Instant) (rows : Rows) → next_due until rows ≡ None
        → All (λ x. until.0 < x.at.0) (all_deadlines rows) }
{}

/// What a client is told before anything changes is what becomes of its request: where nothing stands against a
/// request for a token, the semaphore grants one exactly where the client is told that it has one, and else the client
/// waits in the entry that it is told.
pub fn a_take_is_as_told()
    ensures tokens { (s : Sem) (client invoke : ℕ) (asked : TakeControl) (now : Instant)
        → first_of (take_conditions_in client asked (Token s)) ≡ None
        → take_answer s (ask_of client invoke None asked) now ≡ Ok (if has_token asked.preempt s
        then Granted (grant_to (s.made + 1) (ask_of client invoke None asked))
        else Waits (s.made + 1)) }
    ensures pools { (p : pool.Pool) (client invoke : ℕ) (asked : TakeControl) (now : Instant)
        → first_of (take_conditions_in client asked (Pool p)) ≡ None
        → pool.take_answer p (pool_ask client invoke asked p) now
        ≡ Ok (if pool.has_token asked.preempt (place_asked asked.token p.tokens) p
        then Granted (pool_grant client invoke asked p) else Waits (p.made + 1)) }
{}

/// A request for a token that nothing stands against enters the client into the semaphore, under the next number. Where
/// the client is answered its entry owns a token, the one that the request names where it names one of a pool, and else
/// the one whose name the client is told; where it is not answered yet, the entry waits, and the client is told its
/// number. Every other entry stays as it was, but for a hung one of the client whose token the request may take, and no
/// other comes.
pub fn a_take_is_entered()
    ensures taken { (s : AnySemaphore) (client invoke : ℕ) (asked : TakeControl) (now : Instant)
        → IsSound s → first_of (take_conditions_in client asked s) ≡ None
        → IsTaken client invoke asked (take_told_in asked s) s
        (with_take client invoke asked now s) }
    ensures stays { (s : AnySemaphore) (client invoke : ℕ) (asked : TakeControl) (now : Instant)
        (e : SemEntry) → IsSound s → numbered e.number (entries_in s) ≡ Some e
        → (numbered e.number (entries_in (with_take client invoke asked now s)) ≡ Some e)
        ⊎ MayBePreempted asked e }
    ensures no_other { (s : AnySemaphore) (client invoke : ℕ) (asked : TakeControl) (now : Instant)
        (e : SemEntry) → numbered e.number (entries_in (with_take client invoke asked now s))
        ≡ Some e
        → (numbered e.number (entries_in s) ≡ Some e) ⊎ (e.number ≡ made_in s + 1) }
{}

/// And where nothing stands against a token that is given back, it is granted to whom it is told.
pub fn a_grant_is_as_told()
    ensures tokens { (s : Sem) (client : ℕ) (asked : RelinquishControl)
        → first_of (relinquish_conditions_in client asked (Token s)) ≡ None
        → relinquish_answer s client ≡ Ok (relinquish_grant_in client asked (Token s)) }
    ensures pools { (p : pool.Pool) (client : ℕ) (asked : RelinquishControl)
        → first_of (relinquish_conditions_in client asked (Pool p)) ≡ None
        → pool.relinquish_answer p client (place_asked asked.token p.tokens)
        ≡ Ok (relinquish_grant_in client asked (Pool p)) }
{}
