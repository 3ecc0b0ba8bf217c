//! Laws over all semaphores. Each function has no body: its contract is the law.

ghost use Rattle.std.specs.Prelude.{◌≡◌, ◌↔◌, ◌≤◌, ◌++◌, ℕ, suc, All, List, None, Some, [], count_by, false, filter, true};
ghost use Rattle.mms_types.specs.declared.moment.Moment.{Moment};
ghost use Rattle.token_sem.specs.Semaphore.{IsSem, Loss, Sem, after_freeing, before, deadlines, first_deadline, granted_of, is_queued, lose_each, lose_one, loss_of, lost_one, next, numbered, owned_by, owner_from, sooner};
ghost use Rattle.token_sem.specs.declared.entry.LostOne.TheVariants.{Done};
ghost use Rattle.token_sem.specs.declared.entry.Deadline.{Deadline};
ghost use Rattle.token_sem.specs.declared.entry.SemEntry.{SemEntry};

/// A freed token goes to the queued entry of least rank at that moment, by priority and then by number: it is one of
/// those that wait, it is owner then, and no entry that waited comes before it. Where none waits, the token is free
/// and no entry changes.
pub fn a_freed_token_is_served()
    ensures waited { (s : Sem) (e : SemEntry) → IsSem s → next s.entries ≡ Some e
        → (numbered e.number s.entries ≡ Some e) × (is_queued e ≡ true) }
    ensures owner { (s : Sem) (now : Moment) (e : SemEntry) → IsSem s → next s.entries ≡ Some e
        → numbered e.number (after_freeing now s.entries) ≡ Some (owner_from now e) }
    ensures best { (s : Sem) (e : SemEntry) → next s.entries ≡ Some e
        → All (λ x. before x e ≡ false) (filter is_queued s.entries) }
    ensures none { (s : Sem) → next s.entries ≡ None → filter is_queued s.entries ≡ [] }
    ensures free { (s : Sem) (now : Moment) → next s.entries ≡ None
        → after_freeing now s.entries ≡ s.entries }
{}

/// No deadline of a semaphore is met before the first: by moment, then by kind, then by the entry's number.
pub fn the_first_deadline_is_the_least()
    ensures { (entries : List SemEntry) (d : Deadline) → first_deadline entries ≡ Some d
        → All (λ x. sooner x d ≡ false) (deadlines entries) }
{}

/// To lose a client is to lose its owner entries one after the other, until there is none: that leaves the same entries
/// and tells the same grants in the same order. It is told that there is none after as many times as there are owner
/// entries, and no sooner. Each time who is granted a token is told.
pub fn a_loss_is_made_one_by_one()
    ensures whole { (s : Sem) (client : ℕ) (now : Moment) → IsSem s
        → lose_each (suc (count_by (owned_by client) s.entries)) client now
        (record { entries = s.entries; grants = [] })
        ≡ loss_of client now s.entries }
    ensures ends { (s : Sem) (client n : ℕ) (now : Moment) → IsSem s
        → (lost_one client
        (lose_each n client now (record { entries = s.entries; grants = [] })).entries ≡ Done)
        ↔ (count_by (owned_by client) s.entries ≤ n) }
    ensures grants { (client : ℕ) (now : Moment) (l : Loss) → (lose_one client now l).grants
        ≡ l.grants ++ granted_of (lost_one client l.entries) }
{}
