//! Laws over all pools. Each function has no body: its contract is the law. That no deadline comes before the first is
//! a law of `token_sem` over the entries of any semaphore.

ghost use Rattle.std.specs.Prelude.{◌≡◌, ◌↔◌, ◌+◌, ◌++◌, ◌<◌, ◌≤◌, ℕ, suc, All, List, None, Some, [], count_by, false, filter, length, true};
ghost use Rattle.mms_types.specs.declared.moment.Moment.{Moment};
ghost use Rattle.token_sem.specs.Semaphore.{Loss, before, granted_of, is_hung, is_owner, numbered, owned_by, without};
ghost use Rattle.token_sem.specs.declared.entry.LostOne.TheVariants.{Done};
ghost use Rattle.token_sem.specs.declared.entry.SemEntry.{SemEntry};
ghost use Rattle.pool_sem.specs.Pools.{IsPool, Pool, after_leaving, has, is_free, lose_each, lose_one, loss_of, lost_one, next, owner_from, wants};

/// Where an entry that has a token goes, the token goes to the queued entry of least rank at that moment, by priority
/// and then by number, of those that want that token or any: it is one of the entries that wait for it, it is owner
/// then, and no entry that wanted the token comes before it. Where none wants it, the token is free.
pub fn a_freed_token_is_served()
    ensures waited { (p : Pool) (o e : SemEntry) (token : ℕ) → IsPool p
        → next token (without o.number p.entries) ≡ Some e
        → (numbered e.number p.entries ≡ Some e) × (wants token e ≡ true) }
    ensures owner { (p : Pool) (o e : SemEntry) (token : ℕ) (now : Moment) → IsPool p
        → has token o ≡ true → next token (without o.number p.entries) ≡ Some e
        → numbered e.number (after_leaving o now p.entries) ≡ Some (owner_from token now e) }
    ensures best { (entries : List SemEntry) (e : SemEntry) (token : ℕ)
        → next token entries ≡ Some e
        → All (λ x. before x e ≡ false) (filter (wants token) entries) }
    ensures free { (p : Pool) (o : SemEntry) (token : ℕ) (now : Moment) → IsPool p
        → numbered o.number p.entries ≡ Some o → has token o ≡ true
        → next token (without o.number p.entries) ≡ None
        → (filter (wants token) p.entries ≡ [])
        × (is_free token (after_leaving o now p.entries) ≡ true) }
{}

/// Where nobody has a token of a pool, no entry waits that wants it or any.
pub fn no_free_token_is_wanted()
    ensures { (p : Pool) (token : ℕ) → IsPool p → token < length p.tokens
        → is_free token p.entries ≡ true → filter (wants token) p.entries ≡ [] }
{}

/// A token is owned by one entry at most, or one is hung with it: two entries that have it are one.
pub fn a_token_is_had_once()
    ensures { (p : Pool) (token : ℕ) (a b : SemEntry) → IsPool p
        → numbered a.number p.entries ≡ Some a → numbered b.number p.entries ≡ Some b
        → has token a ≡ true → has token b ≡ true → a ≡ b }
{}

/// No more tokens of a pool are owned or hung than there are.
pub fn no_more_are_had_than_there_are()
    ensures { (p : Pool) → IsPool p
        → count_by is_owner p.entries + count_by is_hung p.entries ≤ length p.tokens }
{}

/// To lose a client is to lose its owner entries one after the other, until there is none: that leaves the same entries
/// and tells the same grants in the same order. It is told that there is none after as many times as there are owner
/// entries, and no sooner. Each time who is granted a token is told.
pub fn a_loss_is_made_one_by_one()
    ensures whole { (p : Pool) (client : ℕ) (now : Moment) → IsPool p
        → lose_each (suc (count_by (owned_by client) p.entries)) client now
        (record { entries = p.entries; grants = [] })
        ≡ loss_of client now p.entries }
    ensures ends { (p : Pool) (client n : ℕ) (now : Moment) → IsPool p
        → (lost_one client
        (lose_each n client now (record { entries = p.entries; grants = [] })).entries ≡ Done)
        ↔ (count_by (owned_by client) p.entries ≤ n) }
    ensures grants { (client : ℕ) (now : Moment) (l : Loss) → (lose_one client now l).grants
        ≡ l.grants ++ granted_of (lost_one client l.entries) }
{}
