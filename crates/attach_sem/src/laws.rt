//! Laws over all rows and attached requests. Each function has no body: its contract is the law.

ghost use Rattle.std.specs.Prelude.{◌≡◌, ◌↔◌, ℕ, [], All, Bool, Contains, List, None, filter, map, option_map, true};
ghost use Rattle.sem_queue.specs.Rows.{before, least, wants};
ghost use Rattle.sem_queue.specs.declared.row.Row.{Row};
ghost use Rattle.attach_sem.specs.Chains.{AreInOrder, all_served, chain, takes};

/// Those that are served with a token are rows that want it, each of which comes before those that follow by rank. Each
/// of them but the last is attached; and each attached one that wants the token is among them unless a take comes
/// before it.
pub fn a_chain_is_in_order_of_rank()
    ensures order { (attached : ℕ → Bool) (token : ℕ) (rows : List Row) → (served : List Row)
        × (map (λ r. r.number) served ≡ all_served (chain attached token rows))
        × All (λ r. Contains rows r × (wants token r ≡ true)) served × AreInOrder served }
    ensures attached { (attached : ℕ → Bool) (token : ℕ) (rows : List Row)
        → All (λ entry. attached entry ≡ true) (chain attached token rows).attached }
    ensures whole { (attached : ℕ → Bool) (token : ℕ) (rows : List Row) (r : Row)
        → Contains rows r → wants token r ≡ true → attached r.number ≡ true
        → All (λ x. takes attached token x ≡ true → before r x ≡ true) rows
        → Contains (chain attached token rows).attached r.number }
{}

/// The last that is served is the take that wants the token and comes first by rank. None is told exactly where no take
/// wants it.
pub fn a_chain_ends_with_a_take()
    ensures last { (attached : ℕ → Bool) (token : ℕ) (rows : List Row)
        → (chain attached token rows).last
        ≡ option_map (λ r. r.number) (least before (filter (takes attached token) rows)) }
    ensures none { (attached : ℕ → Bool) (token : ℕ) (rows : List Row)
        → ((chain attached token rows).last ≡ None)
        ↔ (filter (takes attached token) rows ≡ []) }
{}
