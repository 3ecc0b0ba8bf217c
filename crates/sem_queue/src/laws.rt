//! Laws over all rows. Each function has no body: its contract is the law.

ghost use Rattle.std.specs.Prelude.{◌≡◌, ◌↔◌, ℕ, All, List, None, Some, [], false, filter, filter_map};
ghost use Rattle.sem_queue.specs.Rows.{AreDistinct, IsFirstDue, IsServedFirst, before, due_of, first_due, least, least_number, sooner, wants};
ghost use Rattle.sem_queue.specs.declared.row.Row.{Row};
ghost use Rattle.sem_queue.specs.declared.row.Due.{Due};

/// No row that wants a token is served before the first. None is told only where no row wants it. Of rows that no two
/// have one number, a row is the first exactly where it is one of those that want the token and none of them comes
/// before it; and of any rows, a number is told exactly where it is such a row's.
pub fn the_least_is_served_first()
    ensures best { (token : ℕ) (rows : List Row) (r : Row)
        → least before (filter (wants token) rows) ≡ Some r
        → All (λ x. before x r ≡ false) (filter (wants token) rows) }
    ensures none { (token : ℕ) (rows : List Row) → least_number token rows ≡ None
        → filter (wants token) rows ≡ [] }
    ensures exact { (token : ℕ) (rows : List Row) (r : Row) → AreDistinct rows
        → (least before (filter (wants token) rows) ≡ Some r) ↔ IsServedFirst token rows r }
    ensures exact_number { (token : ℕ) (rows : List Row) (n : ℕ)
        → (least_number token rows ≡ Some n)
        ↔ ((r : Row) × IsServedFirst token rows r × (r.number ≡ n)) }
{}

/// No deadline is met before the first. None is told only where no row has one. A deadline is the first exactly where
/// it is one of the rows' and no row has a sooner one.
pub fn the_first_deadline_is_the_least()
    ensures best { (rows : List Row) (d : Due) → least sooner (filter_map due_of rows) ≡ Some d
        → All (λ x. sooner x d ≡ false) (filter_map due_of rows) }
    ensures none { (rows : List Row) → first_due rows ≡ None → filter_map due_of rows ≡ [] }
    ensures exact { (rows : List Row) (d : Due) → (first_due rows ≡ Some d) ↔ IsFirstDue rows d }
{}
