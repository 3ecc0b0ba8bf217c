//! The rows that wait, in the order in which they are served with a token.

ghost use Rattle.std.specs.Prelude.{◌≡◌, ◌+◌, ◌^◌, ◌<◌, ◌≤◌, IfSome, length, slice_index};
ghost use Rattle.sem_queue.specs.Marks.{IsIndex, row_from};
ghost use Rattle.sem_queue.specs.declared.order.Order.TheVariants.{Rank};
ghost use Rattle.sem_queue.specs.Rows.{after_next};

use crate::Row;
use crate::keys::{begin_of, row_under};
use slab::Slab;
use std::marker::Model;

/// Who is served with a token, one after the other: lent by `Ranks`. Contracts see the rows, the token, and the number
/// of the row that is next. None of the rows is looked for: each is where the one before it leads.
#[derive(Drop)]
pub struct Served<'a> {
    pub(crate) slots: &'a Slab<Row>,
    pub(crate) by_number: &'a [usize],
    pub(crate) by_rank: &'a [usize],
    pub(crate) begins: &'a [usize],
    pub(crate) tokens: u32,
    pub(crate) token: u32,
    // The places in `by_rank` of those that are next: in the list of the token, and in the list of those that want any.
    pub(crate) own: usize,
    pub(crate) any: usize,
}

impl<'a> Model for Served<'a> {
    ghost use Rattle.std.specs.Prelude.{◌+◌, slice_index};
    ghost use Rattle.sem_queue.specs.Rows.{Following, earlier_number};

    ghost Value = { Following };

    ghost use Rattle.sem_queue.specs.Marks.{IsServing, row_from, rows_at};

    ghost view = { λ s. record {
      rows = rows_at s.slots.now s.by_number.now;
      token = s.token;
      next = earlier_number
          (row_from s.slots.now s.by_rank.now (slice_index s.begins.now (s.token + 1)) s.own)
          (row_from s.slots.now s.by_rank.now (slice_index s.begins.now (s.tokens + 1)) s.any);
    } };

    ghost invariant = { λ s. IsServing s.tokens s.token s.slots.now s.by_rank.now s.begins.now
        (rows_at s.slots.now s.by_number.now) s.own s.any };
}

/// The row at a place of the order of rank, where the list reaches so far.
pub(crate) fn row_in(
    slots: &Slab<Row>,
    by_rank: &[usize],
    begins: &[usize],
    tokens: u32,
    list: u32,
    place: usize,
) -> Option<Row>
    requires index { IsIndex slots.now (Rank tokens) by_rank.now }
    requires list { list + 1 < length begins.now }
    requires ends { slice_index begins.now (list + 1) ≤ length by_rank.now }
    ensures row { result ≡ row_from slots.now by_rank.now (slice_index begins.now (list + 1)) place }
    ensures small { IfSome result (λ _. place + 1 < 2 ^ 64) }
{
    if place < begin_of(begins, list as usize + 1) {
        Some(row_under(slots, by_rank[place]))
    } else {
        None
    }
}

impl<'a> Served<'a> {
    /// The number of the row that is served next; the one after it is next then. None exactly where there is none.
    pub fn next(&mut self) -> Option<u64>
        ensures number { result ≡ self.old.next }
        ensures state { self.new ≡ after_next self.old }
    {
        let slots = self.slots;
        let by_rank = self.by_rank;
        let begins = self.begins;
        let tokens = self.tokens;
        let own = row_in(slots, by_rank, begins, tokens, self.token, self.own);
        let any = row_in(slots, by_rank, begins, tokens, tokens, self.any);
        match own {
            None => match any {
                None => None,
                Some(any) => {
                    self.any += 1;
                    Some(any.number)
                }
            },
            Some(own) => match any {
                None => {
                    self.own += 1;
                    Some(own.number)
                }
                Some(any) => {
                    if own.before(&any) {
                        self.own += 1;
                        Some(own.number)
                    } else {
                        self.any += 1;
                        Some(any.number)
                    }
                }
            },
        }
    }
}
