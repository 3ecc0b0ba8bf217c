ghost use Rattle.std.specs.Prelude.{◌≡◌, ◌+◌, ◌-◌, ◌*◌, ◌^◌, ◌<◌, ◌≤◌, [], true, IsOk, OnErr, OnOk, IfOk, count_by, length, slice_index, Some, vec_capacity, vec_len};
ghost use Rattle.std.specs.List.{list_any};
ghost use Rattle.sem_queue.specs.Marks.{IsIndex, is_up_to, row_from, rows_at};
ghost use Rattle.sem_queue.specs.declared.order.Order.TheVariants.{Rank};
ghost use Rattle.sem_queue.specs.Rows.{AreDistinct, after_remove, count_numbered, due_of, earlier_number, first_deadline, first_due, is_placed, least_number, listed, number_after, numbered, place_of as place_in, waits_numbered, with_row};

use crate::keys::{
    begin_later, begin_of, begin_sooner, key_of, place_of, put, row_under, take_out,
};
use crate::order::{Mark, Order, list_of, search};
use crate::served::row_in;
use crate::{Due, Row, Served, Steps};
use mms_types::{Memory, Moment};
use slab::Slab;
use std::alloc::Global;
use std::marker::Model;
use std::sync::ledger::Ledger;

/// The entries of a semaphore with so many tokens, by rank and by deadline (ISO 9506-1, semaphore management).
/// Contracts see the rows in order of number, the number of tokens, and for how many rows more there is room. List t
/// has the rows that wait for token t, and the list after those of the tokens the rows that wait for any; each is in
/// order of rank.
pub struct Ranks {
    tokens: u32,
    spare: usize,
    slots: Slab<Row>,
    by_number: Vec<usize>,
    by_rank: Vec<usize>,
    by_deadline: Vec<usize>,
    // Where each list begins in `by_rank`, and where the last one ends.
    begins: Vec<usize>,
}

impl Model for Ranks {
    ghost use Rattle.sem_queue.specs.Rows.{Queue};

    ghost Value = { Queue };

    ghost use Rattle.sem_queue.specs.Marks.{IsRanks, rows_at};

    ghost view = { λ r. record {
      rows = rows_at r.slots r.by_number.items;
      tokens = r.tokens;
      spare = r.spare;
    } };

    ghost invariant = { λ r.
        IsRanks r.tokens r.spare r.slots r.by_number r.by_rank r.by_deadline r.begins.items };
}

/// The number of the row that is served first.
fn first_of(own: Option<Row>, any: Option<Row>) -> Option<u64>
    ensures { result ≡ earlier_number own any }
{
    match own {
        None => match any {
            None => None,
            Some(any) => Some(any.number),
        },
        Some(own) => match any {
            None => Some(own.number),
            Some(any) => Some(if own.before(&any) {
                own.number
            } else {
                any.number
            }),
        },
    }
}

/// The first row of a list.
fn first_in(
    slots: &Slab<Row>,
    by_rank: &[usize],
    begins: &[usize],
    tokens: u32,
    list: u32,
) -> Option<Row>
    requires index { IsIndex slots.now (Rank tokens) by_rank.now }
    requires list { list + 1 < length begins.now }
    requires ends { slice_index begins.now (list + 1) ≤ length by_rank.now }
    ensures { result ≡ row_from slots.now by_rank.now (slice_index begins.now (list + 1))
        (slice_index begins.now list) }
{
    let first = begin_of(begins, list as usize);
    row_in(slots, by_rank, begins, tokens, list, first)
}

/// The first row of a list that is served after that one.
fn first_above(
    slots: &Slab<Row>,
    by_rank: &[usize],
    begins: &[usize],
    tokens: u32,
    list: u32,
    row: &Row,
) -> Option<Row>
    requires index { IsIndex slots.now (Rank tokens) by_rank.now }
    requires list { list + 1 < length begins.now }
    requires ends { slice_index begins.now (list + 1) ≤ length by_rank.now }
    ensures { result ≡ row_from slots.now by_rank.now (slice_index begins.now (list + 1))
        (count_by (is_up_to tokens list row.now) (rows_at slots.now by_rank.now)) }
{
    let sought = Mark {
        first: u64::from(list),
        second: row.priority,
        number: row.number,
    };
    match place_of(slots, by_rank, Order::Rank(tokens), &sought) {
        Ok(place) => row_in(slots, by_rank, begins, tokens, list, place + 1),
        Err(place) => row_in(slots, by_rank, begins, tokens, list, place),
    }
}

/// The deadline of a row.
fn due_of(row: &Row) -> Option<Due>
    ensures { result ≡ due_of row.now }
{
    match row.deadline {
        None => None,
        Some(at) => Some(Due {
            at,
            kind: if row.queued { 1 } else { 0 },
            number: row.number,
        }),
    }
}

/// Room for so many keys more than a vector of the same rows has.
fn reserve_keys(keys: &mut Vec<usize>, rows: usize, more: usize) -> Result<(), Memory>
    requires { vec_len keys.old ≤ rows }
    ensures items { keys.new.items ≡ keys.old.items }
    ensures len { vec_len keys.new ≡ vec_len keys.old }
    ensures ok { OnOk result (rows + more ≤ vec_capacity keys.new) }
    ensures capacity { vec_capacity keys.old ≤ vec_capacity keys.new }
{
    let Some(all) = rows.checked_add(more) else {
        return Err(Memory::wanting());
    };
    keys.reserve(all - keys.len())?;
    Ok(())
}

/// A copy of numbers, with room for so many.
fn copy_of(alloc: Global, numbers: &[usize], room: usize) -> Result<Vec<usize>, Memory>
    requires { length numbers.now ≤ room }
    ensures items { IfOk result (λ copy. copy.items ≡ numbers.now) }
    ensures room { IfOk result (λ copy. room ≤ vec_capacity copy) }
{
    let mut copy: Vec<usize> = numbers.iter().copied().collect(alloc)?;
    reserve_keys(&mut copy, room, 0)?;
    Ok(copy)
}

impl Ranks {
    /// No rows, and no room for any. The one refusal is want of memory.
    pub fn new(alloc: Global, tokens: u32) -> Result<Ranks, Memory>
        ensures { IfOk result (λ r. r ≡ record { rows = []; tokens = tokens; spare = 0 }) }
    {
        Ok(Ranks {
            tokens,
            spare: 0,
            slots: Slab::new(alloc),
            by_number: Vec::new(alloc),
            by_rank: Vec::new(alloc),
            by_deadline: Vec::new(alloc),
            begins: vec![in alloc; 0; tokens as usize + 2]?,
        })
    }

    /// A copy, with no room for more rows. The one refusal is want of memory.
    pub fn copy(&self, alloc: Global) -> Result<Ranks, Memory>
        ensures { IfOk result (λ r. r ≡ record self.now { spare = 0 }) }
    {
        let rows = self.by_number.len();
        let slots = self.slots.clone()?;
        let _room = slots.capacity();
        let by_number = copy_of(alloc, self.by_number.as_slice(), rows)?;
        let by_rank = copy_of(alloc, self.by_rank.as_slice(), rows)?;
        let by_deadline = copy_of(alloc, self.by_deadline.as_slice(), rows)?;
        let begins = copy_of(alloc, self.begins.as_slice(), self.begins.len())?;
        Ok(Ranks {
            tokens: self.tokens,
            spare: 0,
            slots,
            by_number,
            by_rank,
            by_deadline,
            begins,
        })
    }

    /// How many tokens there are. Of any ranks it holds that no two rows have one number.
    pub fn tokens(&self) -> u32
        ensures tokens { result ≡ self.now.tokens }
        ensures always { AreDistinct self.now.rows }
    {
        self.tokens
    }

    /// Makes room for so many rows more, where there is less. The one refusal is want of memory; then all is as
    /// before.
    pub fn reserve(&mut self, more: usize) -> Result<(), Memory>
        ensures room { OnOk result (more ≤ self.new.spare) }
        ensures grows { self.old.spare ≤ self.new.spare }
        ensures rest { self.new ≡ record self.old { spare = self.new.spare } }
        ensures err { OnErr result (self.new ≡ self.old) }
        ensures had_room { more ≤ self.old.spare → IsOk result × (self.new ≡ self.old) }
    {
        if more <= self.spare {
            return Ok(());
        }
        let rows = self.by_number.len();
        self.slots.reserve(more)?;
        reserve_keys(&mut self.by_number, rows, more)?;
        reserve_keys(&mut self.by_rank, rows, more)?;
        reserve_keys(&mut self.by_deadline, rows, more)?;
        self.spare = more;
        Ok(())
    }

    /// Puts a row in, whose number isn't there. It takes no memory, and uses room that was made.
    pub fn insert(&mut self, row: Row)
        requires room { 0 < self.old.spare }
        requires absent { count_numbered row.number self.old.rows ≡ 0 }
        requires placed { is_placed self.old.tokens row.token ≡ true }
        ensures { self.new ≡ record self.old {
          rows = with_row row self.old.rows;
          spare = self.old.spare - 1;
        } }
    {
        let key = self.slots.insert_reserved(row);
        put(
            &self.slots,
            &mut self.by_number,
            Order::Number,
            key,
            &row,
            true,
        );
        put(
            &self.slots,
            &mut self.by_rank,
            Order::Rank(self.tokens),
            key,
            &row,
            row.queued,
        );
        put(
            &self.slots,
            &mut self.by_deadline,
            Order::Deadline,
            key,
            &row,
            row.deadline.is_some(),
        );
        let list = list_of(self.tokens, row.token);
        begin_later(&mut self.begins, list, row.queued);
        self.spare -= 1;
    }

    /// Takes out the row of that number, which leaves room for one more. None exactly where the number isn't there;
    /// then all stays as it was. It takes no memory.
    pub fn remove(&mut self, number: u64) -> Option<Row>
        ensures row { result ≡ numbered number self.old.rows }
        ensures state { self.new ≡ after_remove (numbered number self.old.rows) self.old }
    {
        let Some(key) = key_of(&self.slots, &self.by_number, number) else {
            return None;
        };
        let row = row_under(&self.slots, key);
        let list = list_of(self.tokens, row.token);
        begin_sooner(&mut self.begins, list, row.queued);
        take_out(&self.slots, &mut self.by_number, Order::Number, &row, true);
        let order = Order::Rank(self.tokens);
        take_out(&self.slots, &mut self.by_rank, order, &row, row.queued);
        let due = row.deadline.is_some();
        take_out(
            &self.slots,
            &mut self.by_deadline,
            Order::Deadline,
            &row,
            due,
        );
        self.slots.remove(key);
        self.spare += 1;
        Some(row)
    }

    /// The number of the row that is served first, by priority and then by number, of those that wait for that token
    /// or for any. None exactly where there is none.
    pub fn least(&self, token: u32) -> Option<u64>
        requires { token < self.now.tokens }
        ensures { result ≡ least_number token self.now.rows }
    {
        if self.by_rank.is_empty() {
            return None;
        }
        let tokens = self.tokens;
        let by_rank = self.by_rank.as_slice();
        let begins = self.begins.as_slice();
        let own = first_in(&self.slots, by_rank, begins, tokens, token);
        let any = first_in(&self.slots, by_rank, begins, tokens, tokens);
        first_of(own, any)
    }

    /// Who is served with that token, of those that wait for it or for any: one after the other, by priority and then by
    /// number.
    pub fn served(&self, token: u32) -> Served<'_>
        requires { token < self.now.tokens }
        ensures { result ≡ record {
          rows = self.now.rows;
          token = token;
          next = least_number token self.now.rows;
        } }
    {
        let begins = self.begins.as_slice();
        Served {
            slots: &self.slots,
            by_number: self.by_number.as_slice(),
            by_rank: self.by_rank.as_slice(),
            begins,
            tokens: self.tokens,
            token,
            own: begin_of(begins, token as usize),
            any: begin_of(begins, self.tokens as usize),
        }
    }

    /// The least deadline, by moment, then that of a row that has a token before that of one that waits, then by
    /// number: its moment and the number of its row. None exactly where no row has one.
    pub fn first_deadline(&self) -> Option<(Moment, u64)>
        ensures { result ≡ first_deadline self.now.rows }
    {
        match self.first_due() {
            None => None,
            Some(due) => Some((due.at, due.number)),
        }
    }

    /// The least deadline, with its kind. None exactly where no row has one.
    pub fn first_due(&self) -> Option<Due>
        ensures { result ≡ first_due self.now.rows }
    {
        match self.by_deadline.as_slice().first() {
            None => None,
            Some(key) => due_of(&row_under(&self.slots, *key)),
        }
    }

    /// Whether any row waits.
    pub fn waits(&self) -> bool
        ensures { result ≡ list_any (λ r. r.queued) self.now.rows }
    {
        !self.by_rank.is_empty()
    }

    /// The place of a rank in a list, or the place where it would stand. A step is one row looked at.
    pub fn find<L: Ledger>(
        &self,
        list: u32,
        priority: u8,
        number: u64,
        steps: &mut Steps<L>,
    ) -> Result<usize, usize>
        requires { list ≤ self.now.tokens }
        ensures place { result
            ≡ place_in priority number (listed self.now.tokens list self.now.rows) }
        ensures counted { steps.old ≤ steps.new }
        ensures bound { 2 ^ (steps.new - steps.old)
            ≤ 2 * length (listed self.now.tokens list self.now.rows) + 1 }
    {
        let by_rank = self.by_rank.as_slice();
        let begins = self.begins.as_slice();
        let from = begin_of(begins, list as usize);
        let to = begin_of(begins, list as usize + 1);
        let order = Order::Rank(self.tokens);
        let sought = Mark {
            first: u64::from(list),
            second: priority,
            number,
        };
        match search(&self.slots, by_rank, order, &sought, from, to, steps) {
            Ok(place) => Ok(place - from),
            Err(place) => Err(place - from),
        }
    }

    /// The number of the row that is served next after that one, which waits, of those that wait for that token or
    /// for any. None exactly where there is none.
    pub fn after(&self, token: u32, number: u64) -> Option<u64>
        requires waits { waits_numbered number self.now.rows ≡ Some true }
        requires token { token < self.now.tokens }
        ensures { result ≡ number_after number token self.now.rows }
    {
        let Some(key) = key_of(&self.slots, &self.by_number, number) else {
            unreachable!()
        };
        let row = row_under(&self.slots, key);
        let tokens = self.tokens;
        let by_rank = self.by_rank.as_slice();
        let begins = self.begins.as_slice();
        let own = first_above(&self.slots, by_rank, begins, tokens, token, &row);
        let any = first_above(&self.slots, by_rank, begins, tokens, tokens, &row);
        first_of(own, any)
    }
}

impl Drop for Ranks {
    fn drop(self) {
        let Ranks {
            tokens: _,
            spare: _,
            slots: _slots,
            by_number: _by_number,
            by_rank: _by_rank,
            by_deadline: _by_deadline,
            begins: _begins,
        } = self;
    }
}
