ghost use Rattle.std.specs.Prelude.{◌≡◌, ◌-◌, ◌<◌, ◌≤◌, length, slice_get, [], ◌∷◌, ◌++◌, false, filter, IfOk, IfSome, IsOk, None, not, OnErr, OnOk, option_map, Some, true, vec_capacity, vec_len};
ghost use Rattle.std.specs.List.{position};
ghost use Rattle.std.specs.Option.{option_copied};
ghost use Rattle.attach_sem.specs.Chains.{chain, is_attached};
ghost use Rattle.attach_sem.specs.Table.{AreDistinct, after_going, found, is_by, is_of};

use crate::{Chain, Numbers, Waiting};
use mms_types::{Key, Memory};
use sem_queue::Ranks;
use std::alloc::Global;
use std::marker::Model;

/// An attached request and its entry.
#[derive(Drop)]
pub struct Pair {
    /// The name of the semaphore.
    pub key: Key,
    /// The number of the entry.
    pub entry: u64,
    /// The request.
    pub waiting: Waiting,
}

/// Whether the request at a place is that of an entry before that one, by number and then by the semaphore's name.
fn is_before(pairs: &[Pair], place: usize, key: &Key, entry: u64) -> bool {
    match pairs.get(place) {
        None => false,
        Some(pair) => pair.entry < entry || (pair.entry == entry && pair.key < *key),
    }
}

/// Whether the request at a place is that of the entry.
fn is_at(pairs: &[Pair], place: usize, key: &Key, entry: u64) -> bool
    ensures { result ≡ true → IfSome (slice_get pairs.now place)
        (λ p. is_of key.now entry p ≡ true) × (place < length pairs.now) }
{
    match pairs.get(place) {
        None => false,
        Some(pair) => pair.entry == entry && pair.key == *key,
    }
}

/// How many of the places in order of their entries are those of entries before that one.
fn front_of(pairs: &[Pair], places: &[usize], key: &Key, entry: u64) -> usize
    ensures { result ≤ length places.now }
{
    places.partition_point(|place| is_before(pairs, *place, key, entry))
}

/// The place of the request of an entry, where the places in order of their entries lead to it.
fn listed_place(pairs: &[Pair], places: &[usize], key: &Key, entry: u64) -> Option<usize>
    ensures { IfSome result (λ place. IfSome (slice_get pairs.now place)
        (λ p. is_of key.now entry p ≡ true) × (place < length pairs.now)) }
{
    let place = places.get(front_of(pairs, places, key, entry))?;
    if is_at(pairs, *place, key, entry) {
        Some(*place)
    } else {
        None
    }
}

/// The place of the request of an entry. It is looked for by halves, and where it isn't found so, among all.
fn place_of(pairs: &[Pair], places: &[usize], key: &Key, entry: u64) -> Option<usize>
    requires { AreDistinct pairs.now }
    ensures { result ≡ position (is_of key.now entry) pairs.now }
{
    match listed_place(pairs, places, key, entry) {
        Some(place) => Some(place),
        None => pairs
            .iter()
            .position(|pair| pair.entry == entry && pair.key == *key),
    }
}

/// Puts a place among those in order of their entries, where there is room for it.
fn list_place(pairs: &[Pair], places: &mut Vec<usize>, place: usize, key: &Key, entry: u64)
    ensures { vec_capacity places.new ≡ vec_capacity places.old }
{
    let front = front_of(pairs, places, key, entry);
    if places.len() < places.capacity() {
        match places.insert(front, place) {
            Ok(()) => {}
            Err(_) => {}
        }
    }
}

/// The request at a place goes: those behind it stand one place further in front.
fn leave_place(places: &mut Vec<usize>, place: usize) {
    places.retain(|other| *other != place);
    for at in 0..places.len() {
        if places[at] > place {
            places[at] -= 1;
        }
    }
}

/// Puts all places in order of their entries, where there is room for them.
fn list_places(pairs: &[Pair], places: &mut Vec<usize>) {
    places.clear();
    for place in 0..pairs.len() {
        let pair = &pairs[place];
        list_place(pairs, places, place, &pair.key, pair.entry);
    }
}

/// A copy of attached requests, in the same order.
fn copied(alloc: Global, pairs: &[Pair]) -> Result<Vec<Pair>, Memory>
    ensures { IfOk result (λ copies. copies.items ≡ pairs.now) }
{
    let mut copies = Vec::new(alloc);
    for pair in pairs {
        copies.push(Pair {
            key: pair.key.copy(alloc)?,
            entry: pair.entry,
            waiting: pair.waiting.copy(alloc)?,
        })?;
    }
    Ok(copies)
}

/// The requests of a client go.
fn lose(pairs: &mut Vec<Pair>, client: u32)
    ensures pairs { pairs.new.items ≡ filter (λ p. not (is_by client p)) pairs.old.items }
    ensures len { vec_len pairs.new ≤ vec_len pairs.old }
    ensures capacity { vec_capacity pairs.new ≡ vec_capacity pairs.old }
{
    pairs.retain(|pair| pair.waiting.client != client);
}

/// Attached requests by their entries. Contracts see the pairs of an entry and its request in the order in which they
/// came, and for how many more there is room. No entry has two requests.
#[derive(Drop)]
pub struct Attached {
    pairs: Vec<Pair>,
    // The places of the pairs in order of their entries' numbers, and of one number in order of the names. They lead to
    // a pair, and nothing rests on them: where they don't lead to it, it is found without them.
    places: Vec<usize>,
    spare: usize,
}

impl Model for Attached {
    ghost use Rattle.std.specs.Prelude.{◌+◌, ◌≤◌, vec_len, vec_capacity};
    ghost use Rattle.attach_sem.specs.Table.{Table, AreDistinct};

    ghost Value = { Table };

    ghost use Rattle.std.specs.Coded.{codes};
    ghost use Rattle.mms_types.specs.DatumCode.{datum_code};
    ghost use Rattle.mms_types.specs.ShapeCode.{shape_code};

    ghost coded = { Prim.hlevel (codes, datum_code, shape_code) };

    ghost view = { λ a. record { pairs = a.pairs.items; spare = a.spare } };

    ghost invariant = { λ a.
        (vec_len a.pairs + a.spare ≤ vec_capacity a.pairs) × AreDistinct a.pairs.items };
}

impl Attached {
    /// No request, and room for none.
    pub fn new(alloc: Global) -> Attached
        ensures { result ≡ record { pairs = []; spare = 0 } }
    {
        Attached {
            pairs: Vec::new(alloc),
            places: Vec::new(alloc),
            spare: 0,
        }
    }

    /// A copy, with no room for more requests. The one refusal is want of memory.
    pub fn copy(&self, alloc: Global) -> Result<Attached, Memory>
        ensures { IfOk result (λ a. a ≡ record self.now { spare = 0 }) }
    {
        Ok(Attached {
            pairs: copied(alloc, &self.pairs)?,
            places: self.places.as_slice().iter().copied().collect(alloc)?,
            spare: 0,
        })
    }

    /// Makes room for so many requests more, where there is less. The one refusal is want of memory; then all is as
    /// before.
    pub fn reserve(&mut self, more: usize) -> Result<(), Memory>
        ensures room { OnOk result (more ≤ self.new.spare) }
        ensures grows { self.old.spare ≤ self.new.spare }
        ensures rest { self.new ≡ record self.old { spare = self.new.spare } }
        ensures err { OnErr result (self.new ≡ self.old) }
        ensures had_room { more ≤ self.old.spare → IsOk result × (self.new ≡ self.old) }
    {
        if more <= self.spare {
            return Ok(());
        }
        self.pairs.reserve(more)?;
        self.places.reserve(more)?;
        self.spare = more;
        Ok(())
    }

    /// Keeps the request of an entry that has none. It takes no memory, and uses the room for one.
    pub fn insert(&mut self, key: Key, entry: u64, waiting: Waiting)
        requires room { 0 < self.old.spare }
        requires absent { found key entry self.old.pairs ≡ None }
        ensures { self.new ≡ record {
          pairs = self.old.pairs ++ record { key = key; entry = entry; waiting = waiting } ∷ [];
          spare = self.old.spare - 1;
        } }
    {
        let place = self.pairs.len();
        list_place(&self.pairs, &mut self.places, place, &key, entry);
        self.pairs.push_reserved(Pair {
            key,
            entry,
            waiting,
        });
        self.spare -= 1;
    }

    /// The request of an entry. None exactly where it has none. No entry has two.
    pub fn get(&self, key: &Key, entry: u64) -> Option<&Waiting>
        ensures request { option_copied result
            ≡ option_map (λ p. p.waiting) (found key.now entry self.now.pairs) }
        ensures always { AreDistinct self.now.pairs }
    {
        match place_of(&self.pairs, &self.places, key, entry) {
            None => None,
            Some(place) => Some(&self.pairs[place].waiting),
        }
    }

    /// Takes the request of an entry away, and leaves room for one more. None exactly where it has none; then all is as
    /// before. It takes no memory.
    pub fn remove(&mut self, key: &Key, entry: u64) -> Option<Waiting>
        ensures told { result ≡ option_map (λ p. p.waiting) (found key.now entry self.old.pairs) }
        ensures state { self.new ≡ after_going (is_of key.now entry) self.old }
    {
        let Some(place) = place_of(&self.pairs, &self.places, key, entry) else {
            return None;
        };
        let pair = self.pairs.remove(place);
        leave_place(&mut self.places, place);
        self.spare += 1;
        Some(pair.waiting)
    }

    /// A client is lost: its requests go, and leave their room. It takes no memory.
    pub fn lose(&mut self, client: u32)
        ensures { self.new ≡ after_going (is_by client) self.old }
    {
        let before = self.pairs.len();
        lose(&mut self.pairs, client);
        list_places(&self.pairs, &mut self.places);
        self.spare += before - self.pairs.len();
    }

    /// The entry that is next, where it has a request.
    fn link(&self, key: &Key, next: Option<u64>) -> Option<u64>
        ensures some { IfSome result
            (λ entry. (next ≡ Some entry) × (is_attached key.now self.now.pairs entry ≡ true)) }
        ensures none { result ≡ None
            → IfSome next (λ entry. is_attached key.now self.now.pairs entry ≡ false) }
    {
        let Some(entry) = next else {
            return None;
        };
        if self.get(key, entry).is_some() {
            Some(entry)
        } else {
            None
        }
    }

    /// Who is served with a token of that semaphore when it is freed, by the semaphore's ranks: the entries with
    /// attached requests, one after the other, and then the first that has none. The one refusal is want of memory.
    pub fn chain(
        &self,
        alloc: Global,
        ranks: &Ranks,
        key: &Key,
        token: u32,
    ) -> Result<Chain, Memory>
        requires { token < ranks.now.tokens }
        ensures { IfOk result (λ c.
            c ≡ chain (is_attached key.now self.now.pairs) token ranks.now.rows) }
    {
        let _tokens = ranks.tokens();
        let mut attached: Vec<u64> = Vec::new(alloc);
        let mut served = ranks.served(token);
        let mut next = served.next();
        while let Some(number) = self.link(key, next) {
            attached.push(number)?;
            next = served.next();
        }
        Ok(Chain {
            attached: Numbers { list: attached },
            last: next,
        })
    }
}
