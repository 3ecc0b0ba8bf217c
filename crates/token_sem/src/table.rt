//! The entries of a semaphore, with who is served first and which deadline is met first beside them.

ghost use Rattle.std.specs.Prelude.{◌≡◌, ◌+◌, ◌-◌, ◌≤◌, ◌<◌, ◌++◌, ◌∷◌, ◌==◌, [], Err, IfOk, IfSome, None, OnErr, OnOk, Some, filter, find, fold, length, map, not, option_map, slice_get, true, false, vec_capacity, vec_len, ℕ};
ghost use Rattle.std.specs.List.{list_any};
ghost use Rattle.mms_types.specs.Moments.{IsDated};
ghost use Rattle.sem_queue.specs.Rows.{is_placed};
ghost use Rattle.token_sem.specs.Entries.{AreEntries, ArePlaced, after_end, expired_of, freed, is_ranked, left, lists_of, lose_one, loss_of, loss_of_one, lost_one, name_of, next_of, put_entry, row_of, rows_of, token_of, told_freed, told_left};
ghost use Rattle.token_sem.specs.Semaphore.{Rises, deadline_at, first_deadline, hung_entry, is_queued, moment_and_entry, numbered, owned_by, waits_for, without};
ghost use Rattle.token_sem.specs.declared.entry.SemEntry.{SemEntry};
ghost use Rattle.token_sem.specs.declared.entry.TakeRefused.TheVariants.{Memory as OutOfMemory};

use crate::entries::{aborts, granted, owner_from, owner_of, owners_of, push};
use crate::{Deadline, Expired, Grant, LostOne, SemEntry, SemState, TakeRefused};
use mms_types::{Memory, Moment};
use sem_queue::{Ranks, Row};
use std::alloc::Global;
use std::marker::Model;

/// The entries of a semaphore whose tokens are equal, or of a pool, whose tokens have names (ISO 9506-1, semaphore
/// entry). Contracts see the entries in order of number, and how many tokens have names. Numbers rise, and each token
/// that an entry has or wants is there.
pub struct Entries {
    named: Option<u32>,
    list: Vec<SemEntry>,
    /// A row for each entry that waits or has a deadline.
    ranks: Ranks,
}

impl Model for Entries {
    ghost use Rattle.token_sem.specs.Entries.{Table, IsTable};

    ghost Value = { Table };

    ghost view = { λ t. record { list = t.list.items; named = t.named } };

    ghost invariant = { λ t. IsTable t.named t.list.items t.ranks };
}

/// Whether the entry stands in an order: it waits or has a deadline.
fn is_ranked(entry: &SemEntry) -> bool
    ensures { result ≡ is_ranked entry.now }
{
    entry.is_queued() || entry.deadline.is_some()
}

/// The row of an entry.
fn row_of(entry: &SemEntry) -> Row
    ensures { result ≡ row_of entry.now }
{
    Row {
        number: entry.number,
        priority: entry.priority,
        queued: entry.is_queued(),
        token: entry.token,
        deadline: entry.deadline,
    }
}

/// In how many lists entries wait beside that of those that want any of a pool's tokens.
fn lists_of(named: Option<u32>) -> u32
    ensures { result ≡ lists_of named }
{
    match named {
        None => 1,
        Some(count) => count,
    }
}

impl Entries {
    /// No entries, of equal tokens, or of so many that have names. The one refusal is want of memory.
    pub fn new(alloc: Global, named: Option<u32>) -> Result<Entries, Memory>
        ensures { IfOk result (λ t. t ≡ record { list = []; named = named }) }
    {
        let ranks = Ranks::new(alloc, lists_of(named))?;
        Ok(Entries {
            named,
            list: Vec::new(alloc),
            ranks,
        })
    }

    /// The entries, in order of number. Of any entries it holds that numbers rise, and that each token that an entry has
    /// or wants is there.
    pub fn as_slice(&self) -> &[SemEntry]
        ensures entries { result.now ≡ self.now.list }
        ensures always { AreEntries self.now }
    {
        &self.list
    }

    /// The place of the entry of that number.
    fn place_of(&self, number: u64) -> Option<usize>
        ensures there { IfSome result
            (λ place. slice_get self.now.list place ≡ numbered number self.now.list) }
        ensures within { IfSome result (λ place. place < length self.now.list) }
        ensures absent { result ≡ None → numbered number self.now.list ≡ None }
    {
        match self
            .list
            .as_slice()
            .binary_search_by_key(&number, |entry| entry.number)
        {
            Ok(place) => Some(place),
            Err(_) => None,
        }
    }

    /// The entry of that number.
    pub fn numbered(&self, number: u64) -> Option<SemEntry>
        ensures entry { result ≡ numbered number self.now.list }
        ensures always { AreEntries self.now }
    {
        match self.place_of(number) {
            None => None,
            Some(place) => Some(self.list[place]),
        }
    }

    /// Appends an entry whose number is greater than all that are there. The one refusal is want of memory; then the
    /// entries are as before.
    pub fn add(&mut self, entry: SemEntry) -> Result<(), TakeRefused>
        requires some { 0 < entry.number }
        requires above { Rises 0 self.old.list (entry.number - 1) }
        requires placed { is_placed (lists_of self.old.named) entry.token ≡ true }
        ensures ok { OnOk result (self.new
            ≡ record self.old { list = self.old.list ++ entry ∷ [] }) }
        ensures err { OnErr result (self.new ≡ self.old) }
        ensures memory { OnErr result (result ≡ Err OutOfMemory) }
    {
        if !is_ranked(&entry) {
            push(&mut self.list, entry)?;
            return Ok(());
        }
        match self.ranks.reserve(1) {
            Ok(()) => {}
            Err(_) => return Err(TakeRefused::Memory),
        }
        push(&mut self.list, entry)?;
        self.ranks.insert(row_of(&entry));
        Ok(())
    }

    /// The entry of that number goes. It takes no memory.
    pub fn remove(&mut self, number: u64)
        ensures { self.new ≡ record self.old { list = without number self.old.list } }
    {
        let Some(place) = self.place_of(number) else {
            return;
        };
        let gone = self.list.remove(place);
        if is_ranked(&gone) {
            let _row = self.ranks.remove(number);
        }
    }

    /// The entry takes the place of the one that has its number, if one has. It takes no memory.
    fn put(&mut self, entry: &SemEntry)
        requires placed { is_placed (lists_of self.old.named) entry.now.token ≡ true }
        requires ranked { (e : SemEntry) → numbered entry.now.number self.old.list ≡ Some e
            → is_ranked entry.now ≡ true → is_ranked e ≡ true }
        ensures { self.new ≡ record self.old { list = map (put_entry entry.now) self.old.list } }
    {
        let Some(place) = self.place_of(entry.number) else {
            return;
        };
        let was_ranked = is_ranked(&self.list[place]);
        self.list[place] = *entry;
        if !was_ranked {
            return;
        }
        let _row = self.ranks.remove(entry.number);
        if is_ranked(entry) {
            self.ranks.insert(row_of(entry));
        }
    }

    /// Who gets a token, any of equal ones or the one of that place.
    fn next_of(&self, token: u32) -> Option<SemEntry>
        requires { token < lists_of self.now.named }
        ensures next { result ≡ next_of self.now.named token self.now.list }
        ensures always { AreEntries self.now }
    {
        match self.ranks.least(token) {
            None => None,
            Some(number) => self.numbered(number),
        }
    }

    /// Which token an owner of the token gets to have: none of equal ones.
    fn name_of(&self, token: u32) -> Option<u32>
        ensures { result ≡ name_of self.now.named token }
    {
        match self.named {
            None => None,
            Some(_) => Some(token),
        }
    }

    /// A token is freed, any of equal ones or the one of that place: who gets it. It takes no memory.
    fn free(&mut self, token: u32, now: Moment) -> Option<Grant>
        requires token { token < lists_of self.old.named }
        requires now { IsDated now }
        ensures grant { result ≡ told_freed self.old.named token self.old.list }
        ensures state { self.new
            ≡ record self.old { list = freed self.old.named token now self.old.list } }
    {
        if !self.waits() {
            return None;
        }
        let Some(first) = self.next_of(token) else {
            return None;
        };
        let name = self.name_of(token);
        self.put(&owner_from(name, now, &first));
        Some(granted(name, &first))
    }

    /// Which token an entry has, any of equal ones or its own.
    fn token_of(&self, entry: &SemEntry) -> Option<u32>
        ensures { result ≡ token_of self.now.named entry.now.token }
    {
        match self.named {
            None => Some(0),
            Some(_) => entry.token,
        }
    }

    /// An entry that has a token goes, and its token is freed: who gets it. It takes no memory.
    pub fn leave(&mut self, entry: &SemEntry, now: Moment) -> Option<Grant>
        requires placed { is_placed (lists_of self.old.named) entry.now.token ≡ true }
        requires now { IsDated now }
        ensures grant { result ≡ told_left self.old.named entry.now self.old.list }
        ensures state { self.new
            ≡ record self.old { list = left self.old.named entry.now now self.old.list } }
    {
        self.remove(entry.number);
        match self.token_of(entry) {
            None => None,
            Some(token) => self.free(token, now),
        }
    }

    /// Who gets the token of an entry where it goes.
    pub fn heir(&self, entry: &SemEntry) -> Option<Grant>
        requires there { numbered entry.now.number self.now.list ≡ Some entry.now }
        requires holds { is_queued entry.now ≡ false }
        requires placed { is_placed (lists_of self.now.named) entry.now.token ≡ true }
        ensures { result ≡ told_left self.now.named entry.now self.now.list }
    {
        if !self.waits() {
            return None;
        }
        let Some(token) = self.token_of(entry) else {
            return None;
        };
        let Some(first) = self.next_of(token) else {
            return None;
        };
        Some(granted(self.name_of(token), &first))
    }

    /// An entry of the client that waits.
    fn waiter_of(&self, client: u32) -> Option<SemEntry>
        ensures waiter { result ≡ find (waits_for client) self.now.list }
        ensures always { AreEntries self.now }
    {
        if !self.ranks.waits() {
            return None;
        }
        self.list
            .iter()
            .copied()
            .find(|entry| entry.client == client && entry.is_queued())
    }

    /// The client's queued entries go. It takes no memory.
    pub fn lose_waiters(&mut self, client: u32)
        ensures { self.new
            ≡ record self.old { list = filter (λ e. not (waits_for client e)) self.old.list } }
    {
        while let Some(entry) = self.waiter_of(client) {
            self.remove(entry.number);
        }
    }

    /// The entry of that number becomes hung. It takes no memory.
    fn hang(&mut self, number: u64)
        ensures { self.new ≡ record self.old { list = map (hung_entry number) self.old.list } }
    {
        let Some(mut entry) = self.numbered(number) else {
            return;
        };
        entry.state = SemState::Hung;
        self.put(&entry);
    }

    /// Of a client that is lost, its queued entries go. Then its owner entry of least number becomes hung where its
    /// token is kept, and else goes, and its token is freed: who gets it is told. `Done` exactly where it has no owner
    /// entry. It takes no memory.
    pub fn lose_one(&mut self, client: u32, now: Moment) -> LostOne
        requires { IsDated now }
        ensures told { result ≡ lost_one self.old.named client self.old.list }
        ensures state { self.new ≡ record self.old {
          list = (lose_one self.old.named client now
              (record { entries = self.old.list; grants = [] })).entries;
        } }
    {
        let first = owner_of(client, &self.list);
        self.lose_waiters(client);
        let Some(owner) = first else {
            return LostOne::Done;
        };
        if !owner.keep {
            return LostOne::Freed(self.leave(&owner, now));
        }
        self.hang(owner.number);
        LostOne::Hung
    }

    /// The client of an owner is lost. Who gets its token is appended, for which there is room.
    fn lose_owner(&mut self, grants: &mut Vec<Grant>, owner: &SemEntry, now: Moment)
        requires placed { is_placed (lists_of self.old.named) owner.now.token ≡ true }
        requires room { vec_len grants.old < vec_capacity grants.old }
        requires now { IsDated now }
        ensures is { loss_of_one self.old.named now
            (record { entries = self.old.list; grants = grants.old.items }) owner.now
            ≡ record { entries = self.new.list; grants = grants.new.items } }
        ensures named { self.new.named ≡ self.old.named }
        ensures len { vec_len grants.new ≤ vec_len grants.old + 1 }
        ensures capacity { vec_capacity grants.new ≡ vec_capacity grants.old }
    {
        if owner.keep {
            self.hang(owner.number);
            return;
        }
        if let Some(grant) = self.leave(owner, now) {
            grants.push_reserved(grant);
        }
    }

    /// The client of these owners is lost.
    fn lose_owners(&mut self, grants: &mut Vec<Grant>, owners: &[SemEntry], now: Moment)
        requires placed { ArePlaced (lists_of self.old.named) owners.now }
        requires empty { grants.old.items ≡ [] }
        requires len { vec_len grants.old ≡ 0 }
        requires room { length owners.now ≤ vec_capacity grants.old }
        requires now { IsDated now }
        ensures is { fold (loss_of_one self.old.named now)
            (record { entries = self.old.list; grants = [] }) owners.now
            ≡ record { entries = self.new.list; grants = grants.new.items } }
        ensures named { self.new.named ≡ self.old.named }
    {
        for owner in owners {
            self.lose_owner(grants, owner, now);
        }
    }

    /// A client is lost: its queued entries go. Then each of its owner entries, in order of number, becomes hung where
    /// its token is kept, and else goes, and its token is freed. Who is granted a token is told in that order. The one
    /// refusal is want of memory, only where the client has an owner entry; then all is as before.
    pub fn lose(&mut self, alloc: Global, client: u32, now: Moment) -> Result<Vec<Grant>, Memory>
        requires { IsDated now }
        ensures grants { IfOk result (λ grants.
            grants.items ≡ (loss_of self.old.named client now self.old.list).grants) }
        ensures state { OnOk result (self.new ≡ record self.old {
          list = (loss_of self.old.named client now self.old.list).entries;
        }) }
        ensures err { OnErr result (self.new ≡ self.old) }
        ensures wants { OnErr result (list_any (owned_by client) self.old.list ≡ true) }
    {
        if !self.owns(client) {
            self.lose_waiters(client);
            return Ok(Vec::new(alloc));
        }
        let owners = owners_of(alloc, client, &self.list)?;
        let mut grants = Vec::with_capacity(alloc, owners.len())?;
        self.lose_waiters(client);
        self.lose_owners(&mut grants, &owners, now);
        Ok(grants)
    }

    /// The deadline of an entry ends: the entry goes, and where it had a token, that is freed. It takes no memory.
    pub fn end(&mut self, ended: &SemEntry, now: Moment) -> Expired
        requires placed { is_placed (lists_of self.old.named) ended.now.token ≡ true }
        requires now { IsDated now }
        ensures told { result ≡ expired_of self.old.named ended.now self.old.list }
        ensures state { self.new ≡ record self.old {
          list = after_end self.old.named ended.now now self.old.list;
        } }
    {
        let waited = ended.is_queued();
        let grant = if waited {
            self.remove(ended.number);
            None
        } else {
            self.leave(ended, now)
        };
        Expired {
            client: ended.client,
            invoke: ended.invoke,
            waited,
            abort: ended.is_owner() && aborts(ended.abort),
            grant,
        }
    }

    /// Whether the client has an owner entry.
    pub fn owns(&self, client: u32) -> bool
        ensures { result ≡ list_any (owned_by client) self.now.list }
    {
        self.list
            .iter()
            .any(|entry| entry.client == client && entry.is_owner())
    }

    /// Whether any entry waits.
    pub fn waits(&self) -> bool
        ensures { result ≡ list_any is_queued self.now.list }
    {
        self.ranks.waits()
    }

    /// Whether there is any entry.
    pub fn is_empty(&self) -> bool
        ensures { result ≡ (length self.now.list == 0) }
    {
        self.list.is_empty()
    }

    /// The least deadline, by moment, then that of an entry with a token before that of one that waits, then by
    /// number: its moment and the number of its entry. None exactly where no entry has one.
    pub fn first_deadline(&self) -> Option<(Moment, u64)>
        ensures { result ≡ option_map moment_and_entry (first_deadline self.now.list) }
    {
        self.ranks.first_deadline()
    }

    /// The least deadline, with its kind: that of the entry of that number. None exactly where no entry has one.
    pub fn deadline(&self) -> Option<Deadline>
        ensures least { result ≡ first_deadline self.now.list }
        ensures stands { IfSome result (λ d. deadline_at d.number self.now.list ≡ Some d.at) }
    {
        match self.ranks.first_due() {
            None => None,
            Some(due) => Some(Deadline {
                at: due.at,
                kind: due.kind,
                number: due.number,
            }),
        }
    }

    /// The rows by which it is told who is served next and which deadline is met first: one for each entry that waits or
    /// has a deadline, and none for an owner or a hung entry without one, which stand in no order. Equal tokens are one
    /// token there, of number 0.
    pub fn ranks(&self) -> &Ranks
        ensures rows { result.now.rows ≡ rows_of self.now.list }
        ensures tokens { result.now.tokens ≡ lists_of self.now.named }
    {
        &self.ranks
    }

    /// A copy. The one refusal is want of memory.
    pub fn copy(&self, alloc: Global) -> Result<Entries, Memory>
        ensures { IfOk result (λ t. t ≡ self.now) }
    {
        let list: Vec<SemEntry> = self.list.iter().copied().collect(alloc)?;
        let ranks = self.ranks.copy(alloc)?;
        Ok(Entries {
            named: self.named,
            list,
            ranks,
        })
    }
}

impl Drop for Entries {
    fn drop(self) {
        let Entries {
            named: _,
            list: _list,
            ranks: _ranks,
        } = self;
    }
}
