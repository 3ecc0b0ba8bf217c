ghost use Rattle.std.specs.Prelude.{◌≡◌, ◌≢◌, ◌==◌, ◌<◌, ◌≤◌, ◌^◌, Err, IfOk, IfSome, None, OnErr, OnOk, Some, [], count_by, is_some, length, not, option_and_then, option_map, slice_get, true};
ghost use Rattle.std.specs.List.{list_any};
ghost use Rattle.std.specs.Option.{option_copied};
ghost use Rattle.mms_types.specs.Moments.{IsDated};
ghost use Rattle.token_sem.specs.declared.entry.SemEntry.{SemEntry};
ghost use Rattle.token_sem.specs.declared.entry.TakeRefused.TheVariants.{Memory as OutOfMemory};
ghost use Rattle.token_sem.specs.Entries.{rows_of};
ghost use Rattle.token_sem.specs.Semaphore.{deadline_at, first_deadline, holds, is_hung, is_owner, is_queued, moment_and_entry, numbered, owned_by};
ghost use Rattle.pool_sem.specs.Pools.{IsPool, NamesRise, after_cancel, after_expire, after_leaving, after_lose, after_lose_one, after_relinquish, after_take, expired_of, free_token, grant_leaving, has_claim, has_token, heir_of, is_place, is_placed, loss_of, lost_one, makes_entry, outcome, owner_of, place_of, relinquish_answer, take_answer, token_got, token_state};

use crate::entries::{
    grant_to, has_claim, hung_to_preempt, outcome_later, owner_entry, owner_of, place_of,
    queued_entry, token_state,
};
use crate::marks::Marks;
use crate::{PoolOutcome, TokenState};
use mms_types::{Identifier, Identifiers, Memory, Moment};
use sem_queue::Ranks;
use std::alloc::Global;
use std::marker::Model;
use token_sem::entries::{hung, owned};
use token_sem::{
    Ask, Deadline, Entries, Expired, Grant, LostOne, NotOwner, SemEntry, TakeRefused, Taken,
};

/// A semaphore whose tokens have names (ISO 9506-1, pool semaphore). A token is told by its place in the list of their
/// names, counted from 0 in order of octets. Contracts see the names, how many entries were made, and the entries in
/// order of number. Each token is owned by one entry at most, or one is hung with it; where nobody has a token, no
/// entry waits that wants it or any.
pub struct PoolSem {
    tokens: Identifiers,
    made: u64,
    entries: Entries,
    /// Which tokens entries have.
    marks: Marks,
}

impl Model for PoolSem {
    ghost use Rattle.pool_sem.specs.Pools.{Pool, IsPool};

    ghost Value = { Pool };

    ghost view = { λ p. record { tokens = p.tokens; made = p.made; entries = p.entries.list } };

    ghost use Rattle.pool_sem.specs.Marks.{AreMarks};
    ghost use Rattle.std.specs.Prelude.{◌≡◌, Some, length};

    ghost invariant = { λ p.
        IsPool (record { tokens = p.tokens; made = p.made; entries = p.entries.list })
        × AreMarks p.marks p.entries.list × (p.entries.named ≡ Some (length p.tokens)) };
}

impl PoolSem {
    /// A pool whose tokens are free. The one refusal is want of memory.
    pub fn new(alloc: Global, tokens: Vec<Identifier>) -> Result<PoolSem, Memory>
        requires sorted { NamesRise tokens.items }
        requires some { 1 ≤ length tokens.items }
        requires few { length tokens.items ≤ 256 }
        ensures { IfOk result (λ p. p ≡ record { tokens = tokens.items; made = 0; entries = [] }) }
    {
        let entries = Entries::new(alloc, Some(tokens.len() as u32))?;
        Ok(PoolSem {
            tokens: Identifiers::from(tokens),
            made: 0,
            entries,
            marks: Marks::new(),
        })
    }

    /// The names of its tokens, owned, hung and free, from 1 to 256 of them in order of octets. Of every pool it holds
    /// that each token is owned by one entry at most, or one is hung with it; that no entry wants a token that nobody
    /// has; that each token that an entry has or wants is there; and that entries are distinct and in order of number.
    pub fn tokens(&self) -> &[Identifier]
        ensures tokens { result.now ≡ self.now.tokens }
        ensures always { IsPool self.now }
    {
        self.tokens.as_slice()
    }

    /// The place of the token of that name, counted from 0. None exactly where the pool has no such token.
    pub fn place_of(&self, name: &Identifier) -> Option<u32>
        ensures place { result ≡ place_of name.now self.now.tokens }
        ensures there { is_place (length self.now.tokens) result ≡ true }
    {
        match place_of(name, self.tokens.as_slice()) {
            None => None,
            Some(place) => Some(place as u32),
        }
    }

    /// How many tokens there are.
    fn count(&self) -> u32
        ensures { result ≡ length self.now.tokens }
    {
        self.tokens.len() as u32
    }

    /// The least free token.
    fn least_free(&self) -> Option<u32>
        ensures { result ≡ free_token None (length self.now.tokens) self.now.entries }
    {
        let token = self.marks.first_free();
        if token < self.count() {
            Some(token)
        } else {
            None
        }
    }

    /// The token, where there is one of that place and it is free.
    fn free_one(&self, token: u32) -> Option<u32>
        ensures { result ≡ free_token (Some token) (length self.now.tokens) self.now.entries }
    {
        if token >= self.count() {
            return None;
        }
        if self.marks.has(token) {
            return None;
        }
        Some(token)
    }

    /// The free token that was named, or the least one where none was.
    fn free_token(&self, asked: Option<u32>) -> Option<u32>
        ensures { result ≡ free_token asked (length self.now.tokens) self.now.entries }
    {
        match asked {
            None => self.least_free(),
            Some(token) => self.free_one(token),
        }
    }

    /// The client's owner entry of that token.
    fn owner_of(&self, client: u32, token: Option<u32>) -> Option<SemEntry>
        ensures owner { result ≡ owner_of client token self.now.entries }
        ensures there { IfSome result (λ e. numbered e.number self.now.entries ≡ Some e) }
        ensures holds { IfSome result (λ e. holds e ≡ true) }
    {
        owner_of(client, token, self.entries.as_slice())
    }

    /// The entry of one that has a token goes, and its token is freed: who gets it.
    fn leave(&mut self, entry: &SemEntry, now: Moment) -> Option<Grant>
        requires there { numbered entry.now.number self.old.entries ≡ Some entry.now }
        requires holds { holds entry.now ≡ true }
        requires now { IsDated now }
        ensures grant { result ≡ grant_leaving entry.now self.old.entries }
        ensures state { self.new
            ≡ record self.old { entries = after_leaving entry.now now self.old.entries } }
    {
        let grant = self.entries.leave(entry, now);
        self.marks.free(entry.token, grant.is_some());
        grant
    }

    /// What a request for a token comes to.
    fn outcome(&self, ask: &Ask, now: Moment) -> PoolOutcome
        requires { IsDated now }
        ensures { result ≡ outcome self.now ask.now now }
    {
        if self.has_claim(ask.client, ask.token) {
            return PoolOutcome::Refused;
        }
        if let Some(hung) = hung_to_preempt(ask.preempt, ask.token, self.entries.as_slice()) {
            return PoolOutcome::Preempts(hung.number, hung.token);
        }
        match self.free_token(ask.token) {
            Some(token) => PoolOutcome::Gets(token),
            None => outcome_later(ask.delay, now),
        }
    }

    /// Whether a request for a token makes an entry: the client gets a token, or waits.
    pub fn makes_entry(&self, ask: &Ask, now: Moment) -> bool
        requires { IsDated now }
        ensures { result ≡ makes_entry (outcome self.now ask.now now) }
    {
        match self.outcome(ask, now) {
            PoolOutcome::Refused | PoolOutcome::TimesOut => false,
            PoolOutcome::Preempts(_, _)
            | PoolOutcome::Gets(_)
            | PoolOutcome::WaitsUntil(_)
            | PoolOutcome::WaitsForEver => true,
        }
    }

    /// Asks for a token, by its place or any (ISO 9506-1, TakeControl). A client that waits for a token of the pool, or
    /// that owns the token that it names, is refused, `Twice`, and all stays as it was; that it owns other tokens
    /// refuses nothing. Where the client that is to be preempted has hung entries whose tokens suit, the one with the
    /// least token goes and its token is granted; else the free token that is named is, or the least free one where
    /// none is named; else the client waits until its acceptable delay ends, and with a delay of 0 it has timed out,
    /// and all stays as it was. The grant tells the token where none was named. What gets a token or waits makes an
    /// entry with the next number, and it alone may want memory; then all is as before.
    pub fn take(&mut self, ask: &Ask, now: Moment) -> Result<Taken, TakeRefused>
        requires place { is_place (length self.old.tokens) ask.now.token ≡ true }
        requires made { self.old.made < 2 ^ 63 }
        requires now { IsDated now }
        ensures answer { (result ≢ Err OutOfMemory)
            → result ≡ take_answer self.old ask.now now }
        ensures state { (result ≢ Err OutOfMemory)
            → self.new ≡ after_take self.old ask.now now }
        ensures memory { result ≡ Err OutOfMemory → self.new ≡ self.old }
        ensures wants { result ≡ Err OutOfMemory
            → makes_entry (outcome self.old ask.now now) ≡ true }
    {
        let number = self.made + 1;
        let outcome = self.outcome(ask, now);
        match outcome {
            PoolOutcome::Refused => Err(TakeRefused::Twice),
            PoolOutcome::TimesOut => Ok(Taken::TimedOut),
            PoolOutcome::Gets(token) => {
                self.entries
                    .add(owner_entry(number, ask, Some(token), now))?;
                self.marks.set(token);
                self.made = number;
                Ok(Taken::Granted(grant_to(number, ask, Some(token))))
            }
            PoolOutcome::Preempts(hung, token) => {
                self.entries.add(owner_entry(number, ask, token, now))?;
                self.entries.remove(hung);
                self.made = number;
                Ok(Taken::Granted(grant_to(number, ask, token)))
            }
            PoolOutcome::WaitsUntil(deadline) => {
                self.entries.add(queued_entry(number, ask, Some(deadline)))?;
                self.made = number;
                Ok(Taken::Waits(number))
            }
            PoolOutcome::WaitsForEver => {
                self.entries.add(queued_entry(number, ask, None))?;
                self.made = number;
                Ok(Taken::Waits(number))
            }
        }
    }

    /// The owner of a token gives it back (ISO 9506-1, RelinquishControl): its entry goes, and the token is granted to
    /// the entry that is served next with it, which is told, or is free. `NotOwner` exactly where the client has no
    /// owner entry of that token; then all stays as it was. A token is always named: without one the client is not
    /// owner. It takes no memory.
    pub fn relinquish(
        &mut self,
        client: u32,
        token: Option<u32>,
        now: Moment,
    ) -> Result<Option<Grant>, NotOwner>
        requires now { IsDated now }
        ensures answer { result ≡ relinquish_answer self.old client token }
        ensures state { self.new ≡ after_relinquish self.old client token now }
    {
        let Some(owner) = self.owner_of(client, token) else {
            return Err(NotOwner);
        };
        Ok(self.leave(&owner, now))
    }

    /// Who is granted the token that the client gives back, if anyone is. None also where the client isn't its owner.
    pub fn heir(&self, client: u32, token: Option<u32>) -> Option<Grant>
        ensures { result ≡ heir_of (owner_of client token self.now.entries) self.now.entries }
    {
        match self.owner_of(client, token) {
            None => None,
            Some(owner) => self.entries.heir(&owner),
        }
    }

    /// A queued entry goes (ISO 9506-1, Cancel of a TakeControl). It takes no memory.
    pub fn cancel(&mut self, entry: u64)
        requires queued { option_map is_queued (numbered entry self.old.entries) ≡ Some true }
        ensures { self.new ≡ after_cancel self.old entry }
    {
        self.entries.remove(entry);
    }

    /// An entry's deadline ends: the entry goes, and where it had a token, that is granted to the entry that is served
    /// next with it, or is free. It takes no memory.
    pub fn expire(&mut self, entry: u64, now: Moment) -> Expired
        requires due { option_and_then (λ e. e.deadline) (numbered entry self.old.entries)
            ≡ Some now }
        requires now { IsDated now }
        ensures told { (e : SemEntry) → numbered entry self.old.entries ≡ Some e
            → result ≡ expired_of e self.old.entries }
        ensures state { self.new ≡ after_expire self.old entry now }
    {
        let Some(ended) = self.entries.numbered(entry) else {
            unreachable!()
        };
        let expired = self.entries.end(&ended, now);
        if !expired.waited {
            self.marks.free(ended.token, expired.grant.is_some());
        }
        expired
    }

    /// A client is lost: its queued entries go. Then each of its owner entries, in order of number, becomes hung where
    /// its token is kept, and else goes, and its token is freed. Who is granted a token is told in that order. The one
    /// refusal is want of memory, only where the client has an owner entry; then all is as before.
    pub fn lose(&mut self, alloc: Global, client: u32, now: Moment) -> Result<Vec<Grant>, Memory>
        requires { IsDated now }
        ensures grants { IfOk result (λ grants.
            grants.items ≡ (loss_of client now self.old.entries).grants) }
        ensures state { OnOk result (self.new ≡ after_lose self.old client now) }
        ensures err { OnErr result (self.new ≡ self.old) }
        ensures wants { OnErr result (list_any (owned_by client) self.old.entries ≡ true) }
    {
        let grants = self.entries.lose(alloc, client, now)?;
        self.marks = Marks::of(self.entries.as_slice());
        Ok(grants)
    }

    /// One step of the loss of a client: its queued entries go. Then its owner entry of least number becomes hung where
    /// its token is kept, and else goes, and its token is freed: who is granted it is told. `Done` exactly where it has
    /// no owner entry. It takes no memory.
    pub fn lose_one(&mut self, client: u32, now: Moment) -> LostOne
        requires { IsDated now }
        ensures told { result ≡ lost_one client self.old.entries }
        ensures state { self.new ≡ after_lose_one self.old client now }
    {
        let lost = self.entries.lose_one(client, now);
        let entries = self.entries.as_slice();
        self.marks = Marks::of(entries);
        lost
    }

    /// The rows by which it is told who is served next: one for each entry that waits or has a deadline, in order of
    /// number. An owner or a hung entry without a deadline has none. The tokens there are those of the pool.
    pub fn ranks(&self) -> &Ranks
        ensures rows { result.now.rows ≡ rows_of self.now.entries }
        ensures tokens { result.now.tokens ≡ length self.now.tokens }
    {
        self.entries.ranks()
    }

    /// How many entries were made.
    pub fn made(&self) -> u64
        ensures { result ≡ self.now.made }
    {
        self.made
    }

    /// The entries, in order of number.
    pub fn entries(&self) -> &[SemEntry]
        ensures { result.now ≡ self.now.entries }
    {
        self.entries.as_slice()
    }

    /// Whether the client waits for a token of the pool.
    fn is_waiting(&self, client: u32) -> bool
        ensures { result ≡ has_claim client None self.now.entries }
    {
        let waits = self.entries.waits();
        if waits {
            has_claim(client, None, self.entries.as_slice())
        } else {
            false
        }
    }

    /// Whether the client waits for a token of the pool, or owns the one that it asks for.
    pub fn has_claim(&self, client: u32, asked: Option<u32>) -> bool
        ensures { result ≡ has_claim client asked self.now.entries }
    {
        match asked {
            None => self.is_waiting(client),
            Some(_) => has_claim(client, asked, self.entries.as_slice()),
        }
    }

    /// Whether a request for that token, or for any, that may preempt that client gets one at once: that of a hung
    /// entry of the client, or a free one.
    pub fn has_token(&self, preempt: Option<u32>, asked: Option<u32>) -> bool
        ensures { result ≡ has_token preempt asked self.now }
    {
        hung_to_preempt(preempt, asked, self.entries.as_slice()).is_some()
            || self.free_token(asked).is_some()
    }

    /// Which token a request for that token, or for any, that may preempt that client gets at once. None where none is
    /// to be had.
    pub fn token_got(&self, preempt: Option<u32>, asked: Option<u32>) -> Option<u32>
        ensures { result ≡ token_got preempt asked self.now }
    {
        match hung_to_preempt(preempt, asked, self.entries.as_slice()) {
            Some(hung) => hung.token,
            None => self.free_token(asked),
        }
    }

    /// Whether the client has an owner entry of that token. No client has one where no token is named.
    pub fn owns_token(&self, client: u32, token: Option<u32>) -> bool
        ensures { result ≡ is_some (owner_of client token self.now.entries) }
    {
        self.owner_of(client, token).is_some()
    }

    /// Whether the client has an owner entry.
    pub fn owns(&self, client: u32) -> bool
        ensures { result ≡ list_any (owned_by client) self.now.entries }
    {
        self.entries.owns(client)
    }

    /// Whether there is any entry.
    pub fn in_use(&self) -> bool
        ensures { result ≡ not (length self.now.entries == 0) }
    {
        !self.entries.is_empty()
    }

    /// The least deadline, by moment, then that of an entry with a token before that of one that waits, then by
    /// number: its moment and the number of its entry. None exactly where no entry has one.
    pub fn first_deadline(&self) -> Option<(Moment, u64)>
        ensures { result ≡ option_map moment_and_entry (first_deadline self.now.entries) }
    {
        self.entries.first_deadline()
    }

    /// The least deadline, with its kind: that of the entry of that number. None exactly where no entry has one.
    pub fn deadline(&self) -> Option<Deadline>
        ensures least { result ≡ first_deadline self.now.entries }
        ensures stands { IfSome result (λ d. deadline_at d.number self.now.entries ≡ Some d.at) }
    {
        self.entries.deadline()
    }

    /// The entry at a place of the list, counted from 0 in order of number. None exactly where the place isn't below
    /// their count. Its token is one of the pool's: that which an owner or a hung entry has, or that which a queued one
    /// wants, where it named one.
    pub fn entry_at(&self, place: usize) -> Option<&SemEntry>
        ensures entry { option_copied result ≡ slice_get self.now.entries place }
        ensures placed { (e : SemEntry) → option_copied result ≡ Some e
            → is_placed (length self.now.tokens) e ≡ true }
    {
        self.entries.as_slice().get(place)
    }

    /// How many tokens are owned (ISO 9506-1, ReportSemaphoreStatus).
    pub fn owned(&self) -> u16
        ensures { result ≡ count_by is_owner self.now.entries }
    {
        owned(self.entries.as_slice()) as u16
    }

    /// How many tokens are hung (ISO 9506-1, ReportSemaphoreStatus).
    pub fn hung(&self) -> u16
        ensures { result ≡ count_by is_hung self.now.entries }
    {
        hung(self.entries.as_slice()) as u16
    }

    /// Whether the token at a place of the list is owned, hung or free (ISO 9506-1, ReportPoolSemaphoreStatus).
    pub fn token_state(&self, token: u32) -> TokenState
        ensures { result ≡ token_state token self.now.entries }
    {
        token_state(token, self.entries.as_slice())
    }

    /// A copy. The one refusal is want of memory.
    pub fn copy(&self, alloc: Global) -> Result<PoolSem, Memory>
        ensures { IfOk result (λ p. p ≡ self.now) }
    {
        let entries = self.entries.copy(alloc)?;
        Ok(PoolSem {
            tokens: self.tokens.copy(alloc)?,
            made: self.made,
            entries,
            marks: self.marks,
        })
    }
}

impl Drop for PoolSem {
    fn drop(self) {
        let PoolSem {
            tokens: _tokens,
            made: _,
            entries: _entries,
            marks: _marks,
        } = self;
    }
}
