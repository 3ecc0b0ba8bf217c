//! The requests and answers of the services for semaphores (ISO 9506-2, semaphore management).

ghost use Rattle.std.specs.Prelude.{◌≡◌, ◌<◌};
ghost use Rattle.mms_types.specs.Semaphores.{semaphore_class_number, entry_state_number, entry_class_number};

use crate::{Identifier, Listed, ObjectName, Octets};

/// Which token is taken, and on what terms (ISO 9506-2, TakeControl-Request).
#[derive(Drop)]
pub struct TakeControl {
    /// The semaphore.
    pub name: ObjectName,
    /// The token of a pool that is wanted, where any will not do (namedToken).
    pub token: Option<Identifier>,
    /// The priority, 0 to 127 in what is read: the lower is served first, and 64 is meant where it is absent.
    pub priority: u8,
    /// How many milliseconds the client waits at most, where there is a bound (acceptableDelay). It doesn't wait at 0.
    pub delay: Option<u32>,
    /// How many milliseconds it has the token at most, where there is a bound (controlTimeOut). 0 is none.
    pub control: Option<u32>,
    /// Whether the association is aborted where that time ends (abortOnTimeOut).
    pub abort: Option<bool>,
    /// Whether the token is given back where the association is lost (relinquishIfConnectionLost). TRUE is meant where
    /// it is absent.
    pub relinquish: bool,
    /// The number of the client whose hung token is taken over, where there is one (applicationToPreempt).
    pub preempt: Option<u32>,
}

/// For which token a request waits before it is carried out, and on what terms (ISO 9506-2, Modifier,
/// AttachToSemaphore). What `TakeControl` says of these words holds of them here. The last three have no effect.
pub struct Modifier {
    /// The semaphore.
    pub name: ObjectName,
    /// The token of a pool that is wanted, where any will not do (namedToken).
    pub token: Option<Identifier>,
    /// The priority, 0 to 127 in what is read: 64 is meant where it is absent.
    pub priority: u8,
    /// How many milliseconds the request waits at most, where there is a bound (acceptableDelay).
    pub delay: Option<u32>,
    /// controlTimeOut.
    pub control: Option<u32>,
    /// abortOnTimeOut.
    pub abort: Option<bool>,
    /// relinquishIfConnectionLost. TRUE is meant where it is absent.
    pub relinquish: bool,
}

/// Which token was taken (ISO 9506-2, TakeControl-Response).
#[derive(Drop)]
pub enum TakeControlAnswer {
    /// One of a token semaphore, or the one that the request named.
    NoResult,
    /// That of a pool of which any was asked for.
    NamedToken(Identifier),
}

/// Which token is given back (ISO 9506-2, RelinquishControl-Request).
#[derive(Drop)]
pub struct RelinquishControl {
    /// The semaphore.
    pub name: ObjectName,
    /// The token, where the semaphore is a pool (namedToken).
    pub token: Option<Identifier>,
}

/// Which semaphore is made (ISO 9506-2, DefineSemaphore-Request).
#[derive(Drop)]
pub struct DefineSemaphore {
    /// Its name.
    pub name: ObjectName,
    /// How many tokens it has, at least 1 in what is read.
    pub tokens: u16,
}

/// What kind of semaphore it is (ISO 9506-2, ReportSemaphoreStatus-Response, class).
#[derive(Clone, Copy)]
pub enum SemaphoreClass {
    /// Its tokens are equal.
    Token,
    /// Its tokens have names.
    Pool,
}

impl SemaphoreClass {
    /// The class of that number, 0 or 1.
    pub fn numbered(number: u8) -> SemaphoreClass
        requires { number < 2 }
        ensures { semaphore_class_number result ≡ number }
    {
        match number {
            0 => SemaphoreClass::Token,
            _ => SemaphoreClass::Pool,
        }
    }

    /// Its number, 0 or 1.
    pub fn number(self) -> u8
        ensures { result ≡ semaphore_class_number self }
    {
        self as u8
    }
}

/// What a semaphore is and has (ISO 9506-2, ReportSemaphoreStatus-Response).
#[derive(Clone, Copy)]
pub struct SemaphoreStatus {
    /// Whether it can be deleted.
    pub deletable: bool,
    /// Its kind.
    pub class: SemaphoreClass,
    /// How many tokens it has.
    pub tokens: u16,
    /// How many of them are owned.
    pub owned: u16,
    /// How many of them are hung: their owner was lost and didn't give them back.
    pub hung: u16,
}

/// Which pool is asked for (ISO 9506-2, ReportPoolSemaphoreStatus-Request).
#[derive(Drop)]
pub struct ReportPoolSemaphoreStatus {
    /// The semaphore.
    pub name: ObjectName,
    /// The token after which the list begins, where it isn't to begin with the first (nameToStartAfter).
    pub after: Option<Identifier>,
}

/// A token of a pool by its name (ISO 9506-2, ReportPoolSemaphoreStatus-Response, listOfNamedTokens).
#[derive(Drop)]
pub enum NamedToken {
    /// One that nobody has.
    Free(Identifier),
    /// One that a client owns.
    Owned(Identifier),
    /// One whose owner was lost and didn't give it back.
    Hung(Identifier),
}

/// Tokens of a pool in order. Contracts see the list of them.
pub type NamedTokens = Listed<NamedToken>;

/// The tokens of a pool (ISO 9506-2, ReportPoolSemaphoreStatus-Response).
#[derive(Drop)]
pub struct PoolStatus {
    /// The tokens, in order of octets.
    pub tokens: NamedTokens,
    /// Whether more tokens come after these.
    pub more: bool,
}

/// Where an entry of a semaphore stands (ISO 9506-2, ReportSemaphoreEntryStatus-Request, state).
#[derive(Clone, Copy)]
pub enum EntryState {
    /// It waits for a token.
    Queued,
    /// It has one.
    Owner,
    /// It has one, and its client was lost.
    Hung,
}

impl EntryState {
    /// The state of that number, from 0 to 2.
    pub fn numbered(number: u8) -> EntryState
        requires { number < 3 }
        ensures { entry_state_number result ≡ number }
    {
        match number {
            0 => EntryState::Queued,
            1 => EntryState::Owner,
            _ => EntryState::Hung,
        }
    }

    /// Its number, from 0 to 2.
    pub fn number(self) -> u8
        ensures { result ≡ entry_state_number self }
    {
        self as u8
    }
}

/// The number of an entry as requests give it: 8 octets, the most significant first.
#[derive(Clone, Copy)]
pub struct EntryNumber {
    pub octets: [u8; 8],
}

/// Which entries of a semaphore are asked for (ISO 9506-2, ReportSemaphoreEntryStatus-Request).
#[derive(Drop)]
pub struct ReportSemaphoreEntryStatus {
    /// The semaphore.
    pub name: ObjectName,
    /// The state of the entries.
    pub state: EntryState,
    /// The entry after which the list begins, where it isn't to begin with the first (entryIDToStartAfter).
    pub after: Option<EntryNumber>,
}

/// What made an entry of a semaphore (ISO 9506-2, SemaphoreEntry, entryClass).
#[derive(Clone, Copy)]
pub enum EntryClass {
    /// A request for control.
    Simple,
    /// A modifier of another request.
    Modifier,
}

impl EntryClass {
    /// The class of that number, 0 or 1.
    pub fn numbered(number: u8) -> EntryClass
        requires { number < 2 }
        ensures { entry_class_number result ≡ number }
    {
        match number {
            0 => EntryClass::Simple,
            _ => EntryClass::Modifier,
        }
    }

    /// Its number, 0 or 1.
    pub fn number(self) -> u8
        ensures { result ≡ entry_class_number self }
    {
        self as u8
    }
}

/// An entry of a semaphore (ISO 9506-2, SemaphoreEntry).
#[derive(Drop)]
pub struct EntryStatus {
    /// Its number, in 8 octets where the server tells it, the most significant first (entryID).
    pub number: Octets,
    /// What made it.
    pub class: EntryClass,
    /// The number of its client (applicationReference).
    pub client: u32,
    /// The token of a pool that it has, or wants by its name (namedToken).
    pub token: Option<Identifier>,
    /// Its priority, 0 to 127 in what is read: 64 is meant where it is absent.
    pub priority: u8,
    /// How many milliseconds are left until its deadline, where there is one (remainingTimeOut).
    pub remaining: Option<u32>,
    /// Whether the association is aborted where the time for control ends (abortOnTimeOut).
    pub abort: Option<bool>,
    /// Whether the token is given back where the association is lost (relinquishIfConnectionLost). TRUE is meant where
    /// it is absent.
    pub relinquish: bool,
}

/// Entries of a semaphore in order. Contracts see the list of them.
pub type SemaphoreEntries = Listed<EntryStatus>;

/// The entries of a semaphore that have the state (ISO 9506-2, ReportSemaphoreEntryStatus-Response).
#[derive(Drop)]
pub struct EntryStatuses {
    /// The entries, in order of their numbers.
    pub entries: SemaphoreEntries,
    /// Whether more entries come after these.
    pub more: bool,
}

impl Drop for Modifier {
    fn drop(self) {
        let Modifier {
            name: _name,
            token: _token,
            priority: _,
            delay: _,
            control: _,
            abort: _,
            relinquish: _,
        } = self;
    }
}
