//! Deadlines are met, one after the other.

ghost use Rattle.std.specs.Prelude.{◌≡◌, ◌≢◌, ◌++◌, ◌∷◌, ◌≤◌, [], drop, length, map, option_map, IfNone, IfOk, IfSome, None, OnErr, OnOk, OnSome, Some};
ghost use Rattle.mms_types.specs.Moments.{IsDated};
ghost use Rattle.mms_time.specs.Deadlines.{NamedDeadline, deadline_in, next_due};
ghost use Rattle.mms_time.specs.Loss.{lost};
ghost use Rattle.sem_ticks.specs.Dated.{dated};
ghost use Rattle.sem_ticks.specs.Meant.{dating_of, meeting_of, next_meant, state_of, with_moments};
ghost use Rattle.sem_ticks.specs.Ticks.{abort_told, after_abort, expiry_told, met, ticked};

use crate::drafts::due_places;
use crate::granted::{Granted, lose_told, with_answer};
use crate::meeting::ticked_in_drafts;
use crate::renewed::Renewed;
use mms_time::{Semaphores, expire, lose, next_due};
use mms_types::{Key, Memory, Moment};
use std::alloc::Global;
use token_sem::Expired;

/// What happens where a deadline is met.
#[derive(Drop)]
pub enum Happening {
    /// The acceptable delay of a request for a token ends: the client waits no more for the answer of that invokeID.
    WaitEnds { client: u32, invoke: u32 },
    /// A token is granted to an entry that waited.
    Grants(Granted),
    /// The time of control of a client of that number ends, and its association is aborted: it is lost.
    Aborts(u32),
}

/// What became of semaphores in some time, and what happened meanwhile, in order.
#[derive(Drop)]
pub struct Ticked {
    /// What became of them.
    pub changed: Renewed,
    /// What happened.
    pub happened: Vec<Happening>,
}

/// What became of semaphores in some time, what happened meanwhile, in order, and when each of that did.
#[derive(Drop)]
pub struct DatedTicked {
    /// What became of them, and what happened.
    pub ticked: Ticked,
    /// The moment of each of that, in the same order.
    pub moments: Vec<Moment>,
}

/// A copy of all semaphores, on which deadlines are met, and what happened.
#[derive(Drop)]
struct Meeting {
    semaphores: Semaphores,
    happened: Vec<Happening>,
}

/// A deadline, with a name of its own.
#[derive(Drop)]
struct NextOf {
    at: Moment,
    kind: u8,
    key: Key,
    entry: u64,
}

/// The least deadline, where it is at most that moment.
fn next_of(alloc: Global, semaphores: &Semaphores, until: Moment) -> Result<Option<NextOf>, Memory>
    ensures least { IfOk result (λ next.
        option_map next_meant next ≡ next_due until semaphores.now) }
    ensures stands { IfOk result (λ next. IfSome next (λ d.
        deadline_in d.key d.entry semaphores.now ≡ Some d.at)) }
{
    match next_due(semaphores, until) {
        None => Ok(None),
        Some(due) => Ok(Some(NextOf {
            at: due.at,
            kind: due.kind,
            key: due.key.copy(alloc)?,
            entry: due.entry,
        })),
    }
}

/// Tells what became of an entry whose deadline was met.
fn tell_expiry(
    alloc: Global,
    semaphores: &Semaphores,
    happened: &mut Vec<Happening>,
    key: &Key,
    expired: &Expired,
) -> Result<(), Memory>
    ensures { OnOk result (happened.new.items
        ≡ happened.old.items ++ expiry_told semaphores.now key.now expired.now) }
{
    if expired.waited {
        let client = expired.client;
        let invoke = expired.invoke;
        happened.push(Happening::WaitEnds { client, invoke })?;
    } else if let Some(grant) = expired.grant {
        let told = with_answer(alloc, semaphores, key, &grant)?;
        happened.push(Happening::Grants(told))?;
    }
    Ok(())
}

/// Tells who is granted a token.
fn tell_grants(happened: &mut Vec<Happening>, grants: Vec<Granted>) -> Result<(), Memory>
    ensures { OnOk result
        (happened.new.items ≡ happened.old.items ++ map Happening.Grants grants.items) }
{
    for grant in grants {
        happened.push(Happening::Grants(grant))?;
    }
    Ok(())
}

/// Aborts the association of a client, which is lost, where that is to be done.
fn abort(
    alloc: Global,
    semaphores: &mut Semaphores,
    happened: &mut Vec<Happening>,
    aborts: bool,
    client: u32,
    now: Moment,
) -> Result<(), Memory>
    requires { IsDated now }
    ensures rows { OnOk result (semaphores.new ≡ after_abort aborts client now semaphores.old) }
    ensures told { OnOk result (happened.new.items
        ≡ happened.old.items ++ abort_told aborts client now semaphores.old) }
{
    if !aborts {
        return Ok(());
    }
    happened.push(Happening::Aborts(client))?;
    tell_grants(happened, lose_told(alloc, semaphores, client, now)?)?;
    let _grants = lose(alloc, semaphores, client, now)?;
    Ok(())
}

/// Meets a deadline.
fn meet(alloc: Global, ticked: &mut Meeting, next: &NextOf) -> Result<(), Memory>
    requires stands { deadline_in next.now.key next.now.entry ticked.old.semaphores
        ≡ Some next.now.at }
    requires dated { IsDated next.now.at }
    ensures { OnOk result (met (meeting_of ticked.old) (next_meant next.now)
        ≡ Some (meeting_of ticked.new)) }
{
    let expired = expire(&mut ticked.semaphores, &next.key, next.entry, next.at);
    tell_expiry(
        alloc,
        &ticked.semaphores,
        &mut ticked.happened,
        &next.key,
        &expired,
    )?;
    abort(
        alloc,
        &mut ticked.semaphores,
        &mut ticked.happened,
        expired.abort,
        expired.client,
        next.at,
    )
}

/// Whatever has happened since the last moment that was kept happened at this one.
#[tactic(auto, using(crate::proofs::Dated::date_end))]
pub(crate) fn date(
    moments: &mut Vec<Moment>,
    happened: &[Happening],
    at: Moment,
) -> Result<(), Memory>
    ensures { OnOk result (moments.new.items ≡ moments.old.items
        ++ map (λ h. at) (drop (length moments.old.items) happened.now)) }
{
    while moments.len() < happened.len() {
        moments.push(at)?;
    }
    Ok(())
}

/// Meets each deadline that is at most that moment, on a copy of all semaphores.
fn met_in_copy(
    alloc: Global,
    semaphores: &Semaphores,
    until: Moment,
) -> Result<(Meeting, Vec<Moment>), Memory>
    requires { IsDated until }
    ensures met { IfOk result (λ t. meeting_of t.0 ≡ ticked until semaphores.now) }
    ensures dated { IfOk result (λ t.
        with_moments (meeting_of t.0) t.1.items ≡ dated until semaphores.now) }
    ensures long { IfOk result (λ t. length t.1.items ≡ length t.0.happened.items) }
{
    let mut ticked = Meeting {
        semaphores: semaphores.copy(alloc)?,
        happened: Vec::new(alloc),
    };
    let mut moments = Vec::new(alloc);
    while let Some(next) = next_of(alloc, &ticked.semaphores, until)? {
        meet(alloc, &mut ticked, &next)?;
        date(&mut moments, &ticked.happened, next.at)?;
    }
    Ok((ticked, moments))
}

/// What became of all semaphores, which are copied.
fn ticked_in_copy(
    alloc: Global,
    semaphores: &Semaphores,
    until: Moment,
) -> Result<DatedTicked, Memory>
    requires { IsDated until }
    ensures met { IfOk result (λ t.
        state_of t.ticked semaphores.now ≡ ticked until semaphores.now) }
    ensures dated { IfOk result (λ t. dating_of t semaphores.now ≡ dated until semaphores.now) }
    ensures long { IfOk result (λ t.
        length t.moments.items ≡ length t.ticked.happened.items) }
{
    let (met, moments) = met_in_copy(alloc, semaphores, until)?;
    let Meeting {
        semaphores,
        happened,
    } = met;
    Ok(DatedTicked {
        ticked: Ticked {
            changed: Renewed::All(semaphores),
            happened,
        },
        moments,
    })
}

/// Lets time go by up to a moment, as `tick` does, and tells the moment of whatever happens.
pub fn tick_dated(
    alloc: Global,
    semaphores: &Semaphores,
    until: Moment,
) -> Result<Option<DatedTicked>, Memory>
    requires { IsDated until }
    ensures met { IfOk result (λ met. IfSome met (λ t.
        state_of t.ticked semaphores.now ≡ ticked until semaphores.now)) }
    ensures dated { IfOk result (λ met. IfSome met (λ t.
        dating_of t semaphores.now ≡ dated until semaphores.now)) }
    ensures long { IfOk result (λ met. IfSome met (λ t.
        length t.moments.items ≡ length t.ticked.happened.items)) }
    ensures some { IfOk result (λ met. OnSome met (next_due until semaphores.now ≢ None)) }
    ensures none { IfOk result (λ met. IfNone met (next_due until semaphores.now ≡ None)) }
    ensures wants { OnErr result (next_due until semaphores.now ≢ None) }
{
    if !semaphores.is_due(until) {
        return Ok(None);
    }
    let due = due_places(alloc, semaphores, until)?;
    match ticked_in_drafts(alloc, semaphores, due, until)? {
        Some(ticked) => Ok(Some(ticked)),
        None => Ok(Some(ticked_in_copy(alloc, semaphores, until)?)),
    }
}

/// Lets time go by up to a moment (ISO 9506-1, TakeControl, acceptableDelay, controlTimeOut and abortOnTimeOut): every
/// deadline that is at most that moment is met at its own moment, one after the other, also those that arise meanwhile;
/// of one moment control time-outs come before acceptable delays, then they come by name, then by the entry's number.
/// The semaphores given stay as they are; what becomes of them can be put into their table. Those alone are copied of
/// which a deadline is at most that moment, and those of which a client has an entry that is aborted, unless there are
/// semaphores of its association. None exactly where no deadline is at most that moment, so that nothing happens; then
/// no memory is taken. The one refusal is want of memory.
pub fn tick(alloc: Global, semaphores: &Semaphores, until: Moment) -> Result<Option<Ticked>, Memory>
    requires { IsDated until }
    ensures met { IfOk result (λ met. IfSome met (λ t.
        state_of t semaphores.now ≡ ticked until semaphores.now)) }
    ensures some { IfOk result (λ met. OnSome met (next_due until semaphores.now ≢ None)) }
    ensures none { IfOk result (λ met. IfNone met (next_due until semaphores.now ≡ None)) }
    ensures wants { OnErr result (next_due until semaphores.now ≢ None) }
{
    match tick_dated(alloc, semaphores, until)? {
        Some(dated) => Ok(Some(dated.ticked)),
        None => Ok(None),
    }
}
