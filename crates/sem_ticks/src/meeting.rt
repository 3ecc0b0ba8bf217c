//! Deadlines are met on drafts, one after the other.

ghost use Rattle.std.specs.Prelude.{◌≡◌, ◌++◌, length, All, IfOk, IfSome, OnOk, Ok, Some, map, true};
ghost use Rattle.std.specs.Map.{keys_of, lookup};
ghost use Rattle.mms_types.specs.Moments.{IsDated};
ghost use Rattle.mms_types.specs.Order.{key_eq};
ghost use Rattle.mms_time.specs.Semaphores.{Rows};
ghost use Rattle.sem_ticks.specs.Drafts.{due_rows, next_named, AreDrafts, IsNextOf, IsPlaced};
ghost use Rattle.sem_ticks.specs.Granted.{granted};
ghost use Rattle.sem_ticks.specs.Dated.{dated};
ghost use Rattle.sem_ticks.specs.Meant.{dating_of, drafting_of, state_of, IsMet};
ghost use Rattle.sem_ticks.specs.Ticks.{expiry_told, met, ticked};

use crate::drafts::{Draft, Next, drafts_of, next_of, rows_of};
use crate::losing::{abort_in, granted_in};
use crate::renewed::Renewed;
use crate::ticks::{DatedTicked, Happening, Ticked, date};
use mms_time::Semaphores;
use mms_types::{Key, Memory, Moment, Scope};
use std::alloc::Global;
use token_sem::Expired;

/// Tells what became of an entry of a draft whose deadline was met.
fn tell_expiry_in(
    alloc: Global,
    draft: &Draft<'_>,
    happened: &mut Vec<Happening>,
    expired: &Expired,
) -> Result<(), Memory>
    ensures { (rows : Rows) → lookup (key_eq draft.now.key.now) rows ≡ Some draft.now.row
        → OnOk result (happened.new.items
        ≡ happened.old.items ++ expiry_told rows draft.now.key.now expired.now) }
{
    if expired.waited {
        let client = expired.client;
        let invoke = expired.invoke;
        happened.push(Happening::WaitEnds { client, invoke })?;
    } else if let Some(grant) = expired.grant {
        let told = granted_in(alloc, draft, &grant)?;
        happened.push(Happening::Grants(told))?;
    }
    Ok(())
}

/// Meets the next deadline, which is one of the drafts, and tells what became of its entry.
fn meet_draft(
    alloc: Global,
    semaphores: &Semaphores,
    drafts: &mut Vec<Draft<'_>>,
    happened: &mut Vec<Happening>,
    until: Moment,
    next: &Next<'_>,
) -> Result<Expired, Memory>
    requires drafts { AreDrafts until semaphores.now drafts.old.items }
    requires next { IsNextOf drafts.old.items next.now }
    requires dated { IsDated next.now.due.at }
    ensures drafts { OnOk result (AreDrafts until semaphores.now drafts.new.items) }
    ensures met { IfOk result (λ x.
        IsMet (drafting_of semaphores.now drafts.old.items happened.old.items) (next_named next.now)
        x (drafting_of semaphores.now drafts.new.items happened.new.items)) }
{
    let _rows = semaphores.len();
    let _until = until;
    let draft = &mut drafts[next.place];
    let expired = draft.expire(next.due.entry, next.due.at);
    tell_expiry_in(alloc, draft, happened, &expired)?;
    Ok(expired)
}

/// Meets the next deadline, which is one of the drafts. False where a client is to be aborted then that has semaphores
/// of its association.
fn meet_in<'a>(
    alloc: Global,
    semaphores: &'a Semaphores,
    drafts: &mut Vec<Draft<'a>>,
    happened: &mut Vec<Happening>,
    until: Moment,
    next: &Next<'_>,
) -> Result<bool, Memory>
    requires drafts { AreDrafts until semaphores.now drafts.old.items }
    requires next { IsNextOf drafts.old.items next.now }
    requires dated { IsDated next.now.due.at }
    ensures drafts { result ≡ Ok true → AreDrafts until semaphores.now drafts.new.items }
    ensures met { result ≡ Ok true
        → met (drafting_of semaphores.now drafts.old.items happened.old.items) (next_named next.now)
        ≡ Some (drafting_of semaphores.now drafts.new.items happened.new.items) }
{
    let expired = meet_draft(alloc, semaphores, drafts, happened, until, next)?;
    if !expired.abort {
        return Ok(true);
    }
    if semaphores.has_any_of(&Scope::Association(expired.client)) {
        return Ok(false);
    }
    abort_in(
        alloc,
        semaphores,
        drafts,
        happened,
        until,
        expired.client,
        next.due.at,
    )?;
    Ok(true)
}

/// Meets each deadline that is at most that moment on copies of the semaphores that are due, and of those of which a
/// client has an entry that is aborted. None where such a client has semaphores of its association.
pub(crate) fn ticked_in_drafts<'a>(
    alloc: Global,
    semaphores: &'a Semaphores,
    due: Vec<(&'a Key, usize)>,
    until: Moment,
) -> Result<Option<DatedTicked>, Memory>
    requires keys { map (λ p. p.0.now) due.items ≡ keys_of (due_rows until semaphores.now) }
    requires places { All (IsPlaced semaphores.now) due.items }
    requires until { IsDated until }
    ensures met { IfOk result (λ met. IfSome met (λ t.
        state_of t.ticked semaphores.now ≡ ticked until semaphores.now)) }
    ensures dated { IfOk result (λ met. IfSome met (λ t.
        dating_of t semaphores.now ≡ dated until semaphores.now)) }
    ensures long { IfOk result (λ met. IfSome met (λ t.
        length t.moments.items ≡ length t.ticked.happened.items)) }
{
    let _rows = semaphores.len();
    let mut drafts = drafts_of(alloc, semaphores, until, due)?;
    let mut happened = Vec::new(alloc);
    let mut moments = Vec::new(alloc);
    while let Some(next) = next_of(semaphores, &drafts, until) {
        if !meet_in(alloc, semaphores, &mut drafts, &mut happened, until, &next)? {
            return Ok(None);
        }
        date(&mut moments, &happened, next.due.at)?;
    }
    Ok(Some(DatedTicked {
        ticked: Ticked {
            changed: Renewed::Places(rows_of(alloc, drafts)?),
            happened,
        },
        moments,
    }))
}
