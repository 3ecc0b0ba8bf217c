//! DeleteEventCondition.

ghost use Rattle.std.specs.Prelude.{◌≡◌, ◌+◌, ◌<◌, ◌≤◌, ◌∷◌, ◌++◌, [], if◌then◌else◌, is_none, IfOk, OnErr, OnOk};
ghost use Rattle.std.specs.Option.{SomeIff};
ghost use Rattle.mms_types.specs.Order.{key_of};
ghost use Rattle.event_cond.specs.Conditions.{condition};
ghost use Rattle.object_names.specs.Deletion.{missing};
ghost use Rattle.event_cond.specs.Deletion.{after_delete, deletion_turn, deletions, deletions_of, without};

use crate::{Condition, Conditions};
use indexmap::IndexSet;
use mms_types::{Key, Listed, Memory, Moment, ObjectName, Transitions, Turned};
use object_names::{KeyRef, Selection};
use std::alloc::Global;

/// What becomes of conditions that are to be deleted.
#[derive(Drop)]
pub struct ConditionsDeleted {
    /// How many names mean none, each counted once.
    pub missing: u32,
    /// What is told of those that are there, in the order in which they are mentioned first.
    pub turned: Listed<Turned>,
}

/// What is told of a condition that is deleted.
fn deletion_turn(now: Moment, key: Key, condition: &Condition) -> Turned
    ensures { result ≡ deletion_turn now key condition.now }
{
    Turned {
        condition: key,
        transition: Transitions::ANY_TO_DELETED,
        severity: condition.severity,
        state: None,
        at: now,
    }
}

/// So many, as it is told. None exactly where 32 bits don't tell as many.
fn counted(count: usize) -> Option<u32>
    ensures { SomeIff result (count ≤ 4294967295) count }
{
    u32::try_from(count).ok()
}

impl Conditions {
    /// One name more, that wasn't mentioned before: how many are missing with it, of which so many are missing without,
    /// and what is told of its condition. The one refusal is want of memory.
    fn told_more(
        &self,
        alloc: Global,
        client: u32,
        now: Moment,
        name: &ObjectName,
        missing: usize,
        turned: &mut Listed<Turned>,
    ) -> Result<usize, Memory>
        requires few { missing < 9223372036854775808 }
        ensures missing { IfOk result (λ more. more
            ≡ missing + (if is_none (condition client name.now self.now) then 1 else 0)) }
        ensures turned { OnOk result (turned.new
            ≡ turned.old ++ deletions_of now (key_of client name.now ∷ []) self.now) }
    {
        let Some(condition) = self.named(client, name) else {
            return Ok(missing + 1);
        };
        turned.push(deletion_turn(now, name.key(alloc, client)?, condition))?;
        Ok(missing)
    }

    /// How many of a client's names are missing, and what is told of the conditions of the others, each once. The one
    /// refusal is want of memory.
    fn told(
        &self,
        alloc: Global,
        client: u32,
        now: Moment,
        names: &[ObjectName],
    ) -> Result<(usize, Listed<Turned>), Memory>
        ensures missing { IfOk result (λ told. told.0 ≡ missing client names.now self.now) }
        ensures turned { IfOk result (λ told. told.1 ≡ deletions client now names.now self.now) }
    {
        let mut mentioned = IndexSet::new(alloc);
        let mut missing = 0usize;
        let mut turned = Listed::new(alloc);
        for name in names {
            let (_, added) = mentioned.insert_full(KeyRef::of(client, name))?;
            if added {
                missing = self.told_more(alloc, client, now, name, missing, &mut turned)?;
            }
        }
        Ok((missing, turned))
    }

    /// What becomes of the event conditions of those names (ISO 9506-2, DeleteEventCondition): how many are missing,
    /// and what is told of those that are there, enabled or not: they are deleted, and come to no other state before.
    /// Each name counts once, where it is mentioned first. Nothing changes. The one refusal is want of memory, as which
    /// it counts that more are missing than 32 bits tell.
    pub fn delete_told(
        &self,
        alloc: Global,
        client: u32,
        now: Moment,
        names: &[ObjectName],
    ) -> Result<ConditionsDeleted, Memory>
        ensures missing { IfOk result (λ told. told.missing ≡ missing client names.now self.now) }
        ensures turned { IfOk result
            (λ told. told.turned ≡ deletions client now names.now self.now) }
    {
        let (missing, turned) = self.told(alloc, client, now, names)?;
        let Some(missing) = counted(missing) else {
            return Err(Memory::wanting());
        };
        Ok(ConditionsDeleted { missing, turned })
    }

    /// Deletes the event conditions of those names (ISO 9506-1, DeleteEventCondition); all others stay as they are, in
    /// their order. The one refusal is want of memory; then all is as before.
    pub fn delete(&mut self, alloc: Global, client: u32, names: &[ObjectName]) -> Result<(), Memory>
        ensures deleted { OnOk result (self.new ≡ after_delete client names.now self.old) }
        ensures kept { OnErr result (self.new ≡ self.old) }
    {
        let selection = Selection::of_names(alloc, client, names)?;
        self.rows.delete(&selection);
        Ok(())
    }

    /// Deletes the event condition of that name, as `delete` does, where it is there; all others stay as they are, in
    /// their order. It takes no memory.
    pub fn remove(&mut self, key: &Key)
        ensures { self.new ≡ without key.now self.old }
    {
        let _distinct = self.rows.len();
        self.rows.remove(key);
    }
}
