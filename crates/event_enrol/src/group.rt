//! The index of enrollments by their conditions.
ghost use Rattle.std.specs.Prelude.{◌≡◌, ◌==◌, ◌∷◌, ◌++◌, [], IfOk, None, OnErr, OnOk, filter, length, not};
ghost use Rattle.std.specs.Map.{lookup};
ghost use Rattle.mms_types.specs.Order.{key_eq};
ghost use Rattle.event_enrol.specs.Going.{AreLeft, member_stays};
ghost use Rattle.event_enrol.specs.Groups.{group_of, joined};

use crate::going::Going;
use indexmap::IndexMap;
use mms_types::{Key, Memory, Transitions};
use std::alloc::Global;
use std::marker::Model;

/// What is kept of an enrollment beside the others on its condition.
pub(crate) struct Member {
    /// Its name.
    pub(crate) enrolment: Key,
    pub(crate) client: u32,
    pub(crate) transitions: Transitions,
}

impl Member {
    /// A copy. The one refusal is want of memory.
    fn copy(&self, alloc: Global) -> Result<Member, Memory>
        ensures { IfOk result (λ copy. copy ≡ self.now) }
    {
        Ok(Member {
            enrolment: self.enrolment.copy(alloc)?,
            client: self.client,
            transitions: self.transitions,
        })
    }
}

/// The enrollments on one condition, in the order in which they were defined. Contracts see the list of them.
pub(crate) struct Group {
    members: Vec<Member>,
}

impl Model for Group {
    ghost use Rattle.std.specs.Prelude.{List};
    ghost use Rattle.event_enrol.specs.declared.group.Member.{Member};

    ghost Value = { List Member };

    ghost view = { λ group. group.members.items };
}

/// The members that stay are left.
fn retain(members: &mut Vec<Member>, by: &Going<'_>, condition: &Key)
    ensures { members.new.items ≡ filter (member_stays by.now condition.now) members.old.items }
{
    members.retain(|member| !by.goes(&member.enrolment, member.client, condition));
}

impl Group {
    /// A group of one. The one refusal is want of memory.
    fn of(alloc: Global, member: Member) -> Result<Group, Memory>
        ensures { IfOk result (λ group. group ≡ member ∷ []) }
    {
        let mut members = Vec::new(alloc);
        members.push(member)?;
        Ok(Group { members })
    }

    /// The members.
    pub(crate) fn as_slice(&self) -> &[Member]
        ensures { result.now ≡ self.now }
    {
        &self.members
    }

    /// One more. The one refusal is want of memory; then all is as before.
    fn push(&mut self, member: Member) -> Result<(), Memory>
        ensures pushed { OnOk result (self.new ≡ self.old ++ member ∷ []) }
        ensures kept { OnErr result (self.new ≡ self.old) }
    {
        self.members.push(member)?;
        Ok(())
    }

    /// The members that stay are left. Whether there are any.
    fn leave(&mut self, by: &Going<'_>, condition: &Key) -> bool
        ensures left { self.new ≡ filter (member_stays by.now condition.now) self.old }
        ensures any { result ≡ not (length self.new == 0) }
    {
        retain(&mut self.members, by, condition);
        !self.members.is_empty()
    }
}

/// Puts an enrollment into the group of its condition. The one refusal is want of memory; then all is as before.
pub(crate) fn join(
    alloc: Global,
    groups: &mut IndexMap<Key, Group>,
    condition: &Key,
    member: Member,
) -> Result<(), Memory>
    ensures joined { OnOk result (groups.new.entries
        ≡ joined condition.now member groups.old.entries) }
    ensures kept { OnErr result ((key : Key) → group_of key groups.new.entries
        ≡ group_of key groups.old.entries) }
{
    if let Some(group) = groups.get_mut(condition) {
        return group.push(member);
    }
    let key = condition.copy(alloc)?;
    let group = Group::of(alloc, member)?;
    put_group(groups, key, group)
}

/// Puts a group at the end, where its condition has none. The one refusal is want of memory; then all is as before.
fn put_group(groups: &mut IndexMap<Key, Group>, key: Key, group: Group) -> Result<(), Memory>
    requires { lookup (key_eq key) groups.old.entries ≡ None }
    ensures placed { OnOk result (groups.new.entries ≡ groups.old.entries ++ (key, group) ∷ []) }
    ensures kept { OnErr result (groups.new.entries ≡ groups.old.entries) }
{
    match groups.insert(key, group) {
        Ok(_) => Ok(()),
        Err(_) => Err(Memory::wanting()),
    }
}

/// The members that stay are left in each group, and groups without any go. It takes no memory.
pub(crate) fn leave(groups: &mut IndexMap<Key, Group>, by: &Going<'_>)
    ensures { AreLeft by.now groups.old.entries groups.new.entries }
{
    let _distinct = groups.len();
    groups.retain(
        |condition: &Key, group: &mut Group| -> bool
            ensures { (group.new ≡ filter (member_stays by.entry.now condition.now) group.old)
                × (result ≡ not (length group.new == 0)) }
        { group.leave(by, condition) },
    );
}

impl Drop for Group {
    fn drop(self) {
        let Group { members: _members } = self;
    }
}

impl Drop for Member {
    fn drop(self) {
        let Member {
            enrolment: _enrolment,
            client: _,
            transitions: _transitions,
        } = self;
    }
}
