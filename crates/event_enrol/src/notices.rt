//! Who is told of a transition.
ghost use Rattle.std.specs.Prelude.{◌≡◌, ◌∷◌, ◌++◌, [], IfOk, OnErr, OnOk, filter, map};
ghost use Rattle.event_enrol.specs.Enrolments.{has_bit, notices};
ghost use Rattle.event_enrol.specs.Groups.{is_member_told, member_notice};

use crate::Enrolments;
use crate::group::Member;
use crate::naming::name_of;
use mms_types::{Memory, Notice, Notices, Transitions, Turned};
use std::alloc::Global;

impl Enrolments {
    /// Who is told of a transition (ISO 9506-1, event management): for each enrollment on its condition that is for
    /// such transitions one notice, in the order in which they were defined, to the client that defined it, with both
    /// names as that client gives them. The one refusal is want of memory. The time doesn't grow with the enrollments
    /// on other conditions.
    pub fn notices(&self, alloc: Global, turned: &Turned) -> Result<Notices, Memory>
        ensures { IfOk result (λ told. told ≡ notices turned.now self.now) }
    {
        match self.groups.get(&turned.condition) {
            None => Ok(Notices::new(alloc)),
            Some(group) => notices_of(alloc, group.as_slice(), turned),
        }
    }

    /// The clients of these notices, in the same order, behind those that are given; no notice is made. The one refusal
    /// is want of memory, as it pushes onto a vector; then those that are given are as before.
    pub fn told_clients(&self, turned: &Turned, clients: &mut Vec<u32>) -> Result<(), Memory>
        ensures told { OnOk result (clients.new.items
            ≡ clients.old.items ++ map (λ n. n.client) (notices turned.now self.now)) }
        ensures kept { OnErr result (clients.new.items ≡ clients.old.items) }
    {
        match self.groups.get(&turned.condition) {
            None => Ok(()),
            Some(group) => put_clients(group.as_slice(), turned.transition, clients),
        }
    }
}

/// Whether the transition of that number is one of the seven, and its bit is set.
fn has_bit(transitions: Transitions, transition: u8) -> bool
    ensures { result ≡ has_bit transition transitions }
{
    transition < 7 && transitions.has(transition)
}

/// What the client of a member is told.
fn notice_of(alloc: Global, member: &Member, turned: &Turned) -> Result<Notice, Memory>
    ensures { IfOk result (λ notice. notice ≡ member_notice turned.now member.now) }
{
    Ok(Notice {
        client: member.client,
        enrolment: name_of(alloc, &member.enrolment)?,
        condition: name_of(alloc, &turned.condition)?,
    })
}

/// The notices of those members that are told.
fn notices_of(alloc: Global, members: &[Member], turned: &Turned) -> Result<Notices, Memory>
    ensures { IfOk result (λ told. told
        ≡ map (member_notice turned.now) (filter (is_member_told turned.now) members.now)) }
{
    let mut told = Notices::new(alloc);
    for member in members {
        if has_bit(member.transitions, turned.transition) {
            told.push(notice_of(alloc, member, turned)?)?;
        }
    }
    Ok(told)
}

/// Puts a client behind those that are given. The one refusal is want of memory; then they are as before.
fn put_client(clients: &mut Vec<u32>, client: u32) -> Result<(), Memory>
    ensures put { OnOk result (clients.new.items ≡ clients.old.items ++ client ∷ []) }
    ensures kept { OnErr result (clients.new.items ≡ clients.old.items) }
{
    clients.push(client)?;
    Ok(())
}

/// Puts the clients of those members that are told of a transition behind those that are given. The one refusal is want
/// of memory; then they are as before.
fn put_clients(members: &[Member], transition: u8, clients: &mut Vec<u32>) -> Result<(), Memory>
    ensures told { OnOk result (clients.new.items ≡ clients.old.items
        ++ map (λ m. m.client) (filter (λ m. has_bit transition m.transitions) members.now)) }
    ensures kept { OnErr result (clients.new.items ≡ clients.old.items) }
{
    let before = clients.len();
    let mut rest = members;
    while let Some((member, later)) = rest.split_first() {
        if has_bit(member.transitions, transition) {
            if let Err(error) = put_client(clients, member.client) {
                clients.truncate(before);
                return Err(error);
            }
        }
        rest = later;
    }
    Ok(())
}
