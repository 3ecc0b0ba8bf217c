//! Event enrollments: their definition, their deletion, and what their clients are told.
#![tactic(auto, unfolding(ber_forms::specs::Spelling::appended), using(ber_forms::proofs::Joined::writing))]

ghost use Rattle.std.specs.Prelude.{◌≡◌, refl, true, false};
ghost use Rattle.ber_forms.specs.Reads.{NeedsNoMemory};
ghost use Rattle.pdu_names.specs.Editions.{lengths_of};
ghost use Rattle.pdu_names.specs.Gives.{GivesNext};
ghost use Rattle.pdu_names.specs.Kinds.{context, named_bits, natural, unsigned8};
ghost use Rattle.pdu_names.specs.Names.{names_sound};
ghost use Rattle.pdu_events.specs.Enrollments.{define_enrollment, delete_enrollments, event_notification};

use crate::conditions::{ConditionStateContents, EventNames};
use crate::times::EventTimes;
use ber_core::{Bits, Element, Memory as Full, Tag, Writer};
use ber_forms::{Cursor, Unread, has_tag, named_bits, put_bit_string, put_integer};
use mms_types::{
    DefineEventEnrollment, DeleteEventEnrollment, Edition, EventNotification, Transitions,
};
use pdu_names::{
    Chosen, Formed, Name, OneOf, Unsigned32, cursor, optional, put_optional, required,
};
use std::alloc::Global;

/// The next element, the transitions that are told.
#[tactic(auto, unfolding(ber_forms::specs::Reading::required_by))]
fn transitions(parts: &mut Cursor<'_>, edition: Edition) -> Result<[u8; 1], Unread>
    requires { parts.old.lengths ≡ lengths_of edition }
    ensures exact { GivesNext (context 2 (named_bits 7)) edition parts.old parts.new result }
    ensures kept { parts.new.lengths ≡ parts.old.lengths }
    ensures no_memory { NeedsNoMemory result }
{
    let element = parts.required(Tag::primitive(2))?;
    named_bits::<1>(element.contents, 7)
}

/// The next element, a rule of acknowledgement, which is 0.
fn rule(parts: &mut Cursor<'_>, edition: Edition) -> Result<u8, Unread>
    requires { parts.old.lengths ≡ lengths_of edition }
    ensures exact { GivesNext (context 3 (natural 0 0)) edition parts.old parts.new result }
    ensures kept { parts.new.lengths ≡ parts.old.lengths }
    ensures no_memory { NeedsNoMemory result }
{
    parts.required_u8_in(3, 0, 0)
}

/// The form of a DefineEventEnrollment request. Names are copied. It is malformed where its rule is not 0.
pub struct DefineEventEnrollmentRequest;

impl Formed for DefineEventEnrollmentRequest {
    type Item = DefineEventEnrollment;

    ghost kind = { define_enrollment };

    ghost needs_no_memory = { false };

    fn is_constructed() -> bool {
        true
    }

    fn read(
        alloc: Global,
        contents: &[u8],
        edition: Edition,
    ) -> Result<DefineEventEnrollment, Unread> {
        let mut parts = cursor(edition, contents);
        let name = required::<Name>(alloc, &mut parts, edition, 0)?;
        let condition = required::<Name>(alloc, &mut parts, edition, 1)?;
        let transitions = transitions(&mut parts, edition)?;
        let rule = rule(&mut parts, edition)?;
        parts.end()?;
        Ok(DefineEventEnrollment {
            name,
            condition,
            transitions: Transitions {
                octets: transitions,
            },
            rule,
        })
    }

    fn put(out: &mut Writer, x: &DefineEventEnrollment) -> Result<(), Full> {
        let transitions = Bits {
            unused: 1,
            octets: &x.transitions.octets,
        };
        Name::put_part(out, 0, &x.name)?;
        Name::put_part(out, 1, &x.condition)?;
        put_bit_string(out, 2, transitions)?;
        put_integer(out, 3, i64::from(x.rule))
    }

    ghost sound = { λ e. rw (names_sound e) refl };
}

/// The alternatives of which event enrollments are deleted: those of these names, or the client's own on the condition
/// of that name. Names are copied.
pub struct DeleteEventEnrollmentAlternatives;

impl Chosen for DeleteEventEnrollmentAlternatives {
    type Item = DeleteEventEnrollment;

    ghost arms = { delete_enrollments };

    ghost needs_no_memory = { false };

    fn of(
        alloc: Global,
        element: Element<'_>,
        edition: Edition,
    ) -> Result<DeleteEventEnrollment, Unread> {
        let Element { tag, contents } = element;
        if has_tag(tag, Tag::constructed(0)) {
            Ok(DeleteEventEnrollment::Names(EventNames::read(alloc, contents, edition)?))
        } else if has_tag(tag, Tag::constructed(1)) {
            Ok(DeleteEventEnrollment::Condition(Name::read(alloc, contents, edition)?))
        } else {
            Err(Unread::Malformed)
        }
    }

    fn put_chosen(out: &mut Writer, x: &DeleteEventEnrollment) -> Result<(), Full> {
        match x {
            DeleteEventEnrollment::Names(names) => EventNames::put_part(out, 0, names),
            DeleteEventEnrollment::Condition(name) => Name::put_part(out, 1, name),
        }
    }

    ghost sound = { λ e. rw (names_sound e) refl };
}

/// The form of a DeleteEventEnrollment request. Names are copied.
pub type DeleteEventEnrollmentRequest = OneOf<DeleteEventEnrollmentAlternatives>;

/// The form of a DeleteEventEnrollment answer: how many were not deleted.
pub type DeleteEventEnrollmentResponse = Unsigned32;

/// The next element, a severity.
fn severity(parts: &mut Cursor<'_>, edition: Edition) -> Result<u8, Unread>
    requires { parts.old.lengths ≡ lengths_of edition }
    ensures exact { GivesNext (context 2 unsigned8) edition parts.old parts.new result }
    ensures kept { parts.new.lengths ≡ parts.old.lengths }
    ensures no_memory { NeedsNoMemory result }
{
    parts.required_u8(2)
}

/// The form of what a client is told of a transition. Names are copied.
pub struct EventNotifications;

impl Formed for EventNotifications {
    type Item = EventNotification;

    ghost kind = { event_notification };

    ghost needs_no_memory = { false };

    fn is_constructed() -> bool {
        true
    }

    fn read(alloc: Global, contents: &[u8], edition: Edition) -> Result<EventNotification, Unread> {
        let mut parts = cursor(edition, contents);
        let enrolment = required::<Name>(alloc, &mut parts, edition, 0)?;
        let condition = required::<Name>(alloc, &mut parts, edition, 1)?;
        let severity = severity(&mut parts, edition)?;
        let state = optional::<ConditionStateContents>(alloc, &mut parts, edition, 3)?;
        let time = required::<EventTimes>(alloc, &mut parts, edition, 4)?;
        parts.end()?;
        Ok(EventNotification {
            enrolment,
            condition,
            severity,
            state,
            time,
        })
    }

    fn put(out: &mut Writer, x: &EventNotification) -> Result<(), Full> {
        Name::put_part(out, 0, &x.enrolment)?;
        Name::put_part(out, 1, &x.condition)?;
        put_integer(out, 2, i64::from(x.severity))?;
        put_optional::<ConditionStateContents>(out, 3, x.state.as_ref())?;
        EventTimes::put_part(out, 4, &x.time)
    }

    ghost sound = { λ e. rw (names_sound e) refl };
}
