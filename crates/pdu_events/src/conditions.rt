//! Event conditions: their definition, their deletion and what they are.
#![tactic(auto, unfolding(ber_forms::specs::Spelling::appended), using(ber_forms::proofs::Joined::writing))]

ghost use Rattle.std.specs.Prelude.{◌≡◌, refl, true, false, Ok, Err, if◌then◌else◌};
ghost use Rattle.ber_forms.specs.Fault as fault;
ghost use Rattle.ber_forms.specs.Reading.{Gives};
ghost use Rattle.ber_forms.specs.Reads.{NeedsNoMemory};
ghost use Rattle.ber_forms.specs.Spelling.{Begins};
ghost use Rattle.ber_forms.specs.Steps.{DefaultedGives};
ghost use Rattle.pdu_names.specs.Editions.{lengths_of};
ghost use Rattle.pdu_names.specs.Gives.{GivesContents, GivesNext, PutsContents};
ghost use Rattle.pdu_names.specs.Kinds.{context, unsigned8};
ghost use Rattle.pdu_names.specs.Names.{names_sound};
ghost use Rattle.pdu_sems.specs.Control.{priority};
ghost use Rattle.pdu_vars.specs.Variables.{specifications_sound};
ghost use Rattle.pdu_events.specs.Conditions.{condition_parts, condition_state, condition_status, define_condition, delete_conditions, has_what_it_needs, is_monitored, parts_of};

use crate::times::EventTimes;
use ber_core::{Element, Memory as Full, Tag, Writer};
use ber_forms::{
    Cursor, Unread, has_tag, put_boolean, put_defaulted_integer, put_integer, put_optional_boolean,
    put_optional_u32, unsigned8_in,
};
use mms_types::{
    ConditionState, ConditionStatus, DefineEventCondition, Edition, Monitored, ObjectName,
    ObjectNames, Spec,
};
use pdu_names::{
    Chosen, Formed, ListOf, Name, OneOf, Unsigned32, Within, cursor, optional, put_optional,
    required,
};
use pdu_vars::Specification;
use std::alloc::Global;

/// The form of where an event condition stands (ISO 9506-2, EC-State).
pub struct ConditionStateContents;

impl Formed for ConditionStateContents {
    type Item = ConditionState;

    ghost kind = { condition_state };

    ghost needs_no_memory = { true };

    fn is_constructed() -> bool {
        false
    }

    fn read(_alloc: Global, contents: &[u8], _edition: Edition) -> Result<ConditionState, Unread> {
        let number = unsigned8_in(contents, 0, 2)?;
        Ok(ConditionState::numbered(number))
    }

    fn put(out: &mut Writer, x: &ConditionState) -> Result<(), Full> {
        out.number(i64::from(x.number()))
    }

    fn put_part(out: &mut Writer, number: u32, x: &ConditionState) -> Result<(), Full> {
        put_integer(out, number, i64::from(x.number()))
    }

    ghost sound = { λ _. refl };
}

/// The next element, a class: whether the condition is monitored.
#[tactic(auto, unfolding(ber_forms::specs::Reading::required_by))]
fn class(parts: &mut Cursor<'_>, edition: Edition) -> Result<bool, Unread>
    requires { parts.old.lengths ≡ lengths_of edition }
    ensures exact { GivesNext (context 1 is_monitored) edition parts.old parts.new result }
    ensures kept { parts.new.lengths ≡ parts.old.lengths }
    ensures no_memory { NeedsNoMemory result }
{
    let element = parts.required(Tag::primitive(1))?;
    let number = unsigned8_in(element.contents, 0, 1)?;
    Ok(number == 1)
}

/// The next element, a priority, or 64 where it is missing.
fn priority(parts: &mut Cursor<'_>, edition: Edition) -> Result<u8, Unread>
    requires { parts.old.lengths ≡ lengths_of edition }
    ensures exact { DefaultedGives priority.value ((context 2 priority).member edition)
        (priority.value 64) parts.old parts.new result }
    ensures kept { parts.new.lengths ≡ parts.old.lengths }
    ensures no_memory { NeedsNoMemory result }
{
    parts.defaulted_u8_in(2, 0, 127, 64)
}

/// The next element, a severity, or 64 where it is missing.
fn severity(parts: &mut Cursor<'_>, edition: Edition) -> Result<u8, Unread>
    requires { parts.old.lengths ≡ lengths_of edition }
    ensures exact { DefaultedGives unsigned8.value ((context 3 unsigned8).member edition)
        (unsigned8.value 64) parts.old parts.new result }
    ensures kept { parts.new.lengths ≡ parts.old.lengths }
    ensures no_memory { NeedsNoMemory result }
{
    parts.defaulted_u8_in(3, 0, 255, 64)
}

/// The components of the definition of an event condition, whatever they are together.
#[derive(Drop)]
pub(crate) struct ConditionParts {
    name: ObjectName,
    /// Its class.
    is_monitored: bool,
    priority: u8,
    severity: u8,
    summary: Option<bool>,
    variable: Option<Spec>,
    interval: Option<u32>,
}

fn condition_parts(
    alloc: Global,
    contents: &[u8],
    edition: Edition,
) -> Result<ConditionParts, Unread>
    ensures { GivesContents condition_parts edition contents.now result }
{
    let mut parts = cursor(edition, contents);
    let name = required::<Name>(alloc, &mut parts, edition, 0)?;
    let is_monitored = class(&mut parts, edition)?;
    let priority = priority(&mut parts, edition)?;
    let severity = severity(&mut parts, edition)?;
    let summary = parts.optional_boolean(4)?;
    let variable = optional::<OneOf<Specification>>(alloc, &mut parts, edition, 6)?;
    let interval = parts.optional_u32(7)?;
    parts.end()?;
    Ok(ConditionParts {
        name,
        is_monitored,
        priority,
        severity,
        summary,
        variable,
        interval,
    })
}

/// The condition of these components. Malformed where they are not those of its class.
fn condition(parts: ConditionParts) -> Result<DefineEventCondition, Unread>
    ensures exact { Gives define_condition.value result
        (if has_what_it_needs (condition_parts.value parts)
        then Ok (condition_parts.value parts) else Err fault.malformed) }
    ensures no_memory { NeedsNoMemory result }
{
    let ConditionParts {
        name,
        is_monitored,
        priority,
        severity,
        summary,
        variable,
        interval,
    } = parts;
    let monitored = match (is_monitored, variable, interval) {
        (true, Some(variable), Some(interval)) => Some(Monitored { variable, interval }),
        (false, None, None) => None,
        _ => return Err(Unread::Malformed),
    };
    Ok(DefineEventCondition {
        name,
        priority,
        severity,
        summary,
        monitored,
    })
}

/// The form of a DefineEventCondition request. Names are copied. It is malformed where the condition is monitored
/// without a variable or without an interval, or is network-triggered with one of them.
pub struct DefineEventConditionRequest;

impl Formed for DefineEventConditionRequest {
    type Item = DefineEventCondition;

    ghost kind = { define_condition };

    ghost needs_no_memory = { false };

    fn is_constructed() -> bool {
        true
    }

    fn read(
        alloc: Global,
        contents: &[u8],
        edition: Edition,
    ) -> Result<DefineEventCondition, Unread> {
        let parts = condition_parts(alloc, contents, edition)?;
        condition(parts)
    }

    fn put(out: &mut Writer, x: &DefineEventCondition) -> Result<(), Full> {
        Name::put_part(out, 0, &x.name)?;
        put_integer(out, 1, i64::from(x.monitored.is_some()))?;
        put_defaulted_integer(out, 2, i64::from(x.priority), 64)?;
        put_defaulted_integer(out, 3, i64::from(x.severity), 64)?;
        put_optional_boolean(out, 4, x.summary)?;
        match &x.monitored {
            None => Ok(()),
            Some(monitored) => {
                OneOf::<Specification>::put_part(out, 6, &monitored.variable)?;
                put_integer(out, 7, i64::from(monitored.interval))
            }
        }
    }

    ghost sound = { λ e. rw (names_sound e, specifications_sound e) refl };
}

/// Names of event conditions, or of event enrollments: at most 65,000.
pub(crate) type EventNames = ListOf<Name, Within<0, 65000>>;

/// The alternatives of which event conditions are deleted: those of these names. Names are copied.
pub struct DeleteEventConditionAlternatives;

impl Chosen for DeleteEventConditionAlternatives {
    type Item = ObjectNames;

    ghost arms = { delete_conditions };

    ghost needs_no_memory = { false };

    fn of(alloc: Global, element: Element<'_>, edition: Edition) -> Result<ObjectNames, Unread> {
        if has_tag(element.tag, Tag::constructed(0)) {
            EventNames::read(alloc, element.contents, edition)
        } else {
            Err(Unread::Malformed)
        }
    }

    fn put_chosen(out: &mut Writer, x: &ObjectNames) -> Result<(), Full> {
        EventNames::put_part(out, 0, x)
    }

    ghost sound = { λ e. rw (names_sound e) refl };
}

/// The form of a DeleteEventCondition request. Names are copied.
pub type DeleteEventConditionRequest = OneOf<DeleteEventConditionAlternatives>;

/// The form of a DeleteEventCondition answer: how many were not deleted.
pub type DeleteEventConditionResponse = Unsigned32;

/// The form of a ReportEventConditionStatus request. The name is copied.
pub type ReportEventConditionStatusRequest = Name;

/// The form of a ReportEventConditionStatus answer.
pub struct ReportEventConditionStatusResponse;

impl Formed for ReportEventConditionStatusResponse {
    type Item = ConditionStatus;

    ghost kind = { condition_status };

    ghost needs_no_memory = { true };

    fn is_constructed() -> bool {
        true
    }

    fn read(alloc: Global, contents: &[u8], edition: Edition) -> Result<ConditionStatus, Unread> {
        let mut parts = cursor(edition, contents);
        let state = required::<ConditionStateContents>(alloc, &mut parts, edition, 0)?;
        let enrolments = parts.required_u32(1)?;
        let enabled = parts.required_boolean(2)?;
        let to_active = required::<EventTimes>(alloc, &mut parts, edition, 3)?;
        let to_idle = required::<EventTimes>(alloc, &mut parts, edition, 4)?;
        parts.end()?;
        Ok(ConditionStatus {
            state,
            enrolments,
            enabled,
            to_active,
            to_idle,
        })
    }

    fn put(out: &mut Writer, x: &ConditionStatus) -> Result<(), Full> {
        ConditionStateContents::put_part(out, 0, &x.state)?;
        put_integer(out, 1, i64::from(x.enrolments))?;
        put_boolean(out, 2, x.enabled)?;
        EventTimes::put_part(out, 3, &x.to_active)?;
        EventTimes::put_part(out, 4, &x.to_idle)
    }

    ghost sound = { λ _. refl };
}
