//! Event conditions are changed and triggered.
#![tactic(auto, unfolding(ber_forms::specs::Spelling::appended), using(ber_forms::proofs::Joined::writing))]

ghost use Rattle.std.specs.Prelude.{refl, true, false};
ghost use Rattle.pdu_names.specs.Names.{names_sound};
ghost use Rattle.pdu_sems.specs.Control.{priority};
ghost use Rattle.pdu_events.specs.Changes.{alter_monitoring, trigger_event};

use ber_core::{Memory as Full, Writer};
use ber_forms::{Unread, put_integer, put_optional_boolean, put_optional_u32, unsigned8_in};
use mms_types::{AlterEventConditionMonitoring, Edition, TriggerEvent};
use pdu_names::{Formed, Name, cursor, optional, put_optional, required};
use std::alloc::Global;

/// The form of a priority, from 0 to 127.
pub struct PriorityContents;

impl Formed for PriorityContents {
    type Item = u8;

    ghost kind = { priority };

    ghost needs_no_memory = { true };

    fn is_constructed() -> bool {
        false
    }

    fn read(_alloc: Global, contents: &[u8], _edition: Edition) -> Result<u8, Unread> {
        unsigned8_in(contents, 0, 127)
    }

    fn put(out: &mut Writer, x: &u8) -> Result<(), Full> {
        out.number(i64::from(*x))
    }

    fn put_part(out: &mut Writer, number: u32, x: &u8) -> Result<(), Full> {
        put_integer(out, number, i64::from(*x))
    }

    ghost sound = { λ _. refl };
}

/// The form of an AlterEventConditionMonitoring request. The name is copied.
pub struct AlterEventConditionMonitoringRequest;

impl Formed for AlterEventConditionMonitoringRequest {
    type Item = AlterEventConditionMonitoring;

    ghost kind = { alter_monitoring };

    ghost needs_no_memory = { false };

    fn is_constructed() -> bool {
        true
    }

    fn read(
        alloc: Global,
        contents: &[u8],
        edition: Edition,
    ) -> Result<AlterEventConditionMonitoring, Unread> {
        let mut parts = cursor(edition, contents);
        let name = required::<Name>(alloc, &mut parts, edition, 0)?;
        let enabled = parts.optional_boolean(1)?;
        let priority = optional::<PriorityContents>(alloc, &mut parts, edition, 2)?;
        let summary = parts.optional_boolean(3)?;
        let interval = parts.optional_u32(4)?;
        parts.end()?;
        Ok(AlterEventConditionMonitoring {
            name,
            enabled,
            priority,
            summary,
            interval,
        })
    }

    fn put(out: &mut Writer, x: &AlterEventConditionMonitoring) -> Result<(), Full> {
        Name::put_part(out, 0, &x.name)?;
        put_optional_boolean(out, 1, x.enabled)?;
        put_optional::<PriorityContents>(out, 2, x.priority.as_ref())?;
        put_optional_boolean(out, 3, x.summary)?;
        put_optional_u32(out, 4, x.interval)
    }

    ghost sound = { λ e. rw (names_sound e) refl };
}

/// The form of a TriggerEvent request. The name is copied.
pub struct TriggerEventRequest;

impl Formed for TriggerEventRequest {
    type Item = TriggerEvent;

    ghost kind = { trigger_event };

    ghost needs_no_memory = { false };

    fn is_constructed() -> bool {
        true
    }

    fn read(alloc: Global, contents: &[u8], edition: Edition) -> Result<TriggerEvent, Unread> {
        let mut parts = cursor(edition, contents);
        let name = required::<Name>(alloc, &mut parts, edition, 0)?;
        let priority = optional::<PriorityContents>(alloc, &mut parts, edition, 1)?;
        parts.end()?;
        Ok(TriggerEvent { name, priority })
    }

    fn put(out: &mut Writer, x: &TriggerEvent) -> Result<(), Full> {
        Name::put_part(out, 0, &x.name)?;
        put_optional::<PriorityContents>(out, 1, x.priority.as_ref())
    }

    ghost sound = { λ e. rw (names_sound e) refl };
}
