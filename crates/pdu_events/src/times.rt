//! When events take place.
#![tactic(auto, unfolding(ber_forms::specs::Spelling::appended), using(ber_forms::proofs::Joined::writing))]

ghost use Rattle.std.specs.Prelude.{◌≡◌, ◌++◌, [], refl, true, false, OnOk};
ghost use Rattle.ber_forms.specs.Spelling.{Begins};
ghost use Rattle.pdu_events.specs.Times.{event_times, four_octets, time_octets, time_of_day, two_octets};

use ber_core::{Element, Memory as Full, Tag, Writer};
use ber_forms::{Unread, has_tag, null, put_integer, put_null, unsigned32};
use mms_types::{Edition, EventTime, TimeOfDay};
use pdu_names::{Chosen, Formed, OneOf};
use std::alloc::Global;

/// The number that four octets spell, the most significant one first.
fn of_four(octets: [u8; 4]) -> u32
    ensures { four_octets result ≡ octets }
{
    u32::from_be_bytes(octets)
}

/// The number that two octets spell, the most significant one first.
fn of_two(octets: [u8; 2]) -> u16
    ensures { two_octets result ≡ octets }
{
    u16::from_be_bytes(octets)
}

fn in_four(n: u32) -> [u8; 4]
    ensures { result ≡ four_octets n }
{
    n.to_be_bytes()
}

fn in_two(n: u16) -> [u8; 2]
    ensures { result ≡ two_octets n }
{
    n.to_be_bytes()
}

/// The moment that six octets spell: milliseconds in four, days in two.
fn time_in(octets: [u8; 6]) -> TimeOfDay
    ensures { time_octets result ≡ octets }
{
    TimeOfDay {
        ms: of_four([octets[0], octets[1], octets[2], octets[3]]),
        day: of_two([octets[4], octets[5]]),
    }
}

/// The form of a moment: 6 octets.
pub struct TimeOfDayContents;

impl Formed for TimeOfDayContents {
    type Item = TimeOfDay;

    ghost kind = { time_of_day };

    ghost needs_no_memory = { true };

    fn is_constructed() -> bool {
        false
    }

    fn read(_alloc: Global, contents: &[u8], _edition: Edition) -> Result<TimeOfDay, Unread> {
        if contents.len() != 6 {
            return Err(Unread::Malformed);
        }
        let mut octets = [0u8; 6];
        octets.copy_from_slice(contents);
        Ok(time_in(octets))
    }

    fn put(out: &mut Writer, x: &TimeOfDay) -> Result<(), Full> {
        out.raw(&in_four(x.ms))?;
        out.raw(&in_two(x.day))
    }

    ghost sound = { λ _. refl };
}

/// The alternatives of when something took place (ISO 9506-2, EventTime).
pub struct EventTimeAlternatives;

impl Chosen for EventTimeAlternatives {
    type Item = EventTime;

    ghost arms = { event_times };

    ghost needs_no_memory = { true };

    fn of(alloc: Global, element: Element<'_>, edition: Edition) -> Result<EventTime, Unread> {
        let Element { tag, contents } = element;
        if has_tag(tag, Tag::primitive(0)) {
            Ok(EventTime::TimeOfDay(TimeOfDayContents::read(alloc, contents, edition)?))
        } else if has_tag(tag, Tag::primitive(1)) {
            Ok(EventTime::Sequence(unsigned32(contents)?))
        } else if has_tag(tag, Tag::primitive(2)) {
            null(contents)?;
            Ok(EventTime::Undefined)
        } else {
            Err(Unread::Malformed)
        }
    }

    fn put_chosen(out: &mut Writer, x: &EventTime) -> Result<(), Full> {
        match x {
            EventTime::TimeOfDay(time) => TimeOfDayContents::put_part(out, 0, time),
            EventTime::Sequence(n) => put_integer(out, 1, i64::from(*n)),
            EventTime::Undefined => put_null(out, 2),
        }
    }

    ghost sound = { λ _. refl };
}

/// The form of when something took place.
pub type EventTimes = OneOf<EventTimeAlternatives>;
