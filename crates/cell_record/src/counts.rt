//! How much there is of a phase, and the moment.

ghost use Rattle.std.specs.Prelude.{◌≡◌, ◌≤◌, IfSome, MatchOption, ⊤};
ghost use Rattle.cell_record.specs.Recording.{moved, refusal_of, fresh, counted, excess};
ghost use Rattle.cell_record.specs.Recording.{ms_in, octets_in};
ghost use Rattle.cell_record.specs.Numbered.{IsWithin};

use crate::said::LineMeaning;
use crate::{BadWord, RecordError};
use mms_types::{CellEvent, Moment};

const MOST_EVENTS: u64 = 16_384;

const MOST_OCTETS: u64 = 67_108_864;

/// How many events and octets of PDUs there are of a phase so far, and the moment in milliseconds.
#[derive(Clone, Copy)]
pub struct Counts {
    pub events: u64,
    pub octets: u64,
    pub moment: u64,
}

/// How many milliseconds go by in an event.
fn ms_in(event: &CellEvent) -> u64
    ensures ms { result ≡ ms_in event.now }
    ensures small { result ≤ 4294967295 }
{
    match event {
        CellEvent::Tick { ms } => u64::from(*ms),
        _ => 0,
    }
}

/// How many octets of PDUs an event has.
fn octets_in(event: &CellEvent) -> u64
    ensures octets { result ≡ octets_in event.now }
    ensures small { result ≤ 9223372036854775807 }
{
    match event {
        CellEvent::Heard { octets, .. } => octets.as_slice().len() as u64,
        _ => 0,
    }
}

impl Counts {
    /// A phase begins at that moment.
    pub fn fresh(moment: u64) -> Counts
        ensures { result ≡ fresh moment }
    {
        Counts {
            events: 0,
            octets: 0,
            moment,
        }
    }

    /// The counts with an event more.
    fn counted(self, event: &CellEvent) -> Counts
        requires { IsWithin self }
        ensures { result ≡ counted self event.now }
    {
        Counts {
            events: self.events + 1,
            octets: self.octets + octets_in(event),
            moment: self.moment + ms_in(event),
        }
    }

    /// Why the line of that number is refused, with which there would be so much.
    fn excess(self, line: u64) -> Option<RecordError>
        ensures refusal { result ≡ excess line self }
        ensures within { MatchOption result (IsWithin self) (λ _. ⊤) }
    {
        if self.moment > Moment::LAST.0 {
            Some(RecordError::Bad {
                line,
                word: BadWord::Clock,
            })
        } else if self.events > MOST_EVENTS || self.octets > MOST_OCTETS {
            Some(RecordError::TooMuch { line })
        } else {
            None
        }
    }

    /// Counts what the line of that number says. Tells why the line is refused, where it is.
    pub fn count(&mut self, line: u64, said: &LineMeaning) -> Option<RecordError>
        requires { IsWithin self.old }
        ensures counts { self.new ≡ moved self.old said.now }
        ensures refusal { result ≡ refusal_of line self.new said.now }
        ensures within { MatchOption result (IsWithin self.new) (λ _. ⊤) }
    {
        match said {
            LineMeaning::Nothing => None,
            LineMeaning::Phase => {
                *self = Counts::fresh(self.moment);
                None
            }
            LineMeaning::Happens(event) => {
                *self = self.counted(event);
                self.excess(line)
            }
        }
    }
}
