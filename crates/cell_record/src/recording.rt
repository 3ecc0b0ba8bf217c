//! A recording that is being read.

ghost use Rattle.std.specs.Prelude.{◌≡◌, ◌+◌, ◌≤◌, true, false, None, Some, Err, ⊤};
ghost use Rattle.std.specs.Prelude.{IfOk, IfErr, IfSome, IfNone, OnOk, MatchOption, MatchResult};
ghost use Rattle.cell_io.specs.Faults.{Rose, SteadyBut};
ghost use Rattle.cell_io.specs.Held.{IsLaterPart};
ghost use Rattle.cell_record.specs.Recording.{refused, ended};
ghost use Rattle.cell_record.specs.Numbered.{GoesOn};
ghost use Rattle.cell_record.specs.Progress.{place_of, rest_of, rest_in, IsStated};
ghost use Rattle.cell_record.specs.Stops.{StopsInPhase};
ghost use Rattle.cell_record.specs.ToRead.{rest_to_read, CountsFaults, FailsInPhase, FailsToOpen};
ghost use Rattle.cell_record.specs.ToRead.{GivesPhase, GoesFurther, IsNextPhase, IsOpened};

use crate::RecordError;
use crate::counts::Counts;
use crate::numbered::NumberedLines;
use crate::opening::read_opening;
use crate::phase_lines::read_phase;
use cell_config::Config;
use cell_io::Source;
use mms_types::Events;
use std::alloc::Global;
use std::marker::Model;

/// A phase of a recording.
#[derive(Drop)]
pub struct Phase {
    /// Its number, from 1.
    pub number: u32,
    /// Its events, in the recorded order.
    pub events: Events,
}

/// A recording that is being read.
#[derive(Drop)]
pub struct Recording {
    lines: NumberedLines,
    config: Config,
    moment: u64,
    number: u32,
    over: bool,
    refusal: Option<RecordError>,
    /// In which the octets of a line are decoded. What it holds is of no account.
    buffer: Vec<u8>,
}

impl Model for Recording {
    ghost use Rattle.std.specs.Prelude.{◌≤◌, ◌+◌, if◌then◌else◌};
    ghost use Rattle.cell_record.specs.Progress.{Progress};

    ghost Value = { Progress };

    ghost use Rattle.std.specs.Coded.{codes};
    ghost use Rattle.mms_types.specs.DatumCode.{datum_code};
    ghost use Rattle.mms_types.specs.ShapeCode.{shape_code};

    ghost coded = { Prim.hlevel (codes, datum_code, shape_code) };

    ghost view = { λ s. record {
      held = s.lines.held;
      config = s.config;
      lines = s.lines.lines;
      moment = s.moment;
      number = s.number;
      over = s.over;
      refusal = s.refusal;
    } };

    ghost invariant = { λ s. (s.moment ≤ 5662310399999)
        × (s.number + (if s.over then 0 else 1) + 2 ≤ s.lines.held.given) };
}

impl Recording {
    /// Reads the lines of a recording up to `end`: the header, `config`, and the configuration.
    /// `Bad` tells the first line that breaks a rule, or is missing, `TooMuch` the line that holds
    /// the octet after the last that may be read, and `BadConfig` the least rule that the
    /// configuration breaks, once its lines and `end` were read. Part of the source may have been
    /// read after any refusal. `ReadFault` comes exactly where a read failed, which is the last
    /// one: then one fault more is counted, and else none.
    pub fn open<S: Source>(alloc: Global, input: &mut S) -> Result<Recording, RecordError>
        // The text tells the configuration, and the phases are those of what is ahead.
        ensures opens { IfOk result (λ r. IsOpened (S.left input.old) r (S.left input.new)) }

        // It begins at the moment of the configuration.
        ensures new { IfOk result (λ r. (r.moment ≡ r.config.start.0) × (r.number ≡ 0)
            × (r.over ≡ false) × (r.refusal ≡ None)) }

        // Why it is refused.
        ensures fails { IfErr result (λ e. FailsToOpen (S.left input.old) e (S.left input.new)) }
        ensures fault { IfErr result (λ e. e ≡ RecordError.ReadFault
            → Rose (S.faults input.old) (S.faults input.new)) }

        // On every answer.
        ensures left { IsLaterPart (S.left input.old) (S.left input.new) }
        ensures steady { SteadyBut RecordError.ReadFault
            (S.faults input.old) (S.faults input.new) result }
    {
        let mut lines = NumberedLines::new(alloc)?;
        let config = read_opening(alloc, &mut lines, input)?;
        let moment = config.start.0;
        Ok(Recording {
            lines,
            config,
            moment,
            number: 0,
            over: false,
            refusal: None,
            buffer: Vec::new(alloc),
        })
    }

    /// The configuration that was read. Takes no memory.
    pub fn config(&self) -> &Config
        ensures { result.now ≡ self.now.config }
    {
        &self.config
    }

    /// Reads the next phase whole: None exactly at the end of the input, after the last phase.
    /// `Bad` tells the first line that breaks a rule, and `TooMuch` the line with which the phase
    /// or the input is too much; the phase that it stands in isn't given. Part of the source may
    /// have been read after any refusal. `ReadFault` comes first where a read failed: then one
    /// fault more is counted, and else none. A refusal is kept, and answered again by each further
    /// call, which reads nothing.
    pub fn next_phase<S: Source>(
        &mut self,
        alloc: Global,
        input: &mut S,
    ) -> Result<Option<Phase>, RecordError>
        // The phase is the first of what is still said, and none is where nothing more is said.
        ensures phase { IfOk result (λ o. IfSome o (λ p. GivesPhase p.number p.events
            self.old (S.left input.old) self.new (S.left input.new))) }
        ensures none { IfOk result (λ o. IfNone o ((self.old.over ≡ true)
            × IfSome (rest_of self.old (S.left input.old)) (λ r. r ≡ ended)
            × (input.new ≡ input.old))) }

        // Why it is refused.
        ensures refused { IfErr result (λ e. IsStated e
            → IfSome (rest_of self.old (S.left input.old)) (λ r. r ≡ refused e)) }
        ensures fault { IfErr result (λ e. e ≡ RecordError.ReadFault → self.old.refusal ≡ None
            → Rose (S.faults input.old) (S.faults input.new)) }
        ensures stops { IfErr result (λ e. e ≡ RecordError.ReadFault → self.old.refusal ≡ None
            → StopsInPhase (rest_in self.old) self.old.held (place_of self.old)
            (S.left input.old) (S.left input.new)) }
        ensures kept { MatchResult result (λ _. self.new.refusal ≡ None)
            (λ e. self.new.refusal ≡ Some e) }
        ensures again { MatchOption self.old.refusal ⊤ (λ e. (result ≡ Err e)
            × (self.new ≡ self.old) × (input.new ≡ input.old)) }

        // On every answer.
        ensures goes { GoesFurther self.old (S.left input.old) self.new (S.left input.new) }
        ensures steady { SteadyBut RecordError.ReadFault
            (S.faults input.old) (S.faults input.new) result }
    {
        if let Some(refusal) = self.refusal {
            return Err(refusal);
        }
        if self.over {
            return Ok(None);
        }
        match self.read(alloc, input) {
            Ok(events) => {
                let _given = self.lines.given();
                Ok(Some(Phase {
                    number: self.number,
                    events,
                }))
            }
            Err(refusal) => {
                self.refusal = Some(refusal);
                Err(refusal)
            }
        }
    }

    /// Reads the events of the next phase.
    fn read<S: Source>(&mut self, alloc: Global, input: &mut S) -> Result<Events, RecordError>
        requires open { self.old.over ≡ false }
        requires unrefused { self.old.refusal ≡ None }
        ensures phase { IfOk result (λ es. IsNextPhase self.old.config es
            (rest_to_read self.old (S.left input.old)) self.old.moment
            (rest_to_read self.new (S.left input.new)) self.new.moment) }
        ensures over { OnOk result (self.new.over ≡ true → self.new.held.ended ≡ true) }
        ensures number { OnOk result (self.new.number ≡ self.old.number + 1) }
        ensures fails { IfErr result (λ e.
            FailsInPhase (rest_to_read self.old (S.left input.old)) e (S.left input.new)) }
        ensures same { (self.new.config ≡ self.old.config) × (self.new.refusal ≡ self.old.refusal) }
        ensures goes { GoesOn self.old.held (S.left input.old) self.new.held (S.left input.new) }
        ensures faults { CountsFaults (S.faults input.old) (S.faults input.new) result }
    {
        let mut counts = Counts::fresh(self.moment);
        let _given = self.lines.given();
        let piece = read_phase(
            alloc,
            &mut self.lines,
            &self.config,
            &mut counts,
            &mut self.buffer,
            input,
        )?;
        self.moment = counts.moment;
        self.number += 1;
        self.over = piece.last;
        Ok(piece.events)
    }
}
