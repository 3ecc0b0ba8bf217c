//! Time goes by, and no cell changes meanwhile: each condition is met at its first evaluation alone.

ghost use Rattle.std.specs.Prelude.{◌≡◌, ◌≢◌, [], IfOk, IfSome, None, OnErr, OnOk, Some, ◌≤◌, insert, is_some, length, ℕ, Bool};
ghost use Rattle.mms_types.specs.Moments.{IsDated};
ghost use Rattle.event_cond.specs.Conditions.{moved};
ghost use Rattle.event_cond.specs.Evaluations.{next_of};
ghost use Rattle.event_cond.specs.Kept.{IsClass, IsCondition, IsWatch};
ghost use Rattle.event_cond.specs.Skips.{IsInOrder, after_skip, any_due, class_passed, first_due, first_turn, first_turns, passed, says, says_class, skipped, turns_sooner, up_to, with_turn};

use crate::evaluating::is_sooner;
use crate::kept::Kept;
use crate::moves::least_multiple;
use crate::{ConditionClass, Conditions, Evaluation, Watch};
use mms_types::{Key, Memory, Moment, Turned};
use object_names::Named;
use std::alloc::Global;

/// What boolean cells say.
pub trait Cells {
    /// Whether the cell of that number is TRUE.
    ghost says: { Self → ℕ → Bool };

    /// Whether the cell of that number is TRUE.
    fn is_true(&self, cell: u16) -> bool
        ensures { result ≡ says self.now cell };
}

/// A moment that is at most that one.
#[inline(always)]
fn up_to(until: Moment, at: Option<Moment>) -> Option<Moment>
    requires { IsDated until }
    ensures moment { result ≡ up_to until at }
    ensures dated { IfSome result IsDated }
{
    match at {
        None => None,
        Some(at) => { if at.0 <= until.0 { Some(at) } else { None } }
    }
}

impl Watch {
    /// What is watched after all evaluations up to a moment.
    fn passed(self, until: Moment, is_true: bool) -> Watch
        requires sound { IsWatch self }
        requires until { IsDated until }
        ensures passed { result ≡ passed until is_true self }
        ensures sound { IsWatch result }
    {
        let mut watch = self;
        watch.evaluation = Some(Evaluation {
            is_active: is_true,
            next: least_multiple(self.defined, self.interval, until),
        });
        watch
    }
}

impl ConditionClass {
    /// What its cell says.
    fn says<C: Cells>(self, cells: &C) -> bool
        ensures { result ≡ says_class (C.says cells.now) self }
    {
        match self {
            ConditionClass::NetworkTriggered => false,
            ConditionClass::Monitored(watch) => cells.is_true(watch.cell),
        }
    }

    /// The class after all evaluations up to a moment.
    fn passed(self, until: Moment, is_true: bool) -> ConditionClass
        requires sound { IsClass self }
        requires until { IsDated until }
        ensures passed { result ≡ class_passed until is_true self }
        ensures sound { IsClass result }
    {
        match self {
            ConditionClass::NetworkTriggered => ConditionClass::NetworkTriggered,
            ConditionClass::Monitored(watch) => {
                ConditionClass::Monitored(watch.passed(until, is_true))
            }
        }
    }
}

impl Kept {
    /// Whether it is to be evaluated by then.
    #[inline(always)]
    fn is_due(&self, until: Moment) -> bool
        ensures { result ≡ is_some (first_due until self.now) }
    {
        match self.condition.next() {
            None => false,
            Some(at) => at.0 <= until.0,
        }
    }

    /// What its first evaluation tells, where it is due by then. The one refusal is want of memory, only where there is
    /// a transition.
    fn first_turn<C: Cells>(
        &self,
        alloc: Global,
        key: &Key,
        until: Moment,
        cells: &C,
    ) -> Result<Option<Turned>, Memory>
        requires { IsDated until }
        ensures told { IfOk result (λ told. told
            ≡ first_turn until (C.says cells.now) (key.now, self.now)) }
        ensures wants { OnErr result
            (first_turn until (C.says cells.now) (key.now, self.now) ≢ None) }
    {
        match up_to(until, self.condition.next()) {
            None => Ok(None),
            Some(first) => {
                let is_true = self.condition.class.says(cells);
                let class = self.condition.class.passed(until, is_true);
                self.condition.move_told(alloc, key, first, class)
            }
        }
    }

    /// It is evaluated up to a moment.
    fn skip<C: Cells>(&mut self, until: Moment, cells: &C)
        requires { IsDated until }
        ensures { self.new ≡ skipped until (C.says cells.now) self.old }
    {
        if let Some(first) = up_to(until, self.condition.next()) {
            let is_true = self.condition.class.says(cells);
            let class = self.condition.class.passed(until, is_true);
            self.condition = self.condition.moved(first, class);
        }
    }
}

/// Whether a transition comes before another one.
fn is_turn_sooner(turn: &Turned, other: &Turned) -> bool
    ensures { result ≡ turns_sooner turn.now other.now }
{
    is_sooner(turn.at, &turn.condition, other.at, &other.condition)
}

/// How many of those in order come before a transition.
fn turn_place(turns: &[Turned], turn: &Turned) -> usize
    requires { IsInOrder turns.now }
    ensures within { result ≤ length turns.now }
    ensures placed { insert turns.now result turn.now ≡ with_turn turn.now turns.now }
{
    turns.partition_point(|other| is_turn_sooner(other, turn))
}

/// One transition more, at its place. The one refusal is want of memory.
fn put_turn(turns: &mut Vec<Turned>, turn: Turned) -> Result<(), Memory>
    requires { IsInOrder turns.old.items }
    ensures { OnOk result (turns.new.items ≡ with_turn turn turns.old.items) }
{
    let place = turn_place(turns, &turn);
    turns.insert(place, turn)?;
    Ok(())
}

/// Each condition is evaluated up to a moment.
fn skip_rows<C: Cells>(rows: &mut Named<Kept>, until: Moment, cells: &C)
    requires { IsDated until }
    ensures { rows.new ≡ after_skip until (C.says cells.now) rows.old }
{
    for place in 0..rows.len() {
        let Some(kept) = rows.at_mut(place) else {
            unreachable!()
        };
        kept.skip(until, cells);
    }
}

impl Conditions {
    /// Whether an enabled monitored condition is to be evaluated by then. It takes no memory.
    pub fn is_due(&self, until: Moment) -> bool
        ensures { result ≡ any_due until self.now }
    {
        for place in 0..self.rows.len() {
            let Some((_, kept)) = self.rows.at(place) else {
                unreachable!()
            };
            if kept.is_due(until) {
                return true;
            }
        }
        false
    }

    /// The transitions that time brings about up to a moment, where no cell changes meanwhile: of each condition that is
    /// evaluated by then that of its first evaluation, if its state is another one then; by moments, and of one moment
    /// by names. Nothing changes. The one refusal is want of memory, only where there is a transition.
    pub fn first_turns<C: Cells>(
        &self,
        alloc: Global,
        until: Moment,
        cells: &C,
    ) -> Result<Vec<Turned>, Memory>
        requires { IsDated until }
        ensures told { IfOk result (λ turns. turns.items
            ≡ first_turns until (C.says cells.now) self.now) }
        ensures wants { OnErr result (first_turns until (C.says cells.now) self.now ≢ []) }
    {
        let mut turns = Vec::new(alloc);
        let mut left = self.rows.len();
        while left > 0 {
            left -= 1;
            let Some((key, kept)) = self.rows.at(left) else {
                unreachable!()
            };
            if let Some(turn) = kept.first_turn(alloc, key, until, cells)? {
                put_turn(&mut turns, turn)?;
            }
        }
        Ok(turns)
    }

    /// Time goes by up to a moment, and no cell changes meanwhile: each condition that is evaluated by then has the state
    /// that its cell says, since its first evaluation, and is evaluated next at the first multiple of its interval that
    /// lies after that moment. It takes no memory.
    #[tactic(auto, using(crate::proofs::Passing::still_few))]
    pub fn skip<C: Cells>(&mut self, until: Moment, cells: &C)
        requires { IsDated until }
        ensures { self.new ≡ after_skip until (C.says cells.now) self.old }
    {
        skip_rows(&mut self.rows, until, cells);
    }
}
