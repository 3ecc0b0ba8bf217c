//! Evaluations of monitored conditions, and the next of them.

ghost use Rattle.std.specs.Prelude.{◌≡◌, ◌≢◌, IfOk, IfSome, None, OnErr, OnOk, Some, option_map};
ghost use Rattle.std.specs.declared.cmp.Ordering.TheVariants.{Less};
ghost use Rattle.mms_types.specs.Moments.{IsDated};
ghost use Rattle.mms_types.specs.Order.{key_order};
ghost use Rattle.event_cond.specs.Conditions.{after_evaluate, class_evaluated, evaluate_told, evaluated, move_told, moved};
ghost use Rattle.event_cond.specs.Evaluations.{evaluation_meant, next_evaluation, next_named, next_of, next_of_class, sooner, sooner_if};
ghost use Rattle.event_cond.specs.Kept.{IsClass, IsCondition, IsWatch};

use crate::kept::Kept;
use crate::{Condition, ConditionClass, Conditions, Evaluation, Watch};
use mms_types::{Key, Memory, Moment, Turned};
use object_names::rows_stand_in_order;
use std::alloc::Global;
use std::cmp::Ordering;

impl Watch {
    /// What is watched after an evaluation.
    fn evaluated(self, now: Moment, is_true: bool) -> Watch
        requires sound { IsWatch self }
        requires due { option_map (λ e. e.next) self.evaluation ≡ Some now }
        requires now { IsDated now }
        ensures evaluated { result ≡ evaluated now is_true self }
        ensures sound { IsWatch result }
    {
        let mut watch = self;
        watch.evaluation = Some(Evaluation {
            is_active: is_true,
            next: Moment(now.0 + u64::from(self.interval)),
        });
        watch
    }
}

impl ConditionClass {
    /// The class after an evaluation.
    fn evaluated(self, now: Moment, is_true: bool) -> ConditionClass
        requires sound { IsClass self }
        requires due { next_of_class self ≡ Some now }
        requires now { IsDated now }
        ensures evaluated { result ≡ class_evaluated now is_true self }
        ensures sound { IsClass result }
    {
        match self {
            ConditionClass::NetworkTriggered => ConditionClass::NetworkTriggered,
            ConditionClass::Monitored(watch) => {
                ConditionClass::Monitored(watch.evaluated(now, is_true))
            }
        }
    }
}

impl Kept {
    /// What is told of its evaluation. The one refusal is want of memory, only where there is a transition.
    fn evaluate_told(
        &self,
        alloc: Global,
        key: &Key,
        now: Moment,
        is_true: bool,
    ) -> Result<Option<Turned>, Memory>
        requires due { next_of self.now ≡ Some now }
        requires now { IsDated now }
        ensures told { IfOk result (λ told. told
            ≡ move_told key.now now (class_evaluated now is_true self.now.class) self.now) }
        ensures wants { OnErr result
            (move_told key.now now (class_evaluated now is_true self.now.class) self.now ≢ None) }
    {
        let class = self.condition.class.evaluated(now, is_true);
        self.condition.move_told(alloc, key, now, class)
    }

    /// Evaluates it.
    fn evaluate(&mut self, now: Moment, is_true: bool)
        requires due { next_of self.old ≡ Some now }
        requires now { IsDated now }
        ensures { self.new ≡ moved now (class_evaluated now is_true self.old.class) self.old }
    {
        let class = self.condition.class.evaluated(now, is_true);
        self.condition = self.condition.moved(now, class);
    }
}

impl Conditions {
    /// What is told of the evaluation of the condition of that name.
    fn evaluate_told(
        &self,
        alloc: Global,
        key: &Key,
        now: Moment,
        cell_is_true: bool,
    ) -> Result<Option<Turned>, Memory>
        requires due { next_named key.now self.now ≡ Some now }
        requires now { IsDated now }
        ensures told { IfOk result
            (λ told. told ≡ evaluate_told key.now now cell_is_true self.now) }
        ensures wants { OnErr result (evaluate_told key.now now cell_is_true self.now ≢ None) }
    {
        match self.rows.get(key) {
            None => Ok(None),
            Some(kept) => kept.evaluate_told(alloc, key, now, cell_is_true),
        }
    }

    /// Evaluates the event condition of that name, whose next evaluation is now (ISO 9506-1, event condition,
    /// monitored): it is active where its cell is TRUE, as `cell_is_true` tells, and else idle, and is evaluated next a
    /// whole interval later. It tells the transition: None exactly where its state stays. The one refusal is want of
    /// memory, only where there is a transition; then all is as before.
    #[tactic(auto, using(crate::proofs::Rows::still_many))]
    pub fn evaluate(
        &mut self,
        alloc: Global,
        key: &Key,
        now: Moment,
        cell_is_true: bool,
    ) -> Result<Option<Turned>, Memory>
        requires due { next_named key.now self.old ≡ Some now }
        requires now { IsDated now }
        ensures told { IfOk result
            (λ told. told ≡ evaluate_told key.now now cell_is_true self.old) }
        ensures done { OnOk result (self.new ≡ after_evaluate key.now now cell_is_true self.old) }
        ensures wants { OnErr result (evaluate_told key.now now cell_is_true self.old ≢ None) }
        ensures kept { OnErr result (self.new ≡ self.old) }
    {
        let told = self.evaluate_told(alloc, key, now, cell_is_true)?;
        if let Some(kept) = self.rows.get_mut(key) {
            kept.evaluate(now, cell_is_true);
        }
        Ok(told)
    }
}

/// Whether an evaluation comes before another one.
#[inline(always)]
pub(crate) fn is_sooner(at: Moment, key: &Key, first_at: Moment, first_key: &Key) -> bool
    ensures { result ≡ sooner (at, key.now) (first_at, first_key.now) }
{
    if at.0 == first_at.0 {
        return key.cmp(first_key) == Ordering::Less;
    }
    at.0 < first_at.0
}

/// The sooner of the first evaluation so far and that of one more condition, where it is to be evaluated: of one moment
/// the first, whose name comes before the other.
#[inline(always)]
fn sooner_of<'a>(
    first: Option<(Moment, &'a Key)>,
    key: &'a Key,
    next: Option<Moment>,
) -> Option<(Moment, &'a Key)>
    requires { IfSome first (λ e. key_order e.1.now key.now ≡ Less) }
    ensures { option_map evaluation_meant result
        ≡ sooner_if (option_map evaluation_meant first.entry)
        (option_map (λ at. (at, key.now)) next) }
{
    let Some(at) = next else {
        return first;
    };
    match first {
        Some((first_at, first_key)) if first_at.0 <= at.0 => Some((first_at, first_key)),
        _ => Some((at, key)),
    }
}

impl Conditions {
    /// The next evaluation of all, and the name of its condition: the least by moment, and of one moment by name. None
    /// exactly where no monitored condition is enabled. It takes no memory.
    pub fn next_evaluation(&self) -> Option<(Moment, &Key)>
        ensures least { option_map evaluation_meant result ≡ next_evaluation self.now }
        ensures stands { IfSome result (λ e. next_named e.1.now self.now ≡ Some e.0) }
    {
        rows_stand_in_order(&self.rows);
        let mut first = None;
        for rank in 0..self.rows.len() {
            let Some((key, kept)) = self.rows.ranked(rank) else {
                unreachable!()
            };
            first = sooner_of(first, key, kept.condition.next());
        }
        first
    }
}
