//! AlterEventConditionMonitoring.

ghost use Rattle.std.specs.Prelude.{◌≡◌, ◌≢◌, ◌≤◌, Err, IfOk, None, OnErr, Some};
ghost use Rattle.mms_types.specs.Moments.{IsDated};
ghost use Rattle.mms_types.specs.Order.{key_of};
ghost use Rattle.mms_types.specs.Serves.{Serves};
ghost use Rattle.mms_types.specs.declared.refuse.Refuse.TheVariants.{Memory as OutOfMemory};
ghost use Rattle.event_cond.specs.Conditions.{move_told};
ghost use Rattle.event_cond.specs.Kept.{IsClass, IsCondition, IsWatch};
ghost use Rattle.event_cond.specs.Services.{after_alter, alter_cause, alter_told, altered, class_altered, enabled_altered, evaluation_at, interval_altered, is_refused, with_interval};

use crate::defining::interval_of;
use crate::kept::Kept;
use crate::moves::least_multiple;
use crate::{Condition, ConditionClass, Conditions, Evaluation, Watch};
use mms_types::{AlterEventConditionMonitoring, Memory, Moment, Refuse, ServiceError, Turned};
use std::alloc::Global;

impl Watch {
    /// How it is evaluated from now on, where it is enabled.
    fn evaluation_at(self, now: Moment, is_active: bool) -> Evaluation
        requires interval { 10 ≤ self.interval }
        requires defined { IsDated self.defined }
        requires now { IsDated now }
        ensures evaluation { result ≡ evaluation_at now self is_active }
        ensures multiple { IsWatch (record self { evaluation = Some result }) }
    {
        Evaluation {
            is_active,
            next: least_multiple(self.defined, self.interval, now),
        }
    }

    /// What is watched at another interval.
    fn with_interval(self, now: Moment, interval: u32) -> Watch
        requires sound { IsWatch self }
        requires interval { 10 ≤ interval }
        requires now { IsDated now }
        ensures watch { result ≡ with_interval now interval self }
        ensures sound { IsWatch result }
    {
        let mut watch = self;
        watch.interval = interval;
        watch.evaluation = match self.evaluation {
            None => None,
            Some(evaluation) => Some(watch.evaluation_at(now, evaluation.is_active)),
        };
        watch
    }

    /// How it is watched where another interval is asked for.
    fn interval_altered(self, now: Moment, interval: Option<u32>) -> Watch
        requires sound { IsWatch self }
        requires now { IsDated now }
        ensures watch { result ≡ interval_altered now interval self }
        ensures sound { IsWatch result }
    {
        match interval {
            None => self,
            Some(ms) => self.with_interval(now, interval_of(ms)),
        }
    }

    /// What is watched after it was enabled or disabled, where that is asked for.
    fn enabled_altered(self, now: Moment, is_true: bool, enabled: Option<bool>) -> Watch
        requires sound { IsWatch self }
        requires now { IsDated now }
        ensures watch { result ≡ enabled_altered now is_true enabled self }
        ensures sound { IsWatch result }
    {
        let mut watch = self;
        match enabled {
            None => {}
            Some(false) => watch.evaluation = None,
            Some(true) => {
                if watch.evaluation.is_none() {
                    watch.evaluation = Some(self.evaluation_at(now, is_true));
                }
            }
        }
        watch
    }
}

impl ConditionClass {
    /// Whether a request is refused for the class.
    fn refuses(self, asked: &AlterEventConditionMonitoring) -> bool
        ensures { result ≡ is_refused asked.now self }
    {
        self.is_network_triggered() && (asked.enabled.is_some() || asked.interval.is_some())
    }

    /// The class after a request.
    fn altered(
        self,
        now: Moment,
        is_true: bool,
        asked: &AlterEventConditionMonitoring,
    ) -> ConditionClass
        requires sound { IsClass self }
        requires now { IsDated now }
        ensures class { result ≡ class_altered now is_true asked.now self }
        ensures sound { IsClass result }
    {
        match self {
            ConditionClass::NetworkTriggered => ConditionClass::NetworkTriggered,
            ConditionClass::Monitored(watch) => {
                let watch = watch.interval_altered(now, asked.interval);
                ConditionClass::Monitored(watch.enabled_altered(now, is_true, asked.enabled))
            }
        }
    }
}

impl Condition {
    /// The condition after a request.
    fn altered(self, now: Moment, is_true: bool, asked: &AlterEventConditionMonitoring) -> Condition
        requires sound { IsCondition self }
        requires now { IsDated now }
        ensures condition { result ≡ altered now is_true asked.now self }
        ensures sound { IsCondition result }
    {
        if self.class.refuses(asked) {
            return self;
        }
        let class = self.class.altered(now, is_true, asked);
        let mut condition = self.moved(now, class);
        if let Some(priority) = asked.priority {
            condition.priority = priority;
        }
        condition
    }
}

impl Kept {
    /// What is told of a request. The one refusal is want of memory, only where anything is told.
    fn alter_told(
        &self,
        alloc: Global,
        client: u32,
        now: Moment,
        asked: &AlterEventConditionMonitoring,
        is_true: bool,
    ) -> Result<Option<Turned>, Memory>
        requires now { IsDated now }
        ensures told { IfOk result (λ told. told ≡ move_told (key_of client asked.now.name) now
            (class_altered now is_true asked.now self.now.class) self.now) }
        ensures wants { OnErr result (move_told (key_of client asked.now.name) now
            (class_altered now is_true asked.now self.now.class) self.now ≢ None) }
    {
        let class = self.condition.class.altered(now, is_true, asked);
        self.condition
            .move_told_by(alloc, client, &asked.name, now, class)
    }

    /// Does what a request asks for.
    fn alter(&mut self, now: Moment, asked: &AlterEventConditionMonitoring, is_true: bool)
        requires now { IsDated now }
        ensures { self.new ≡ altered now is_true asked.now self.old }
    {
        self.condition = self.condition.altered(now, is_true, asked);
    }
}

impl Conditions {
    /// Why an event condition is not altered (ISO 9506-2, AlterEventConditionMonitoring): object-non-existent where it
    /// is missing; object-state-conflict where it is network-triggered, and is to be enabled or disabled or to have an
    /// interval.
    pub fn alter_cause(
        &self,
        client: u32,
        asked: &AlterEventConditionMonitoring,
    ) -> Option<ServiceError>
        ensures { result ≡ alter_cause client asked.now self.now }
    {
        let Some(condition) = self.named(client, &asked.name) else {
            return Some(ServiceError::OBJECT_NON_EXISTENT);
        };
        if condition.class.refuses(asked) {
            return Some(ServiceError::OBJECT_STATE_CONFLICT);
        }
        None
    }

    /// What is told of a request to alter an event condition: a transition, or none where its state stays, with what
    /// its cell says (`cell_is_true`), which counts where a disabled one is enabled. Nothing changes. Memory is wanted
    /// only where a transition is told.
    pub fn alter_told(
        &self,
        alloc: Global,
        client: u32,
        now: Moment,
        asked: &AlterEventConditionMonitoring,
        cell_is_true: bool,
    ) -> Result<Option<Turned>, Refuse>
        requires now { IsDated now }
        ensures served { Serves result (alter_cause client asked.now self.now)
            (Some (alter_told client now cell_is_true asked.now self.now)) }
        ensures wants { result ≡ Err OutOfMemory
            → alter_told client now cell_is_true asked.now self.now ≢ None }
    {
        if let Some(error) = self.alter_cause(client, asked) {
            return Err(Refuse::Service(error));
        }
        match self.rows.named(client, &asked.name) {
            None => Ok(None),
            Some(kept) => Ok(kept.alter_told(alloc, client, now, asked, cell_is_true)?),
        }
    }

    /// Alters an event condition (ISO 9506-1, AlterEventConditionMonitoring), its interval first, and then whether it
    /// is enabled: one that comes to be enabled is active where its cell is TRUE, as `cell_is_true` tells, and else
    /// idle; the same again changes nothing. Where it is enabled and gets an interval, or comes to be enabled, it is
    /// evaluated next at the least multiple of its interval since its definition that lies after now. Where it is
    /// missing, or the request is refused for its class, nothing changes. It takes no memory.
    #[tactic(auto, using(crate::proofs::Rows::still_many))]
    pub fn alter(
        &mut self,
        client: u32,
        now: Moment,
        asked: &AlterEventConditionMonitoring,
        cell_is_true: bool,
    )
        requires { IsDated now }
        ensures { self.new ≡ after_alter client now cell_is_true asked.now self.old }
    {
        if let Some(kept) = self.rows.named_mut(client, &asked.name) {
            kept.alter(now, asked, cell_is_true);
        }
    }
}
