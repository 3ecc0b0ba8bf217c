//! TriggerEvent.

ghost use Rattle.std.specs.Prelude.{◌≡◌, IfOk};
ghost use Rattle.mms_types.specs.Moments.{IsDated};
ghost use Rattle.mms_types.specs.Order.{key_of};
ghost use Rattle.mms_types.specs.Serves.{Serves};
ghost use Rattle.event_cond.specs.Conditions.{turn};
ghost use Rattle.event_cond.specs.Services.{after_trigger, trigger_cause, trigger_told, triggered, triggered_told};

use crate::kept::Kept;
use crate::moves::turn;
use crate::{Condition, Conditions};
use mms_types::{
    ConditionState, Listed, Memory, Moment, ObjectName, Refuse, ServiceError, Transitions,
    TriggerEvent, Turned,
};
use std::alloc::Global;

impl Condition {
    /// What is told where it is triggered. The one refusal is want of memory.
    fn triggered_told(
        &self,
        alloc: Global,
        client: u32,
        name: &ObjectName,
        now: Moment,
    ) -> Result<Listed<Turned>, Memory>
        ensures { IfOk result
            (λ told. told ≡ triggered_told (key_of client name.now) now self.now) }
    {
        let mut told = Listed::new(alloc);
        let key = name.key(alloc, client)?;
        let to_active = Transitions::IDLE_TO_ACTIVE;
        told.push(turn(key, now, self, ConditionState::Active, to_active))?;
        let key = name.key(alloc, client)?;
        let to_idle = Transitions::ACTIVE_TO_IDLE;
        told.push(turn(key, now, self, ConditionState::Idle, to_idle))?;
        Ok(told)
    }
}

impl Kept {
    /// It was active, and is idle again, where clients trigger it.
    fn trigger(&mut self, now: Moment)
        requires { IsDated now }
        ensures { self.new ≡ triggered now self.old }
    {
        if self.condition.class.is_network_triggered() {
            self.condition.to_active = Some(now);
            self.condition.to_idle = Some(now);
        }
    }
}

impl Conditions {
    /// Why an event condition is not triggered (ISO 9506-2, TriggerEvent): object-non-existent where it is missing;
    /// object-state-conflict where it is monitored.
    pub fn trigger_cause(&self, client: u32, name: &ObjectName) -> Option<ServiceError>
        ensures { result ≡ trigger_cause client name.now self.now }
    {
        let Some(condition) = self.named(client, name) else {
            return Some(ServiceError::OBJECT_NON_EXISTENT);
        };
        if !condition.class.is_network_triggered() {
            return Some(ServiceError::OBJECT_STATE_CONFLICT);
        }
        None
    }

    /// What is told where an event condition is triggered: it comes from idle to active, and then to idle, both now.
    /// Nothing changes.
    pub fn trigger_told(
        &self,
        alloc: Global,
        client: u32,
        now: Moment,
        asked: &TriggerEvent,
    ) -> Result<Listed<Turned>, Refuse>
        ensures { Serves result (trigger_cause client asked.now.name self.now)
            (trigger_told client now asked.now.name self.now) }
    {
        if let Some(error) = self.trigger_cause(client, &asked.name) {
            return Err(Refuse::Service(error));
        }
        match self.named(client, &asked.name) {
            None => Ok(Listed::new(alloc)),
            Some(condition) => Ok(condition.triggered_told(alloc, client, &asked.name, now)?),
        }
    }

    /// Triggers an event condition (ISO 9506-1, TriggerEvent): its last transitions to active and to idle are now.
    /// Where it is missing or monitored, nothing changes. It takes no memory.
    #[tactic(auto, using(crate::proofs::Rows::still_many))]
    pub fn trigger(&mut self, client: u32, now: Moment, asked: &TriggerEvent)
        requires { IsDated now }
        ensures { self.new ≡ after_trigger client now asked.now.name self.old }
    {
        if let Some(kept) = self.rows.named_mut(client, &asked.name) {
            kept.trigger(now);
        }
    }
}
