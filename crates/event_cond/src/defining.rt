//! DefineEventCondition.

ghost use Rattle.std.specs.Prelude.{◌≡◌, Bool, None, OnErr, OnOk};
ghost use Rattle.mms_types.specs.Moments.{IsDated};
ghost use Rattle.event_cond.specs.Kept.{IsClass, IsCondition};
ghost use Rattle.event_cond.specs.Services.{after_define, class_defined, define_cause, defined, interval_of, is_missing, is_other, number_of};

use crate::kept::Kept;
use crate::{Condition, ConditionClass, Conditions, Watch};
use mms_types::{
    CellFact, DefineEventCondition, Memory, Moment, Monitored, ObjectName, ServiceError,
};
use std::alloc::Global;

/// The most conditions.
const MOST_CONDITIONS: usize = 256;

/// The least number of milliseconds between two evaluations.
const LEAST_INTERVAL: u32 = 10;

/// The interval that is meant.
pub(crate) fn interval_of(ms: u32) -> u32
    ensures { result ≡ interval_of ms }
{
    ms.max(LEAST_INTERVAL)
}

fn is_missing(cell: CellFact) -> bool
    ensures { result ≡ is_missing cell }
{
    matches!(cell, CellFact::Missing)
}

fn is_other(cell: CellFact) -> bool
    ensures { result ≡ is_other cell }
{
    matches!(cell, CellFact::Other)
}

fn number_of(cell: CellFact) -> u16
    ensures { result ≡ number_of cell }
{
    match cell {
        CellFact::Found { number, is_true: _ } => number,
        _ => 0,
    }
}

/// The class of a new condition.
fn class_defined(now: Moment, cell: CellFact, monitored: &Option<Monitored>) -> ConditionClass
    requires { IsDated now }
    ensures class { result ≡ class_defined now cell monitored.now }
    ensures sound { IsClass result }
{
    match monitored {
        None => ConditionClass::NetworkTriggered,
        Some(watched) => ConditionClass::Monitored(Watch {
            cell: number_of(cell),
            interval: interval_of(watched.interval),
            defined: now,
            evaluation: None,
        }),
    }
}

/// A new condition.
fn defined(now: Moment, asked: &DefineEventCondition, cell: CellFact) -> Condition
    requires { IsDated now }
    ensures defined { result ≡ defined now asked.now cell }
    ensures sound { IsCondition result }
{
    Condition {
        priority: asked.priority,
        severity: asked.severity,
        class: class_defined(now, cell, &asked.monitored),
        to_active: None,
        to_idle: None,
    }
}

impl Conditions {
    /// Why no event condition is made (ISO 9506-2, DefineEventCondition): object-undefined where the domain of its
    /// scope is not live, as `domain_live` tells; object-exists where there is one of that name; of one that is
    /// monitored object-undefined where the variable or its cell is missing, and type-inconsistent where the cell isn't
    /// boolean, as `cell` tells; capability-unavailable where there are 256.
    pub fn define_cause(
        &self,
        client: u32,
        asked: &DefineEventCondition,
        domain_live: bool,
        cell: CellFact,
    ) -> Option<ServiceError>
        ensures { result ≡ define_cause domain_live client asked.now cell self.now }
    {
        if matches!(asked.name, ObjectName::Domain { .. }) && !domain_live {
            return Some(ServiceError::OBJECT_UNDEFINED);
        }
        if self.named(client, &asked.name).is_some() {
            return Some(ServiceError::OBJECT_EXISTS);
        }
        if asked.monitored.is_some() && is_missing(cell) {
            return Some(ServiceError::OBJECT_UNDEFINED);
        }
        if asked.monitored.is_some() && is_other(cell) {
            return Some(ServiceError::TYPE_INCONSISTENT);
        }
        if self.rows.len() >= MOST_CONDITIONS {
            return Some(ServiceError::CAPABILITY_UNAVAILABLE);
        }
        None
    }

    /// An event condition is made (ISO 9506-1, DefineEventCondition): it is the last one. One that is monitored is
    /// disabled, and watches the cell that `cell` tells. The one refusal is want of memory; then all is as before.
    #[tactic(auto, using(crate::proofs::Unopposed::nothing_against, crate::proofs::Unopposed::one_more))]
    pub fn define(
        &mut self,
        alloc: Global,
        client: u32,
        now: Moment,
        asked: &DefineEventCondition,
        cell: CellFact,
    ) -> Result<(), Memory>
        requires now { IsDated now }
        requires cause { (live : Bool) × (define_cause live client asked.now cell self.old ≡ None) }
        ensures defined { OnOk result (self.new ≡ after_define client now asked.now cell self.old) }
        ensures kept { OnErr result (self.new ≡ self.old) }
    {
        let key = asked.name.key(alloc, client)?;
        let condition = defined(now, asked, cell);
        self.rows.insert(key, Kept { condition })?;
        Ok(())
    }
}
