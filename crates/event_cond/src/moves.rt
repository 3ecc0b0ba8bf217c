//! Transitions of conditions, and the moments of evaluations.

ghost use Rattle.std.specs.Prelude.{◌≡◌, ◌≢◌, ◌<◌, ◌≤◌, IfOk, None, OnErr};
ghost use Rattle.mms_types.specs.Moments.{IsDated};
ghost use Rattle.mms_types.specs.Order.{key_of};
ghost use Rattle.event_cond.specs.Conditions.{dated, move_told, moved, state_of, turn};
ghost use Rattle.event_cond.specs.Kept.{IsClass, IsCondition};
ghost use Rattle.event_cond.specs.Multiples.{least_multiple, IsMultiple};
ghost use Rattle.event_cond.specs.Transitions.{transition};

use crate::{Condition, ConditionClass};
use mms_types::{ConditionState, Key, Memory, Moment, ObjectName, Transitions, Turned};
use std::alloc::Global;

/// The number of the transition from a state to another one. None where the state stays.
fn transition(from: ConditionState, to: ConditionState) -> Option<u8>
    ensures { result ≡ transition from to }
{
    match (from, to) {
        (ConditionState::Idle, ConditionState::Disabled) => Some(Transitions::IDLE_TO_DISABLED),
        (ConditionState::Active, ConditionState::Disabled) => Some(Transitions::ACTIVE_TO_DISABLED),
        (ConditionState::Disabled, ConditionState::Idle) => Some(Transitions::DISABLED_TO_IDLE),
        (ConditionState::Active, ConditionState::Idle) => Some(Transitions::ACTIVE_TO_IDLE),
        (ConditionState::Disabled, ConditionState::Active) => Some(Transitions::DISABLED_TO_ACTIVE),
        (ConditionState::Idle, ConditionState::Active) => Some(Transitions::IDLE_TO_ACTIVE),
        _ => None,
    }
}

/// The least multiple of an interval since a moment that lies after another one.
pub(crate) fn least_multiple(since: Moment, interval: u32, after: Moment) -> Moment
    requires interval { 0 < interval }
    requires since { IsDated since }
    requires after { IsDated after }
    ensures least { result ≡ least_multiple since interval after }
    ensures multiple { IsMultiple since interval result }
{
    let over = after.0.saturating_sub(since.0);
    let interval = u64::from(interval);
    Moment(since.0 + (over / interval + 1) * interval)
}

/// What is told of a condition that comes to a state by a transition of that number.
pub(crate) fn turn(
    key: Key,
    now: Moment,
    condition: &Condition,
    state: ConditionState,
    number: u8,
) -> Turned
    ensures { result ≡ turn key now condition.now state number }
{
    Turned {
        condition: key,
        transition: number,
        severity: condition.severity,
        state: Some(state.number()),
        at: now,
    }
}

impl Condition {
    /// Keeps the moment of a transition to active or idle.
    fn dated(self, number: Option<u8>, state: ConditionState, now: Moment) -> Condition
        requires sound { IsCondition self }
        requires now { IsDated now }
        ensures dated { result ≡ dated number state now self }
        ensures sound { IsCondition result }
    {
        let mut condition = self;
        if number.is_some() {
            match state {
                ConditionState::Disabled => {}
                ConditionState::Idle => condition.to_idle = Some(now),
                ConditionState::Active => condition.to_active = Some(now),
            }
        }
        condition
    }

    /// The condition after its class became that one.
    pub(crate) fn moved(self, now: Moment, class: ConditionClass) -> Condition
        requires sound { IsCondition self }
        requires class { IsClass class }
        requires now { IsDated now }
        ensures moved { result ≡ moved now class self }
        ensures sound { IsCondition result }
    {
        let state = class.state();
        let mut condition = self.dated(transition(self.class.state(), state), state, now);
        condition.class = class;
        condition
    }

    /// The number of the transition by such a move.
    fn number_of_move(&self, class: ConditionClass) -> Option<u8>
        ensures { result ≡ transition (state_of self.now.class) (state_of class) }
    {
        transition(self.class.state(), class.state())
    }

    /// What is told of such a move, with the name that a client gives. The one refusal is want of memory.
    pub(crate) fn move_told_by(
        &self,
        alloc: Global,
        client: u32,
        name: &ObjectName,
        now: Moment,
        class: ConditionClass,
    ) -> Result<Option<Turned>, Memory>
        ensures told { IfOk result
            (λ told. told ≡ move_told (key_of client name.now) now class self.now) }
        ensures wants { OnErr result
            (move_told (key_of client name.now) now class self.now ≢ None) }
    {
        match self.number_of_move(class) {
            None => Ok(None),
            Some(number) => {
                let key = name.key(alloc, client)?;
                Ok(Some(turn(key, now, self, class.state(), number)))
            }
        }
    }

    /// What is told of such a move, with its name, which is copied where something is told. The one refusal is want of
    /// memory.
    pub(crate) fn move_told(
        &self,
        alloc: Global,
        key: &Key,
        now: Moment,
        class: ConditionClass,
    ) -> Result<Option<Turned>, Memory>
        ensures told { IfOk result (λ told. told ≡ move_told key.now now class self.now) }
        ensures wants { OnErr result (move_told key.now now class self.now ≢ None) }
    {
        match self.number_of_move(class) {
            None => Ok(None),
            Some(number) => {
                let key = key.copy(alloc)?;
                Ok(Some(turn(key, now, self, class.state(), number)))
            }
        }
    }
}
