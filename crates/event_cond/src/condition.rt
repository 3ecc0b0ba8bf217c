ghost use Rattle.std.specs.Prelude.{◌≡◌};
ghost use Rattle.event_cond.specs.Conditions.{enabled_state, state_of};
ghost use Rattle.event_cond.specs.Evaluations.{next_of};
ghost use Rattle.event_cond.specs.Services.{is_enabled, is_network_triggered};

use mms_types::{ConditionState, Moment};

/// How an event condition that is enabled is evaluated.
#[derive(Clone, Copy)]
pub struct Evaluation {
    /// Whether its cell was TRUE when it was looked at last: then it is active, and else idle.
    pub is_active: bool,
    /// When it is looked at next.
    pub next: Moment,
}

/// What a monitored event condition watches (ISO 9506-1, event condition, monitored variable and evaluation interval).
#[derive(Clone, Copy)]
pub struct Watch {
    /// The number of its cell.
    pub cell: u16,
    /// How many milliseconds lie between two evaluations.
    pub interval: u32,
    /// When it was defined.
    pub defined: Moment,
    /// How it is evaluated. None where it is disabled.
    pub evaluation: Option<Evaluation>,
}

/// The class of an event condition (ISO 9506-1, event condition).
#[derive(Clone, Copy)]
pub enum ConditionClass {
    /// Clients trigger it.
    NetworkTriggered,
    /// It watches a cell.
    Monitored(Watch),
}

/// An event condition (ISO 9506-1, event condition object).
#[derive(Clone, Copy)]
pub struct Condition {
    /// Its priority, 0 to 127 in what clients ask for.
    pub priority: u8,
    /// How severe it is.
    pub severity: u8,
    /// Its class, with what it watches.
    pub class: ConditionClass,
    /// The moment of its last transition to active. None where there was none.
    pub to_active: Option<Moment>,
    /// The moment of its last transition to idle. None where there was none.
    pub to_idle: Option<Moment>,
}

/// The state of a condition that is enabled, by what its cell says.
pub(crate) fn enabled_state(is_active: bool) -> ConditionState
    ensures { result ≡ enabled_state is_active }
{
    if is_active {
        ConditionState::Active
    } else {
        ConditionState::Idle
    }
}

impl ConditionClass {
    /// Where a condition of the class stands.
    pub fn state(self) -> ConditionState
        ensures { result ≡ state_of self }
    {
        match self {
            ConditionClass::NetworkTriggered => ConditionState::Idle,
            ConditionClass::Monitored(watch) => match watch.evaluation {
                None => ConditionState::Disabled,
                Some(evaluation) => enabled_state(evaluation.is_active),
            },
        }
    }

    /// Whether it is enabled: a condition that is network-triggered always is.
    pub fn is_enabled(self) -> bool
        ensures { result ≡ is_enabled self }
    {
        match self {
            ConditionClass::NetworkTriggered => true,
            ConditionClass::Monitored(watch) => watch.evaluation.is_some(),
        }
    }

    /// Whether clients trigger it.
    pub fn is_network_triggered(self) -> bool
        ensures { result ≡ is_network_triggered self }
    {
        match self {
            ConditionClass::NetworkTriggered => true,
            ConditionClass::Monitored(_) => false,
        }
    }
}

impl Condition {
    /// When it is evaluated next. None exactly where it is network-triggered or disabled.
    #[inline(always)]
    pub fn next(&self) -> Option<Moment>
        ensures { result ≡ next_of self.now }
    {
        match self.class {
            ConditionClass::NetworkTriggered => None,
            ConditionClass::Monitored(watch) => match watch.evaluation {
                None => None,
                Some(evaluation) => Some(evaluation.next),
            },
        }
    }
}
