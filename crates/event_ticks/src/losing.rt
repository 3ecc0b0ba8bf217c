//! Clients are lost meanwhile.

ghost use Rattle.std.specs.Prelude.{◌≡◌, true};
ghost use Rattle.mms_types.specs.Order.{scope_eq};
ghost use Rattle.mms_types.specs.declared.key.Scope.TheVariants.{Association};
ghost use Rattle.event_enrol.specs.Enrolments.{Rows};
ghost use Rattle.event_ticks.specs.Skipping.{conditions_left, enrolments_left, is_left};

use crate::ticks::Loss;
use event_cond::Conditions;
use event_enrol::Enrolments;
use mms_types::{Key, Moment, Scope};

/// Whether it is the scope of a client's association.
fn is_of(scope: &Scope, client: u32) -> bool
    ensures { result ≡ scope_eq scope.now (Association client) }
{
    match scope {
        Scope::Association(owner) => *owner == client,
        _ => false,
    }
}

/// Whether a condition of that name is of no association that is lost by then.
pub(crate) fn is_left(at: Moment, losses: &[Loss], key: &Key) -> bool
    ensures { result ≡ is_left at losses.now key.now }
{
    let mut rest = losses;
    while let Some((loss, later)) = rest.split_first() {
        if loss.at.0 > at.0 {
            return true;
        }
        if is_of(&key.scope, loss.client) {
            return false;
        }
        rest = later;
    }
    true
}

/// Whether no client is lost by then.
pub(crate) fn none_lost(losses: &[Loss], at: Moment) -> bool
    ensures { result ≡ true → (rows : Rows) → enrolments_left at losses.now rows ≡ rows }
{
    match losses.split_first() {
        None => true,
        Some((loss, _)) => loss.at.0 > at.0,
    }
}

/// The enrollments that are left at a moment.
pub(crate) fn lose_enrolments(enrolments: &mut Enrolments, losses: &[Loss], until: Moment)
    ensures { enrolments.new ≡ enrolments_left until losses.now enrolments.old }
{
    let mut rest = losses;
    while let Some((loss, later)) = rest.split_first() {
        if loss.at.0 > until.0 {
            return;
        }
        enrolments.lose(loss.client);
        rest = later;
    }
}

/// The conditions that are left at a moment.
pub(crate) fn lose_conditions(conditions: &mut Conditions, losses: &[Loss], until: Moment)
    ensures { conditions.new ≡ conditions_left until losses.now conditions.old }
{
    let mut rest = losses;
    while let Some((loss, later)) = rest.split_first() {
        if loss.at.0 > until.0 {
            return;
        }
        conditions.lose(loss.client);
        rest = later;
    }
}
