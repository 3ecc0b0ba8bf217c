//! The event conditions of a device under their names: what their services tell and do, when each is evaluated, and
//! what becomes of it then (ISO 9506-1, event management). Each service is refused or told before anything changes;
//! what changes the table takes memory before it changes it, or none.
//!
//! A service tells each transition that it makes: its number, the state and the moment. A deletion tells those that are
//! there, each once, in the order of their first mention. A monitored condition is evaluated at the multiples of its
//! interval since its definition (`a_least_multiple_is_the_least`); no evaluation comes before the next one
//! (`the_next_evaluation_is_the_least`). The last moments to active and to idle are those of the transitions. A loss takes
//! the conditions of the client's association.
#![tactic(auto)]

mod altering;
mod condition;
mod conditions;
mod defining;
mod deleting;
mod evaluating;
mod kept;
mod laws;
mod moves;
mod skipping;
mod status;
mod triggering;

pub use condition::{Condition, ConditionClass, Evaluation, Watch};
pub use conditions::Conditions;
pub use deleting::ConditionsDeleted;
pub use laws::{
    a_least_multiple_is_the_least, each_condition_is_sound, the_next_evaluation_is_the_least,
};
pub use skipping::Cells;
