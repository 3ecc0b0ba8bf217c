//! The device as parts, and one event on the parts that are held (ISO 9506-1, the virtual manufacturing device): which
//! parts an event needs, and what it makes of them.
//!
//! This is what callers use. It stands in four crates: the state, its parts, what they show and the step (`step_parts`);
//! on these, beside each other, what an event needs (`step_needs`), what it makes of held parts (`step_apply`), and laws
//! (`step_sound`).
//!
//! An event is its step on whatever parts are held, where these are all that it needs (`apply`, `apply_by`). What it
//! needs is shown by its words and the held parts alone (`footprint`, `need`, `need_by`). Parts that aren't held stay
//! as they are, and without memory nothing is changed. Octets are read once for both (`read_event`), and what they come
//! to is found once (`verdict`).
//!
//! Laws (`laws`): every state that a history reaches is sound. Clients stand in their places, and no more requests wait
//! than may. No token is owned twice, equal or named, no free one is waited for, and every deadline lies ahead. A
//! client's unanswered requests of a load are one for each domain that it loads, and no others; the domain of each open
//! upload is there and isn't loading. The value of a guarded cell is changed by a served write alone, of a client that
//! owns a token of the guard then. Each request that is taken is answered in its event, or waits; one that waits no
//! more is answered in that event, unless its association ends. Two ticks are one.
#![tactic(auto)]

pub use cell_client::{Client, Found, Reading, read_event};
pub use cell_services::Clock;
pub use parted_state::{Numbers, Parts};
pub use step_apply::{apply, apply_by, drain, start_parts};
pub use step_needs::{footprint, need, need_by, verdict};
pub use step_parts::{Cell, Part, clients_of};
pub use step_sound::{
    a_step_is_of_the_held_parts, all_parts_are_enough, each_state_is_sound, laws,
};
