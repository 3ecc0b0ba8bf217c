//! The device as an object in parts.

use crate::Part;
use mms_types::CellEvent;
use part_table::Object;

/// The device, cut into its parts. Its events are those of the clients and of the cell itself; the caller that may make
/// an event is the one with the number of the event's actor; so no client has the number 0, which is the cell's.
pub struct Cell;

impl Object for Cell {
    ghost use Rattle.std.specs.Prelude.{◌≡◌, [], length};
    ghost use Rattle.mms_types.specs.Actors.{actor_of, IsAmong};
    ghost use Rattle.step_parts.specs.Needs.{need};
    ghost use Rattle.step_parts.specs.After.{after, parts_after};
    ghost use Rattle.step_parts.specs.AfterLaws.{after_holds_the_same, after_is_laid_over};

    type Part = Part;

    type Event = CellEvent;

    ghost step = { parts_after };

    ghost suffices = { λ event hand. need event hand ≡ [] };

    ghost after = { after };

    ghost may_make = { λ caller event. (actor_of event ≡ caller) × IsAmong caller event };

    ghost same_parts = { λ event hand parts of enough. after_holds_the_same event hand };

    ghost stepped = { λ event hand parts of enough. after_is_laid_over event hand parts of enough };
}
