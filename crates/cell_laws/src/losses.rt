//! The loss of a client.

ghost use Rattle.std.specs.Prelude.{◌≡◌, ℕ, List};
ghost use Rattle.mms_types.specs.declared.event.CellEvent.{CellEvent};
ghost use Rattle.cell_config.specs.declared.config.Config.{Config};
ghost use Rattle.cell_config.specs.Said.{IsConfig};
ghost use Rattle.cell_services.specs.Serving.{passes};
ghost use Rattle.cell_services.specs.Tables.{Tables};
ghost use Rattle.step_parts.specs.Step.{replay};
ghost use Rattle.cell_laws.specs.Associated.{HaveAssociations};
ghost use Rattle.cell_laws.specs.InTurn.{passes_in_turn};

/// A client that time aborts is lost as any client is: what a tick makes of the tables, whatever they are, and whom it
/// tells what, is what comes of its deadlines one after the other, where the client of an association that is aborted
/// is lost at that moment, in all tables at once, as it is where its association ends otherwise.
pub fn an_abort_by_time_is_a_loss()
    ensures { (ms : ℕ) (t : Tables) → passes ms t ≡ passes_in_turn ms t }
{}

/// Nothing is left of an association that has ended, after any history: each named variable, variable list, event
/// condition, enrollment, journal and semaphore whose scope is the association of a client is there while that client
/// has one, and so is each enrollment that it defined, each domain that it loads, each upload, each entry of a
/// semaphore with which it owns a token or waits for one, and each request of it that waits. Hung entries alone stay.
pub fn nothing_is_left_of_an_association()
    ensures { (config : Config) (history : List CellEvent) → IsConfig config
        → HaveAssociations (replay config history) }
{}
