//! Domains as scopes of names.

ghost use Rattle.std.specs.Prelude.{List};
ghost use Rattle.mms_types.specs.declared.event.CellEvent.{CellEvent};
ghost use Rattle.cell_config.specs.declared.config.Config.{Config};
ghost use Rattle.cell_config.specs.Said.{IsConfig};
ghost use Rattle.step_parts.specs.Step.{replay};
ghost use Rattle.cell_laws.specs.Scopes.{HaveLiveScopes};

/// Each scope is live, after any history: where the scope of a named variable, of a variable list,
/// of an event condition, of an enrollment, of a journal or of a semaphore is a domain, that domain
/// is there, and is READY or IN-USE. So no object is made in a domain that is still LOADING, and no
/// domain goes that an object has for its scope: with one that is deleted or discarded no object
/// has to go.
pub fn each_scope_is_live()
    ensures { (config : Config) (history : List CellEvent) → IsConfig config
        → HaveLiveScopes (replay config history) }
{}
