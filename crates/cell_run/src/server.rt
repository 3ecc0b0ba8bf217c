//! What serves the phases of a recording.

ghost use Rattle.std.specs.Prelude.{List};
ghost use Rattle.mms_types.specs.declared.event.CellEvent.{CellEvent};
ghost use Rattle.cell_config.specs.declared.config.Config.{Config};
ghost use Rattle.cell_record.specs.History.{Interleaves};
ghost use Rattle.cell_words.specs.declared.words.Command.{Command as CommandOf};
ghost use Rattle.cell_run.specs.Bodies.{Serves};
ghost use Rattle.cell_run.specs.Serving.{MayServe, TellsPhase};

use cell_record::{Phase, Told};
use mms_types::Memory;
use std::alloc::Global;

/// What serves the phases of a recording, one after the other, for one command.
pub trait Server {
    /// The command.
    ghost command: { CommandOf };

    /// So configured, it has served these phases by these bodies, each followed by the drains of all clients.
    ghost has_served: { Self → Config → List (List CellEvent) → List (List CellEvent) → Type 0 };

    /// Serves the next phase: what there is to tell of it. After want of memory it serves no more.
    fn serve(&mut self, alloc: Global, phase: Phase) -> Result<Told, Memory>
        requires next { MayServe (has_served self.old) phase.events }
        ensures told { TellsPhase (has_served self.old) phase result (has_served self.new) };

    /// The bodies are some by which the command may serve the phases.
    ghost serves: { (server : Self) (config : Config) (phases bodies : List (List CellEvent))
        → has_served server config phases bodies
        → Interleaves bodies phases × Serves command bodies phases };
}
