//! The tables, as rows are made and go.

ghost use Rattle.std.specs.Prelude.{List};
ghost use Rattle.mms_types.specs.declared.event.CellEvent.{CellEvent};
ghost use Rattle.cell_config.specs.declared.config.Config.{Config};
ghost use Rattle.cell_config.specs.Said.{IsConfig};
ghost use Rattle.step_parts.specs.Step.{replay};
ghost use Rattle.cell_laws.specs.Limits.{HaveLimits};

/// Each table keeps its limit, after any history, and no name stands twice in one: named variables and their lists,
/// domains and program invocations, event conditions and enrollments, journals, and semaphores, the configured ones
/// among them. Nor are there ever more uploads open than may be.
pub fn each_table_keeps_its_limit()
    ensures { (config : Config) (history : List CellEvent) → IsConfig config
        → HaveLimits (replay config history) }
{}
