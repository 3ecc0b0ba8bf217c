//! Time.

ghost use Rattle.std.specs.Prelude.{◌≡◌, ℕ, ◌+◌, List};
ghost use Rattle.mms_types.specs.declared.event.CellEvent.{CellEvent};
ghost use Rattle.mms_types.specs.declared.event.CellEvent.TheVariants.{Tick};
ghost use Rattle.cell_config.specs.declared.config.Config.{Config};
ghost use Rattle.cell_config.specs.Said.{IsConfig};
ghost use Rattle.step_parts.specs.Step.{replay, step};

/// Two ticks with nothing between are one, after any history: the state is the same, what is to be sent to each client
/// included, so evaluations, time-outs and notifications don't depend on how time is cut.
pub fn time_may_be_cut_anywhere()
    ensures { (config : Config) (history : List CellEvent) (first second : ℕ) → IsConfig config
        → step (step (replay config history) (Tick first)) (Tick second)
        ≡ step (replay config history) (Tick (first + second)) }
{}
