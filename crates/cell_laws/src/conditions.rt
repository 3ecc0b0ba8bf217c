//! Event conditions and the enrollments on them.

ghost use Rattle.std.specs.Prelude.{List};
ghost use Rattle.mms_types.specs.declared.event.CellEvent.{CellEvent};
ghost use Rattle.cell_config.specs.declared.config.Config.{Config};
ghost use Rattle.cell_config.specs.Said.{IsConfig};
ghost use Rattle.step_parts.specs.Step.{replay};
ghost use Rattle.cell_laws.specs.Enrolled.{AreToCome, HaveTheirClients, HaveTheirConditions};

/// Each enrollment has its condition and its client, after any history: the condition that it is on is there, and the
/// client that defined it has an association. So no enrollment outlives its condition, or the association of its
/// client. Each evaluation of a condition that is to come lies after the moment of the device: none is missed.
pub fn each_enrollment_has_its_condition_and_client()
    ensures conditions { (config : Config) (history : List CellEvent) → IsConfig config
        → HaveTheirConditions (replay config history) }
    ensures clients { (config : Config) (history : List CellEvent) → IsConfig config
        → HaveTheirClients (replay config history) }
    ensures ahead { (config : Config) (history : List CellEvent) → IsConfig config
        → AreToCome (replay config history) }
{}
