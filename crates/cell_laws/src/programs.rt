//! Domains and the program invocations that name them.

ghost use Rattle.std.specs.Prelude.{List};
ghost use Rattle.mms_types.specs.declared.event.CellEvent.{CellEvent};
ghost use Rattle.cell_config.specs.declared.config.Config.{Config};
ghost use Rattle.cell_config.specs.Said.{IsConfig};
ghost use Rattle.step_parts.specs.Step.{replay};
ghost use Rattle.cell_laws.specs.Programs.{AreForOne, HaveTheirDomains, KnowTheirPrograms};

/// Each domain knows its program invocations, after any history: it has the names of those that name it, in order of
/// octets, and no others. Each domain that an invocation names is there, and isn't LOADING; and one that isn't sharable
/// has one name at most. So a domain is IN-USE exactly while an invocation names it.
pub fn each_domain_knows_its_programs()
    ensures names { (config : Config) (history : List CellEvent) → IsConfig config
        → KnowTheirPrograms (replay config history) }
    ensures live { (config : Config) (history : List CellEvent) → IsConfig config
        → HaveTheirDomains (replay config history) }
    ensures alone { (config : Config) (history : List CellEvent) → IsConfig config
        → AreForOne (replay config history) }
{}
