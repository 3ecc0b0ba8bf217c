//! Names, as they are listed.

ghost use Rattle.std.specs.Prelude.{◌≡◌, ◌∷◌, ◌++◌, ℕ, List, Option, Some};
ghost use Rattle.mms_types.specs.declared.event.CellEvent.{CellEvent};
ghost use Rattle.mms_types.specs.declared.key.Scope.{Scope};
ghost use Rattle.mms_types.specs.declared.name_list.ObjectClass.{ObjectClass};
ghost use Rattle.cell_config.specs.declared.config.Config.{Config};
ghost use Rattle.cell_config.specs.Said.{IsConfig};
ghost use Rattle.cell_services.specs.Facts.{names_in};
ghost use Rattle.step_parts.specs.Partition.{cell};
ghost use Rattle.step_parts.specs.Step.{replay};

/// Who asks for names on and on, each time by continueAfter with one that was told, is told each name once while nothing
/// changes, after any history: of the names of a class and a scope, those that stand behind a name are the ones that are
/// listed after it.
pub fn a_name_list_is_read_on_from_a_name()
    ensures { (config : Config) (history : List CellEvent) (scope : Scope) (class : ObjectClass)
        (after : Option (List ℕ)) (front : List (List ℕ)) (name : List ℕ)
        (rest : List (List ℕ)) → IsConfig config
        → names_in (cell.tables_of (replay config history)) scope class after
        ≡ front ++ name ∷ rest
        → names_in (cell.tables_of (replay config history)) scope class (Some name) ≡ rest }
{}
