//! What holds of the definitions.

ghost use Rattle.std.specs.Prelude.{◌≡◌, ℕ, List, Some};
ghost use Rattle.cell_config.specs.declared.config.Config.{Config};
ghost use Rattle.cell_record.specs.Recording.{config_of_text, reading_of_text};
ghost use Rattle.cell_words.specs.declared.words.Command.{Command};
ghost use Rattle.cell_run.specs.Outcome.{PrintsFor, WritesComplete};

/// What is printed of a text tells in which history its phases were served, also where a line is refused and told behind
/// them, and also what is written where the source fails: the bodies are the same, whatever commands served them.
pub fn what_is_printed_has_one_history()
    ensures printed { (command other : Command) (text : List ℕ) (config : Config) (printed : List ℕ)
        → config_of_text text ≡ Some config
        → (one : PrintsFor command config (reading_of_text text) printed)
        → (two : PrintsFor other config (reading_of_text text) printed)
        → one.bodies ≡ two.bodies }
    ensures cut { (command other : Command) (text : List ℕ) (config : Config) (old new : List ℕ)
        → config_of_text text ≡ Some config
        → (one : WritesComplete command config (reading_of_text text) (Some old) (Some new))
        → (two : WritesComplete other config (reading_of_text text) (Some old) (Some new))
        → one.bodies ≡ two.bodies }
{}
