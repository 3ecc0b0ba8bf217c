//! What holds of the definitions.

ghost use Rattle.std.specs.Prelude.{◌≡◌, ◌↔◌, ◌++◌, ℕ, List, [], None, Some};
ghost use Rattle.cell_io.specs.Lines.{lines_of};
ghost use Rattle.mms_types.specs.declared.event.CellEvent.{CellEvent};
ghost use Rattle.cell_config.specs.declared.config.Config.{Config};
ghost use Rattle.cell_config.specs.Said.{IsConfig};
ghost use Rattle.cell_record.specs.Grammar.{ReadsRecording};
ghost use Rattle.mms_types.specs.declared.event.What.{What};
ghost use Rattle.cell_record.specs.Recording.{reading_of_text, config_of_text};
ghost use Rattle.cell_record.specs.Report.{HasOneHistory};
ghost use Rattle.cell_record.specs.Refused.{EndBefore, IsRefused};
ghost use Rattle.cell_record.specs.declared.refusal.RecordError.{RecordError};

/// The texts that are recordings are those that are read, line by line, with nothing that refuses
/// them, and they say the same configuration and the same phases.
pub fn recordings_are_read()
    ensures { (text : List ℕ) (configured : Config) (phases : List (List CellEvent))
        → (ReadsRecording text configured phases ↔
        ((config_of_text text ≡ Some configured) ×
        (reading_of_text text ≡ record { phases = phases; refusal = None }))) }
{}

/// A text is read up to the first of its lines that is refused, or to one that is missing behind
/// them, and what is told is the first cause that holds there: both ways, of all texts and
/// refusals.
pub fn refusals_are_the_first()
    ensures { (text : List ℕ) (e : RecordError) →
        (((reading_of_text text).refusal ≡ Some e) ↔ IsRefused text e) }
{}

/// The phases that a refused text says are those that end in the lines before the one that the
/// refusal names; a text that tells no configuration says none.
pub fn phases_end_before_the_refusal()
    ensures ended { (text : List ℕ) (configured : Config) (e : RecordError)
        → config_of_text text ≡ Some configured → (reading_of_text text).refusal ≡ Some e
        → EndBefore (lines_of text) configured e (reading_of_text text).phases }
    ensures none { (text : List ℕ) → config_of_text text ≡ None
        → (reading_of_text text).phases ≡ [] }
{}

/// Whatever the clients are sent, two lists of bodies that serve the phases of one recording and
/// have the same report are the same: the history in which a recording was served stands in its
/// report.
pub fn a_report_has_one_history()
    ensures { (said : List CellEvent → ℕ → List What) (text : List ℕ) (configured : Config)
        (phases : List (List CellEvent)) → ReadsRecording text configured phases
        → HasOneHistory said configured.clients phases }
{}

/// A report has one history also for the phases at the front of what any text says, so for those before the line that
/// refuses it, and for those that are complete where it was cut: two lists of bodies that serve them and have the same
/// report are the same.
pub fn a_report_so_far_has_one_history()
    ensures { (said : List CellEvent → ℕ → List What) (text : List ℕ) (configured : Config)
        (done rest : List (List CellEvent))
        → config_of_text text ≡ Some configured → (reading_of_text text).phases ≡ done ++ rest
        → HasOneHistory said configured.clients done }
{}

/// The configuration that a text tells keeps the rules of one: it has clients, a moment that can be told, texts, cells,
/// variables and pools, each within its bounds. So what holds of every configuration that keeps them, whatever the
/// history, holds of what is printed of a text.
pub fn a_text_tells_a_configuration()
    ensures { (text : List ℕ) (configured : Config)
        → config_of_text text ≡ Some configured → IsConfig configured }
{}
