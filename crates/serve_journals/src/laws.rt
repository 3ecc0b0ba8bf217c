//! Laws of the services for journals.

ghost use Rattle.std.specs.Prelude.{◌≡◌, ℕ, None, []};
ghost use Rattle.mms_types.specs.declared.area.JournalRequest.{JournalRequest};
ghost use Rattle.association.specs.Client.{ClientRow};
ghost use Rattle.mms_journal.specs.Journals.{Rows};
ghost use Rattle.cell_client.specs.Areas.{AnswersOrWaitsIn};
ghost use Rattle.cell_client.specs.Facts.{Facts};
ghost use Rattle.serve_journals.specs.Journals.{request_in};

/// Each request for journals that is not refused is answered at once, and nobody else is told anything.
pub fn each_request_is_answered()
    ensures answered { (facts : Facts) (row : ClientRow) (invoke : ℕ) (t : Rows)
        (asked : JournalRequest)
        → (request_in asked).cause facts t row ≡ None
        → AnswersOrWaitsIn row.client invoke ((request_in asked).effect facts t row invoke) }
    ensures alone { (facts : Facts) (row : ClientRow) (invoke : ℕ) (t : Rows)
        (asked : JournalRequest)
        → ((request_in asked).effect facts t row invoke).also ≡ [] }
{}
