//! Laws of event conditions and event enrollments. Each function has no body: its contract is the law.

ghost use Rattle.std.specs.Prelude.{◌≡◌, [], None, false, true, ℕ};
ghost use Rattle.std.specs.List.{list_all};
ghost use Rattle.mms_types.specs.declared.area.EventRequest.{EventRequest};
ghost use Rattle.association.specs.Client.{ClientRow};
ghost use Rattle.event_enrol.specs.Enrolments.{has_own_names};
ghost use Rattle.cell_client.specs.Areas.{AnswersOrWaitsIn};
ghost use Rattle.cell_client.specs.Facts.{Facts};
ghost use Rattle.serve_events.specs.AnswerLaws.{asks, is_enrolled};
ghost use Rattle.serve_events.specs.Events.{request_in};
ghost use Rattle.serve_events.specs.Tables.{ArePlaced, lost, no_events};
ghost use Rattle.serve_events.specs.Turns.{is_told, tells_alone};
ghost use Rattle.serve_events.specs.declared.tables.EventTables.{EventTables};

/// The condition of each enrollment is there: at the start, whatever request is done, and where a client is lost, since
/// each name of an association is that of its own client.
pub fn what_is_enrolled_on_is_there()
    ensures none { ArePlaced no_events }
    ensures done { (facts : Facts) (t : EventTables) (row : ClientRow) (invoke : ℕ) → ArePlaced t
        → (asked : EventRequest) → (request_in asked).cause facts t row ≡ None
        → ArePlaced ((request_in asked).effect facts t row invoke).tables }
    ensures lost { (t : EventTables) (client : ℕ) → list_all has_own_names t.enrolments ≡ true
        → ArePlaced t → ArePlaced (lost client t) }
{}

/// Each request that is not refused is answered at once: none waits, and nobody is asked anything. Only clients that have
/// an enrollment are told of transitions, and nobody by a request by which no condition comes to another state or goes.
pub fn each_request_is_answered()
    ensures answered { (facts : Facts) (t : EventTables) (row : ClientRow) (invoke : ℕ)
        (asked : EventRequest) → (request_in asked).cause facts t row ≡ None
        → AnswersOrWaitsIn row.client invoke ((request_in asked).effect facts t row invoke) }
    ensures unasked { (facts : Facts) (t : EventTables) (row : ClientRow) (invoke : ℕ)
        (asked : EventRequest)
        → asks ((request_in asked).effect facts t row invoke).also ≡ false }
    ensures enrolled { (facts : Facts) (t : EventTables) (row : ClientRow) (invoke : ℕ)
        (asked : EventRequest) (k : ℕ)
        → is_told ((request_in asked).effect facts t row invoke).also k ≡ true
        → is_enrolled t.enrolments k ≡ true }
    ensures alone { (facts : Facts) (t : EventTables) (row : ClientRow) (invoke : ℕ)
        (asked : EventRequest) → tells_alone asked ≡ true
        → ((request_in asked).effect facts t row invoke).also ≡ [] }
{}
