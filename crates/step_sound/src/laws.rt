//! What holds of every state and every history.

ghost use Rattle.std.specs.Prelude.{◌≡◌, ◌⊎◌, ℕ, ◌+◌, ◌<◌, ◌≤◌, true, [], List, All, Option, None, Some, count_by, filter, map, length, slice_get, Contains};
ghost use Rattle.std.specs.Map.{lookup};
ghost use Rattle.mms_types.specs.Order.{key_eq};
ghost use Rattle.mms_types.specs.declared.key.Key.{Key};
ghost use Rattle.mms_types.specs.declared.pdu.Request.{Request};
ghost use Rattle.mms_types.specs.declared.event.CellEvent.TheVariants.{Heard, Lost, Tick};
ghost use Rattle.association.specs.declared.negotiation.Association.TheVariants.{Open};
ghost use Rattle.association.specs.declared.negotiation.Negotiated.{Negotiated};
ghost use Rattle.domain_upload.specs.Uploads.{AreOf};
ghost use Rattle.token_sem.specs.Semaphore.{Rises, Sem, is_queued, tokens_held};
ghost use Rattle.pool_sem.specs.Pools.{Pool as NamedTokens, has, is_free, wants};
ghost use Rattle.variables.specs.Rows.{cell_at};
ghost use Rattle.variables.specs.declared.rows.StoredCell.{StoredCell};
ghost use Rattle.step_sound.specs.Guarded.{IsWrittenByOwner};
ghost use Rattle.event_cond.specs.Evaluations.{evaluations};
ghost use Rattle.event_ticks.specs.Sound as events;
ghost use Rattle.cell_ticks.specs.Ticks.{dated};
ghost use Rattle.cell_ticks.specs.declared.happening.Happening.TheVariants.{Semaphores};
ghost use Rattle.mms_types.specs.declared.moment.Moment.{Moment};
ghost use Rattle.sem_ticks.specs.Sound as semaphores;
ghost use Rattle.sem_ticks.specs.declared.granted.Granted.{Granted};
ghost use Rattle.mms_time.specs.Deadlines.{all_deadlines};
ghost use Rattle.mms_time.specs.declared.row.Semaphore.TheVariants.{Token, Pool};
ghost use Rattle.mms_time.specs.declared.row.SemaphoreRow.{SemaphoreRow};
ghost use Rattle.sem_ticks.specs.declared.ticks.Happening.TheVariants.{Grants};
ghost use Rattle.parted_state.specs.Served.{done_of};
ghost use Rattle.cell_client.specs.Association.{Takes};
ghost use Rattle.cell_services.specs.Serving.{also_told, meanwhile, own_told, services};
ghost use Rattle.cell_services.specs.Tables.{Tables};
ghost use Rattle.association.specs.Client.{ClientRow};
ghost use Rattle.step_sound.specs.Answered.{granted_by_loss, AnswersOrWaits, AreAnswered, EndsBy, GivesBackTo, IsAnswered};
ghost use Rattle.mms_types.specs.declared.event.CellEvent.{CellEvent};
ghost use Rattle.mms_types.specs.Actors.{IsAmong};
ghost use Rattle.part_table.specs.Held.{held_at, IsHandOf};
ghost use Rattle.cell_config.specs.declared.config.Config.{Config};
ghost use Rattle.cell_config.specs.Said.{IsConfig};
ghost use Rattle.step_parts.specs.declared.part.Part.{Part};
ghost use Rattle.step_parts.specs.State.{State, HasDate, IsSound, start};
ghost use Rattle.step_parts.specs.Step.{step, replay, MayFollow};
ghost use Rattle.step_parts.specs.Partition.{cell, parts_of, row_of};
ghost use Rattle.step_parts.specs.Needs.{need, shown, is_held};
ghost use Rattle.step_parts.specs.After.{parts_after};

/// The step of an event on the parts of the device, for callers that hold some of them: it is the step on the state.
/// Where nothing is needed that is not held, the held parts alone determine what becomes of them, and every part that
/// is not held stays as it is. With parts of one state, more held parts show at least as much.
pub fn a_step_is_of_the_held_parts()
    ensures parts { (s : State) (event : CellEvent) → IsAmong (length s.clients) event
        → parts_of (step s event) ≡ parts_after event (parts_of s) }
    ensures determined { (s t : State) (hand : List (Option Part)) (event : CellEvent) (place : ℕ)
        → IsHandOf hand (parts_of s) → IsHandOf hand (parts_of t)
        → IsAmong (length s.clients) event → need event hand ≡ [] → is_held hand place ≡ true
        → slice_get (parts_of (step s event)) place ≡ slice_get (parts_of (step t event)) place }
    ensures others { (s : State) (hand : List (Option Part)) (event : CellEvent) (place : ℕ)
        → IsHandOf hand (parts_of s)
        → IsAmong (length s.clients) event → need event hand ≡ [] → held_at hand place ≡ None
        → slice_get (parts_of (step s event)) place ≡ slice_get (parts_of s) place }
    ensures more { (s : State) (hand larger : List (Option Part)) (event : CellEvent) (place : ℕ)
        → IsHandOf hand (parts_of s) → IsHandOf larger (parts_of s)
        → ((other : ℕ) → is_held hand other ≡ true → is_held larger other ≡ true)
        → Contains (shown event hand) place → Contains (shown event larger) place }
{}

/// Every state is sound that the device reaches from its start: its clients are as many as they were, each in its
/// place, and no more requests of one wait than it may have, each with the number of one of the events; its semaphores
/// are sound, and each deadline lies ahead; its event conditions are sound, and each evaluation lies ahead; no two
/// domains have one name; of the requests of a load that a client hasn't answered there is one for each domain that it
/// loads, and no other; and the domain of each open upload is there, and isn't LOADING. Where the events are some that
/// may come, its moment is one that six octets name.
pub fn each_state_is_sound()
    ensures sound { (config : Config) (history : List CellEvent) → IsConfig config
        → IsSound (length history) (replay config history) }
    ensures dated { (config : Config) (history : List CellEvent) → IsConfig config
        → MayFollow (start config) history → HasDate (replay config history) }
{}

/// No token of a semaphore is owned twice, after any history: of equal tokens no more are owned or hung than there are,
/// and each by an entry with a number of its own; and each token that has a name is owned by one entry at most, or one
/// is hung with it.
pub fn no_token_is_owned_twice()
    ensures held { (config : Config) (history : List CellEvent) (key : Key) (row : SemaphoreRow)
        (tokens : Sem) → IsConfig config
        → lookup (key_eq key) (replay config history).semaphores ≡ Some row
        → row.semaphore ≡ Token tokens → tokens_held tokens.entries ≤ tokens.tokens }
    ensures numbers { (config : Config) (history : List CellEvent) (key : Key) (row : SemaphoreRow)
        (tokens : Sem) → IsConfig config
        → lookup (key_eq key) (replay config history).semaphores ≡ Some row
        → row.semaphore ≡ Token tokens → Rises 0 tokens.entries tokens.made }
    ensures named { (config : Config) (history : List CellEvent) (key : Key) (row : SemaphoreRow)
        (pool : NamedTokens) (token : ℕ) → IsConfig config
        → lookup (key_eq key) (replay config history).semaphores ≡ Some row
        → row.semaphore ≡ Pool pool → count_by (has token) pool.entries ≤ 1 }
{}

/// No free token is waited for, after any history: where one of equal tokens is free, no entry waits; and where a token
/// that has a name is free, no entry waits that wants it, or any.
pub fn no_free_token_is_waited_for()
    ensures equal { (config : Config) (history : List CellEvent) (key : Key) (row : SemaphoreRow)
        (tokens : Sem) → IsConfig config
        → lookup (key_eq key) (replay config history).semaphores ≡ Some row
        → row.semaphore ≡ Token tokens → tokens_held tokens.entries < tokens.tokens
        → filter is_queued tokens.entries ≡ [] }
    ensures named { (config : Config) (history : List CellEvent) (key : Key) (row : SemaphoreRow)
        (pool : NamedTokens) (token : ℕ) → IsConfig config
        → lookup (key_eq key) (replay config history).semaphores ≡ Some row
        → row.semaphore ≡ Pool pool → token < length pool.tokens → is_free token pool.entries ≡ true
        → filter (wants token) pool.entries ≡ [] }
{}

/// The value of a cell that has a guard is changed by a write alone that is served and names that cell, of a client that
/// has an owner entry of the guard's semaphore in the state on which it is served.
pub fn a_guarded_cell_is_written_by_an_owner()
    ensures { (s : State) (event : CellEvent) (number : ℕ) (was : StoredCell) (guard : List ℕ)
        → cell_at number s.variables.vars ≡ Some was → was.guard ≡ Some guard
        → (cell_at number (step s event).variables.vars ≡ Some was)
        ⊎ IsWrittenByOwner number guard s event }
{}

/// Every deadline of a semaphore lies ahead, after any history, and so does every evaluation of an event condition.
pub fn every_deadline_lies_ahead()
    ensures deadlines { (config : Config) (history : List CellEvent) → IsConfig config
        → All (λ d. (replay config history).now < d.at.0)
        (all_deadlines (replay config history).semaphores) }
    ensures awaited { (config : Config) (history : List CellEvent) → IsConfig config
        → All (λ e. (replay config history).now < e.0.0)
        (evaluations (replay config history).events.conditions) }
{}

/// Two ticks are one: the state after both is that after one of both, what is to be sent included. The state is any
/// whose semaphores and event conditions are sound, and so each that the device reaches.
pub fn two_ticks_are_one()
    ensures { (s : State) (first second : ℕ)
        → semaphores.AreSound s.semaphores → events.AreSound s.events.conditions
        → step (step s (Tick first)) (Tick second) ≡ step s (Tick (first + second)) }
{}

/// Who is granted a token is answered at once: after the event in which the token is freed, the answer to its request
/// is among what is to be sent to it. A token is freed where a client gives it back, where a client ends its
/// association or loses it, and where time goes by.
pub fn a_grant_is_answered_at_once()
    ensures given_back { (s : State) (client : ℕ) (octets : List ℕ) (g : Granted)
        → GivesBackTo s client octets g → IsAnswered (step s (Heard client octets)) g }
    ensures left { (s : State) (client : ℕ) (octets : List ℕ) (g : Granted)
        → EndsBy s client octets → Contains (granted_by_loss s client) g
        → IsAnswered (step s (Heard client octets)) g }
    ensures lost { (s : State) (client : ℕ) (g : Granted) (values : Negotiated)
        → (row_of s client).association ≡ Open values → Contains (granted_by_loss s client) g
        → IsAnswered (step s (Lost client)) g }
    ensures ticked { (s : State) (ms : ℕ) (at : Moment) (g : Granted)
        → Contains (meanwhile ms (cell.tables_of s)).happened (dated at (Semaphores (Grants g)))
        → IsAnswered (step s (Tick ms)) g }
{}

/// Each request that is taken is answered in that event by one output, or its client is told that it waits, and nothing
/// is sent for it then, in any state that the device reaches; and so on any tables where the domain of each open upload
/// is there, without which an upload has no answer.
pub fn each_request_is_answered_or_waits()
    ensures reached { (config : Config) (history : List CellEvent) → IsConfig config
        → (row : ClientRow) (invoke : ℕ) (asked : Request) → AnswersOrWaits row.client invoke
        (own_told (cell.tables_of (replay config history)) row (Takes invoke asked))
        (also_told (cell.tables_of (replay config history)) row (Takes invoke asked)) }
    ensures any { (t : Tables) (row : ClientRow) (invoke : ℕ)
        → AreOf t.domains.uploads t.domains.domains → (asked : Request)
        → AnswersOrWaits row.client invoke (own_told t row (Takes invoke asked))
        (also_told t row (Takes invoke asked)) }
{}

/// A request that waits no more is answered in that event, unless the association of its client ends: where a client is
/// told that a request of it waits no more, it is told a positive answer to it or why it is refused.
pub fn a_request_that_waits_no_more_is_answered()
    ensures { (s : State) (event : CellEvent)
        → AreAnswered (done_of cell services s event).told }
{}

/// Where all parts of a state are held, no event that may come needs more.
pub fn all_parts_are_enough()
    ensures { (s : State) (event : CellEvent) → IsAmong (length s.clients) event
        → need event (map Some (parts_of s)) ≡ [] }
{}
