//! What holds of every history.

ghost use Rattle.std.specs.Prelude.{◌≡◌, ◌⊎◌, ℕ, ◌+◌, ◌≤◌, IfSome, false, true, All, List, None, Option, Some, [], ◌++◌, length};
ghost use Rattle.std.specs.Map.{lookup};
ghost use Rattle.mms_types.specs.Order.{key_eq, scope_eq};
ghost use Rattle.mms_types.specs.declared.event.CellEvent.{CellEvent};
ghost use Rattle.mms_types.specs.declared.event.CellEvent.TheVariants.{Drain, Heard, Tick};
ghost use Rattle.mms_types.specs.declared.event.What.{What};
ghost use Rattle.mms_types.specs.declared.key.Key.{Key};
ghost use Rattle.mms_types.specs.declared.key.Scope.TheVariants.{Association};
ghost use Rattle.mms_types.specs.declared.moment.Moment.{Moment};
ghost use Rattle.token_sem.specs.declared.entry.SemEntry.{SemEntry};
ghost use Rattle.token_sem.specs.Semaphore.{holds};
ghost use Rattle.mms_time.specs.Deadlines.{NamedDeadline, all_deadlines};
ghost use Rattle.mms_time.specs.Loss.{lost};
ghost use Rattle.mms_time.specs.Semaphores.{Rows, entry_in};
ghost use Rattle.mms_time.specs.Statuses.{entry_status};
ghost use Rattle.sem_ticks.specs.Ticks.{Ticking};
ghost use Rattle.cell_config.specs.declared.config.Config.{Config};
ghost use Rattle.cell_config.specs.Said.{IsConfig};
ghost use Rattle.step_parts.specs.State.{State, start};
ghost use Rattle.step_parts.specs.Step.{outbox_of, replay, step};
ghost use Rattle.association.specs.declared.negotiation.Association.TheVariants.{Open};
ghost use Rattle.association.specs.declared.negotiation.Negotiated.{Negotiated};
ghost use Rattle.parted_state.specs.Served.{row_at};
ghost use Rattle.step_parts.specs.Partition.{cell};
ghost use Rattle.cell_laws.specs.Freed.{GivesBack, IfAborts, IsFreedBy, IsNextFreed, IsPassedOn, Leaves, OwnsNamed, OwnsUnkept, PassesOn, TimesOut, abort_at, after_time_out, all_lost, loss_by, lost_so_far, moment_at, owners_at, token_held, token_named};
ghost use Rattle.cell_laws.specs.Linked.{AreLinked};
ghost use Rattle.cell_laws.specs.Lost.{HasStill, IsLostFor};
ghost use Rattle.cell_laws.specs.Tally.{HaveOneAnswerEach, account, drained, drains, sent_to, told_in};

/// The requests that wait are those of the entries that are queued, after any history: each has a queued entry of its
/// client and its invokeID, and each queued entry is such a request; no two that wait of one client have one invokeID,
/// and who has no association has none.
pub fn each_waiting_request_is_queued()
    ensures { (config : Config) (history : List CellEvent) → IsConfig config
        → AreLinked (replay config history) }
{}

/// Each confirmed request that is taken has one answer, or waits, after any history: where a client has an
/// association, what was sent to it since it opened are PDUs, and of each invokeID the requests that were taken since
/// then are as many as the outputs that are confirmed responses or confirmed errors of it, by their octets, and one
/// more where a request of it waits.
pub fn each_request_is_answered_once()
    ensures { (config : Config) (history : List CellEvent) (client : ℕ) (values : Negotiated)
        → IsConfig config
        → (row_at cell client (replay config history).clients).association ≡ Open values
        → HaveOneAnswerEach client (replay config history) (account config history client).taken
        (account config history client).sent }
{}

/// What is sent to a client is what its outbox gains: after an event by which the client doesn't drain, its outbox is
/// what it was before, and then what the event sends to it. By a drain the client takes its outbox as it is, and
/// leaves it empty. So after any history what a client has taken, and then what is in its outbox, ends in what was sent
/// to it since its association opened.
pub fn what_is_sent_is_in_the_outbox()
    ensures sent { (s : State) (event : CellEvent) (client : ℕ)
        → 1 ≤ client → client ≤ length s.clients → drains client event ≡ false
        → outbox_of (step s event) client
        ≡ outbox_of s client ++ sent_to client s.clients (told_in s event) }
    ensures taken { (s : State) (client : ℕ) → 1 ≤ client
        → outbox_of (step s (Drain client)) client ≡ [] }
    ensures history { (config : Config) (history : List CellEvent) (client : ℕ)
        → 1 ≤ client → client ≤ length (replay config history).clients
        → (older : List What)
        × (drained client (start config) history ++ outbox_of (replay config history) client
        ≡ older ++ (account config history client).sent) }
{}

/// A token that is freed goes, at that point of the event, to the entry of least rank, by priority and then by number,
/// of those that wait for it or for any: it is an owner entry from that moment on, and after the event its request
/// waits no more, and its positive answer is in its client's outbox. Where no entry waits for it, it is free. A token
/// is freed where a client gives it back; where control of an entry that has it times out, while time goes by; and
/// where the client of an owner entry is lost, unless it keeps the token: because its association ends, or is aborted
/// as control times out. Of equal tokens a client owns one at most; of a pool it may own several, of which the next law
/// tells.
pub fn a_freed_token_is_passed_on()
    ensures given_back { (config : Config) (history : List CellEvent) (client : ℕ) (octets : List ℕ)
        (key : Key) (token : Option (List ℕ)) → IsConfig config
        → GivesBack (replay config history) client octets key token
        → PassesOn (replay config history) (Heard client octets) key
        (token_named key token (replay config history).semaphores) }
    ensures timed_out { (config : Config) (history : List CellEvent) (ms : ℕ) (point : Ticking)
        (due : NamedDeadline) (entry : SemEntry) → IsConfig config
        → TimesOut (replay config history) ms point due entry
        → IsPassedOn due.key (token_held due.key entry point.rows) due.at
        point.rows (after_time_out point due) (step (replay config history) (Tick ms)) }
    ensures left { (config : Config) (history : List CellEvent) (event : CellEvent) (client : ℕ)
        (key : Key) → IsConfig config → Leaves client (replay config history) event
        → OwnsUnkept key (replay config history).semaphores client
        → IsFreedBy key (loss_by (replay config history) event client) }
    ensures aborted { (config : Config) (history : List CellEvent) (ms : ℕ) (point : Ticking)
        (due : NamedDeadline) (entry : SemEntry) (key : Key) → IsConfig config
        → IfAborts (replay config history) ms point due entry
        (OwnsUnkept key (after_time_out point due) entry.client
        → IsFreedBy key (abort_at (replay config history) ms point due entry)) }
{}

/// The tokens of a pool that a client owns who is lost are freed one after the other, in order of number of their
/// entries, when the client waits no more: at its point of the loss each that isn't kept goes to the entry of least
/// rank of those that wait for it or for any then, whose positive answer is in its client's outbox after the event; or
/// no entry waits for it, and it is free. After the last of them the semaphore is as the loss leaves it.
pub fn tokens_of_a_pool_are_passed_on_in_order()
    ensures left { (config : Config) (history : List CellEvent) (event : CellEvent) (client : ℕ)
        (key : Key) (first : List SemEntry) (owner : SemEntry) → IsConfig config
        → Leaves client (replay config history) event
        → OwnsNamed key (replay config history).semaphores client first owner
        → IsNextFreed key first owner (loss_by (replay config history) event client) }
    ensures left_last { (config : Config) (history : List CellEvent) (event : CellEvent)
        (client : ℕ) (key : Key) → IsConfig config → Leaves client (replay config history) event
        → scope_eq key.scope (Association client) ≡ false
        → lookup (key_eq key) (step (replay config history) event).semaphores
        ≡ lookup (key_eq key) (all_lost key (loss_by (replay config history) event client)) }
    ensures aborted { (config : Config) (history : List CellEvent) (ms : ℕ) (point : Ticking)
        (due : NamedDeadline) (entry : SemEntry) (key : Key) (first : List SemEntry)
        (owner : SemEntry) → IsConfig config → IfAborts (replay config history) ms point due entry
        (OwnsNamed key (after_time_out point due) entry.client first owner
        → IsNextFreed key first owner (abort_at (replay config history) ms point due entry)) }
    ensures aborted_last { (client : ℕ) (now : Moment) (key : Key) (rows : Rows)
        → scope_eq key.scope (Association client) ≡ false
        → lookup (key_eq key) (lost client now rows)
        ≡ lookup (key_eq key) (lost_so_far client now (owners_at key client rows) key rows) }
{}

/// No deadline is far: after any history each deadline of a semaphore's entry, acceptable delay or control time-out,
/// is at most 2^32 - 1 milliseconds away, also one that arose while time went by. So what a status of entries tells to
/// be left until then, the deadline less the moment, is a number of 32 bits, and none is ever too far away to be told.
pub fn no_deadline_is_far()
    ensures near { (config : Config) (history : List CellEvent)
        → All (λ due. due.at.0 ≤ (replay config history).now + 4294967295)
        (all_deadlines (replay config history).semaphores) }
    ensures told { (config : Config) (history : List CellEvent) (key : Key) (number : ℕ)
        (entry : SemEntry) (names : List (List ℕ))
        → entry_in key number (replay config history).semaphores ≡ Some entry
        → IfSome (entry_status names (moment_at (replay config history)) entry).remaining
        (λ left. left ≤ 4294967295) }
{}

/// A token is lost for a cause, and for each of these. An entry that has a token before an event, an owner entry or a
/// hung one, is after it as it was, or is hung, as its client is lost and keeps the token; or it has lost the token
/// for one of these causes: its client gives the token back; it is hung, and the one that a TakeControl preempts,
/// whose entry has the token then; its control times out; its client is lost, because its association ends or is
/// aborted, and doesn't keep the token; or the semaphore is one of a client's association, and goes with it. Where
/// one of these holds the entry is there no more. So an owner entry is never preempted, and no semaphore is deleted
/// that has an entry.
pub fn a_token_is_lost_for_a_cause()
    ensures lost { (config : Config) (history : List CellEvent) (event : CellEvent) (key : Key)
        (entry : SemEntry) → IsConfig config
        → entry_in key entry.number (replay config history).semaphores ≡ Some entry
        → holds entry ≡ true → HasStill (replay config history) event key entry
        ⊎ IsLostFor (replay config history) event key entry }
    ensures gone { (config : Config) (history : List CellEvent) (event : CellEvent) (key : Key)
        (entry : SemEntry) → IsConfig config
        → entry_in key entry.number (replay config history).semaphores ≡ Some entry
        → holds entry ≡ true → IsLostFor (replay config history) event key entry
        → entry_in key entry.number (step (replay config history) event).semaphores ≡ None }
{}
