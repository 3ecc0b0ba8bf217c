//! What holds of the loads of domains, whatever the history is.

ghost use Rattle.std.specs.Prelude.{◌≡◌, ◌⊎◌, ℕ, ◌≤◌, Contains, List, None, Some, length, true};
ghost use Rattle.mms_types.specs.declared.asked.Reply.{Reply};
ghost use Rattle.mms_types.specs.declared.event.CellEvent.{CellEvent};
ghost use Rattle.mms_types.specs.declared.event.CellEvent.TheVariants.{Tick};
ghost use Rattle.cell_config.specs.declared.config.Config.{Config};
ghost use Rattle.cell_config.specs.Said.{IsConfig};
ghost use Rattle.domain_load.specs.Loading.{domain_of};
ghost use Rattle.domain_load.specs.Standing.{is_live};
ghost use Rattle.domain_load.specs.declared.domain.Domain.{Domain};
ghost use Rattle.serve_domains.specs.Domains.{calling_of};
ghost use Rattle.step_parts.specs.Step.{replay, step};
ghost use Rattle.parted_state.specs.Served.{row_at};
ghost use Rattle.step_parts.specs.Partition.{cell};
ghost use Rattle.cell_laws.specs.Freed.{Leaves};
ghost use Rattle.cell_laws.specs.Loads.{Answers, EndsLoad, IsLoading, WasLoaded, breaks_off, domain_at, last_load_in, load_step, loads, lost_meanwhile};

/// Each domain is what its client answered, after any history: one that is READY or IN-USE was loaded whole, by the
/// one client that began the last load of its name. That client alone answered in this load, with the domain's
/// segments in their order, of which it said each but the last to be followed by more, and then that the load has
/// ended. One that is LOADING has the segments that its client answered with so far. Either has the capabilities that
/// were asked for, and is sharable or not as was asked.
pub fn each_domain_is_what_its_client_answered()
    ensures live { (config : Config) (history : List CellEvent) (name : List ℕ) (domain : Domain)
        → IsConfig config → domain_at name (replay config history) ≡ Some domain
        → is_live domain ≡ true → WasLoaded name domain (last_load_in config history name) }
    ensures loading { (config : Config) (history : List CellEvent) (name : List ℕ)
        (domain : Domain) (client : ℕ) → IsConfig config
        → domain_at name (replay config history) ≡ Some domain → domain.loader ≡ Some client
        → IsLoading name client domain (last_load_in config history name) }
{}

/// Nothing stays of a load that ends before it is whole: the domain that was LOADING is there no more after the event.
/// A load ends so where an answer of its client breaks it off, as the domain would have too many octets, or as it is an
/// error or a reject; and where its client is lost, because its association ends, or is aborted while time goes by.
/// Where none of these holds the domain is there after the event, whatever the event is.
pub fn nothing_of_an_ended_load_stays()
    ensures broken_off { (config : Config) (history : List CellEvent) (event : CellEvent)
        (client : ℕ) (answer : Reply) → IsConfig config
        → load_step (replay config history) event ≡ Some (Answers client answer)
        → breaks_off answer (replay config history).domains.domains ≡ true
        → domain_at (domain_of answer) (step (replay config history) event) ≡ None }
    ensures left { (config : Config) (history : List CellEvent) (event : CellEvent) (client : ℕ)
        (name : List ℕ) → IsConfig config → Leaves client (replay config history) event
        → loads client name (replay config history) ≡ true
        → domain_at name (step (replay config history) event) ≡ None }
    ensures aborted { (config : Config) (history : List CellEvent) (ms : ℕ) (client : ℕ)
        (name : List ℕ) → IsConfig config
        → Contains (lost_meanwhile ms (replay config history)) client
        → loads client name (replay config history) ≡ true
        → domain_at name (step (replay config history) (Tick ms)) ≡ None }
    ensures no_other_cause { (config : Config) (history : List CellEvent) (event : CellEvent)
        (client : ℕ) (name : List ℕ) → IsConfig config
        → loads client name (replay config history) ≡ true
        → ((after : Domain) × (domain_at name (step (replay config history) event) ≡ Some after))
        ⊎ EndsLoad name client (replay config history) event }
{}

/// No client is asked too much: after any history no more requests of the server are unanswered by a client than its
/// association allows, of segments, of ends and of discards together; and so none without an association.
pub fn no_client_is_asked_too_much()
    ensures { (config : Config) (history : List CellEvent) (client : ℕ) → IsConfig config
        → length (row_at cell client (replay config history).clients).asked
        ≤ calling_of (row_at cell client (replay config history).clients).association }
{}
