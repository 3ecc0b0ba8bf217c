//! What holds of the definitions.

ghost use Rattle.std.specs.Prelude.{◌≡◌, ◌≤◌, ◌+◌, ◌*◌, ℕ, List, length};
ghost use Rattle.std.specs.List.{All};
ghost use Rattle.mms_types.specs.declared.event.CellEvent.{CellEvent};
ghost use Rattle.mms_types.specs.declared.identifier.Edition.{Edition};
ghost use Rattle.mms_types.specs.declared.pdu.Pdu.{Pdu};
ghost use Rattle.mms_pdu.specs.Asking.{IsAsking};
ghost use Rattle.cell_config.specs.Said.{IsConfig};
ghost use Rattle.cell_record.specs.EventLine.{IsRecorded};
ghost use Rattle.cell_record.specs.Grammar.{all_ms};
ghost use Rattle.cell_record.specs.History.{Interleaves, history};
ghost use Rattle.cell_stress.specs.Counts.{events_in, requests_in};
ghost use Rattle.cell_stress.specs.Requests.{asked, define, invoke_of, proposal};
ghost use Rattle.cell_stress.specs.Stress.{stress_config, stress_phases};

/// How many phases there are, events but drains, and confirmed requests, whatever bodies serve the
/// phases.
pub fn stress_is_counted()
    ensures phases { (seed clients rounds : ℕ) (bodies : List (List CellEvent))
        → Interleaves bodies (stress_phases seed clients rounds)
        → length bodies ≡ rounds + 2 }
    ensures events { (seed clients rounds : ℕ) (bodies : List (List CellEvent))
        → Interleaves bodies (stress_phases seed clients rounds)
        → events_in (history clients bodies) ≡ (clients + 1) * (rounds + 1) + 1 }
    ensures requests { (seed clients rounds : ℕ) (bodies : List (List CellEvent))
        → Interleaves bodies (stress_phases seed clients rounds)
        → requests_in (history clients bodies) ≡ 1 + rounds * clients }
{}

/// A recording may have this configuration and these phases: no rule is broken.
pub fn stress_is_recorded()
    ensures config { (clients : ℕ) → 1 ≤ clients → clients ≤ 64 → IsConfig (stress_config clients) }
    ensures recorded { (seed clients rounds : ℕ) → 1 ≤ clients → clients ≤ 64
        → All (All (IsRecorded (stress_config clients))) (stress_phases seed clients rounds) }
    ensures few { (seed clients rounds : ℕ)
        → All (λ phase. length phase ≤ clients + 1) (stress_phases seed clients rounds) }
    ensures clock { (seed clients rounds : ℕ)
        → all_ms (stress_phases seed clients rounds) ≡ 3 * rounds + 10 }
{}

/// What clients send is of its form, so that it is heard as what it says (`mms_pdu`).
pub fn stress_is_heard()
    ensures opened { IsAsking Edition.One (Pdu.InitiateRequest proposal)
        × IsAsking Edition.One (Pdu.ConfirmedRequest 1 define) }
    ensures asked { (client word round : ℕ) → round ≤ 1000
        → IsAsking Edition.One (Pdu.ConfirmedRequest (invoke_of client round) (asked word round)) }
{}
