//! What holds of the trial's histories.

ghost use Rattle.std.specs.Prelude.{◌≡◌, ◌≤◌, ◌+◌, ◌*◌, ℕ, List};
ghost use Rattle.mms_types.specs.declared.event.CellEvent.{CellEvent};
ghost use Rattle.cell_record.specs.History.{Interleaves};
ghost use Rattle.step_parts.specs.Step.{said};
ghost use Rattle.cell_stress.specs.Counts.{replies_in};
ghost use Rattle.cell_stress.specs.Stress.{stress_config, stress_phases};

/// As many PDUs are sent in the trial as its clients send: one for each client's Initiate, one for the semaphore that is
/// made, and one for each request of a round, whatever bodies serve the phases. A reject counts as well; an abort is no
/// PDU.
pub fn stress_is_answered()
    ensures replies { (seed clients rounds : ℕ) (bodies : List (List CellEvent)) → 1 ≤ clients
        → clients ≤ 64 → rounds ≤ 1000 → Interleaves bodies (stress_phases seed clients rounds)
        → replies_in (said (stress_config clients)) clients bodies
        ≡ clients + 1 + rounds * clients }
{}
