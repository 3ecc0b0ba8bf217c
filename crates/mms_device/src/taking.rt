//! Taking parts, as a caller of the device.

ghost use Rattle.std.specs.Prelude.{◌≡◌, ◌≢◌, ◌<◌, ◌++◌, ◌∷◌, [], ℕ, true, IfOk, IfErr, length, Contains};
ghost use Rattle.step_parts.specs.Needs.{is_held};
ghost use Rattle.mms_device.specs.Taken.{AreHeld, HasTaken};

use crate::answers::Busy;
use cell_io::{Gate, Point};
use part_table::{PartTable, Pass, a_pass_has_a_place_for_each_part};
use parted_state::Parts;
use step_parts::Cell;

/// Takes a part, unless the pass holds it already.
pub(crate) fn take<G: Gate>(
    table: &PartTable<Cell>,
    pass: &mut Pass<Cell>,
    part: u32,
    gate: &G,
) -> Result<(), Busy>
    requires table { pass.old.table ≡ table.now }
    requires hand { pass.old.hand ≡ pass.old.taken }
    requires part { part < length table.now.opening }
    ensures held { IfOk result (λ _. (is_held pass.new.taken part ≡ true)
        × (pass.new.lost ≡ pass.old.lost)) }
    ensures lost { IfErr result (λ busy. (busy.part ≡ part) × (busy.by ≢ pass.old.by)
        × (pass.new.lost ≡ pass.old.lost ++ (part, busy.by) ∷ [])) }
    ensures taken { HasTaken (part ∷ []) pass.old pass.new }
{
    if pass.hand().holds(part) {
        return Ok(());
    }
    a_pass_has_a_place_for_each_part(pass);
    match table.try_take(pass, part) {
        Ok(()) => {
            gate.pass(pass.by(), Point::Took(part));
            Ok(())
        }
        Err(held) => Err(Busy { part, by: held.by }),
    }
}

/// Takes parts in the order of their numbers, as far as they are free.
pub(crate) fn take_each<G: Gate>(
    table: &PartTable<Cell>,
    pass: &mut Pass<Cell>,
    parts: &Parts,
    gate: &G,
) -> Result<(), Busy>
    requires table { pass.old.table ≡ table.now }
    requires hand { pass.old.hand ≡ pass.old.taken }
    requires parts { (i : ℕ) → Contains parts.now i → i < length table.now.opening }
    ensures held { IfOk result (λ _. AreHeld pass.new.taken parts.now
        × (pass.new.lost ≡ pass.old.lost)) }
    ensures lost { IfErr result (λ busy. Contains parts.now busy.part × (busy.by ≢ pass.old.by)
        × (pass.new.lost ≡ pass.old.lost ++ (busy.part, busy.by) ∷ [])) }
    ensures taken { HasTaken parts.now pass.old pass.new }
{
    for part in parts.iter() {
        take(table, pass, u32::from(part), gate)?;
    }
    Ok(())
}
