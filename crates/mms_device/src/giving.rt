//! Giving parts back, as a caller of the device.

ghost use Rattle.std.specs.Prelude.{◌≡◌, [], length};
ghost use Rattle.part_table.specs.Known.{nothing};

use part_table::{PartTable, Pass, a_pass_has_a_place_for_each_part};
use step_parts::Cell;

/// Gives back all parts that the pass holds, the last taken first. Nothing else of the pass changes.
pub(crate) fn give_all(table: &PartTable<Cell>, pass: &mut Pass<Cell>)
    requires table { pass.old.table ≡ table.now }
    requires hand { pass.old.hand ≡ pass.old.taken }
    ensures { pass.new ≡ record pass.old {
      taken = nothing (length pass.old.table.opening);
      hand = nothing (length pass.old.table.opening);
      order = [];
    } }
{
    while let Some(part) = pass.last_taken() {
        table.give(pass, part);
    }
    a_pass_has_a_place_for_each_part(pass);
}
