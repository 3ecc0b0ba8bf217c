ghost use Rattle.std.specs.Prelude.{◌≡◌, filter, map, true};
ghost use Rattle.std.specs.List.{list_all};
ghost use Rattle.std.specs.Map.{keys_of};
ghost use Rattle.mms_types.specs.Order.{key_of};
ghost use Rattle.event_enrol.specs.Enrolments.{has_own_names, is_told, notices};

use crate::Enrolments;
use mms_types::Turned;

impl Enrolments {
    /// Each name of an association is that of its own client.
    fn has_own_names(&self)
        ensures { list_all has_own_names self.now ≡ true }
    {
        let _ = &self.rows;
    }
}

/// Both names of a notice are the enrolled client's own words: as names that this client gives they stand for the
/// enrollment and its condition.
#[tactic(auto, using(crate::proofs::Kept::enrolments_named, crate::proofs::Kept::conditions_named))]
pub fn notices_are_in_their_clients_words(table: &Enrolments, turned: &Turned)
    ensures enrolments { map (λ n. key_of n.client n.enrolment) (notices turned.now table.now)
        ≡ keys_of (filter (is_told turned.now) table.now) }
    ensures conditions { map (λ n. key_of n.client n.condition) (notices turned.now table.now)
        ≡ map (λ row. row.1.condition) (filter (is_told turned.now) table.now) }
{
    let _ = turned;
    table.has_own_names();
}
