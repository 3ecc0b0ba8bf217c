//! What services ask of tables that aren't their own.

ghost use Rattle.std.specs.Prelude.{◌≡◌, ℕ};
ghost use Rattle.mms_types.specs.declared.pdu.Request.{Request};
ghost use Rattle.association.specs.Client.{ClientRow};
ghost use Rattle.cell_client.specs.Association.{Came};
ghost use Rattle.cell_services.specs.Facts.{Facts};
ghost use Rattle.cell_services.specs.Services.{area_of, cause_of, effect_of, reply_in};
ghost use Rattle.cell_services.specs.Tables.{Tables};
ghost use Rattle.cell_laws.specs.Asking.{cause_beside, effect_beside};

/// Each service asks all that it uses: why a request is refused, and what it does otherwise, is by the answers to its
/// own questions, each as the tables have it, and the same beside whatever other facts. So none is refused, or does
/// less, for a question that it forgets to ask; nor for the name of a domain that it takes for none.
pub fn each_service_asks_what_it_uses()
    ensures causes { (t : Tables) (row : ClientRow) (asked : Request) (facts : Facts)
        → cause_beside facts t row (area_of asked) ≡ cause_of t row (area_of asked) }
    ensures effects { (t : Tables) (row : ClientRow) (invoke : ℕ) (asked : Request) (facts : Facts)
        → effect_beside facts t row invoke (area_of asked)
        ≡ effect_of t row invoke (area_of asked) }
    ensures replies { (t : Tables) (row : ClientRow) (number : ℕ) (came : Came) (facts : Facts)
        → cause_beside facts t row (reply_in number came) ≡ cause_of t row (reply_in number came) }
    ensures replied { (t : Tables) (row : ClientRow) (number : ℕ) (came : Came) (facts : Facts)
        → effect_beside facts t row number (reply_in number came)
        ≡ effect_of t row number (reply_in number came) }
{}
