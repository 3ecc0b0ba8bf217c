//! Laws of what is done on the tables. Each function has no body: its contract is the law.

ghost use Rattle.std.specs.Prelude.{◌≡◌, ℕ, None, Some};
ghost use Rattle.association.specs.Client.{ClientRow};
ghost use Rattle.cell_client.specs.Association.{Verdict};
ghost use Rattle.cell_client.specs.Meant.{act_verdict};
ghost use Rattle.cell_client.specs.declared.acts.Act.{Act};
ghost use Rattle.cell_services.specs.Acts.{IsActOf, act_done};
ghost use Rattle.cell_services.specs.Serving.{loses};
ghost use Rattle.cell_services.specs.Tables.{Tables};

/// What a client does on the tables is what was heard of it: an act that a verdict on what it sent leaves is done, with
/// any tables, as that verdict is heard. The one act that is of no verdict is a loss, by which the client is lost.
pub fn an_act_is_done_as_its_verdict()
    ensures heard { (row : ClientRow) (v : Verdict) (a : Act)
        → act_verdict a ≡ Some v → IsActOf row v a }
    ensures lost { (t : Tables) (row : ClientRow) (client : ℕ) (a : Act)
        → act_verdict a ≡ None → act_done t row client a ≡ loses t row client }
{}
