//! Laws of requests for semaphores. Each function has no body: its contract is the law.

ghost use Rattle.std.specs.Prelude.{◌≡◌, ◌≢◌, ◌==◌, ℕ, Some, false, true};
ghost use Rattle.std.specs.List.{list_any};
ghost use Rattle.mms_types.specs.declared.area.SemaphoreRequest.{SemaphoreRequest};
ghost use Rattle.mms_types.specs.declared.pdu.Answer.TheVariants.{RelinquishControl};
ghost use Rattle.association.specs.Client.{ClientRow};
ghost use Rattle.mms_time.specs.Semaphores.{Rows};
ghost use Rattle.sem_ticks.specs.declared.granted.Granted.{Granted};
ghost use Rattle.cell_client.specs.Areas.{also_in};
ghost use Rattle.cell_client.specs.Facts.{Facts};
ghost use Rattle.cell_client.specs.Requests.{fits, size_of};
ghost use Rattle.serve_semaphores.specs.Semaphores.{grant_told, request_in};
ghost use Rattle.serve_semaphores.specs.Tokens.{GrantsTo, tells_alone};

/// A request of a client for semaphores tells nobody else anything, but for a token that it gives back and that somebody
/// is granted: where its answer is no longer than was negotiated, who is granted the token is told that, and nobody else
/// is told anything.
pub fn a_request_tells_its_client_alone()
    ensures alone { (facts : Facts) (row : ClientRow) (invoke : ℕ) (rows : Rows)
        (asked : SemaphoreRequest) (k : ℕ)
        → tells_alone row.client asked rows ≡ true → row.client ≢ k
        → list_any (λ t. t.0 == k) (also_in (request_in asked) facts row invoke rows) ≡ false }
    ensures granted { (facts : Facts) (row : ClientRow) (invoke : ℕ) (rows : Rows)
        (asked : SemaphoreRequest) → tells_alone row.client asked rows ≡ false
        → fits (size_of row.association) invoke (Some RelinquishControl) ≡ true
        → (g : Granted) × GrantsTo row.client asked rows g
        × (also_in (request_in asked) facts row invoke rows ≡ grant_told g) }
{}
