//! Laws of what clients are asked of the domains that they load. Each function has no body: its contract is the law.

ghost use Rattle.std.specs.Prelude.{◌≡◌, ◌≢◌, [], Bool, List, None, Some, ℕ, false, true};
ghost use Rattle.std.specs.List.{IsDistinct};
ghost use Rattle.std.specs.Map.{keys_of};
ghost use Rattle.mms_types.specs.declared.asked.Asked.{Asked};
ghost use Rattle.mms_types.specs.declared.asked.Asked.TheVariants.{Segment};
ghost use Rattle.mms_types.specs.declared.asked.Reply.{Reply};
ghost use Rattle.mms_types.specs.declared.domain.InitiateDownloadSequence.{InitiateDownloadSequence};
ghost use Rattle.association.specs.Asked.{AreApart, asked_of};
ghost use Rattle.association.specs.declared.unanswered.Unanswered.{Unanswered};
ghost use Rattle.domain_load.specs.Domains.{Rows, is_there, name_eq, without, without_loads};
ghost use Rattle.domain_load.specs.Loading.{answers_load, domain_of, initiate_after, initiate_cause, reply_after};
ghost use Rattle.domain_load.specs.Standing.{is_loaded_by, is_loading};
ghost use Rattle.domain_load.specs.Used.{after_unused, after_used};
ghost use Rattle.serve_domains.specs.Loads.{AreLoads, LoadsAfterReply, asked_after, is_of_load_kind};

/// What a client is asked, and which domains it loads, agree at any time: at the start; where it begins a load; and
/// where it answers, and is asked what comes next. So a domain of which it answers is one that it loads.
pub fn what_is_asked_is_loaded()
    ensures none { (client : ℕ) → AreLoads client [] [] }
    ensures begins { (client : ℕ) (left : Bool) (request : InitiateDownloadSequence)
        (domains : Rows) → initiate_cause left request domains ≡ None → (number : ℕ)
        (rows : List Unanswered) → AreLoads client rows domains
        → AreLoads client (asked_after rows number (Some Segment) request.domain)
        (initiate_after client request domains) }
    ensures replies { (client : ℕ) (answer : Reply) (domains : Rows)
        → IsDistinct name_eq (keys_of domains) → answers_load client answer domains ≡ true
        → (number next : ℕ) (rows : List Unanswered) (of : Asked × List ℕ) → AreApart rows
        → asked_of number rows ≡ Some of → is_of_load_kind of.0 ≡ true → of.1 ≡ domain_of answer
        → AreLoads client rows domains → LoadsAfterReply client number next answer rows domains }
    ensures answers { (client number : ℕ) (rows : List Unanswered) (domains : Rows)
        (of : Asked × List ℕ) → AreLoads client rows domains → asked_of number rows ≡ Some of
        → is_of_load_kind of.0 ≡ true → is_there (is_loaded_by client) of.1 domains ≡ true }
{}

/// So it stays whatever others do, whatever is deleted, and which program invocations come to domains or leave them; and
/// a client that is lost loads nothing.
pub fn what_is_asked_stays_loaded()
    ensures begins { (client : ℕ) (left : Bool) (request : InitiateDownloadSequence)
        (domains : Rows) → initiate_cause left request domains ≡ None → (other : ℕ)
        (rows : List Unanswered) → client ≢ other → AreLoads other rows domains
        → AreLoads other rows (initiate_after client request domains) }
    ensures replies { (client : ℕ) (answer : Reply) (domains : Rows)
        → IsDistinct name_eq (keys_of domains) → answers_load client answer domains ≡ true
        → (other : ℕ) (rows : List Unanswered) → client ≢ other → AreLoads other rows domains
        → AreLoads other rows (reply_after answer domains) }
    ensures deleted { (client : ℕ) (rows : List Unanswered) (domains : Rows) (name : List ℕ)
        → IsDistinct name_eq (keys_of domains) → is_there is_loading name domains ≡ false
        → AreLoads client rows domains → AreLoads client rows (without name domains) }
    ensures lost { (client : ℕ) (domains : Rows) → IsDistinct name_eq (keys_of domains)
        → AreLoads client [] (without_loads client domains) }
    ensures others { (client other : ℕ) (rows : List Unanswered) (domains : Rows)
        → client ≢ other → IsDistinct name_eq (keys_of domains) → AreLoads other rows domains
        → AreLoads other rows (without_loads client domains) }
    ensures used { (client : ℕ) (by : List ℕ) (names : List (List ℕ)) (rows : List Unanswered)
        (domains : Rows) → AreLoads client rows domains
        → AreLoads client rows (after_used names by domains) }
    ensures unused { (client : ℕ) (by : List ℕ) (names : List (List ℕ)) (rows : List Unanswered)
        (domains : Rows) → AreLoads client rows domains
        → AreLoads client rows (after_unused names by domains) }
{}
