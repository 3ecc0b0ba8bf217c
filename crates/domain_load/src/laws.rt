//! Laws over all domains. Each function has no body: its contract is the law.

ghost use Rattle.std.specs.Prelude.{◌≡◌, ◌≤◌, ℕ, Bool, List, None, Some, false, true};
ghost use Rattle.std.specs.List.{IsDistinct};
ghost use Rattle.std.specs.Map.{keys_of};
ghost use Rattle.mms_types.specs.declared.asked.Reply.{Reply};
ghost use Rattle.mms_types.specs.declared.domain.InitiateDownloadSequence.{InitiateDownloadSequence};
ghost use Rattle.domain_load.specs.Domains.{Rows, is_there, name_eq, named, without, without_loads};
ghost use Rattle.domain_load.specs.Loading.{after_load, answers_load, asked_next, begun, brought, domain_of, goes_on, initiate_after, initiate_cause, is_end, reply_after};
ghost use Rattle.domain_load.specs.Segmented.{most_octets, octets_in};
ghost use Rattle.domain_load.specs.Standing.{is_live, is_loaded_by};
ghost use Rattle.domain_load.specs.declared.domain.Domain.{Domain};

/// Where nothing stands against a load, its domain is there afterwards, LOADING by that client and without segments,
/// whatever was loaded under its name before; and all other domains are as before.
pub fn a_load_begins_empty()
    ensures begun { (client : ℕ) (left : Bool) (request : InitiateDownloadSequence) (rows : Rows)
        → initiate_cause left request rows ≡ None
        → named request.domain (initiate_after client request rows) ≡ Some (begun client request) }
    ensures others { (client : ℕ) (request : InitiateDownloadSequence) (rows : Rows) (name : List ℕ)
        → name_eq name request.domain ≡ false
        → named name (initiate_after client request rows) ≡ named name rows }
{}

/// What a client is asked after an answer, and what becomes of the domain, agree: the client still loads it exactly
/// where it is asked for a segment or for the end of the load; it is READY exactly where the end was answered; and else
/// it is gone, with all its octets. All other domains are as before.
pub fn a_load_goes_on_as_asked()
    ensures loads { (client : ℕ) (answer : Reply) (rows : Rows)
        → IsDistinct name_eq (keys_of rows) → answers_load client answer rows ≡ true
        → is_there (is_loaded_by client) (domain_of answer) (reply_after answer rows)
        ≡ goes_on (asked_next answer rows) }
    ensures ready { (client : ℕ) (answer : Reply) (rows : Rows)
        → IsDistinct name_eq (keys_of rows) → answers_load client answer rows ≡ true
        → is_there is_live (domain_of answer) (reply_after answer rows) ≡ is_end answer }
    ensures gone { (answer : Reply) (rows : Rows)
        → IsDistinct name_eq (keys_of rows) → goes_on (asked_next answer rows) ≡ false
        → is_end answer ≡ false → named (domain_of answer) (reply_after answer rows) ≡ None }
    ensures others { (client : ℕ) (answer : Reply) (rows : Rows) (name : List ℕ)
        → IsDistinct name_eq (keys_of rows) → answers_load client answer rows ≡ true
        → name_eq (domain_of answer) name ≡ false
        → named name (reply_after answer rows) ≡ named name rows }
{}

/// A domain whose load has ended holds the segments that came since it began, all of them in their order and no others,
/// where they have no more octets than a domain may have; and it is READY.
pub fn a_loaded_domain_is_what_came()
    ensures { (client : ℕ) (left : Bool) (request : InitiateDownloadSequence) (rows : Rows)
        (parts : List (List ℕ × Bool)) → initiate_cause left request rows ≡ None
        → octets_in (brought parts) ≤ most_octets
        → named request.domain (after_load client request parts rows)
        ≡ Some (record (begun client request) { loader = None; segments = brought parts }) }
{}

/// A domain that is deleted is gone, and all others are as before.
pub fn a_deleted_domain_is_gone()
    ensures gone { (name : List ℕ) (rows : Rows)
        → IsDistinct name_eq (keys_of rows) → named name (without name rows) ≡ None }
    ensures others { (name other : List ℕ) (rows : Rows)
        → IsDistinct name_eq (keys_of rows) → name_eq name other ≡ false
        → named other (without name rows) ≡ named other rows }
{}

/// A client that is lost loads no domain any more, and all domains that it didn't load are as before.
pub fn a_lost_client_loads_nothing()
    ensures none { (client : ℕ) (name : List ℕ) (rows : Rows)
        → IsDistinct name_eq (keys_of rows)
        → is_there (is_loaded_by client) name (without_loads client rows) ≡ false }
    ensures others { (client : ℕ) (name : List ℕ) (rows : Rows) (domain : Domain)
        → IsDistinct name_eq (keys_of rows) → named name rows ≡ Some domain
        → is_loaded_by client domain ≡ false
        → named name (without_loads client rows) ≡ Some domain }
{}
