//! What holds of whole PDUs.

ghost use Rattle.std.specs.Prelude.{◌≡◌, ◌≢◌, ◌<◌, ◌^◌, ◌++◌, ◌↔◌, ℕ, true, List, length, slice_index, Ok, Err};
ghost use Rattle.ber_core.specs.declared.element.Lengths.{Lengths};
ghost use Rattle.ber_core.specs.declared.element.Lengths.TheVariants.{Definite, Either};
ghost use Rattle.ber_core.specs.Part.{Part};
ghost use Rattle.ber_core.specs.Element.{IsElement};
ghost use Rattle.ber_core.specs.Respelling.{definite};
ghost use Rattle.ber_forms.specs.Value.{Value, chosen};
ghost use Rattle.ber_forms.specs.Form.{choice};
ghost use Rattle.ber_forms.specs.InForm.{InForm};
ghost use Rattle.mms_types.specs.declared.identifier.Edition.{Edition};
ghost use Rattle.mms_types.specs.declared.identifier.Edition.TheVariants.{One, Two};
ghost use Rattle.mms_types.specs.declared.pdu.Pdu.{Pdu};
ghost use Rattle.mms_types.specs.declared.pdu.Pdu.TheVariants as pdu;
ghost use Rattle.mms_types.specs.declared.pdu.Request.{Request};
ghost use Rattle.mms_types.specs.declared.semaphore.Modifier.{Modifier};
ghost use Rattle.pdu_names.specs.Editions.{lengths_of};
ghost use Rattle.mms_pdu.specs.declared.refusal.Refusal.{Refusal};
ghost use Rattle.mms_pdu.specs.declared.refusal.Refusal.TheVariants.{Memory};
ghost use Rattle.mms_pdu.specs.Pdus.{pdu_value, pdu_octets};
ghost use Rattle.mms_pdu.specs.Hearing.{whole_pdus, heard};
ghost use Rattle.mms_pdu.specs.Heard.{pdu_heard};
ghost use Rattle.mms_pdu.specs.ClientPdus.{IsKeptAs};
ghost use Rattle.mms_pdu.specs.Refused.{IsRefused};
ghost use Rattle.mms_pdu.specs.Asking.{IsAsking};
ghost use Rattle.mms_pdu.specs.Answering.{IsAnswer, is_answer, HasUnsigned32, IsSent};

/// Octets of the form of a PDU that a client may send and that is kept whole are heard as what they say, and what is
/// heard as such a PDU is of its form. All other PDUs that are heard are a reject, under the number 4, a
/// confirmed-Request with a modifier, which is no choice but its parts, and those of which nothing is kept. The invokeID
/// of a confirmed-Request that is heard is an Unsigned32.
pub fn hears_each_form()
    ensures heard { (lengths : Lengths) (edition : Edition) (c : List ℕ) (v : Value)
        → InForm lengths (choice (whole_pdus edition)) c v → heard lengths edition c ≡ Ok v }
    ensures only { (lengths : Lengths) (edition : Edition) (c : List ℕ) (n : ℕ) (w : Value)
        → ((i : ℕ) → slice_index c i < 256) → n ≢ 4
        → heard lengths edition c ≡ Ok (chosen n w)
        → InForm lengths (choice (whole_pdus edition)) c (chosen n w) }
    ensures invoke { (edition : Edition) (octets : List ℕ) (invoke : ℕ) (request : Request)
        → pdu_heard edition octets ≡ Ok (pdu.ConfirmedRequest invoke request) → invoke < 2 ^ 32 }
    ensures modified { (edition : Edition) (octets : List ℕ) (invoke : ℕ) (modifier : Modifier)
        (request : Request) → pdu_heard edition octets
        ≡ Ok (pdu.ModifiedRequest invoke modifier request) → invoke < 2 ^ 32 }
{}

/// Of each edition, a confirmed-Request without modifiers, a cancel-Request, an initiate-Request and a
/// conclude-Request have one spelling each, which is heard as what was spelled and as nothing else. None of these
/// spellings begins another.
pub fn spells_each_asking()
    ensures heard { (lengths : Lengths) (edition : Edition) (p : Pdu) → IsAsking edition p
        → length (pdu_octets p) < 2 ^ 64 → heard lengths edition (pdu_octets p) ≡ Ok (pdu_value p) }
    ensures only { (lengths : Lengths) (edition : Edition) (p q : Pdu) → IsAsking edition p
        → length (pdu_octets p) < 2 ^ 64 → heard lengths edition (pdu_octets p) ≡ Ok (pdu_value q)
        → p ≡ q }
    ensures one { (edition : Edition) (p q : Pdu) → IsAsking edition p → IsAsking edition q
        → length (pdu_octets p) < 2 ^ 64 → pdu_octets p ≡ pdu_octets q → p ≡ q }
    ensures whole { (edition : Edition) (p q : Pdu) (a b : List ℕ) → IsAsking edition p
        → IsAsking edition q → length (pdu_octets p) < 2 ^ 64 → length (pdu_octets q) < 2 ^ 64
        → pdu_octets p ++ a ≡ pdu_octets q ++ b → pdu_octets p ≡ pdu_octets q }
{}

/// What octets are heard as, of each edition and whichever forms of lengths are read, is told by conditions on the whole
/// octets, and not by how they are read: they are heard as a PDU exactly where they are one that a client may send, and
/// as what is kept of it, and refused exactly by the first cause that holds of them.
pub fn hears_what_the_octets_are()
    ensures kept { (lengths : Lengths) (edition : Edition) (c : List ℕ) (v : Value)
        → ((i : ℕ) → slice_index c i < 256)
        → (heard lengths edition c ≡ Ok v) ↔ IsKeptAs lengths edition c v }
    ensures refused { (lengths : Lengths) (edition : Edition) (c : List ℕ) (refusal : Refusal)
        → ((i : ℕ) → slice_index c i < 256)
        → (heard lengths edition c ≡ Err refusal) ↔ IsRefused lengths edition c refusal }
{}

/// What octets are heard as is a refusal exactly where it is that of the first cause that holds of them. Want of memory
/// is no cause.
pub fn refusals_have_the_first_cause()
    ensures cause { (edition : Edition) (octets : List ℕ) (refusal : Refusal)
        → ((i : ℕ) → slice_index octets i < 256)
        → (pdu_heard edition octets ≡ Err refusal)
        ↔ IsRefused (lengths_of edition) edition octets refusal }
    ensures memory { (edition : Edition) (octets : List ℕ)
        → IsRefused (lengths_of edition) edition octets Memory → ⊥ }
{}

/// Octets alone tell whether a PDU answers a request, and which: it is a confirmed response or a confirmed error of an
/// invokeID exactly where its octets are an element of the tag of one, whose first component is that invokeID. So no
/// two PDUs with the same octets answer otherwise, however long they are.
pub fn an_answer_is_told_by_its_octets()
    ensures octets { (invoke : ℕ) (p : Pdu) → HasUnsigned32 p
        → (is_answer invoke p ≡ true) ↔ IsAnswer invoke (pdu_octets p) }
    ensures alike { (p q : Pdu) → HasUnsigned32 p → HasUnsigned32 q → pdu_octets p ≡ pdu_octets q
        → (invoke : ℕ) → is_answer invoke p ≡ is_answer invoke q }
{}

/// Of each edition, the PDUs that a server sends have one spelling each: two with the same octets are one PDU. None of
/// these spellings begins another. The invokeID of an answer is an Unsigned32.
pub fn spells_each_sent()
    ensures one { (edition : Edition) (p q : Pdu) → IsSent edition p → IsSent edition q
        → length (pdu_octets p) < 2 ^ 64 → pdu_octets p ≡ pdu_octets q → p ≡ q }
    ensures whole { (edition : Edition) (p q : Pdu) (a b : List ℕ) → IsSent edition p
        → IsSent edition q → length (pdu_octets p) < 2 ^ 64 → length (pdu_octets q) < 2 ^ 64
        → pdu_octets p ++ a ≡ pdu_octets q ++ b → pdu_octets p ≡ pdu_octets q }
    ensures invoke { (edition : Edition) (p : Pdu) → IsSent edition p → HasUnsigned32 p }
{}

/// What edition 1 keeps of octets, edition 2 keeps too, the same. What is kept of an unconfirmed PDU, a cancel-Response
/// and a cancel-Error is nothing.
pub fn edition_2_keeps_what_edition_1_keeps()
    ensures { (octets : List ℕ) (v : Value) → IsKeptAs Definite One octets v
        → IsKeptAs Either Two octets v }
{}

/// Of an element of either kind of length (ITU-T X.690, 8.1.3) the same is kept as of the same element with definite
/// lengths alone. These are spelled where they are shorter than 2^64 octets, since no more than eight octets tell a
/// length. What is kept of an unconfirmed PDU, a cancel-Response and a cancel-Error is nothing, whatever their contents.
/// Contents of a definite length that are no elements stay as they are, since only who reads them looks into them.
pub fn keeps_the_same_with_definite_lengths()
    ensures { (edition : Edition) (octets : List ℕ) (p : Part) (v : Value)
        → ((i : ℕ) → slice_index octets i < 256) → IsElement Either octets p
        → length (definite octets) < 2 ^ 64
        → IsKeptAs Either edition octets v ↔ IsKeptAs Either edition (definite octets) v }
{}
