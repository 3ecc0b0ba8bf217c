//! What a client sends that the server only takes note of.
#![tactic(auto, unfolding(ber_forms::specs::Spelling::appended), using(ber_forms::proofs::Joined::writing))]

ghost use Rattle.std.specs.Prelude.{◌≡◌, refl, true, Ok, Err, IfOk};
ghost use Rattle.ber_forms.specs.Value.{nothing};
ghost use Rattle.ber_forms.specs.Reading.{Gives, reading};
ghost use Rattle.ber_forms.specs.Reads.{Reads, NeedsNoMemory};
ghost use Rattle.pdu_names.specs.Editions.{lengths_of};
ghost use Rattle.pdu_assoc.specs.Heard.{heard_error, heard_reject_form, answered};

use ber_core::{Memory as Full, Writer};
use ber_forms::{Unread, put_integer};
use mms_types::Edition;
use pdu_names::{Formed, cursor};
use std::alloc::Global;

/// The form of a confirmed-Error that a client sent: its invokeID, and then any elements.
pub struct HeardErrors;

impl Formed for HeardErrors {
    type Item = u32;

    ghost kind = { heard_error };

    ghost needs_no_memory = { true };

    fn is_constructed() -> bool {
        true
    }

    fn read(_alloc: Global, contents: &[u8], edition: Edition) -> Result<u32, Unread> {
        let mut parts = cursor(edition, contents);
        let invoke = parts.required_u32(0)?;
        parts.elements()?;
        Ok(invoke)
    }

    fn put(out: &mut Writer, x: &u32) -> Result<(), Full> {
        put_integer(out, 0, i64::from(*x))
    }

    ghost sound = { λ _. refl };
}

fn reject(alloc: Global, contents: &[u8], edition: Edition) -> Result<Option<u32>, Unread>
    ensures exact { Gives (λ _. nothing) result
        (reading (lengths_of edition) heard_reject_form contents.now) }
    ensures no_memory { NeedsNoMemory result }
    ensures invoke { IfOk result (λ invoke. invoke
        ≡ answered (reading (lengths_of edition) (heard_error.form edition) contents.now)) }
{
    cursor(edition, contents).elements()?;
    match HeardErrors::read(alloc, contents, edition) {
        Ok(invoke) => Ok(Some(invoke)),
        Err(_) => Ok(None),
    }
}

/// The invokeID of a reject that a client sent, where the first element is a [0] with a number of 32 bits. Malformed
/// exactly where the contents are not whole elements.
pub fn read_heard_reject(
    alloc: Global,
    contents: &[u8],
    edition: Edition,
) -> Result<Option<u32>, Unread>
    ensures exact { Gives (λ _. nothing) result
        (reading (lengths_of edition) heard_reject_form contents.now) }
    ensures reads { Reads (lengths_of edition) heard_reject_form
        (λ _. nothing) contents.now result }
    ensures no_memory { NeedsNoMemory result }
    ensures invoke { IfOk result (λ invoke. invoke
        ≡ answered (reading (lengths_of edition) (heard_error.form edition) contents.now)) }
{
    reject(alloc, contents, edition)
}
