//! Contents of each form, read and written whole.

ghost use Rattle.std.specs.Prelude.{◌≡◌, ◌++◌, Ok, Err, OnOk, OnErr, IsTrue, is_ok};
ghost use Rattle.ber_forms.specs.Reads.{Reads, NeedsNoMemory};
ghost use Rattle.ber_forms.specs.Spelling.{spelling};
ghost use Rattle.mms_types.specs.Spelling.{widest};
ghost use Rattle.pdu_names.specs.Editions.{lengths_of};
ghost use Rattle.pdu_names.specs.Gives.{GivesContents};

use crate::formed::Formed;
use ber_core::{Memory as Full, Writer};
use ber_forms::{Unread, settle};
use mms_types::{Edition, Memory};
use std::alloc::Global;

/// What the contents say. Malformed exactly where they are not of the form, and TooDeep exactly where all before some
/// part is of its form and that part nests too deep, unless memory runs out.
pub fn read_form<F: Formed>(
    alloc: Global,
    contents: &[u8],
    edition: Edition,
) -> Result<F::Item, Unread>
    ensures exact { GivesContents F.kind edition contents.now result }
    ensures reads { Reads (lengths_of edition)
        (F.kind.form edition) F.kind.value contents.now result }
    ensures no_memory { IsTrue F.needs_no_memory → NeedsNoMemory result }
{
    F::read(alloc, contents, edition)
}

/// What writing came to, with want of memory in the type that callers of this crate know.
pub fn as_memory(written: Result<(), Full>) -> Result<(), Memory>
    ensures { is_ok result ≡ is_ok written }
{
    match written {
        Ok(()) => Ok(()),
        Err(_) => Err(Memory::wanting()),
    }
}

/// Appends the one spelling, as contents, or nothing where memory runs out.
#[tactic(auto, using(ber_forms::proofs::Joined::writing))]
pub fn write_form<F: Formed>(out: &mut Writer, x: &F::Item) -> Result<(), Memory>
    ensures ok { OnOk result (out.new
        ≡ out.old ++ spelling (F.kind.form widest) (F.kind.value x.now)) }
    ensures err { OnErr result (out.new ≡ out.old) }
{
    let since = out.len();
    let written = F::put(out, x);
    as_memory(settle(out, since, written))
}
