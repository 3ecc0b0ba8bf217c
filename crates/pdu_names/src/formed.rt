//! What a form is in Rust: a type that tells how its items are read and written.

ghost use Rattle.std.specs.Prelude.{◌≡◌, ◌<◌, ◌++◌, Bool, Ok, Err, OnOk, OnErr, IsTrue};
ghost use Rattle.ber_forms.specs.Fits.{is_sound};
ghost use Rattle.ber_forms.specs.Reading.{is_constructed};
ghost use Rattle.ber_forms.specs.Reads.{NeedsNoMemory};
ghost use Rattle.ber_forms.specs.Spelling.{Begins};
ghost use Rattle.mms_types.specs.declared.identifier.Edition.{Edition};
ghost use Rattle.pdu_names.specs.Kinds.{Kind, context};
ghost use Rattle.pdu_names.specs.Gives.{GivesContents, PutsContents, Puts};

use ber_core::{Memory as Full, Tag, Writer};
use ber_forms::{Unread, enclose};
use mms_types::Edition;
use std::alloc::Global;

/// A form of contents, both ways.
pub trait Formed {
    /// What contents of the form say.
    type Item: Drop;

    /// The form in each edition, and what an item says in it.
    ghost kind: { Kind Self.Item };

    /// Reading needs no memory.
    ghost needs_no_memory: { Bool };

    /// Whether an element of the form has the constructed bit (ITU-T X.690, 8.1.2.5).
    fn is_constructed() -> bool
        ensures { (edition : Edition) → is_constructed (kind.form edition) ≡ result };

    /// What the contents say. Malformed or TooDeep exactly where the form's reading is, and Memory where memory
    /// runs out.
    fn read(alloc: Global, contents: &[u8], edition: Edition) -> Result<Self::Item, Unread>
        ensures exact { GivesContents kind edition contents.now result }
        ensures no_memory { IsTrue needs_no_memory → NeedsNoMemory result };

    /// Appends the contents. Where memory runs out, some of them may be appended.
    fn put(out: &mut Writer, x: &Self::Item) -> Result<(), Full>
        ensures ok { PutsContents kind x.now out.old out.new result }
        ensures begins { Begins out.old out.new };

    /// Appends an element under the context tag `number`, or nothing where memory runs out.
    #[tactic(auto, using(ber_forms::proofs::Joined::writing))]
    fn put_part(out: &mut Writer, number: u32, x: &Self::Item) -> Result<(), Full>
        requires { number < 16384 }
        ensures ok { Puts (context number kind) x.now out.old out.new result }
        ensures err { OnErr result (out.new ≡ out.old) }
    {
        let since = out.len();
        let written = Self::put(out, x);
        let tag = Tag {
            class: 2,
            constructed: Self::is_constructed(),
            number,
        };
        enclose(out, since, written, tag)
    }

    ghost sound: { (edition : Edition) → IsTrue (is_sound (kind.form edition)) };
}
