//! Lists of texts.
#![tactic(auto, unfolding(ber_forms::specs::Spelling::appended), using(ber_forms::proofs::Joined::writing))]

ghost use Rattle.std.specs.Prelude.{refl, false};
ghost use Rattle.pdu_names.specs.Kinds.{settled, universal};
ghost use Rattle.pdu_programs.specs.Texts.{capability};

use ber_core::{Memory as Full, Tag, Writer};
use ber_forms::{Cursor, Unread, enclose, put_octets};
use mms_types::{Edition, Octets};
use pdu_names::{AnyNumber, Formed, ListOf, Own, VisibleString, Within};
use std::alloc::Global;
use std::marker::PhantomData;

/// An element of the form F under the universal tag of VisibleString (ITU-T X.680, 8.4), as a member of a list.
pub struct InText<F: Formed> {
    of: PhantomData<F>,
}

impl<F: Formed> Own for InText<F> {
    type Item = F::Item;

    ghost tags = { settled };

    ghost item = { universal 26 F.kind };

    ghost needs_no_memory = { F.needs_no_memory };

    #[tactic(auto, unfolding(ber_forms::specs::Reading::required_by))]
    fn take(alloc: Global, parts: &mut Cursor<'_>, edition: Edition) -> Result<F::Item, Unread> {
        let element = parts.required(Tag {
            class: 0,
            constructed: F::is_constructed(),
            number: 26,
        })?;
        F::read(alloc, element.contents, edition)
    }

    #[tactic(auto, using(ber_forms::proofs::Joined::writing))]
    fn put_own(out: &mut Writer, x: &F::Item) -> Result<(), Full> {
        let since = out.len();
        let written = F::put(out, x);
        let tag = Tag {
            class: 0,
            constructed: F::is_constructed(),
            number: 26,
        };
        enclose(out, since, written, tag)
    }

    ghost sound = { F.sound };
}

/// The form of a text that tells what a domain may use: a VisibleString of at most 64 octets. It is copied.
pub struct Capability;

impl Formed for Capability {
    type Item = Octets;

    ghost kind = { capability };

    ghost needs_no_memory = { false };

    fn is_constructed() -> bool {
        false
    }

    fn read(alloc: Global, contents: &[u8], edition: Edition) -> Result<Octets, Unread> {
        if contents.len() > 64 {
            return Err(Unread::Malformed);
        }
        VisibleString::read(alloc, contents, edition)
    }

    fn put(out: &mut Writer, x: &Octets) -> Result<(), Full> {
        out.raw(x.as_slice())
    }

    fn put_part(out: &mut Writer, number: u32, x: &Octets) -> Result<(), Full> {
        put_octets(out, number, x.as_slice())
    }

    ghost sound = { λ _. refl };
}

/// At most 16 texts that tell what a domain may use.
pub(crate) type ListOfCapabilities = ListOf<InText<Capability>, Within<0, 16>>;

/// Texts.
pub(crate) type ListOfTexts = ListOf<InText<VisibleString>, AnyNumber>;
