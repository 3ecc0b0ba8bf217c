//! Lists of items, and members of them that are sequences.

ghost use Rattle.std.specs.Prelude.{◌≡◌, ℕ, Bool, false, Ok, Err};
ghost use Rattle.ber_forms.specs.Form.{any_number, from_to};
ghost use Rattle.pdu_names.specs.Kinds.{settled, list_of, universal};

use crate::formed::Formed;
use crate::own::{Own, put_each, read_each};
use ber_core::{Memory as Full, Tag, Writer};
use ber_forms::{Cursor, Unread, enclose};
use mms_types::{Edition, Listed};
use std::alloc::Global;
use std::marker::PhantomData;

/// How many members a list may have.
pub trait Count {
    /// There may be so many.
    ghost test: { ℕ → Bool };

    /// Whether there may be so many.
    fn is_count(n: usize) -> bool
        ensures { result ≡ test n };
}

/// Any number of members.
pub struct AnyNumber;

impl Count for AnyNumber {
    ghost test = { any_number };

    fn is_count(_n: usize) -> bool {
        true
    }
}

/// From the first number of members to the second.
pub struct Within<const LEAST: usize, const MOST: usize>;

impl<const LEAST: usize, const MOST: usize> Count for Within<LEAST, MOST> {
    ghost test = { from_to LEAST MOST };

    fn is_count(n: usize) -> bool {
        LEAST <= n && n <= MOST
    }
}

/// The form of a list of what has a tag of its own, with so many members. They are copied.
pub struct ListOf<O: Own, C: Count> {
    of: PhantomData<O>,
    count: PhantomData<C>,
}

impl<O: Own, C: Count> Formed for ListOf<O, C> {
    type Item = Listed<O::Item>;

    ghost kind = { list_of C.test O.item };

    ghost needs_no_memory = { false };

    fn is_constructed() -> bool {
        true
    }

    fn read(alloc: Global, contents: &[u8], edition: Edition) -> Result<Listed<O::Item>, Unread> {
        let found = read_each::<O>(alloc, contents, edition)?;
        if C::is_count(found.len()) {
            Ok(Listed::from(found))
        } else {
            Err(Unread::Malformed)
        }
    }

    #[tactic(auto, unfolding(ber_forms::specs::Spelling::appended))]
    fn put(out: &mut Writer, x: &Listed<O::Item>) -> Result<(), Full> {
        put_each::<O>(out, x.as_slice())
    }

    ghost sound = { O.sound };
}

/// An element of the form F under the universal tag of SEQUENCE (ITU-T X.680, 8.4), as a member of a list.
pub struct InSequence<F: Formed> {
    of: PhantomData<F>,
}

impl<F: Formed> Own for InSequence<F> {
    type Item = F::Item;

    ghost tags = { settled };

    ghost item = { universal 16 F.kind };

    ghost needs_no_memory = { F.needs_no_memory };

    #[tactic(auto, unfolding(ber_forms::specs::Reading::required_by))]
    fn take(alloc: Global, parts: &mut Cursor<'_>, edition: Edition) -> Result<F::Item, Unread> {
        let element = parts.required(Tag {
            class: 0,
            constructed: F::is_constructed(),
            number: 16,
        })?;
        F::read(alloc, element.contents, edition)
    }

    #[tactic(auto, using(ber_forms::proofs::Joined::writing))]
    fn put_own(out: &mut Writer, x: &F::Item) -> Result<(), Full> {
        let since = out.len();
        let written = F::put(out, x);
        let tag = Tag {
            class: 0,
            constructed: F::is_constructed(),
            number: 16,
        };
        enclose(out, since, written, tag)
    }

    ghost sound = { F.sound };
}
