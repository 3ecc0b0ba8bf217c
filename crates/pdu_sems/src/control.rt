//! A token is taken and given back, and a request waits for one.
#![tactic(auto, unfolding(ber_forms::specs::Spelling::appended), using(ber_forms::proofs::Joined::writing))]

ghost use Rattle.std.specs.Prelude.{◌≡◌, refl, true, false, Ok, Err};
ghost use Rattle.ber_forms.specs.Reads.{NeedsNoMemory};
ghost use Rattle.ber_forms.specs.Steps.{DefaultedGives};
ghost use Rattle.pdu_names.specs.Editions.{lengths_of};
ghost use Rattle.pdu_names.specs.Names.{names_sound};
ghost use Rattle.pdu_names.specs.Kinds.{context};
ghost use Rattle.pdu_sems.specs.Control.{priority, take_control, take_control_answers, relinquish_control, modifier, modifiers};

use ber_core::{Element, Memory as Full, Tag, Writer};
use ber_forms::{
    Cursor, Unread, has_tag, null, put_defaulted_boolean, put_defaulted_integer, put_null,
    put_optional_boolean, put_optional_u32,
};
use mms_types::{Edition, Identifier, Modifier, RelinquishControl, TakeControl, TakeControlAnswer};
use pdu_names::{
    ApplicationReference, Chosen, Formed, Name, OneOf, cursor, optional, put_optional, required,
};
use std::alloc::Global;

/// The next element, a priority under the context tag `number`, or 64 where it is missing.
pub(crate) fn priority(parts: &mut Cursor<'_>, edition: Edition, number: u32) -> Result<u8, Unread>
    requires { parts.old.lengths ≡ lengths_of edition }
    ensures exact { DefaultedGives priority.value ((context number priority).member edition)
        (priority.value 64) parts.old parts.new result }
    ensures kept { parts.new.lengths ≡ parts.old.lengths }
    ensures no_memory { NeedsNoMemory result }
{
    parts.defaulted_u8_in(number, 0, 127, 64)
}

/// The form of a TakeControl request. Names are copied.
pub struct TakeControlRequest;

impl Formed for TakeControlRequest {
    type Item = TakeControl;

    ghost kind = { take_control };

    ghost needs_no_memory = { false };

    fn is_constructed() -> bool {
        true
    }

    #[tactic(auto, unfolding(ber_forms::specs::Reading::optional_part, ber_forms::specs::Reading::optional_by, ber_core::specs::Reading::identifier_at, ber_forms::specs::Reading::defaulting, ber_forms::specs::Reading::at_end))]
    fn read(alloc: Global, contents: &[u8], edition: Edition) -> Result<TakeControl, Unread> {
        let mut parts = cursor(edition, contents);
        let name = required::<Name>(alloc, &mut parts, edition, 0)?;
        // Mostly nothing else is said.
        if parts.is_empty() {
            return Ok(TakeControl {
                name,
                token: None,
                priority: 64,
                delay: None,
                control: None,
                abort: None,
                relinquish: true,
                preempt: None,
            });
        }
        let token = optional::<Identifier>(alloc, &mut parts, edition, 1)?;
        let priority = priority(&mut parts, edition, 2)?;
        let delay = parts.optional_u32(3)?;
        let control = parts.optional_u32(4)?;
        let abort = parts.optional_boolean(5)?;
        let relinquish = parts.defaulted_boolean(6, true)?;
        let preempt = optional::<ApplicationReference>(alloc, &mut parts, edition, 7)?;
        parts.end()?;
        Ok(TakeControl {
            name,
            token,
            priority,
            delay,
            control,
            abort,
            relinquish,
            preempt,
        })
    }

    fn put(out: &mut Writer, x: &TakeControl) -> Result<(), Full> {
        Name::put_part(out, 0, &x.name)?;
        put_optional::<Identifier>(out, 1, x.token.as_ref())?;
        put_defaulted_integer(out, 2, i64::from(x.priority), 64)?;
        put_optional_u32(out, 3, x.delay)?;
        put_optional_u32(out, 4, x.control)?;
        put_optional_boolean(out, 5, x.abort)?;
        put_defaulted_boolean(out, 6, x.relinquish, true)?;
        put_optional::<ApplicationReference>(out, 7, x.preempt.as_ref())
    }

    ghost sound = { λ e. rw (names_sound e) refl };
}

/// The alternatives of a TakeControl answer. The token's name is copied.
pub struct TakeControlAlternatives;

impl Chosen for TakeControlAlternatives {
    type Item = TakeControlAnswer;

    ghost arms = { take_control_answers };

    ghost needs_no_memory = { false };

    fn of(
        alloc: Global,
        element: Element<'_>,
        edition: Edition,
    ) -> Result<TakeControlAnswer, Unread> {
        let Element { tag, contents } = element;
        if has_tag(tag, Tag::primitive(0)) {
            null(contents)?;
            Ok(TakeControlAnswer::NoResult)
        } else if has_tag(tag, Tag::primitive(1)) {
            let name = <Identifier as Formed>::read(alloc, contents, edition)?;
            Ok(TakeControlAnswer::NamedToken(name))
        } else {
            Err(Unread::Malformed)
        }
    }

    fn put_chosen(out: &mut Writer, x: &TakeControlAnswer) -> Result<(), Full> {
        match x {
            TakeControlAnswer::NoResult => put_null(out, 0),
            TakeControlAnswer::NamedToken(name) => Identifier::put_part(out, 1, name),
        }
    }

    ghost sound = { λ _. refl };
}

/// The form of a TakeControl answer. The token's name is copied.
pub type TakeControlResponse = OneOf<TakeControlAlternatives>;

/// The form of a RelinquishControl request. Names are copied.
pub struct RelinquishControlRequest;

impl Formed for RelinquishControlRequest {
    type Item = RelinquishControl;

    ghost kind = { relinquish_control };

    ghost needs_no_memory = { false };

    fn is_constructed() -> bool {
        true
    }

    fn read(alloc: Global, contents: &[u8], edition: Edition) -> Result<RelinquishControl, Unread> {
        let mut parts = cursor(edition, contents);
        let name = required::<Name>(alloc, &mut parts, edition, 0)?;
        let token = optional::<Identifier>(alloc, &mut parts, edition, 1)?;
        parts.end()?;
        Ok(RelinquishControl { name, token })
    }

    fn put(out: &mut Writer, x: &RelinquishControl) -> Result<(), Full> {
        Name::put_part(out, 0, &x.name)?;
        put_optional::<Identifier>(out, 1, x.token.as_ref())
    }

    ghost sound = { λ e. rw (names_sound e) refl };
}

/// The form of a modifier (ISO 9506-2, AttachToSemaphore): that of a TakeControl request without its last component.
/// Names are copied.
pub struct SemaphoreModifier;

impl Formed for SemaphoreModifier {
    type Item = Modifier;

    ghost kind = { modifier };

    ghost needs_no_memory = { false };

    fn is_constructed() -> bool {
        true
    }

    fn read(alloc: Global, contents: &[u8], edition: Edition) -> Result<Modifier, Unread> {
        let mut parts = cursor(edition, contents);
        let name = required::<Name>(alloc, &mut parts, edition, 0)?;
        let token = optional::<Identifier>(alloc, &mut parts, edition, 1)?;
        let priority = priority(&mut parts, edition, 2)?;
        let delay = parts.optional_u32(3)?;
        let control = parts.optional_u32(4)?;
        let abort = parts.optional_boolean(5)?;
        let relinquish = parts.defaulted_boolean(6, true)?;
        // Nothing follows: a modifier takes no token over.
        parts.end()?;
        Ok(Modifier {
            name,
            token,
            priority,
            delay,
            control,
            abort,
            relinquish,
        })
    }

    fn put(out: &mut Writer, x: &Modifier) -> Result<(), Full> {
        Name::put_part(out, 0, &x.name)?;
        put_optional::<Identifier>(out, 1, x.token.as_ref())?;
        put_defaulted_integer(out, 2, i64::from(x.priority), 64)?;
        put_optional_u32(out, 3, x.delay)?;
        put_optional_u32(out, 4, x.control)?;
        put_optional_boolean(out, 5, x.abort)?;
        put_defaulted_boolean(out, 6, x.relinquish, true)
    }

    ghost sound = { λ e. rw (names_sound e) refl };
}

/// The form of a list of modifiers: exactly one, that attaches to a semaphore. Names are copied.
pub struct ModifierList;

impl Formed for ModifierList {
    type Item = Modifier;

    ghost kind = { modifiers };

    ghost needs_no_memory = { false };

    fn is_constructed() -> bool {
        true
    }

    fn read(alloc: Global, contents: &[u8], edition: Edition) -> Result<Modifier, Unread> {
        let mut parts = cursor(edition, contents);
        let modifier = required::<SemaphoreModifier>(alloc, &mut parts, edition, 1)?;
        parts.end()?;
        Ok(modifier)
    }

    fn put(out: &mut Writer, x: &Modifier) -> Result<(), Full> {
        SemaphoreModifier::put_part(out, 1, x)
    }

    ghost sound = { λ e. rw (names_sound e) refl };
}
