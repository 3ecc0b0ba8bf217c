//! Semaphores: their definition, and what they are and have.
#![tactic(auto, unfolding(ber_forms::specs::Spelling::appended), using(ber_forms::proofs::Joined::writing))]

ghost use Rattle.std.specs.Prelude.{◌≡◌, refl, true, false, Ok, Err};
ghost use Rattle.pdu_names.specs.Editions.{lengths_of};
ghost use Rattle.pdu_names.specs.Gives.{GivesNext};
ghost use Rattle.pdu_names.specs.Names.{names_sound};
ghost use Rattle.pdu_names.specs.Kinds.{context, natural};
ghost use Rattle.ber_forms.specs.Reads.{NeedsNoMemory};
ghost use Rattle.pdu_sems.specs.Definitions.{define_semaphore, semaphore_class, semaphore_status};

use ber_core::{Memory as Full, Tag, Writer};
use ber_forms::{Cursor, Unread, put_boolean, put_integer, unsigned8_in};
use mms_types::{DefineSemaphore, Edition, SemaphoreClass, SemaphoreStatus};
use pdu_names::{Formed, Name, cursor, required};
use std::alloc::Global;

/// The next element, a number of tokens.
fn tokens(parts: &mut Cursor<'_>, edition: Edition) -> Result<u16, Unread>
    requires { parts.old.lengths ≡ lengths_of edition }
    ensures exact { GivesNext (context 1 (natural 1 65535)) edition parts.old parts.new result }
    ensures kept { parts.new.lengths ≡ parts.old.lengths }
    ensures no_memory { NeedsNoMemory result }
{
    parts.required_u16_in(1, 1, 65535)
}

/// The form of a DefineSemaphore request, of at least one token. The name is copied.
pub struct DefineSemaphoreRequest;

impl Formed for DefineSemaphoreRequest {
    type Item = DefineSemaphore;

    ghost kind = { define_semaphore };

    ghost needs_no_memory = { false };

    fn is_constructed() -> bool {
        true
    }

    fn read(alloc: Global, contents: &[u8], edition: Edition) -> Result<DefineSemaphore, Unread> {
        let mut parts = cursor(edition, contents);
        let name = required::<Name>(alloc, &mut parts, edition, 0)?;
        let tokens = tokens(&mut parts, edition)?;
        parts.end()?;
        Ok(DefineSemaphore { name, tokens })
    }

    fn put(out: &mut Writer, x: &DefineSemaphore) -> Result<(), Full> {
        Name::put_part(out, 0, &x.name)?;
        put_integer(out, 1, i64::from(x.tokens))
    }

    ghost sound = { λ e. rw (names_sound e) refl };
}

/// The form of a DeleteSemaphore request. The name is copied.
pub type DeleteSemaphoreRequest = Name;

/// The form of a ReportSemaphoreStatus request. The name is copied.
pub type ReportSemaphoreStatusRequest = Name;

/// The next element, a class of semaphores.
#[tactic(auto, unfolding(ber_forms::specs::Reading::required_by))]
fn class(parts: &mut Cursor<'_>, edition: Edition) -> Result<SemaphoreClass, Unread>
    requires { parts.old.lengths ≡ lengths_of edition }
    ensures exact { GivesNext (context 1 semaphore_class) edition parts.old parts.new result }
    ensures kept { parts.new.lengths ≡ parts.old.lengths }
    ensures no_memory { NeedsNoMemory result }
{
    let element = parts.required(Tag::primitive(1))?;
    let number = unsigned8_in(element.contents, 0, 1)?;
    Ok(SemaphoreClass::numbered(number))
}

/// The form of a ReportSemaphoreStatus answer.
pub struct ReportSemaphoreStatusResponse;

impl Formed for ReportSemaphoreStatusResponse {
    type Item = SemaphoreStatus;

    ghost kind = { semaphore_status };

    ghost needs_no_memory = { true };

    fn is_constructed() -> bool {
        true
    }

    fn read(_alloc: Global, contents: &[u8], edition: Edition) -> Result<SemaphoreStatus, Unread> {
        let mut parts = cursor(edition, contents);
        let deletable = parts.required_boolean(0)?;
        let class = class(&mut parts, edition)?;
        let tokens = parts.required_u16(2)?;
        let owned = parts.required_u16(3)?;
        let hung = parts.required_u16(4)?;
        parts.end()?;
        Ok(SemaphoreStatus {
            deletable,
            class,
            tokens,
            owned,
            hung,
        })
    }

    fn put(out: &mut Writer, x: &SemaphoreStatus) -> Result<(), Full> {
        put_boolean(out, 0, x.deletable)?;
        put_integer(out, 1, i64::from(x.class.number()))?;
        put_integer(out, 2, i64::from(x.tokens))?;
        put_integer(out, 3, i64::from(x.owned))?;
        put_integer(out, 4, i64::from(x.hung))
    }

    ghost sound = { λ _. refl };
}
