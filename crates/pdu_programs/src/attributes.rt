//! A domain is deleted, and told of.
#![tactic(auto, unfolding(ber_forms::specs::Spelling::appended), using(ber_forms::proofs::Joined::writing))]

ghost use Rattle.std.specs.Prelude.{◌≡◌, refl, true, false, Ok, Err};
ghost use Rattle.ber_forms.specs.Reads.{NeedsNoMemory};
ghost use Rattle.pdu_names.specs.Editions.{lengths_of};
ghost use Rattle.pdu_names.specs.Gives.{GivesNext};
ghost use Rattle.pdu_names.specs.Kinds.{context};
ghost use Rattle.pdu_programs.specs.Attributes.{domain_state, domain_attributes};

use crate::texts::ListOfTexts;
use ber_core::{Memory as Full, Tag, Writer};
use ber_forms::{Cursor, Unread, put_boolean, put_integer, unsigned8_in};
use mms_types::{DomainAttributes, DomainState, Edition, Identifier, Identifiers};
use pdu_names::{Formed, cursor, required};
use std::alloc::Global;

/// The form of a DeleteDomain request. The name is copied.
pub type DeleteDomainRequest = Identifier;

/// The form of a GetDomainAttributes request. The name is copied.
pub type GetDomainAttributesRequest = Identifier;

/// The next element, a state of domains.
#[tactic(auto, unfolding(ber_forms::specs::Reading::required_by))]
fn state(parts: &mut Cursor<'_>, edition: Edition) -> Result<DomainState, Unread>
    requires { parts.old.lengths ≡ lengths_of edition }
    ensures exact { GivesNext (context 1 domain_state) edition parts.old parts.new result }
    ensures kept { parts.new.lengths ≡ parts.old.lengths }
    ensures no_memory { NeedsNoMemory result }
{
    let element = parts.required(Tag::primitive(1))?;
    let number = unsigned8_in(element.contents, 1, 3)?;
    Ok(DomainState::numbered(number))
}

/// The form of a GetDomainAttributes answer. Texts and names are copied, in their order.
pub struct GetDomainAttributesResponse;

impl Formed for GetDomainAttributesResponse {
    type Item = DomainAttributes;

    ghost kind = { domain_attributes };

    ghost needs_no_memory = { false };

    fn is_constructed() -> bool {
        true
    }

    fn read(alloc: Global, contents: &[u8], edition: Edition) -> Result<DomainAttributes, Unread> {
        let mut parts = cursor(edition, contents);
        let capabilities = required::<ListOfTexts>(alloc, &mut parts, edition, 0)?;
        let state = state(&mut parts, edition)?;
        let deletable = parts.required_boolean(2)?;
        let sharable = parts.required_boolean(3)?;
        let invocations = required::<Identifiers>(alloc, &mut parts, edition, 4)?;
        let uploads = parts.required_i8(5)?;
        parts.end()?;
        Ok(DomainAttributes {
            capabilities,
            state,
            deletable,
            sharable,
            invocations,
            uploads,
        })
    }

    fn put(out: &mut Writer, x: &DomainAttributes) -> Result<(), Full> {
        ListOfTexts::put_part(out, 0, &x.capabilities)?;
        put_integer(out, 1, i64::from(x.state.number()))?;
        put_boolean(out, 2, x.deletable)?;
        put_boolean(out, 3, x.sharable)?;
        Identifiers::put_part(out, 4, &x.invocations)?;
        put_integer(out, 5, i64::from(x.uploads))
    }

    ghost sound = { λ _. refl };
}
