//! Variable lists: their definition, their attributes and their deletion.
#![tactic(auto, unfolding(ber_forms::specs::Spelling::appended), using(ber_forms::proofs::Joined::writing))]

ghost use Rattle.std.specs.Prelude.{refl, true, false};
ghost use Rattle.pdu_names.specs.Names.{names_sound};
ghost use Rattle.pdu_vars.specs.Variables.{specifications_sound};
ghost use Rattle.pdu_vars.specs.Lists.{define_list, list_attributes};

use crate::named::{DeleteVariableAccessRequest, DeleteVariableAccessResponse};
use crate::variables::{ListedVariable, Variables};
use ber_core::{Memory as Full, Writer};
use ber_forms::{Unread, put_boolean};
use mms_types::{DefineNamedVariableList, Edition, ListAttributes};
use pdu_names::{AnyNumber, Formed, InSequence, ListOf, Name, Own, cursor, required};
use std::alloc::Global;

/// Those that a variable list may have: 1 to 64.
type DefinedVariables = Variables<1, 64>;

/// Those of a list that is there, in its answer.
type GivenVariables = ListOf<InSequence<ListedVariable>, AnyNumber>;

/// The form of a DefineNamedVariableList request, of 1 to 64 variables. Names are copied.
pub struct DefineNamedVariableListRequest;

impl Formed for DefineNamedVariableListRequest {
    type Item = DefineNamedVariableList;

    ghost kind = { define_list };

    ghost needs_no_memory = { false };

    fn is_constructed() -> bool {
        true
    }

    fn read(
        alloc: Global,
        contents: &[u8],
        edition: Edition,
    ) -> Result<DefineNamedVariableList, Unread> {
        let mut parts = cursor(edition, contents);
        let name = Name::take(alloc, &mut parts, edition)?;
        let variables = required::<DefinedVariables>(alloc, &mut parts, edition, 0)?;
        parts.end()?;
        Ok(DefineNamedVariableList { name, variables })
    }

    fn put(out: &mut Writer, x: &DefineNamedVariableList) -> Result<(), Full> {
        Name::put_own(out, &x.name)?;
        DefinedVariables::put_part(out, 0, &x.variables)
    }

    ghost sound = { λ e. rw (names_sound e, specifications_sound e) refl };
}

/// The form of a GetNamedVariableListAttributes request. The name is copied.
pub type GetNamedVariableListAttributesRequest = Name;

/// The form of a GetNamedVariableListAttributes answer. Names are copied.
pub struct GetNamedVariableListAttributesResponse;

impl Formed for GetNamedVariableListAttributesResponse {
    type Item = ListAttributes;

    ghost kind = { list_attributes };

    ghost needs_no_memory = { false };

    fn is_constructed() -> bool {
        true
    }

    fn read(alloc: Global, contents: &[u8], edition: Edition) -> Result<ListAttributes, Unread> {
        let mut parts = cursor(edition, contents);
        let deletable = parts.required_boolean(0)?;
        let variables = required::<GivenVariables>(alloc, &mut parts, edition, 1)?;
        parts.end()?;
        Ok(ListAttributes {
            deletable,
            variables,
        })
    }

    fn put(out: &mut Writer, x: &ListAttributes) -> Result<(), Full> {
        put_boolean(out, 0, x.deletable)?;
        GivenVariables::put_part(out, 1, &x.variables)
    }

    ghost sound = { λ e. rw (specifications_sound e) refl };
}

/// The form of a DeleteNamedVariableList request: that of a DeleteVariableAccess request.
pub type DeleteNamedVariableListRequest = DeleteVariableAccessRequest;

/// The form of a DeleteNamedVariableList answer: that of a DeleteVariableAccess answer.
pub type DeleteNamedVariableListResponse = DeleteVariableAccessResponse;
