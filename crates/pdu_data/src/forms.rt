//! Data and types of variables as forms (ISO 9506-2, Data and TypeSpecification).

ghost use Rattle.std.specs.Prelude.{false};
ghost use Rattle.pdu_data.specs.Data.{data_choice, data_sound};
ghost use Rattle.pdu_data.specs.Types.{type_choice, type_sound};

use crate::type_writing::put_type;
use crate::writing::put_data;
use crate::{data, types};
use ber_core::{Element, Memory as Full, Writer};
use ber_forms::Unread;
use mms_types::{Data, Edition, TypeSpec};
use pdu_names::{Chosen, OneOf, lengths};
use std::alloc::Global;

/// The alternatives of data (ISO 9506-2, Data). What is read is copied. Data is too deep exactly where all before some
/// array or structure in it is of its form, and that one nests deeper than 10.
pub struct DataAlternatives;

#[tactic(auto, unfolding(crate::specs::Data::data_choice))]
impl Chosen for DataAlternatives {
    type Item = Data;

    ghost arms = { data_choice };

    ghost needs_no_memory = { false };

    fn of(alloc: Global, element: Element<'_>, edition: Edition) -> Result<Data, Unread> {
        data::one(alloc, lengths(edition), element, 10)
    }

    fn put_chosen(out: &mut Writer, x: &Data) -> Result<(), Full> {
        put_data(out, x)
    }

    ghost sound = { data_sound };
}

/// The form of data: its contents are the one element chosen.
pub type DataValue = OneOf<DataAlternatives>;

/// The alternatives of types (ISO 9506-2, TypeSpecification). What is read is copied. A type is too deep exactly where
/// all before some array or structure in it is of its form, and that one nests deeper than 10.
pub struct TypeAlternatives;

#[tactic(auto, unfolding(crate::specs::Types::type_choice))]
impl Chosen for TypeAlternatives {
    type Item = TypeSpec;

    ghost arms = { type_choice };

    ghost needs_no_memory = { false };

    fn of(alloc: Global, element: Element<'_>, edition: Edition) -> Result<TypeSpec, Unread> {
        types::one(alloc, element, edition, 10)
    }

    fn put_chosen(out: &mut Writer, x: &TypeSpec) -> Result<(), Full> {
        put_type(out, x)
    }

    ghost sound = { type_sound };
}

/// The form of types: its contents are the one element chosen.
pub type TypeSpecification = OneOf<TypeAlternatives>;
