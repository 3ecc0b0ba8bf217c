//! Forms of contents.
//!
//! A language of ASN.1 forms with one reading, one relation and one spelling. Readers answer the value of the form,
//! malformed or too deep, each exactly where it is so. What is spelled is read back and says one value (`laws`).
#![tactic(auto)]

mod bits;
mod components;
mod contents;
mod cursor;
mod laws;
mod numbers;
mod put;
mod unread;

pub use bits::{bit_octets, named_bits};
pub use contents::{
    bit_string, boolean, integer, null, signed8, signed16, signed32, unsigned8, unsigned8_in,
    unsigned16, unsigned16_in, unsigned32, visible,
};
pub use cursor::{Cursor, elements, has_tag};
pub use laws::{
    begins_no_other, reads_definite_lengths, reads_the_form, says_one_value, says_the_same_anew,
    spells_one_value, spells_the_value, tells_malformed, tells_too_deep,
};
pub use put::{
    enclose, put_bit_string, put_boolean, put_defaulted_boolean, put_defaulted_integer,
    put_integer, put_null, put_octets, put_optional_boolean, put_optional_i8, put_optional_i16,
    put_optional_i32, put_optional_octets, put_optional_u8, put_optional_u16, put_optional_u32,
    put_universal_integer, settle,
};
pub use unread::Unread;
