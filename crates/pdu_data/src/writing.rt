//! Data, as it is written.

ghost use Rattle.std.specs.Prelude.{◌≡◌, ◌≤◌, ◌<◌, ◌++◌, Ok, Err, OnOk, OnErr};
ghost use Rattle.ber_core.specs.Spelling.{element_octets};
ghost use Rattle.ber_forms.specs.Form as form;
ghost use Rattle.ber_forms.specs.Spelling.{tag_of, alternative_octets, Begins};
ghost use Rattle.mms_types.specs.Datum.{row, depth};
ghost use Rattle.pdu_data.specs.Data.{data_alternatives, data_value, data_octets, row_octets};

use ber_core::{Bits, Memory as Full, Tag, Writer};
use ber_forms::{enclose, put_bit_string, put_boolean, put_integer, put_octets};
use mms_types::{Data, DataKind};

#[cycle(put)]
fn put_one(out: &mut Writer, item: &Data) -> Result<(), Full>
    ensures ok { OnOk result (out.new ≡ out.old ++ data_octets item.now) }
    ensures err { OnErr result (out.new ≡ out.old) }
    ensures shallow { depth item.now ≤ 10 }
{
    match &item.kind {
        DataKind::Array(items) => put_nested(out, 1, items),
        DataKind::Structure(items) => put_nested(out, 2, items),
        DataKind::Boolean(b) => put_boolean(out, 3, *b),
        DataKind::Bits(bits) => put_bit_string(
            out,
            4,
            Bits {
                unused: bits.unused,
                octets: bits.octets.as_slice(),
            },
        ),
        DataKind::Integer(n) => put_integer(out, 5, *n),
        DataKind::Unsigned(n) => put_integer(out, 6, i64::from(*n)),
        DataKind::Floating(octets) => put_octets(out, 7, octets.as_slice()),
        DataKind::Octets(octets) => put_octets(out, 9, octets.as_slice()),
        DataKind::Visible(octets) => put_octets(out, 10, octets.as_slice()),
        DataKind::Time(octets) => put_octets(out, 12, octets.as_slice()),
    }
}

#[cycle(put)]
#[tactic(auto, using(ber_forms::proofs::Joined::writing))]
fn put_nested(out: &mut Writer, number: u32, items: &[Data]) -> Result<(), Full>
    requires { number < 16384 }
    ensures ok { OnOk result
        (out.new ≡ out.old ++ element_octets
        (tag_of 2 number form.elements) (row_octets (row items.now))) }
    ensures err { OnErr result (out.new ≡ out.old) }
{
    let since = out.len();
    let written = put_all(out, items);
    enclose(out, since, written, Tag::constructed(number))
}

#[cycle(put)]
#[tactic(auto, using(ber_forms::proofs::Joined::begins_more, ber_forms::proofs::Joined::begins_itself))]
fn put_all(out: &mut Writer, items: &[Data]) -> Result<(), Full>
    ensures ok { OnOk result (out.new ≡ out.old ++ row_octets (row items.now)) }
    ensures begins { Begins out.old out.new }
{
    for item in items {
        put_one(out, item)?;
    }
    Ok(())
}

/// Appends data as the element chosen.
pub(crate) fn put_data(out: &mut Writer, item: &Data) -> Result<(), Full>
    ensures ok { OnOk result
        (out.new ≡ out.old ++ alternative_octets (data_alternatives 10) (data_value item.now)) }
    ensures err { OnErr result (out.new ≡ out.old) }
{
    put_one(out, item)
}
