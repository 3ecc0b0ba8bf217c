//! Whether entries are of their form. All that were read are.

ghost use Rattle.std.specs.Prelude.{◌≡◌, ◌≤◌, ◌*◌, ◌/◌, ◌^◌, ◌==◌, pos, true, IsTrue};
ghost use Rattle.ber_forms.specs.Fits.{Fits};
ghost use Rattle.ber_forms.specs.Form.{are_visible, bit_string, int64, unsigned32};
ghost use Rattle.ber_forms.specs.Value as value;
ghost use Rattle.mms_types.specs.Datum.{row};
ghost use Rattle.mms_types.specs.Spelling.{IsName};
ghost use Rattle.mms_types.specs.declared.identifier.Edition.TheVariants.{Two};
ghost use Rattle.pdu_names.specs.Kinds.{IsOf, choice};
ghost use Rattle.pdu_names.specs.Names.{names};
ghost use Rattle.pdu_events.specs.Entries.{journal_entry};
ghost use Rattle.mms_journal.specs.Formed.{AreFormed, AreVariables, IsContent, IsFormed, IsVariable};

use mms_types::{
    BitString, Data, DataKind, EntryContent, Identifier, JournalEntry, JournalVariable, ObjectName,
};

/// Whether the octets are those of a VisibleString.
fn are_visible(octets: &[u8]) -> bool
    ensures { result ≡ are_visible octets.now }
{
    octets.iter().all(|&octet| 32 <= octet && octet <= 126)
}

/// Whether the so many low bits of an octet are 0.
fn is_cleared(octet: u8, unused: u8) -> bool
    requires { unused ≤ 7 }
    ensures { result ≡ (octet / 2 ^ unused * 2 ^ unused == octet) }
{
    let unit = match unused {
        0 => 1,
        1 => 2,
        2 => 4,
        3 => 8,
        4 => 16,
        5 => 32,
        6 => 64,
        _ => 128,
    };
    octet / unit * unit == octet
}

/// Whether no unused bit is set, and no more bits are unused than there can be.
fn is_clear(unused: u8, octets: &[u8]) -> bool
    ensures fits { IsTrue result → Fits bit_string (value.bits unused octets.now) }
    ensures all { Fits bit_string (value.bits unused octets.now) → IsTrue result }
{
    match octets {
        [] => unused == 0,
        [.., last] => unused <= 7 && is_cleared(*last, unused),
    }
}

/// A number of 64 bits is of its form.
fn is_signed(_n: i64) -> bool
    ensures always { result ≡ true }
    ensures fits { Fits int64 (value.number _n) }
{
    true
}

/// A number of 32 bits without a sign is of its form.
fn is_unsigned(_n: u32) -> bool
    ensures always { result ≡ true }
    ensures fits { Fits unsigned32 (value.number (pos _n)) }
{
    true
}

/// Whether data is of its form.
#[cycle(formed)]
fn is_formed_data(item: &Data) -> bool
    ensures formed { IsTrue result → IsFormed item.now }
    ensures all { IsFormed item.now → IsTrue result }
{
    match &item.kind {
        DataKind::Array(items) => are_formed_data(items),
        DataKind::Structure(items) => are_formed_data(items),
        DataKind::Bits(bits) => is_clear(bits.unused, bits.octets.as_slice()),
        DataKind::Visible(octets) => are_visible(octets.as_slice()),
        DataKind::Integer(n) => is_signed(*n),
        DataKind::Unsigned(n) => is_unsigned(*n),
        DataKind::Boolean(_) => true,
        DataKind::Floating(_) => true,
        DataKind::Octets(_) => true,
        DataKind::Time(_) => true,
    }
}

#[cycle(formed)]
fn are_formed_data(items: &[Data]) -> bool
    ensures formed { IsTrue result → AreFormed (row items.now) }
    ensures all { AreFormed (row items.now) → IsTrue result }
{
    for item in items {
        if !is_formed_data(item) {
            return false;
        }
    }
    true
}

/// Whether a variable is of its form.
fn is_variable(variable: &JournalVariable) -> bool
    ensures variable { IsTrue result → IsVariable variable.now }
    ensures all { IsVariable variable.now → IsTrue result }
{
    let _depth = variable.value.depth();
    are_visible(variable.tag.as_slice()) && is_formed_data(&variable.value)
}

/// Whether variables are of their form.
fn are_variables(variables: &[JournalVariable]) -> bool
    ensures variables { IsTrue result → AreVariables variables.now }
    ensures all { AreVariables variables.now → IsTrue result }
{
    for variable in variables {
        if !is_variable(variable) {
            return false;
        }
    }
    true
}

/// An identifier is one.
fn is_identifier(name: &Identifier) -> bool
    ensures always { result ≡ true }
    ensures name { IsName name.now }
{
    let _octets = name.octets();
    true
}

/// A name is of its form.
#[tactic(auto, unfolding(pdu_names::specs::Names::names))]
fn is_name(name: &ObjectName) -> bool
    ensures always { result ≡ true }
    ensures name { IsOf (choice names) Two name.now }
{
    match name {
        ObjectName::Vmd(item) => is_identifier(item),
        ObjectName::Domain { domain, item } => is_identifier(domain) && is_identifier(item),
        ObjectName::Association(item) => is_identifier(item),
    }
}

/// Whether what an entry says is of its form.
fn is_content(content: &EntryContent) -> bool
    ensures content { IsTrue result → IsContent content.now }
    ensures all { IsContent content.now → IsTrue result }
{
    match content {
        EntryContent::Data {
            event: Some(event),
            variables: Some(variables),
        } => is_name(&event.name) && are_variables(variables.as_slice()),
        EntryContent::Data {
            event: Some(event),
            variables: None,
        } => is_name(&event.name),
        EntryContent::Data {
            event: None,
            variables: Some(variables),
        } => are_variables(variables.as_slice()),
        EntryContent::Data {
            event: None,
            variables: None,
        } => true,
        EntryContent::Text(text) => are_visible(text.as_slice()),
    }
}

/// Whether an entry is of its form: all that were read are.
pub(crate) fn is_formed(entry: &JournalEntry) -> bool
    ensures entry { IsTrue result → IsOf journal_entry Two entry.now }
    ensures all { IsContent entry.now.content → IsTrue result }
{
    is_content(&entry.content)
}
