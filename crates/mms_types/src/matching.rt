//! Whether data is of a type.

ghost use Rattle.std.specs.Prelude.{◌≡◌, ◌≤◌, ◌==◌, ◌-◌, ◌*◌, nat_le};
ghost use Rattle.mms_types.specs.Datum.{row, boolean, bits, integer, unsigned, floating, octets, visible, time};
ghost use Rattle.mms_types.specs.Datum as datum;
ghost use Rattle.mms_types.specs.SeenType.{fields};
ghost use Rattle.mms_types.specs.Matches.{matches, all_match, each_matches, has_length, has_width, has_unsigned_width, format_octets, time_octets};

use crate::{BitString, Component, Data, DataKind, TypeKind, TypeSpec};

impl Data {
    /// Whether the value is of the type: numbers of its width, texts of its length, and arrays and structures part by part.
    pub fn matches(&self, of: &TypeSpec) -> bool
        ensures { result ≡ matches self.now of.now }
    {
        is_of(self, of)
    }
}

/// Exactly so many where `n` isn't negative, and else at most `-n`.
fn has_length(count: usize, n: i32) -> bool
    ensures { result ≡ has_length count n }
{
    if n >= 0 {
        count == n as usize
    } else {
        count <= (-i64::from(n)) as usize
    }
}

fn has_width(width: u8, n: i64) -> bool
    ensures { result ≡ has_width width n }
{
    if width == 8 {
        -128 <= n && n <= 127
    } else if width == 16 {
        -32768 <= n && n <= 32767
    } else if width == 32 {
        -2147483648 <= n && n <= 2147483647
    } else {
        i64::MIN <= n && n <= i64::MAX
    }
}

fn has_unsigned_width(width: u8, n: u32) -> bool
    ensures { result ≡ has_unsigned_width width n }
{
    if width == 8 {
        n <= 255
    } else if width == 16 {
        n <= 65535
    } else {
        n <= 4294967295
    }
}

fn is_boolean(b: bool, of: &TypeSpec) -> bool
    ensures { result ≡ matches (boolean b) of.now }
{
    match &of.kind {
        TypeKind::Boolean => true,
        _ => false,
    }
}

/// The bits of so many octets, of which the last has so many unused, are exactly so many.
fn has_bits(len: usize, unused: u8, want: usize) -> bool
    requires { want ≤ 2147483648 }
    ensures { result ≡ (8 * len - unused == want) }
{
    if len > 0x2000_0000 {
        return false;
    }
    (8 * len).saturating_sub(usize::from(unused)) == want
}

/// They are at most so many.
fn has_at_most_bits(len: usize, unused: u8, most: usize) -> bool
    requires { most ≤ 2147483648 }
    ensures { result ≡ nat_le (8 * len - unused) most }
{
    if len > 0x2000_0000 {
        return false;
    }
    (8 * len).saturating_sub(usize::from(unused)) <= most
}

/// The same as for a length, of bits.
fn has_bit_length(len: usize, unused: u8, n: i32) -> bool
    ensures { result ≡ has_length (8 * len - unused) n }
{
    if n >= 0 {
        has_bits(len, unused, n as usize)
    } else {
        has_at_most_bits(len, unused, (-i64::from(n)) as usize)
    }
}

fn are_bits(found: &BitString, of: &TypeSpec) -> bool
    ensures { result ≡ matches (bits found.now.unused found.now.octets) of.now }
{
    match &of.kind {
        TypeKind::Bits(n) => has_bit_length(found.octets.len(), found.unused, *n),
        _ => false,
    }
}

fn is_integer(n: i64, of: &TypeSpec) -> bool
    ensures { result ≡ matches (integer n) of.now }
{
    match &of.kind {
        TypeKind::Integer(width) => has_width(*width, n),
        _ => false,
    }
}

fn is_unsigned(n: u32, of: &TypeSpec) -> bool
    ensures { result ≡ matches (unsigned n) of.now }
{
    match &of.kind {
        TypeKind::Unsigned(width) => has_unsigned_width(*width, n),
        _ => false,
    }
}

fn is_floating(found: &[u8], of: &TypeSpec) -> bool
    ensures { result ≡ matches (floating found.now) of.now }
{
    match &of.kind {
        TypeKind::Floating { width, .. } => {
            let want = if *width == 32 { 5 } else { 9 };
            found.len() == want
        }
        _ => false,
    }
}

fn are_octets(found: &[u8], of: &TypeSpec) -> bool
    ensures { result ≡ matches (octets found.now) of.now }
{
    match &of.kind {
        TypeKind::Octets(n) => has_length(found.len(), *n),
        _ => false,
    }
}

fn is_visible(found: &[u8], of: &TypeSpec) -> bool
    ensures { result ≡ matches (visible found.now) of.now }
{
    match &of.kind {
        TypeKind::Visible(n) => has_length(found.len(), *n),
        _ => false,
    }
}

fn is_time(found: &[u8], of: &TypeSpec) -> bool
    ensures { result ≡ matches (time found.now) of.now }
{
    match &of.kind {
        TypeKind::Time(dated) => {
            let want = if *dated { 6 } else { 4 };
            found.len() == want
        }
        _ => false,
    }
}

#[cycle(matching)]
fn is_of(item: &Data, of: &TypeSpec) -> bool
    ensures { result ≡ matches item.now of.now }
{
    match &item.kind {
        DataKind::Array(items) => is_array(items, of),
        DataKind::Structure(items) => is_structure(items, of),
        DataKind::Boolean(b) => is_boolean(*b, of),
        DataKind::Bits(found) => are_bits(found, of),
        DataKind::Integer(n) => is_integer(*n, of),
        DataKind::Unsigned(n) => is_unsigned(*n, of),
        DataKind::Floating(found) => is_floating(found.as_slice(), of),
        DataKind::Octets(found) => are_octets(found.as_slice(), of),
        DataKind::Visible(found) => is_visible(found.as_slice(), of),
        DataKind::Time(found) => is_time(found.as_slice(), of),
    }
}

#[cycle(matching)]
fn is_array(items: &[Data], of: &TypeSpec) -> bool
    ensures { result ≡ matches (datum.array (row items.now)) of.now }
{
    match &of.kind {
        TypeKind::Array { count, element, .. } => {
            items.len() == *count as usize && all_match(items, element)
        }
        _ => false,
    }
}

#[cycle(matching)]
fn all_match(items: &[Data], of: &TypeSpec) -> bool
    ensures { result ≡ all_match (row items.now) of.now }
{
    for item in items {
        if !is_of(item, of) {
            return false;
        }
    }
    true
}

#[cycle(matching)]
fn is_structure(items: &[Data], of: &TypeSpec) -> bool
    ensures { result ≡ matches (datum.structure (row items.now)) of.now }
{
    match &of.kind {
        TypeKind::Structure { components, .. } => each_matches(items, components),
        _ => false,
    }
}

#[cycle(matching)]
fn each_matches(items: &[Data], components: &[Component]) -> bool
    ensures { result ≡ each_matches (row items.now) (fields components.now) }
{
    if items.len() != components.len() {
        return false;
    }
    let mut i = 0;
    while i < items.len() {
        if !is_of(&items[i], &components[i].spec) {
            return false;
        }
        i += 1;
    }
    true
}
