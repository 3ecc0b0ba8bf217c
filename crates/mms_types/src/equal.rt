//! Equality of data and of types.

ghost use Rattle.std.specs.Prelude.{◌≡◌};
ghost use Rattle.std.specs.Cmp.{partial_equiv_from_equiv};
ghost use Rattle.mms_types.specs.Datum.{row};
ghost use Rattle.mms_types.specs.Shape as shape;
ghost use Rattle.mms_types.specs.SeenType.{fields};
ghost use Rattle.mms_types.specs.Equal.{datum_eq, row_eq, shape_eq, fields_eq, component_eq, data_equal, shapes_equal};

use crate::{Component, Data, DataKind, TypeKind, TypeSpec};

impl PartialEq for Data {
    ghost eq = { datum_eq };

    ghost laws = { partial_equiv_from_equiv data_equal };

    fn eq(&self, other: &Data) -> bool {
        same_data(self, other)
    }
}

impl Eq for Data {
    ghost laws = { data_equal };
}

impl PartialEq for TypeSpec {
    ghost eq = { shape_eq };

    ghost laws = { partial_equiv_from_equiv shapes_equal };

    fn eq(&self, other: &TypeSpec) -> bool {
        same_type(self, other)
    }
}

impl Eq for TypeSpec {
    ghost laws = { shapes_equal };
}

#[cycle(same_data)]
fn same_data(item: &Data, other: &Data) -> bool
    ensures { result ≡ datum_eq item.now other.now }
{
    match &item.kind {
        DataKind::Array(items) => {
            matches!(&other.kind, DataKind::Array(others) if same_parts(items, others))
        }
        DataKind::Structure(items) => {
            matches!(&other.kind, DataKind::Structure(others) if same_parts(items, others))
        }
        DataKind::Boolean(b) => matches!(&other.kind, DataKind::Boolean(c) if b == c),
        DataKind::Bits(b) => matches!(&other.kind, DataKind::Bits(c) if b == c),
        DataKind::Integer(n) => matches!(&other.kind, DataKind::Integer(m) if n == m),
        DataKind::Unsigned(n) => matches!(&other.kind, DataKind::Unsigned(m) if n == m),
        DataKind::Floating(o) => matches!(&other.kind, DataKind::Floating(p) if o == p),
        DataKind::Octets(o) => matches!(&other.kind, DataKind::Octets(p) if o == p),
        DataKind::Visible(o) => matches!(&other.kind, DataKind::Visible(p) if o == p),
        DataKind::Time(o) => matches!(&other.kind, DataKind::Time(p) if o == p),
    }
}

#[cycle(same_data)]
fn same_parts(items: &[Data], others: &[Data]) -> bool
    ensures { result ≡ row_eq (row items.now) (row others.now) }
{
    if items.len() != others.len() {
        return false;
    }
    let mut i = 0;
    while i < items.len() {
        if !same_data(&items[i], &others[i]) {
            return false;
        }
        i += 1;
    }
    true
}

#[cycle(same_type)]
fn same_type(of: &TypeSpec, other: &TypeSpec) -> bool
    ensures { result ≡ shape_eq of.now other.now }
{
    match &of.kind {
        TypeKind::Array {
            packed,
            count,
            element,
        } => is_same_array(*packed, *count, element, other),
        TypeKind::Structure { packed, components } => {
            is_same_structure(*packed, components, other)
        }
        TypeKind::Boolean => matches!(&other.kind, TypeKind::Boolean),
        TypeKind::Bits(n) => matches!(&other.kind, TypeKind::Bits(m) if n == m),
        TypeKind::Integer(w) => matches!(&other.kind, TypeKind::Integer(v) if w == v),
        TypeKind::Unsigned(w) => matches!(&other.kind, TypeKind::Unsigned(v) if w == v),
        TypeKind::Floating { width, exponent } => is_same_format(*width, *exponent, other),
        TypeKind::Octets(n) => matches!(&other.kind, TypeKind::Octets(m) if n == m),
        TypeKind::Visible(n) => matches!(&other.kind, TypeKind::Visible(m) if n == m),
        TypeKind::Time(d) => matches!(&other.kind, TypeKind::Time(c) if d == c),
    }
}

#[cycle(same_type)]
fn is_same_array(packed: bool, count: u32, element: &TypeSpec, other: &TypeSpec) -> bool
    ensures { result ≡ shape_eq (shape.array packed count element.now) other.now }
{
    match &other.kind {
        TypeKind::Array {
            packed: p,
            count: n,
            element: e,
        } => packed == *p && count == *n && same_type(element, e),
        _ => false,
    }
}

#[cycle(same_type)]
fn is_same_structure(packed: bool, components: &[Component], other: &TypeSpec) -> bool
    ensures { result ≡ shape_eq (shape.structure packed (fields components.now)) other.now }
{
    match &other.kind {
        TypeKind::Structure {
            packed: p,
            components: others,
        } => packed == *p && same_components(components, others),
        _ => false,
    }
}

fn is_same_format(width: u8, exponent: u8, other: &TypeSpec) -> bool
    ensures { result ≡ shape_eq (shape.floating width exponent) other.now }
{
    match &other.kind {
        TypeKind::Floating {
            width: w,
            exponent: e,
        } => width == *w && exponent == *e,
        _ => false,
    }
}

#[cycle(same_type)]
fn same_components(components: &[Component], others: &[Component]) -> bool
    ensures { result ≡ fields_eq (fields components.now) (fields others.now) }
{
    if components.len() != others.len() {
        return false;
    }
    let mut i = 0;
    while i < components.len() {
        if !same_component(&components[i], &others[i]) {
            return false;
        }
        i += 1;
    }
    true
}

#[cycle(same_type)]
fn same_component(component: &Component, other: &Component) -> bool
    ensures { result ≡ component_eq component.now other.now }
{
    component.name == other.name && same_type(&component.spec, &other.spec)
}
