//! Copies of data and of types.

ghost use Rattle.std.specs.Prelude.{◌≡◌, IfOk};

use crate::{BitString, Component, Data, DataKind, Memory, TypeKind, TypeSpec};
use std::alloc::Global;

impl Data {
    /// A copy. Memory where memory runs out.
    pub fn copy(&self, alloc: Global) -> Result<Data, Memory>
        ensures { IfOk result (λ x. x ≡ self.now) }
    {
        copied(alloc, self)
    }
}

#[cycle(copy)]
fn copied(alloc: Global, from: &Data) -> Result<Data, Memory>
    ensures { IfOk result (λ x. x ≡ from.now) }
{
    match &from.kind {
        DataKind::Array(items) => Ok(Data {
            kind: DataKind::Array(copied_all(alloc, items)?),
        }),
        DataKind::Structure(items) => Ok(Data {
            kind: DataKind::Structure(copied_all(alloc, items)?),
        }),
        DataKind::Boolean(b) => Ok(Data {
            kind: DataKind::Boolean(*b),
        }),
        DataKind::Bits(bits) => Ok(Data {
            kind: DataKind::Bits(BitString {
                unused: bits.unused,
                octets: bits.octets.copy(alloc)?,
            }),
        }),
        DataKind::Integer(n) => Ok(Data {
            kind: DataKind::Integer(*n),
        }),
        DataKind::Unsigned(n) => Ok(Data {
            kind: DataKind::Unsigned(*n),
        }),
        DataKind::Floating(octets) => Ok(Data {
            kind: DataKind::Floating(octets.copy(alloc)?),
        }),
        DataKind::Octets(octets) => Ok(Data {
            kind: DataKind::Octets(octets.copy(alloc)?),
        }),
        DataKind::Visible(octets) => Ok(Data {
            kind: DataKind::Visible(octets.copy(alloc)?),
        }),
        DataKind::Time(octets) => Ok(Data {
            kind: DataKind::Time(octets.copy(alloc)?),
        }),
    }
}

#[cycle(copy)]
fn copied_all(alloc: Global, from: &[Data]) -> Result<Vec<Data>, Memory>
    ensures { IfOk result (λ v. v.items ≡ from.now) }
{
    let mut found = Vec::new(alloc);
    for item in from {
        found.push(copied(alloc, item)?)?;
    }
    Ok(found)
}

impl TypeSpec {
    /// A copy. Memory where memory runs out.
    pub fn copy(&self, alloc: Global) -> Result<TypeSpec, Memory>
        ensures { IfOk result (λ s. s ≡ self.now) }
    {
        copied_type(alloc, self)
    }
}

#[cycle(copy_type)]
fn copied_type(alloc: Global, from: &TypeSpec) -> Result<TypeSpec, Memory>
    ensures { IfOk result (λ s. s ≡ from.now) }
{
    match &from.kind {
        TypeKind::Array {
            packed,
            count,
            element,
        } => Ok(TypeSpec {
            kind: TypeKind::Array {
                packed: *packed,
                count: *count,
                element: Box::new(alloc, copied_type(alloc, element)?)?,
            },
        }),
        TypeKind::Structure { packed, components } => Ok(TypeSpec {
            kind: TypeKind::Structure {
                packed: *packed,
                components: copied_components(alloc, components)?,
            },
        }),
        TypeKind::Boolean => Ok(TypeSpec {
            kind: TypeKind::Boolean,
        }),
        TypeKind::Bits(n) => Ok(TypeSpec {
            kind: TypeKind::Bits(*n),
        }),
        TypeKind::Integer(width) => Ok(TypeSpec {
            kind: TypeKind::Integer(*width),
        }),
        TypeKind::Unsigned(width) => Ok(TypeSpec {
            kind: TypeKind::Unsigned(*width),
        }),
        TypeKind::Floating { width, exponent } => Ok(TypeSpec {
            kind: TypeKind::Floating {
                width: *width,
                exponent: *exponent,
            },
        }),
        TypeKind::Octets(n) => Ok(TypeSpec {
            kind: TypeKind::Octets(*n),
        }),
        TypeKind::Visible(n) => Ok(TypeSpec {
            kind: TypeKind::Visible(*n),
        }),
        TypeKind::Time(dated) => Ok(TypeSpec {
            kind: TypeKind::Time(*dated),
        }),
    }
}

#[cycle(copy_type)]
fn copied_components(alloc: Global, from: &[Component]) -> Result<Vec<Component>, Memory>
    ensures { IfOk result (λ v. v.items ≡ from.now) }
{
    let mut found = Vec::new(alloc);
    for component in from {
        found.push(copied_component(alloc, component)?)?;
    }
    Ok(found)
}

#[cycle(copy_type)]
fn copied_component(alloc: Global, from: &Component) -> Result<Component, Memory>
    ensures { IfOk result (λ c. c ≡ from.now) }
{
    let spec = copied_type(alloc, &from.spec)?;
    match &from.name {
        None => Ok(Component { name: None, spec }),
        Some(name) => Ok(Component {
            name: Some(name.copy(alloc)?),
            spec,
        }),
    }
}
