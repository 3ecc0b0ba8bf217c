//! How deep data and types nest.

ghost use Rattle.std.specs.Prelude.{◌≡◌, ◌≤◌, max};
ghost use Rattle.mms_types.specs.Datum.{row, depth, deepest};
ghost use Rattle.mms_types.specs.Shape.{shape_depth, fields_depth};
ghost use Rattle.mms_types.specs.SeenType.{fields};
ghost use Rattle.mms_types.specs.Depths.{write_depth, definition_depth, journal_depth, entries_depth, entry_depth, variables_depth};

use crate::{
    Component, Data, DataKind, DefineNamedVariable, EntryContent, JournalEntry, JournalVariable,
    TypeKind, TypeSpec, Write, WriteJournal,
};

impl Data {
    /// How deep it nests: a simple value 0, an array or a structure one more than its deepest part. At most 10.
    pub fn depth(&self) -> u8
        ensures depth { result ≡ depth self.now }
        ensures most { result ≤ 10 }
    {
        depth_of(self)
    }
}

impl TypeSpec {
    /// How deep it nests: a simple type 0, an array or a structure one more than its deepest part. At most 10.
    pub fn depth(&self) -> u8
        ensures depth { result ≡ shape_depth self.now }
        ensures most { result ≤ 10 }
    {
        type_depth(self)
    }
}

impl Write {
    /// How deep the data that is written nests: the deepest of it, and 0 where there is none. At most 10.
    pub fn depth(&self) -> u8
        ensures depth { result ≡ write_depth self.now }
        ensures most { result ≤ 10 }
    {
        deepest_of(self.values.as_slice())
    }
}

impl DefineNamedVariable {
    /// How deep the type that is given nests, and 0 where none is. At most 10.
    pub fn depth(&self) -> u8
        ensures depth { result ≡ definition_depth self.now }
        ensures most { result ≤ 10 }
    {
        match &self.of {
            None => 0,
            Some(of) => of.depth(),
        }
    }
}

impl WriteJournal {
    /// How deep the data of the entries nests: the deepest of it, and 0 where there is none. At most 10.
    pub fn depth(&self) -> u8
        ensures depth { result ≡ journal_depth self.now }
        ensures most { result ≤ 10 }
    {
        entries_depth(self.entries.as_slice())
    }
}

fn entries_depth(entries: &[JournalEntry]) -> u8
    ensures depth { result ≡ entries_depth entries.now }
    ensures most { result ≤ 10 }
{
    let mut found = 0;
    for entry in entries {
        found = greater(found, entry_depth(entry));
    }
    found
}

fn entry_depth(entry: &JournalEntry) -> u8
    ensures depth { result ≡ entry_depth entry.now }
    ensures most { result ≤ 10 }
{
    match &entry.content {
        EntryContent::Data {
            variables: Some(variables),
            ..
        } => variables_depth(variables.as_slice()),
        _ => 0,
    }
}

fn variables_depth(variables: &[JournalVariable]) -> u8
    ensures depth { result ≡ variables_depth variables.now }
    ensures most { result ≤ 10 }
{
    let mut found = 0;
    for variable in variables {
        found = greater(found, variable.value.depth());
    }
    found
}

fn greater(a: u8, b: u8) -> u8
    ensures { result ≡ max a b }
{
    if a < b { b } else { a }
}

#[cycle(depth)]
fn depth_of(item: &Data) -> u8
    ensures depth { result ≡ depth item.now }
    ensures most { result ≤ 10 }
{
    match &item.kind {
        DataKind::Array(items) => deepest_of(items) + 1,
        DataKind::Structure(items) => deepest_of(items) + 1,
        _ => 0,
    }
}

#[cycle(depth)]
fn deepest_of(items: &[Data]) -> u8
    ensures depth { result ≡ deepest (row items.now) }
    ensures most { result ≤ 10 }
{
    let mut found = 0;
    for item in items {
        found = greater(found, depth_of(item));
    }
    found
}

#[cycle(type_depth)]
fn type_depth(of: &TypeSpec) -> u8
    ensures depth { result ≡ shape_depth of.now }
    ensures most { result ≤ 10 }
{
    match &of.kind {
        TypeKind::Array { element, .. } => type_depth(element) + 1,
        TypeKind::Structure { components, .. } => deepest_component(components) + 1,
        _ => 0,
    }
}

#[cycle(type_depth)]
fn deepest_component(components: &[Component]) -> u8
    ensures { result ≡ fields_depth (fields components.now) }
{
    let mut found = 0;
    for component in components {
        found = greater(found, type_depth(&component.spec));
    }
    found
}
