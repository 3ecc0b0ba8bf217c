ghost use Rattle.std.specs.Prelude.{◌≡◌, IfOk, map};
ghost use Rattle.toml.specs.View.{items_view, table_view};
ghost use Rattle.cell_config.specs.Rows.{cell_told, variable_told, pool_told, cells_told, variables_told, pools_told, texts_in};
ghost use Rattle.cell_config.specs.Seen.{cell_seen, variable_seen, pool_seen};

use crate::table::{integer_at, items_at, text_at};
use mms_types::Memory;
use std::alloc::Global;
use toml::{Table, Value};

/// A row of `[[cell]]`, as it is told.
#[derive(Clone, Copy)]
pub(crate) struct CellText<'a> {
    pub(crate) number: i64,
    /// Its type, in hex.
    pub(crate) of: &'a str,
    /// Its value, in hex.
    pub(crate) value: &'a str,
    /// The name of its guard, where it has one.
    pub(crate) guard: Option<&'a str>,
}

/// A row of `[[variable]]`, as it is told.
#[derive(Clone, Copy)]
pub(crate) struct VariableText<'a> {
    pub(crate) name: &'a str,
    /// The number of its cell.
    pub(crate) cell: i64,
}

/// A row of `[[pool]]`, as it is told.
#[derive(Drop)]
pub(crate) struct PoolText<'a> {
    pub(crate) name: &'a str,
    /// The names of its tokens.
    pub(crate) tokens: Vec<&'a str>,
}

fn cell_text(row: &Table) -> CellText<'_>
    ensures { cell_seen result ≡ cell_told (table_view row.now) }
{
    CellText {
        number: integer_at(row, "number").unwrap_or(0),
        of: text_at(row, "type").unwrap_or(""),
        value: text_at(row, "value").unwrap_or(""),
        guard: text_at(row, "guard"),
    }
}

fn variable_text(row: &Table) -> VariableText<'_>
    ensures { variable_seen result ≡ variable_told (table_view row.now) }
{
    VariableText {
        name: text_at(row, "name").unwrap_or(""),
        cell: integer_at(row, "cell").unwrap_or(0),
    }
}

/// The texts among the items.
fn texts<'a>(alloc: Global, items: &'a [Value]) -> Result<Vec<&'a str>, Memory>
    ensures { IfOk result (λ texts. map (λ t. t.now) texts.items
        ≡ texts_in (items_view items.now)) }
{
    let mut texts = Vec::new(alloc);
    for item in items {
        if let Some(text) = item.as_str() {
            texts.push(text)?;
        }
    }
    Ok(texts)
}

fn pool_text(alloc: Global, row: &Table) -> Result<PoolText<'_>, Memory>
    ensures { IfOk result (λ pool. pool_seen pool ≡ pool_told (table_view row.now)) }
{
    Ok(PoolText {
        name: text_at(row, "name").unwrap_or(""),
        tokens: texts(alloc, items_at(row, "tokens"))?,
    })
}

/// The cells that a document tells.
pub(crate) fn cell_rows(alloc: Global, document: &Table) -> Result<Vec<CellText<'_>>, Memory>
    ensures { IfOk result (λ rows. map cell_seen rows.items
        ≡ cells_told (table_view document.now)) }
{
    let mut rows = Vec::new(alloc);
    for item in items_at(document, "cell") {
        if let Some(row) = item.as_table() {
            rows.push(cell_text(row))?;
        }
    }
    Ok(rows)
}

/// The variables that a document tells.
pub(crate) fn variable_rows(
    alloc: Global,
    document: &Table,
) -> Result<Vec<VariableText<'_>>, Memory>
    ensures { IfOk result (λ rows. map variable_seen rows.items
        ≡ variables_told (table_view document.now)) }
{
    let mut rows = Vec::new(alloc);
    for item in items_at(document, "variable") {
        if let Some(row) = item.as_table() {
            rows.push(variable_text(row))?;
        }
    }
    Ok(rows)
}

/// The pools that a document tells.
pub(crate) fn pool_rows(alloc: Global, document: &Table) -> Result<Vec<PoolText<'_>>, Memory>
    ensures { IfOk result (λ rows. map pool_seen rows.items
        ≡ pools_told (table_view document.now)) }
{
    let mut rows = Vec::new(alloc);
    for item in items_at(document, "pool") {
        if let Some(row) = item.as_table() {
            rows.push(pool_text(alloc, row)?)?;
        }
    }
    Ok(rows)
}
