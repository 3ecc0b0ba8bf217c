//! Rule 1: the keys, and the TOML types of their values.

ghost use Rattle.std.specs.Prelude.{◌≡◌};
ghost use Rattle.toml.specs.Data.{same_key};
ghost use Rattle.toml.specs.View.{items_view, table_view, view};
ghost use Rattle.cell_config.specs.Rows.{is_cell_key, is_cell_row, is_variable_key, is_variable_row, is_pool_key, is_pool_row, all_keys, all_texts, are_rows, has_texts};
ghost use Rattle.cell_config.specs.Rules.{takes_integer, takes_text, is_fit, breaks_keys};

use crate::table::{has_integer, has_text, may_have_text, value_at};
use toml::{Table, Value};

fn is_key(key: &str, name: &str) -> bool
    ensures { result ≡ same_key name.now key.now }
{
    name == key
}

fn takes_integer(key: &str) -> bool
    ensures { result ≡ takes_integer key.now }
{
    is_key(key, "clients") || is_key(key, "day") || is_key(key, "ms")
}

fn takes_text(key: &str) -> bool
    ensures { result ≡ takes_text key.now }
{
    is_key(key, "vendor") || is_key(key, "model") || is_key(key, "revision")
}

fn is_cell_key(key: &str) -> bool
    ensures { result ≡ is_cell_key key.now }
{
    is_key(key, "number") || is_key(key, "type") || is_key(key, "value") || is_key(key, "guard")
}

fn has_cell_keys_alone(row: &Table) -> bool
    ensures { result ≡ all_keys is_cell_key (table_view row.now) }
{
    for (key, _) in row.iter() {
        if !is_cell_key(key) {
            return false;
        }
    }
    true
}

fn is_cell_row(row: &Table) -> bool
    ensures { result ≡ is_cell_row (table_view row.now) }
{
    has_integer(row, "number")
        && has_text(row, "type")
        && has_text(row, "value")
        && may_have_text(row, "guard")
        && has_cell_keys_alone(row)
}

fn is_variable_key(key: &str) -> bool
    ensures { result ≡ is_variable_key key.now }
{
    is_key(key, "name") || is_key(key, "cell")
}

fn has_variable_keys_alone(row: &Table) -> bool
    ensures { result ≡ all_keys is_variable_key (table_view row.now) }
{
    for (key, _) in row.iter() {
        if !is_variable_key(key) {
            return false;
        }
    }
    true
}

fn is_variable_row(row: &Table) -> bool
    ensures { result ≡ is_variable_row (table_view row.now) }
{
    has_text(row, "name") && has_integer(row, "cell") && has_variable_keys_alone(row)
}

/// Whether each item is a text.
fn are_texts(items: &[Value]) -> bool
    ensures { result ≡ all_texts (items_view items.now) }
{
    for item in items {
        if !item.is_str() {
            return false;
        }
    }
    true
}

/// Whether there is an array of texts at the key.
fn has_texts(row: &Table, key: &str) -> bool
    ensures { result ≡ has_texts key.now (table_view row.now) }
{
    match value_at(row, key) {
        Some(value) => match value.as_array() {
            Some(items) => are_texts(items.as_slice()),
            None => false,
        },
        None => false,
    }
}

fn is_pool_key(key: &str) -> bool
    ensures { result ≡ is_pool_key key.now }
{
    is_key(key, "name") || is_key(key, "tokens")
}

fn has_pool_keys_alone(row: &Table) -> bool
    ensures { result ≡ all_keys is_pool_key (table_view row.now) }
{
    for (key, _) in row.iter() {
        if !is_pool_key(key) {
            return false;
        }
    }
    true
}

fn is_pool_row(row: &Table) -> bool
    ensures { result ≡ is_pool_row (table_view row.now) }
{
    has_text(row, "name") && has_texts(row, "tokens") && has_pool_keys_alone(row)
}

/// Whether the value is an array of rows of `[[cell]]`.
fn are_cells(value: &Value) -> bool
    ensures { result ≡ are_rows is_cell_row (view value.now) }
{
    let Some(items) = value.as_array() else {
        return false;
    };
    for item in items.as_slice() {
        match item.as_table() {
            Some(row) if is_cell_row(row) => {}
            _ => return false,
        }
    }
    true
}

/// Whether the value is an array of rows of `[[variable]]`.
fn are_variables(value: &Value) -> bool
    ensures { result ≡ are_rows is_variable_row (view value.now) }
{
    let Some(items) = value.as_array() else {
        return false;
    };
    for item in items.as_slice() {
        match item.as_table() {
            Some(row) if is_variable_row(row) => {}
            _ => return false,
        }
    }
    true
}

/// Whether the value is an array of rows of `[[pool]]`.
fn are_pools(value: &Value) -> bool
    ensures { result ≡ are_rows is_pool_row (view value.now) }
{
    let Some(items) = value.as_array() else {
        return false;
    };
    for item in items.as_slice() {
        match item.as_table() {
            Some(row) if is_pool_row(row) => {}
            _ => return false,
        }
    }
    true
}

/// Whether the key is listed, and the value of the type that it takes.
fn is_fit(key: &str, value: &Value) -> bool
    ensures { result ≡ is_fit key.now (view value.now) }
{
    (takes_integer(key) && value.is_integer())
        || (takes_text(key) && value.is_str())
        || (is_key(key, "cell") && are_cells(value))
        || (is_key(key, "variable") && are_variables(value))
        || (is_key(key, "pool") && are_pools(value))
}

/// Whether a key is not listed, or a value is of another type than its key takes, or a row lacks
/// a key.
pub(crate) fn breaks_keys(document: &Table) -> bool
    ensures { result ≡ breaks_keys (table_view document.now) }
{
    for (key, value) in document.iter() {
        if !is_fit(key, value) {
            return true;
        }
    }
    false
}
