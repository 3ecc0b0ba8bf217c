ghost use Rattle.std.specs.Prelude.{◌≡◌, option_map, option_and_then, is_some, unwrap_or};
ghost use Rattle.std.specs.Option.{option_copied};
ghost use Rattle.toml.specs.Data.{get_member, as_integer, as_str, as_array};
ghost use Rattle.toml.specs.View.{table_view, view, items_view};
ghost use Rattle.cell_config.specs.Rows.{has_integer, has_text, may_have_text, tables_in, rows_at, texts_in, texts_at};

use toml::{Table, Value};

/// The value at a key, where the table has one there.
pub(crate) fn value_at<'a>(table: &'a Table, key: &str) -> Option<&'a Value>
    ensures { option_map (λ value. view value.now) result
        ≡ get_member key.now (table_view table.now) }
{
    table.get(key)
}

/// The integer at a key, where the table has one there.
pub(crate) fn integer_at(table: &Table, key: &str) -> Option<i64>
    ensures { result ≡ option_and_then as_integer (get_member key.now (table_view table.now)) }
{
    match value_at(table, key) {
        Some(value) => value.as_integer(),
        None => None,
    }
}

/// The text at a key, where the table has one there.
pub(crate) fn text_at<'a>(table: &'a Table, key: &str) -> Option<&'a str>
    ensures { option_copied result
        ≡ option_and_then as_str (get_member key.now (table_view table.now)) }
{
    match value_at(table, key) {
        Some(value) => value.as_str(),
        None => None,
    }
}

/// Whether there is an integer at the key.
pub(crate) fn has_integer(table: &Table, key: &str) -> bool
    ensures { result ≡ has_integer key.now (table_view table.now) }
{
    integer_at(table, key).is_some()
}

/// Whether there is a text at the key.
pub(crate) fn has_text(table: &Table, key: &str) -> bool
    ensures { result ≡ has_text key.now (table_view table.now) }
{
    text_at(table, key).is_some()
}

/// Whether there is a text at the key, or nothing.
pub(crate) fn may_have_text(table: &Table, key: &str) -> bool
    ensures { result ≡ may_have_text key.now (table_view table.now) }
{
    match value_at(table, key) {
        Some(value) => value.is_str(),
        None => true,
    }
}

/// The items of the array at a key, or none where there is no array.
pub(crate) fn items_at<'a>(table: &'a Table, key: &str) -> &'a [Value]
    ensures tables { tables_in (items_view result.now) ≡ rows_at key.now (table_view table.now) }
    ensures texts { texts_in (items_view result.now) ≡ texts_at key.now (table_view table.now) }
{
    match value_at(table, key) {
        Some(value) => match value.as_array() {
            Some(items) => items.as_slice(),
            None => &[],
        },
        None => &[],
    }
}
