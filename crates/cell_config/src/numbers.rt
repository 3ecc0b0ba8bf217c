ghost use Rattle.std.specs.Prelude.{◌≡◌, ◌≤◌, not, is_some, IfSome};
ghost use Rattle.toml.specs.View.{table_view};
ghost use Rattle.mms_types.specs.Moments.{milliseconds, IsDated};
ghost use Rattle.cell_config.specs.Cells.{is_between, number_of};
ghost use Rattle.cell_config.specs.Rules.{clients_of, day_of, ms_of, breaks_ranges};

use crate::table::integer_at;
use mms_types::Moment;
use toml::Table;

/// The number, where it is from the least to the most.
pub(crate) fn between(least: u32, most: u32, number: i64) -> Option<u32>
    ensures found { is_some result ≡ is_between least most number }
    ensures value { IfSome result (λ n. n ≡ number_of number) }
    ensures least { IfSome result (λ n. least ≤ n) }
    ensures most { IfSome result (λ n. n ≤ most) }
{
    match u32::try_from(number) {
        Ok(number) if least <= number && number <= most => Some(number),
        _ => None,
    }
}

/// The numbers of a configuration.
#[derive(Clone, Copy)]
pub(crate) struct Numbers {
    pub(crate) clients: u32,
    pub(crate) start: Moment,
}

/// The numbers that a table tells, or those that stand where it tells none. None where one is out of range.
pub(crate) fn read_numbers(table: &Table) -> Option<Numbers>
    ensures ranges { is_some result ≡ not (breaks_ranges (table_view table.now)) }
    ensures clients { IfSome result
        (λ n. n.clients ≡ number_of (clients_of (table_view table.now))) }
    ensures start { IfSome result (λ n. n.start.0 ≡ milliseconds
        (number_of (day_of (table_view table.now))) (number_of (ms_of (table_view table.now)))) }
    ensures some_client { IfSome result (λ n. 1 ≤ n.clients) }
    ensures few_clients { IfSome result (λ n. n.clients ≤ 64) }
    ensures dated { IfSome result (λ n. IsDated n.start) }
{
    let clients = between(1, 64, integer_at(table, "clients").unwrap_or(4))?;
    let day = between(0, 65_535, integer_at(table, "day").unwrap_or(0))?;
    let ms = between(0, 86_399_999, integer_at(table, "ms").unwrap_or(0))?;
    Some(Numbers {
        clients,
        start: Moment::of(day as u16, ms),
    })
}
