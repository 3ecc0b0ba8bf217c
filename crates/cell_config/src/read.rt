ghost use Rattle.std.specs.Prelude.{◌≡◌, ◌&&◌, true, not, if◌then◌else◌, None, Some, Ok, Err, IfOk, IfErr, map, option_map};
ghost use Rattle.toml.specs.Errors.{IsMemory};
ghost use Rattle.toml.specs.View.{table_view};
ghost use Rattle.cell_config.specs.Rows.{cells_told, variables_told, pools_told};
ghost use Rattle.mms_types.specs.Moments.{milliseconds};
ghost use Rattle.toml.specs.Data.{Members};
ghost use Rattle.cell_config.specs.Seen.{cell_seen, variable_seen, pool_seen};
ghost use Rattle.cell_config.specs.Cells.{number_of, are_named, are_guarded, are_named_pools, are_variables, are_pools, are_few, cell_row, named_cell, pool_row};
ghost use Rattle.cell_config.specs.Rules.{document_of, clients_of, day_of, ms_of, vendor_of, model_of, revision_of, least_of_keys, least_of_rows, least_broken_of, least_broken};
ghost use Rattle.cell_config.specs.Said.{config_of, IsConfig, TellsBad, TellsRule};

use crate::cells::{are_guarded, numbers, read_cells};
use crate::keys::breaks_keys;
use crate::numbers::{Numbers, read_numbers};
use crate::pools::{are_few, are_named_pools, are_pools, read_pools};
use crate::rows::{CellText, PoolText, VariableText, cell_rows, pool_rows, variable_rows};
use crate::texts::{Texts, read_texts};
use crate::variables::{are_named, are_variables, named_cells};
use crate::{BadConfig, Config};
use indexmap::IndexSet;
use mms_types::{Cells, Edition, Memory, NamedCells, Octets, Pools};
use std::alloc::Global;
use toml::Table;

/// What is told of a text as TOML's reader answers: its document, or else that it is none, unless memory was wanting.
fn told(read: Result<Table, toml::de::Error>) -> Result<Table, BadConfig>
    ensures document { IfOk read (λ table. result ≡ Ok table) }
    ensures rule { IfErr read (λ error. (IsMemory error → ⊥) → result ≡ Err (BadConfig.Rule 0)) }
    ensures memory { IfErr read (λ error. IsMemory error → result ≡ Err BadConfig.Memory) }
{
    match read {
        Ok(table) => Ok(table),
        Err(error) => {
            if error.is_memory() {
                Err(BadConfig::Memory)
            } else {
                Err(BadConfig::Rule(0))
            }
        }
    }
}

/// The TOML document that the text is.
#[tactic(auto, using(crate::proofs::Documents::read, crate::proofs::Documents::refused))]
fn document(alloc: Global, text: &[u8], edition: Edition) -> Result<Table, BadConfig>
    ensures document { IfOk result (λ table. document_of text.now ≡ Some (table_view table)) }
    ensures rule { IfErr result (λ bad. TellsBad bad (least_broken edition text.now)) }
{
    told(toml::table_from_slice(alloc, text))
}

/// The cells, the variables and the pools of a document.
#[derive(Drop)]
struct Rows {
    cells: Cells,
    variables: NamedCells,
    pools: Pools,
}

/// What is told of a document that breaks a rule.
fn broken(rule: u8) -> BadConfig
    ensures { result ≡ BadConfig.Rule rule }
{
    BadConfig::Rule(rule)
}

/// Whether the name of each variable, guard, pool and token is an identifier.
fn are_all_named(
    cells: &[CellText<'_>],
    variables: &[VariableText<'_>],
    pools: &[PoolText<'_>],
    edition: Edition,
) -> bool
    ensures { result ≡ (are_named edition (map variable_seen variables.now)
        && are_guarded edition (map cell_seen cells.now)
        && are_named_pools edition (map pool_seen pools.now)) }
{
    are_named(variables, edition) && are_guarded(cells, edition) && are_named_pools(pools, edition)
}

/// The least of the rules 7 to 9 that variables and pools break, where the cells have these numbers.
fn last_broken(
    alloc: Global,
    numbers: &IndexSet<u16>,
    variables: &[VariableText<'_>],
    pools: &[PoolText<'_>],
) -> Result<Option<u8>, Memory>
    ensures rule { IfOk result (λ rule. rule
        ≡ (if not (are_variables numbers.now.keys (map variable_seen variables.now)) then Some 7
        else if not (are_pools (map pool_seen pools.now)) then Some 8
        else if not (are_few (map variable_seen variables.now) (map pool_seen pools.now))
        then Some 9 else None)) }
    ensures kept { IfOk result (λ rule. rule ≡ None →
        are_variables numbers.now.keys (map variable_seen variables.now) ≡ true) }
{
    if !are_variables(alloc, numbers, variables)? {
        return Ok(Some(7));
    }
    if !are_pools(alloc, pools)? {
        return Ok(Some(8));
    }
    if !are_few(variables, pools) {
        return Ok(Some(9));
    }
    Ok(None)
}

/// What cells, variables and pools are that stand so in a document, or the least rule of theirs that it breaks.
fn rows_in(
    alloc: Global,
    cells: &[CellText<'_>],
    variables: &[VariableText<'_>],
    pools: &[PoolText<'_>],
    edition: Edition,
) -> Result<Rows, BadConfig>
    ensures cells { IfOk result (λ rows. rows.cells
        ≡ map (cell_row edition) (map cell_seen cells.now)) }
    ensures variables { IfOk result (λ rows. rows.variables
        ≡ map named_cell (map variable_seen variables.now)) }
    ensures pools { IfOk result (λ rows. rows.pools ≡ map pool_row (map pool_seen pools.now)) }
    ensures rule { (document : Members) → map cell_seen cells.now ≡ cells_told document
        → map variable_seen variables.now ≡ variables_told document
        → map pool_seen pools.now ≡ pools_told document
        → TellsRule result (least_of_rows edition document) }
{
    if !are_all_named(cells, variables, pools, edition) {
        return Err(broken(4));
    }
    let Some(numbers) = numbers(alloc, cells)? else {
        return Err(broken(5));
    };
    let Some(cells) = read_cells(alloc, cells, edition)? else {
        return Err(broken(6));
    };
    match last_broken(alloc, &numbers, variables, pools)? {
        None => {}
        Some(rule) => return Err(broken(rule)),
    }
    let variables = named_cells(alloc, variables, edition)?;
    let pools = read_pools(alloc, pools, edition)?;
    Ok(Rows {
        cells,
        variables,
        pools,
    })
}

/// The cells, the variables and the pools that a document tells, or the least rule of theirs that it breaks.
fn read_rows(alloc: Global, document: &Table, edition: Edition) -> Result<Rows, BadConfig>
    ensures cells { IfOk result (λ rows. rows.cells
        ≡ map (cell_row edition) (cells_told (table_view document.now))) }
    ensures variables { IfOk result (λ rows. rows.variables
        ≡ map named_cell (variables_told (table_view document.now))) }
    ensures pools { IfOk result (λ rows. rows.pools
        ≡ map pool_row (pools_told (table_view document.now))) }
    ensures rule { TellsRule result (least_of_rows edition (table_view document.now)) }
{
    let cells = cell_rows(alloc, document)?;
    let variables = variable_rows(alloc, document)?;
    let pools = pool_rows(alloc, document)?;
    rows_in(alloc, &cells, &variables, &pools, edition)
}

/// The numbers and the texts of a document.
struct Own<'a> {
    numbers: Numbers,
    texts: Texts<'a>,
}

/// The numbers and the texts that a document tells, or the least rule that it breaks by its own
/// keys. It takes no memory.
fn read_own(document: &Table) -> Result<Own<'_>, u8>
    ensures clients { IfOk result (λ own. own.numbers.clients
        ≡ number_of (clients_of (table_view document.now))) }
    ensures start { IfOk result (λ own. own.numbers.start.0
        ≡ milliseconds (number_of (day_of (table_view document.now)))
        (number_of (ms_of (table_view document.now)))) }
    ensures vendor { IfOk result (λ own. own.texts.vendor.now
        ≡ vendor_of (table_view document.now)) }
    ensures model { IfOk result (λ own. own.texts.model.now
        ≡ model_of (table_view document.now)) }
    ensures revision { IfOk result (λ own. own.texts.revision.now
        ≡ revision_of (table_view document.now)) }
    ensures kept { IfOk result (λ own. least_of_keys (table_view document.now) ≡ None) }
    ensures rule { IfErr result (λ rule. least_of_keys (table_view document.now) ≡ Some rule) }
{
    if breaks_keys(document) {
        return Err(1);
    }
    let Some(numbers) = read_numbers(document) else {
        return Err(2);
    };
    let Some(texts) = read_texts(document) else {
        return Err(3);
    };
    Ok(Own { numbers, texts })
}

/// The configuration that the document tells in an edition.
fn config(alloc: Global, document: &Table, edition: Edition) -> Result<Config, BadConfig>
    ensures config { IfOk result (λ config. config ≡ config_of edition (table_view document.now)) }
    ensures rule { TellsRule result (least_broken_of edition (table_view document.now)) }
{
    let Own { numbers, texts } = match read_own(document) {
        Ok(own) => own,
        Err(rule) => return Err(broken(rule)),
    };
    let Rows {
        cells,
        variables,
        pools,
    } = read_rows(alloc, document, edition)?;
    Ok(Config {
        edition,
        clients: numbers.clients,
        start: numbers.start,
        vendor: Octets::from_slice(alloc, texts.vendor.as_bytes())?,
        model: Octets::from_slice(alloc, texts.model.as_bytes())?,
        revision: Octets::from_slice(alloc, texts.revision.as_bytes())?,
        cells,
        variables,
        pools,
    })
}

/// The configuration that a text tells in an edition. A text that breaks a rule gives `Rule` with
/// the least one that it breaks; what breaks none gives the configuration, or want of memory. Every
/// key of the document may be left out, and a row has all of its keys but `guard`, which may be left
/// out. Names, types and values are those of the edition. Types and values are hex of one element
/// each (ISO 9506-2, TypeSpecification and Data).
#[tactic(auto, using(crate::proofs::Holding::told_holds))]
pub fn read_config(alloc: Global, text: &[u8], edition: Edition) -> Result<Config, BadConfig>
    ensures config { IfOk result (λ config. option_map (config_of edition) (document_of text.now)
        ≡ Some config) }
    ensures valid { IfOk result IsConfig }
    ensures rule { TellsRule result (least_broken edition text.now) }
{
    let document = document(alloc, text, edition)?;
    let config = config(alloc, &document, edition)?;
    Ok(config)
}
