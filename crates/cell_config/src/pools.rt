//! The rules of pools, and the pools that keep them.

ghost use Rattle.std.specs.Prelude.{◌≡◌, IsTrue, IfOk, map};
ghost use Rattle.std.specs.List.{list_all};
ghost use Rattle.mms_types.specs.Spelling.{is_identifier};
ghost use Rattle.cell_config.specs.Cells.{are_distinct, are_few, are_named_pools, are_pools, is_named_pool, is_pool, pool_row, same_name};
ghost use Rattle.cell_config.specs.Seen.{pool_seen, variable_seen};

use crate::names::identifier;
use crate::rows::{PoolText, VariableText};
use indexmap::IndexSet;
use mms_types::{Edition, Identifier, Identifiers, Memory, PoolRow, Pools};
use std::alloc::Global;

/// Whether each text is an identifier of the edition.
fn are_identifiers(texts: &[&str], edition: Edition) -> bool
    ensures { result ≡ list_all (is_identifier edition) (map (λ t. t.now) texts.now) }
{
    for text in texts {
        if Identifier::check(text.as_bytes(), edition).is_err() {
            return false;
        }
    }
    true
}

/// Whether the names of the pool and of its tokens are identifiers of the edition.
fn is_named(pool: &PoolText<'_>, edition: Edition) -> bool
    ensures { result ≡ is_named_pool edition (pool_seen pool.now) }
{
    Identifier::check(pool.name.as_bytes(), edition).is_ok()
        && are_identifiers(&pool.tokens, edition)
}

/// Whether the names of all pools and of their tokens are identifiers of the edition.
pub(crate) fn are_named_pools(pools: &[PoolText<'_>], edition: Edition) -> bool
    ensures { result ≡ are_named_pools edition (map pool_seen pools.now) }
{
    for pool in pools {
        if !is_named(pool, edition) {
            return false;
        }
    }
    true
}

/// Whether no two texts are the same.
fn are_distinct(alloc: Global, texts: &[&str]) -> Result<bool, Memory>
    ensures { IfOk result (λ are. are
        ≡ are_distinct same_name (map (λ t. t.now) texts.now)) }
{
    let mut names = IndexSet::new(alloc);
    for text in texts {
        if !names.insert(*text)? {
            return Ok(false);
        }
    }
    Ok(true)
}

/// Whether there are 1 to 256 tokens, no two of the same name.
fn is_pool(alloc: Global, tokens: &[&str]) -> Result<bool, Memory>
    ensures { IfOk result (λ is. is ≡ is_pool (map (λ t. t.now) tokens.now)) }
{
    if tokens.is_empty() || tokens.len() > 256 {
        return Ok(false);
    }
    are_distinct(alloc, tokens)
}

/// Whether each pool has 1 to 256 tokens, no two of the same name.
fn have_tokens(alloc: Global, pools: &[PoolText<'_>]) -> Result<bool, Memory>
    ensures { IfOk result (λ have. have
        ≡ list_all (λ pool. is_pool pool.tokens) (map pool_seen pools.now)) }
{
    for pool in pools {
        if !is_pool(alloc, &pool.tokens)? {
            return Ok(false);
        }
    }
    Ok(true)
}

/// The names of the pools.
fn names<'a>(alloc: Global, pools: &[PoolText<'a>]) -> Result<Vec<&'a str>, Memory>
    ensures { IfOk result (λ names. map (λ t. t.now) names.items
        ≡ map (λ pool. pool.name) (map pool_seen pools.now)) }
{
    let mut names = Vec::new(alloc);
    for pool in pools {
        names.push(pool.name)?;
    }
    Ok(names)
}

/// Whether each pool has 1 to 256 tokens, no two of the same name, and no two pools share a name.
pub(crate) fn are_pools(alloc: Global, pools: &[PoolText<'_>]) -> Result<bool, Memory>
    ensures { IfOk result (λ are. are ≡ are_pools (map pool_seen pools.now)) }
{
    if !have_tokens(alloc, pools)? {
        return Ok(false);
    }
    are_distinct(alloc, &names(alloc, pools)?)
}

/// Whether there are at most 4,096 variables and 256 pools.
pub(crate) fn are_few(variables: &[VariableText<'_>], pools: &[PoolText<'_>]) -> bool
    ensures { result ≡ are_few (map variable_seen variables.now) (map pool_seen pools.now) }
{
    variables.len() <= 4096 && pools.len() <= 256
}

/// Identifiers of the edition, copied.
fn identifiers(alloc: Global, texts: &[&str], edition: Edition) -> Result<Identifiers, Memory>
    requires { IsTrue (list_all (is_identifier edition) (map (λ t. t.now) texts.now)) }
    ensures { IfOk result (λ names. names ≡ map (λ t. t.now) texts.now) }
{
    let mut names = Identifiers::new(alloc);
    for text in texts {
        names.push(identifier(alloc, text, edition)?)?;
    }
    Ok(names)
}

/// A pool, its names copied.
fn pool_row(alloc: Global, pool: &PoolText<'_>, edition: Edition) -> Result<PoolRow, Memory>
    requires { IsTrue (is_named_pool edition (pool_seen pool.now)) }
    ensures { IfOk result (λ row. row ≡ pool_row (pool_seen pool.now)) }
{
    Ok(PoolRow {
        name: identifier(alloc, pool.name, edition)?,
        tokens: identifiers(alloc, &pool.tokens, edition)?,
    })
}

/// The pools, their names copied.
pub(crate) fn read_pools(
    alloc: Global,
    pools: &[PoolText<'_>],
    edition: Edition,
) -> Result<Pools, Memory>
    requires { IsTrue (are_named_pools edition (map pool_seen pools.now)) }
    ensures { IfOk result (λ rows. rows ≡ map pool_row (map pool_seen pools.now)) }
{
    let mut rows = Pools::new(alloc);
    for pool in pools {
        rows.push(pool_row(alloc, pool, edition)?)?;
    }
    Ok(rows)
}
