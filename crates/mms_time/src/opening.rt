//! The pools that are there at the start.

ghost use Rattle.std.specs.Prelude.{◌≡◌, IfOk};
ghost use Rattle.object_names.specs.Listing.{sorted_names};
ghost use Rattle.mms_time.specs.Opening.{ArePools, HasTokens, configured, pool_row};

use crate::{Semaphore, SemaphoreRow, Semaphores};
use mms_types::{Identifier, Key, Memory, PoolRow, Pools, Scope};
use pool_sem::PoolSem;
use std::alloc::Global;

/// Names in order of octets.
fn in_order(mut names: Vec<Identifier>) -> Vec<Identifier>
    ensures { result.items ≡ sorted_names names.items }
{
    names.sort_unstable();
    names
}

/// Copies of these names, in the same order.
fn copied(alloc: Global, names: &[Identifier]) -> Result<Vec<Identifier>, Memory>
    ensures { IfOk result (λ copies. copies.items ≡ names.now) }
{
    let mut copies = Vec::with_capacity(alloc, names.len())?;
    for name in names {
        copies.push(name.copy(alloc)?)?;
    }
    Ok(copies)
}

/// A pool of a configuration, whose tokens are free.
fn pool(alloc: Global, row: &PoolRow) -> Result<SemaphoreRow, Memory>
    requires { HasTokens row.now }
    ensures { IfOk result (λ pool. pool ≡ (pool_row row.now).1) }
{
    let tokens = in_order(copied(alloc, row.tokens.as_slice())?);
    Ok(SemaphoreRow {
        configured: true,
        semaphore: Semaphore::Pool(PoolSem::new(alloc, tokens)?),
    })
}

/// The pools of a configuration, in its order: semaphores of the VMD that can't be deleted, whose tokens are free
/// (ISO 9506-1, pool semaphore). The one refusal is want of memory.
pub fn configured(alloc: Global, pools: Pools) -> Result<Semaphores, Memory>
    requires { ArePools pools }
    ensures { IfOk result (λ semaphores. semaphores ≡ configured pools) }
{
    let mut semaphores = Semaphores::new(alloc);
    for row in pools.into_vec() {
        let semaphore = pool(alloc, &row)?;
        let key = Key {
            scope: Scope::Vmd,
            item: row.name,
        };
        semaphores.insert(key, semaphore)?;
    }
    Ok(semaphores)
}
