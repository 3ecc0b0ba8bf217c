use mms_types::Memory;
use object_names::Copied;
use pool_sem::PoolSem;
use std::alloc::Global;
use token_sem::TokenSem;

/// A semaphore, by its kind (ISO 9506-1, semaphore, class).
pub enum Semaphore {
    /// One whose tokens are equal.
    Token(TokenSem),
    /// One whose tokens have names.
    Pool(PoolSem),
}

/// A semaphore of a device.
pub struct SemaphoreRow {
    /// Whether it was configured: then it can't be deleted.
    pub configured: bool,
    /// Its tokens and its entries.
    pub semaphore: Semaphore,
}

impl Copied for SemaphoreRow {
    fn copied(&self, alloc: Global) -> Result<SemaphoreRow, Memory> {
        let semaphore = match &self.semaphore {
            Semaphore::Token(tokens) => Semaphore::Token(tokens.copy(alloc)?),
            Semaphore::Pool(pool) => Semaphore::Pool(pool.copy(alloc)?),
        };
        Ok(SemaphoreRow {
            configured: self.configured,
            semaphore,
        })
    }
}

impl Drop for Semaphore {
    fn drop(self) {
        match self {
            Semaphore::Token(_x) => {}
            Semaphore::Pool(_x) => {}
        }
    }
}

impl Drop for SemaphoreRow {
    fn drop(self) {
        let SemaphoreRow {
            configured: _,
            semaphore: _semaphore,
        } = self;
    }
}
