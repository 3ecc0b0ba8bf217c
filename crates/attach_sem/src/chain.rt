ghost use Rattle.std.specs.Prelude.{◌≡◌, []};

use std::alloc::Global;
use std::marker::Model;

/// Numbers of entries. Contracts see the list of them.
#[derive(Drop)]
pub struct Numbers {
    pub(crate) list: Vec<u64>,
}

impl Model for Numbers {
    ghost use Rattle.std.specs.Prelude.{ℕ, List};

    ghost Value = { List ℕ };

    ghost view = { λ numbers. numbers.list.items };
}

impl Numbers {
    /// No numbers. Nothing is allocated.
    pub fn new(alloc: Global) -> Numbers
        ensures { result ≡ [] }
    {
        Numbers {
            list: Vec::new(alloc),
        }
    }

    /// The numbers.
    pub fn as_slice(&self) -> &[u64]
        ensures { result.now ≡ self.now }
    {
        &self.list
    }
}

/// Who is served with a token that is freed, one after the other.
#[derive(Drop)]
pub struct Chain {
    /// The entries whose attached requests are carried out, in order of rank.
    pub attached: Numbers,
    /// The entry that gets the token then. None: the token is free then.
    pub last: Option<u64>,
}
