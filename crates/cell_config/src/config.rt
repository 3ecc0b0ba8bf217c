ghost use Rattle.std.specs.Prelude.{◌≡◌};
ghost use Rattle.cell_config.specs.declared.config.BadConfig.TheVariants.{Memory as OutOfMemory};

use mms_types::{Cells, Edition, Memory, Moment, NamedCells, Octets, Pools};
use thiserror::Error;

/// What a configuration says of a cell.
pub struct Config {
    /// The edition that it is of.
    pub edition: Edition,
    /// How many clients there are, from 1 to 64: their numbers are 1 to this one.
    pub clients: u32,
    /// The moment at which the cell starts, at most the last millisecond of day 65,535.
    pub start: Moment,
    /// Who made the device: 1 to 32 octets from 20 to 7E hex (ISO 9506-2, Identify, vendorName).
    pub vendor: Octets,
    /// Which device it is: 1 to 32 octets from 20 to 7E hex (ISO 9506-2, Identify, modelName).
    pub model: Octets,
    /// Its revision: 1 to 32 octets from 20 to 7E hex (ISO 9506-2, Identify, revision).
    pub revision: Octets,
    /// The cells, in the order of the text: each with a number of its own from 0 to 4,095, and a
    /// value of its type (ISO 9506-1, unnamed variable).
    pub cells: Cells,
    /// The variables of the VMD, in the order of the text: at most 4,096, each with a name of its
    /// own and one of the cells (ISO 9506-1, named variable).
    pub variables: NamedCells,
    /// The pools of the VMD, in the order of the text: at most 256, each with a name of its own and
    /// 1 to 256 tokens, no two of the same name (ISO 9506-1, pool semaphore).
    pub pools: Pools,
}

/// Why a text is no configuration.
#[derive(Clone, Copy, Debug, PartialEq, Eq, Error)]
pub enum BadConfig {
    /// The least rule that the text breaks:
    /// - 0: it is no TOML document;
    /// - 1: a key is not listed, or a value is of another TOML type than its key takes, or a row
    ///   lacks a key;
    /// - 2: `clients`, `day` or `ms` is out of range;
    /// - 3: `vendor`, `model` or `revision` is not 1 to 32 octets from 20 to 7E hex;
    /// - 4: the name of a variable, a guard, a pool or a token is no Identifier;
    /// - 5: a cell's number is not 0 to 4,095, or two cells share one;
    /// - 6: a type or a value is not hex of one element of its form, or nests deeper than 10, or
    ///   the value is not of the type;
    /// - 7: two variables share a name, or the cell of one is missing;
    /// - 8: a pool has no token, more than 256, or the same twice, or two pools share a name;
    /// - 9: there are more than 4,096 variables or 256 pools.
    #[error("rule {0} of the configuration is broken")]
    Rule(u8),
    /// There was not enough memory.
    #[error("out of memory")]
    Memory,
}

impl From<Memory> for BadConfig {
    ghost from_gives = { λ _ e. e ≡ OutOfMemory };

    fn from(_lost: Memory) -> BadConfig {
        BadConfig::Memory
    }
}

impl Drop for Config {
    fn drop(self) {
        let Config {
            edition: _,
            clients: _,
            start: _,
            vendor: _vendor,
            model: _model,
            revision: _revision,
            cells: _cells,
            variables: _variables,
            pools: _pools,
        } = self;
    }
}
