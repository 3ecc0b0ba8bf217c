//! What the calls of a device that many callers share answer.

use crate::Device;
use part_table::Pass;
use step_parts::Cell;

/// An event was served.
#[derive(Clone, Copy, Drop)]
pub struct Served {
    /// Its place in the history, from 1.
    pub ticket: u64,
}

/// A part that the event wants is held by another caller.
#[derive(Clone, Copy, PartialEq, Eq, Drop)]
pub struct Busy {
    /// The part's number.
    pub part: u32,
    /// The caller's number.
    pub by: u32,
}

/// Why an event was not served.
#[derive(Clone, Copy, Drop)]
pub enum Refused {
    /// A part that it wants is held by another caller.
    Busy(Busy),
    /// There was not enough memory.
    Memory,
}

/// There was not enough memory to close a device. The device and its passes come back.
#[derive(Drop)]
pub struct Unclosed {
    /// The device.
    pub device: Device,
    /// The passes.
    pub passes: Vec<Pass<Cell>>,
}
