//! A device of many callers, and the passes of all of them.

ghost use Rattle.std.specs.Prelude.{◌≡◌, ◌≤◌, [], IfOk};
ghost use Rattle.cell_config.specs.Said.{IsConfig};
ghost use Rattle.cell_run.specs.Running.{HasRun};

use cell_config::Config;
use mms_device::Device;
use mms_step::Cell;
use mms_types::Memory;
use part_table::Pass;
use std::alloc::Global;

/// The device, the passes of its callers in the order of their numbers, how many events it has served, and how many
/// workers serve a phase.
#[derive(Drop)]
pub(crate) struct Crew {
    pub(crate) device: Device,
    pub(crate) passes: Vec<Pass<Cell>>,
    pub(crate) count: u64,
    pub(crate) workers: u32,
}

impl Crew {
    /// The configured device at its start.
    pub(crate) fn new(alloc: Global, config: &Config, workers: u32) -> Result<Crew, Memory>
        requires config { IsConfig config.now }
        requires workers { (1 ≤ workers) × (workers ≤ 16) }
        ensures run { IfOk result (λ crew. HasRun crew config.now [] []) }
        ensures workers { IfOk result (λ crew. crew.workers ≡ workers) }
    {
        let (device, passes) = Device::new(alloc, config)?;
        Ok(Crew {
            device,
            passes,
            count: 0,
            workers,
        })
    }
}
