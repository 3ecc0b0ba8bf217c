//! The device of many callers.

ghost use Rattle.std.specs.Prelude.{◌≡◌, ◌+◌, ℕ, List, IfOk, IfErr, map};
ghost use Rattle.std.specs.Box.{box_value};
ghost use Rattle.std.specs.List.{range_with_len};
ghost use Rattle.mms_types.specs.declared.event.CellEvent.{CellEvent};
ghost use Rattle.cell_config.specs.Said.{IsConfig};
ghost use Rattle.part_table.specs.Closing.{AreAllIdle, IsLongest};
ghost use Rattle.part_table.specs.Gathered.{AreAll, HaveGathered};
ghost use Rattle.part_table.specs.Held.{IsHandOf};
ghost use Rattle.part_table.specs.History.{StartsWith};
ghost use Rattle.part_table.specs.Known.{IsTrueOf, newcomer};
ghost use Rattle.step_parts.specs.Partition.{parts_of};
ghost use Rattle.mms_device.specs.Making.{MayMake};
ghost use Rattle.mms_device.specs.Shared.{IsOf, led_to};

use crate::answers::Unclosed;
use cell_config::Config;
use mms_types::{Edition, Memory};
use part_table::{PartTable, Pass};
use std::alloc::Global;
use std::marker::Model;
use std::snapshot::Snapshot;
use step_apply::start_parts;
use step_parts::{Cell, Part};

/// The device, which many callers share, each with a pass of its own: events are served on the parts that they want, at
/// once with others, and all of them have one history. Contracts see the table of its parts, and its configuration.
#[derive(Drop)]
pub struct Device {
    pub(crate) table: PartTable<Cell>,
    pub(crate) clients: u32,
    pub(crate) edition: Edition,
    pub(crate) config: Snapshot<Config>,
}

impl Model for Device {
    ghost use Rattle.std.specs.Prelude.{◌≡◌};
    ghost use Rattle.cell_config.specs.Said.{IsConfig};
    ghost use Rattle.mms_device.specs.Shared.{Shared, IsOf};

    ghost Value = { Shared };

    ghost use Rattle.std.specs.Coded.{codes};
    ghost use Rattle.mms_types.specs.DatumCode.{datum_code};
    ghost use Rattle.mms_types.specs.ShapeCode.{shape_code};

    ghost coded = { Prim.hlevel (codes, datum_code, shape_code) };

    ghost view = { λ device. record { table = device.table; config = device.config.value } };

    ghost invariant = { λ device. IsOf device.table device.config.value
        × IsConfig device.config.value × (device.clients ≡ device.config.value.clients)
        × (device.edition ≡ device.config.value.edition) };
}

/// How many events a caller may commit: 2^33.
const QUOTA: u64 = 8_589_934_592;

impl Device {
    /// The device at the start, as it is configured, and the passes of its callers in the order of their numbers: 0 for
    /// the cell itself, and one for each client. Each of them may commit 2^33 events. The error is want of memory.
    pub fn new(alloc: Global, config: &Config) -> Result<(Device, Vec<Pass<Cell>>), Memory>
        requires config { IsConfig config.now }
        ensures config { IfOk result (λ made. made.0.config ≡ config.now) }
        ensures table { IfOk result (λ made. IsOf made.0.table config.now) }
        ensures passes { IfOk result (λ made. made.1.items
            ≡ map (newcomer made.0.table) (range_with_len 0 (config.now.clients + 1))) }
    {
        let parts = start_parts(alloc, config)?;
        let Ok((table, passes)) = PartTable::new(alloc, parts, config.clients + 1, QUOTA) else {
            return Err(Memory::wanting());
        };
        let device = Device {
            table,
            clients: config.clients,
            edition: config.edition,
            config: Snapshot::of(config),
        };
        Ok((device, passes))
    }

    /// The pass knows a history that its old one begins, and the parts that it holds are those of the state to which
    /// that history leads. Nothing else of the pass changes.
    pub fn see(&self, pass: &mut Pass<Cell>)
        requires table { pass.old.table ≡ self.now.table }
        ensures kept { pass.new ≡ record pass.old { seen = pass.new.seen } }
        ensures seen { StartsWith pass.new.seen pass.old.seen }
        ensures parts { IsHandOf pass.new.taken (parts_of (led_to self.now.config pass.new.seen)) }
        ensures places { IsTrueOf MayMake pass.new }
    {
        self.table.see(pass);
    }

    /// Each of the two passes knows a history that begins with what the one had seen and with what the other had seen.
    /// The two need not be equal. Nothing else of the passes changes.
    pub fn meet(&self, a: &mut Pass<Cell>, b: &mut Pass<Cell>)
        requires a_table { a.old.table ≡ self.now.table }
        requires b_table { b.old.table ≡ self.now.table }
        ensures a_kept { a.new ≡ record a.old { seen = a.new.seen } }
        ensures b_kept { b.new ≡ record b.old { seen = b.new.seen } }
        ensures a_seen { StartsWith a.new.seen a.old.seen × StartsWith a.new.seen b.old.seen }
        ensures b_seen { StartsWith b.new.seen a.old.seen × StartsWith b.new.seen b.old.seen }
        ensures places { IsTrueOf MayMake a.new × IsTrueOf MayMake b.new }
    {
        self.table.meet(a, b);
    }

    /// All passes of the device, in the order of their numbers, then know one history as far as the answer says, which
    /// is the number of all their own places together. It begins with what each pass had seen, and each of its places
    /// is an own place of exactly one of them. Nothing else of the passes changes.
    pub fn gather(&self, passes: &mut [Pass<Cell>]) -> u64
        requires all { AreAll self.now.table passes.old }
        ensures gathered { (common : List (ℕ × CellEvent))
            × HaveGathered MayMake passes.old passes.new result common }
    {
        self.table.gather(passes)
    }

    /// The parts of the device, once all passes are there and none holds a part. They are those of the state to which
    /// the longest history leads that the passes know, of which each place is an own place of one pass.
    ///
    /// The error is want of memory, and has the device and the passes.
    pub fn close(self, alloc: Global, passes: Vec<Pass<Cell>>) -> Result<Vec<Box<Part>>, Unclosed>
        requires all { AreAllIdle self.table passes.items }
        ensures parts { IfOk result (λ parts. (history : List (ℕ × CellEvent))
            × IsLongest MayMake self.table.callers passes.items history
            × (map box_value parts.items ≡ parts_of (led_to self.config history))) }
        ensures back { IfErr result (λ back. (back.device ≡ self)
            × (back.passes.items ≡ passes.items)) }
    {
        let Device {
            table,
            clients,
            edition,
            config,
        } = self;
        match table.close(alloc, passes) {
            Ok(parts) => Ok(parts),
            Err(back) => Err(Unclosed {
                device: Device {
                    table: back.table,
                    clients,
                    edition,
                    config,
                },
                passes: back.passes,
            }),
        }
    }
}
