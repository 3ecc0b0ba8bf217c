//! A table of parts that several threads share.

ghost use Rattle.std.specs.Prelude.{◌≡◌, ◌+◌, ◌<◌, ◌≤◌, length};
ghost use Rattle.part_table.specs.Amounts.{AreInOrder};
ghost use Rattle.part_table.specs.Known.{HoldsNothing};

use part_table::example::{Amounts, serve, table_of, take};
use part_table::{PartTable, Pass};
use std::alloc::Global;
use std::test::Fail;
use std::thread::{Threads, join};

/// The numbers of the parts, added up.
fn total(parts: &[Box<u64>]) -> u64 {
    let mut sum = 0u64;
    for part in parts {
        sum = sum.saturating_add(**part);
    }
    sum
}

/// Two callers of five parts make 500 events each, in two threads.
fn serve_both<R: Threads + Sync>(
    rt: &R,
    table: &PartTable<Amounts>,
    first: Pass<Amounts>,
    second: Pass<Amounts>,
    by: u32,
) -> ((Pass<Amounts>, u32), (Pass<Amounts>, u32))
    requires table { (first.table ≡ table.now) × (second.table ≡ table.now)
        × (length table.now.opening ≡ 5) }
    requires idle { HoldsNothing first × HoldsNothing second }
    requires by { (by ≡ first.by) × (by + 1 ≡ second.by) × (by < 64) }
    ensures table { (result.0.0.table ≡ table.now) × (result.1.0.table ≡ table.now) }
    ensures by { (result.0.0.by ≡ by) × (result.1.0.by ≡ by + 1) }
    ensures idle { HoldsNothing result.0.0 × HoldsNothing result.1.0 }
{
    join(
        rt,
        || serve(table, first, by, 5, 500),
        || serve(table, second, by + 1, 5, 500),
    )
}

/// Gathers all passes, closes the table, and answers how many events were made and the total.
fn finish(
    alloc: Global,
    table: PartTable<Amounts>,
    mut passes: Vec<Pass<Amounts>>,
) -> Option<(u64, u64)>
    requires all { (length passes.items ≡ table.callers) × AreInOrder table 0 passes.items }
{
    let places = table.gather(passes.as_mut_slice());
    let parts = table.close(alloc, passes).ok()?;
    Some((places, total(parts.as_slice())))
}

/// Opens a table of these numbers, closes it with no event made, and answers how many events were made and the total.
fn opened_and_closed(alloc: Global, numbers: &[u64], callers: u32) -> Option<(u64, u64)>
    requires few { (1 ≤ length numbers.now) × (length numbers.now ≤ 256) × (1 ≤ callers)
        × (callers ≤ 65) }
{
    let (table, passes) = table_of(alloc, numbers, callers, 1_000).ok()?;
    finish(alloc, table, passes)
}

/// Takes three of five parts, one after the other: which one was taken last, after each of them.
fn last_of_each(alloc: Global) -> Option<(u32, u32, u32)> {
    let (table, mut passes) = table_of(alloc, &[1, 2, 3, 4, 5], 1, 10).ok()?;
    let mut pass = passes.pop()?;
    take(&table, &mut pass, 3).ok()?;
    let first = pass.last_taken()?;
    take(&table, &mut pass, 0).ok()?;
    let second = pass.last_taken()?;
    take(&table, &mut pass, 4).ok()?;
    let third = pass.last_taken()?;
    Some((first, second, third))
}

#[test]
fn the_part_taken_last_is_told(rt: HostRuntime) {
    assert!(rt; last_of_each(rt.alloc()) == Some((3, 0, 4)));
}

/// Takes three of five parts, gives back the one taken second, and then the others as they are told: each of them.
fn last_after_another(alloc: Global) -> Option<(u32, u32, bool)> {
    let (table, mut passes) = table_of(alloc, &[1, 2, 3, 4, 5], 1, 10).ok()?;
    let mut pass = passes.pop()?;
    take(&table, &mut pass, 3).ok()?;
    take(&table, &mut pass, 0).ok()?;
    take(&table, &mut pass, 4).ok()?;
    table.give(&mut pass, 0);
    let first = pass.last_taken()?;
    table.give(&mut pass, first);
    let second = pass.last_taken()?;
    table.give(&mut pass, second);
    Some((first, second, pass.last_taken().is_none()))
}

#[test]
fn the_part_taken_last_is_told_after_another_is_given_back(rt: HostRuntime) {
    assert!(rt; last_after_another(rt.alloc()) == Some((4, 3, true)));
}

#[test]
fn a_table_has_room_for_71_parts_and_65_callers(rt: HostRuntime) {
    let found = opened_and_closed(rt.alloc(), &[7; 71], 65);
    assert!(rt; found == Some((0, 497)));
}

#[test]
fn four_threads_share_five_parts(rt: HostRuntime) -> Result<(), Fail> {
    let Ok((table, mut passes)) = table_of(rt.alloc(), &[100, 201, 302, 0, 4], 4, 1_000) else {
        return Err(Fail::from("a table has room"));
    };
    let (Some(d), Some(c), Some(b), Some(a)) = (
        passes.pop(),
        passes.pop(),
        passes.pop(),
        passes.pop(),
    ) else {
        return Err(Fail::from("four passes"));
    };
    let ((a, b), (c, d)) = join(
        &rt,
        || serve_both(&rt, &table, a, b, 0),
        || serve_both(&rt, &table, c, d, 2),
    );
    let passes = vec![in rt.alloc(); a.0, b.0, c.0, d.0]?;
    let found = finish(rt.alloc(), table, passes);
    assert!(rt; found == Some((2_000, 607)));
    Ok(())
}
