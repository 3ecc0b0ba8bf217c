//! A gate that is told of each step of a caller.

use crate::asking::{OPEN, READ, two_clients};
use crate::callers::{commits_left, opened, serve_octets};
use cell_io::{Gate, Point};
use std::alloc::Global;
use std::sync::Wait;
use std::sync::atomic::{AtomicU64, Ordering};
use std::test::Fail;

/// Notes the parts that the first client took, one behind the other, as digits to the base 100, and counts its commits
/// and all other points.
#[derive(Drop)]
struct Noting {
    took: AtomicU64,
    committed: AtomicU64,
    others: AtomicU64,
}

impl Gate for Noting {
    fn pass(&self, caller: u32, point: Point) {
        match (caller, point) {
            (1, Point::Took(part)) => {
                let known = self.took.load(Ordering::SeqCst);
                let now = known.wrapping_mul(100).wrapping_add(u64::from(part));
                self.took.store(now, Ordering::SeqCst);
            }
            (1, Point::Committed) => {
                self.committed.fetch_add(1, Ordering::SeqCst);
            }
            _ => {
                self.others.fetch_add(1, Ordering::SeqCst);
            }
        }
    }
}

/// The first client opens, reads a variable, and takes what is to be sent to it. How many outputs that are.
fn served<R: Wait>(rt: &R, alloc: Global, gate: &Noting) -> Option<usize> {
    let config = two_clients(alloc)?;
    let made = opened(alloc, &config)?;
    let device = made.device;
    let mut pass = made.first;
    let _opened = serve_octets(rt, alloc, &device, &mut pass, 1, OPEN, gate).ok()?;
    if commits_left(&pass) == 0 {
        return None;
    }
    let _read = serve_octets(rt, alloc, &device, &mut pass, 1, READ, gate).ok()?;
    if commits_left(&pass) == 0 {
        return None;
    }
    let drained = device.drain(&mut pass, gate).ok()?;
    Some(drained.outputs.len())
}

/// The first client's part is 6, and that of the variables 1. It is taken by each of the three events, and the
/// variables are taken for the read alone.
#[test]
fn a_gate_is_told_of_each_part_and_of_each_commit(rt: HostRuntime) -> Result<(), Fail> {
    let gate = Noting {
        took: AtomicU64::new(0),
        committed: AtomicU64::new(0),
        others: AtomicU64::new(0),
    };
    let outputs = served(&rt, rt.alloc(), &gate);
    let took = gate.took.load(Ordering::SeqCst);
    let committed = gate.committed.load(Ordering::SeqCst);
    let others = gate.others.load(Ordering::SeqCst);
    assert_eq!(rt;
        (outputs, took, committed, others),
        (Some(2), 6_06_01_06, 3, 0)
    );
    Ok(())
}
