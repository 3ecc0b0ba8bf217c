//! Counts that the workers of a pool bring to their goals.

ghost use Rattle.std.specs.Prelude.{◌≤◌, IfOk};
ghost use Rattle.std.specs.List.{All};
ghost use Rattle.cell_pool.specs.Counting.{IsFit};

use cell_io::{Gate, Point};
use cell_pool::example::{Count, Counting};
use cell_pool::{PhaseStopped, serve_phase};
use std::alloc::{AllocError, Global};
use std::sync::Wait;
use std::sync::atomic::{AtomicU64, Ordering};
use std::test::Fail;
use std::thread::{Threads, yield_now};

/// A gate that holds the first caller until another has come as far, with a limit of turns, and counts steps.
#[derive(Drop)]
struct Meeting {
    callers: AtomicU64,
    steps: AtomicU64,
    late: AtomicU64,
}

impl Gate for Meeting {
    fn pass(&self, caller: u32, point: Point) {
        if point != Point::Committed {
            return;
        }
        self.steps.fetch_add(1, Ordering::SeqCst);
        let known = self.callers.load(Ordering::SeqCst);
        if known == 0 {
            self.callers.store(u64::from(caller) + 1, Ordering::SeqCst);
            self.wait_for_another(u64::from(caller) + 1);
        } else if known != u64::from(caller) + 1 {
            self.callers.store(u64::MAX, Ordering::SeqCst);
        }
    }
}

impl Meeting {
    fn new() -> Meeting {
        Meeting {
            callers: AtomicU64::new(0),
            steps: AtomicU64::new(0),
            late: AtomicU64::new(0),
        }
    }

    /// Waits until another caller comes, or the limit is reached.
    fn wait_for_another(&self, own: u64) {
        for _turn in 0..10_000_000u32 {
            if self.callers.load(Ordering::SeqCst) != own {
                return;
            }
            yield_now();
        }
        self.late.store(1, Ordering::SeqCst);
    }
}

/// A gate that notes which of two callers got on, one behind the other, as digits to the base 3, and how many steps the
/// first had made when the second made its first.
#[derive(Drop)]
struct Noting {
    callers: AtomicU64,
    first: AtomicU64,
    before: AtomicU64,
}

impl Gate for Noting {
    fn pass(&self, caller: u32, point: Point) {
        if point == Point::Committed {
            let known = self.callers.load(Ordering::SeqCst);
            let now = known.wrapping_mul(3).wrapping_add(u64::from(caller) + 1);
            self.callers.store(now, Ordering::SeqCst);
            if caller == 0 {
                self.first.fetch_add(1, Ordering::SeqCst);
            } else if self.before.load(Ordering::SeqCst) == u64::MAX {
                let made = self.first.load(Ordering::SeqCst);
                self.before.store(made, Ordering::SeqCst);
            }
        }
    }
}

impl Noting {
    fn new() -> Noting {
        Noting {
            callers: AtomicU64::new(0),
            first: AtomicU64::new(0),
            before: AtomicU64::new(u64::MAX),
        }
    }
}

/// The count of a caller to a goal.
fn count_to(by: u32, goal: u16, is_short: bool) -> Count
    ensures { IsFit result }
{
    Count {
        by,
        at: 0,
        rest: u32::from(goal),
        held_up: by,
        is_short,
    }
}

/// Counts of callers 0, 1, 2 and so on to these goals. Each is held up as many turns as its number says, and one of
/// them finds memory wanting at its goal.
fn counts_to(alloc: Global, goals: &[u16], short: u32) -> Result<Vec<Count>, AllocError>
    ensures { IfOk result (λ counts. All (λ count. ∥ IsFit count ∥₁) counts.items) }
{
    let mut counts = Vec::new(alloc);
    let mut by = 0u32;
    for &goal in goals {
        counts.push(count_to(by, goal, by == short))?;
        by = by.wrapping_add(1);
    }
    Ok(counts)
}

/// Whether these are the counts in their order, each with its goal before it and behind it.
fn are_in_order(counts: &[Count], goals: &[u16]) -> bool {
    counts.len() == goals.len()
        && counts.iter().zip(goals).enumerate().all(|(place, (count, goal))| {
            count.by as usize == place
                && u64::from(count.at) + u64::from(count.rest) == u64::from(*goal)
        })
}

/// What comes of the goals by so many workers: whether all were served, whether the counts stand in their order, and
/// how many of them reached their goals.
fn served<R: Threads + Wait + Sync, G: Gate + Sync>(
    rt: &R,
    alloc: Global,
    goals: &[u16],
    workers: u32,
    short: u32,
    gate: &G,
) -> Option<(bool, bool, usize)>
    requires { (1 ≤ workers) × (workers ≤ 16) }
{
    let counts = counts_to(alloc, goals, short).ok()?;
    let (all, counts) = match serve_phase(rt, &Counting, counts, workers, gate) {
        Ok(counts) => (true, counts),
        Err(PhaseStopped { jobs }) => (false, jobs),
    };
    let reached = counts.iter().filter(|count| count.rest == 0).count();
    Some((all, are_in_order(&counts, goals), reached))
}

const GOALS: [u16; 9] = [40, 0, 7, 300, 1, 65, 12, 9, 100];

/// No count has this number.
const NONE: u32 = 100;

#[test]
fn counts_reach_their_goals_by_any_number_of_workers(rt: HostRuntime) {
    for workers in [1, 2, 4, 16] {
        let found = served(&rt, rt.alloc(), &GOALS, workers, NONE, &cell_io::Open);
        assert_eq!(rt; found, Some((true, true, 9)), "{workers} workers");
    }
}

#[test]
fn all_counts_come_back_where_memory_is_wanting(rt: HostRuntime) {
    for workers in [1, 4] {
        let found = served(&rt, rt.alloc(), &GOALS, workers, 3, &cell_io::Open);
        assert!(rt;
            matches!(found, Some((false, true, _))),
            "{workers} workers"
        );
    }
}

#[test]
fn two_workers_are_at_work_at_once(rt: HostRuntime) -> Result<(), Fail> {
    let gate = Meeting::new();
    let found = served(&rt, rt.alloc(), &[20, 30], 2, NONE, &gate);
    let steps = gate.steps.load(Ordering::SeqCst);
    let late = gate.late.load(Ordering::SeqCst);
    assert_eq!(rt; (found, steps, late), (Some((true, true, 2)), 50, 0));
    Ok(())
}

/// The second count is held up once, behind the first sixteen turns of the first; then that has sixteen more.
#[test]
fn a_worker_turns_a_count_sixteen_times_and_puts_it_back(rt: HostRuntime) -> Result<(), Fail> {
    let gate = Noting::new();
    let found = served(&rt, rt.alloc(), &[40, 3], 1, NONE, &gate);
    let before = gate.before.load(Ordering::SeqCst);
    assert_eq!(rt; (found, before), (Some((true, true, 2)), 32));
    Ok(())
}

/// Its turns are taken one behind the other, and then the second count's, which was held up once.
#[test]
fn a_count_of_few_turns_is_done_before_another_is_begun(rt: HostRuntime) -> Result<(), Fail> {
    let gate = Noting::new();
    let found = served(&rt, rt.alloc(), &[3, 3], 1, NONE, &gate);
    let callers = gate.callers.load(Ordering::SeqCst);
    assert_eq!(rt; (found, callers), (Some((true, true, 2)), 377));
    Ok(())
}

#[test]
fn no_count_is_begun_once_memory_was_wanting(rt: HostRuntime) -> Result<(), Fail> {
    let gate = Noting::new();
    let found = served(&rt, rt.alloc(), &[0, 3], 1, 0, &gate);
    let callers = gate.callers.load(Ordering::SeqCst);
    assert_eq!(rt; (found, callers), (Some((false, true, 1)), 0));
    Ok(())
}
