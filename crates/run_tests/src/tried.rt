//! A gate that holds callers of a trial that have taken a part, until so many have: only where as many are at work at
//! once does the trial go on before a limit of turns. It counts the commits too, so that a trial that serves nothing is
//! told.

use cell_io::{Gate, MemorySink, MemorySource, Point};
use cell_run::run_cell;
use std::alloc::Global;
use std::sync::Wait;
use std::sync::atomic::{AtomicU64, Ordering};
use std::test::Fail;
use std::thread::{Threads, yield_now};

/// What is written.
const LINES: &str = "phases 5\nevents 17\nrequests 10\nreplies 13\n";

/// A number of workers, and what is tried with it.
#[derive(Clone, Copy)]
struct Case {
    workers: &'static str,
    /// For how many callers the gate waits, and for how many turns.
    wanted: u32,
    turns: u32,
    /// How many callers come while it waits.
    came: u32,
}

/// As many callers as there are workers meet, and no other one comes as long as these are held.
const CASES: [Case; 5] = [
    Case {
        workers: "1",
        wanted: 2,
        turns: 500_000,
        came: 1,
    },
    Case {
        workers: "2",
        wanted: 2,
        turns: 10_000_000,
        came: 2,
    },
    Case {
        workers: "2",
        wanted: 3,
        turns: 500_000,
        came: 2,
    },
    Case {
        workers: "3",
        wanted: 3,
        turns: 10_000_000,
        came: 3,
    },
    Case {
        workers: "16",
        wanted: 3,
        turns: 10_000_000,
        came: 3,
    },
];

/// The gate of a case.
#[derive(Drop)]
struct Meeting {
    case: Case,
    /// The callers that came with a part while others were waited for, a bit for each.
    came: AtomicU64,
    /// Whether nobody is waited for any more.
    over: AtomicU64,
    /// How many events are committed.
    commits: AtomicU64,
}

impl Meeting {
    /// How many callers came while others were waited for.
    fn count(&self) -> u32 {
        self.came.load(Ordering::SeqCst).count_ones()
    }

    /// Waits until so many callers have come, or the limit is reached.
    fn hold(&self) {
        for _turn in 0..self.case.turns {
            if self.count() >= self.case.wanted {
                break;
            }
            yield_now();
        }
        self.over.store(1, Ordering::SeqCst);
    }

    /// A caller comes with a part.
    fn come(&self, caller: u32) {
        if self.over.load(Ordering::SeqCst) != 0 {
            return;
        }
        let bit = 1u64.rotate_left(caller);
        if self.came.fetch_or(bit, Ordering::SeqCst) & bit == 0 {
            self.hold();
        }
    }
}

impl Gate for Meeting {
    fn pass(&self, caller: u32, point: Point) {
        match point {
            Point::Took(_) => self.come(caller),
            Point::Committed => {
                self.commits.fetch_add(1, Ordering::SeqCst);
            }
            Point::Busy(_) => {}
        }
    }
}

/// What came of a trial.
#[derive(Debug, PartialEq, Drop)]
struct Outcome {
    status: u8,
    lines: String,
    came: u32,
    commits: u64,
}

/// Has the device try itself. A read of the source would fail.
fn outcome_of<R: Threads + Wait + Sync>(rt: &R, alloc: Global, case: Case) -> Option<Outcome> {
    let mut words = Vec::new(alloc);
    for word in "stress --seed 1 --clients 3 --rounds 3 --workers".split(' ') {
        words.push(String::from_str(alloc, word).ok()?).ok()?;
    }
    words
        .push(String::from_str(alloc, case.workers).ok()?)
        .ok()?;
    let mut failing = Vec::new(alloc);
    failing.push(1).ok()?;
    let mut source = MemorySource::new(Vec::new(alloc), failing);
    let mut sink = MemorySink::new(alloc, 4096, Vec::new(alloc)).ok()?;
    let gate = Meeting {
        case,
        came: AtomicU64::new(0),
        over: AtomicU64::new(0),
        commits: AtomicU64::new(0),
    };
    let status = run_cell(rt, alloc, &words, &mut source, &mut sink, &gate);
    Some(Outcome {
        status,
        lines: String::from_utf8(Vec::from_slice(alloc, sink.holds()).ok()?).ok()?,
        came: gate.count(),
        commits: gate.commits.load(Ordering::SeqCst),
    })
}

/// Seventeen events, and fifteen drains: those of three clients behind each of five phases.
#[test]
fn a_trial_is_served_by_so_many_at_once(rt: HostRuntime) -> Result<(), Fail> {
    for case in CASES {
        let wanted = Outcome {
            status: 0,
            lines: String::from_str(rt.alloc(), LINES)?,
            came: case.came,
            commits: 32,
        };
        assert_eq!(rt;
            outcome_of(&rt, rt.alloc(), case),
            Some(wanted),
            "{} workers",
            case.workers
        );
    }
    Ok(())
}
