//! A gate that holds one client in the middle of a phase, while another one is served.

use cell_io::{Gate, MemorySink, MemorySource, Point};
use cell_run::run_cell;
use std::alloc::Global;
use std::sync::Wait;
use std::sync::atomic::{AtomicU64, Ordering};
use std::test::Fail;
use std::thread::{Threads, yield_now};

/// Where a client has just taken the part of the variables.
const VARIABLES: Point = Point::Took(1);

/// A variable `Speed`, and two clients that open their associations. The second defines the semaphore T, with one
/// token.
const BEGINNING: &str = "\
mms-recording 1
config
clients = 2
cell = [{ number = 0, type = \"850120\", value = \"850100\" }]
variable = [{ name = \"Speed\", cell = 0 }]
end
1 A826800300FDE881010A82010A830105A416800101810305F100820C03EE1C00000408000079EF18
phase
2 A826800300FDE881010A82010A830105A416800101810305F100820C03EE1C00000408000079EF18
2 A00D020101B508A003800154810101
phase
";

/// What is written of that.
const BEGUN: &str = "\
phase 1
1 1 A826800300FDE881010A82010A830105A416800101810305F100820C03EE1C00000408000079EF18
client 1
> A926800300FDE881010A82010A830105A416800101810305E100820C03EF3C1FFF0FFDB8607E0098
phase 2
4 2 A826800300FDE881010A82010A830105A416800101810305F100820C03EE1C00000408000079EF18
5 2 A00D020101B508A003800154810101
client 2
> A926800300FDE881010A82010A830105A416800101810305E100820C03EF3C1FFF0FFDB8607E0098
> A1050201019500
phase 3
";

/// A phase in which one client reads `Speed`, and is held where it has the variables, until the other one has got the
/// token.
#[derive(Clone, Copy)]
struct Case {
    /// The client that is held.
    held: u32,
    /// How many events of the other are committed then.
    commits: u64,
    /// The events of the phase, and what is written of it.
    events: &'static str,
    report: &'static str,
}

const CASES: [Case; 2] = [
    // The second client opened, defined T and was drained twice before it takes the token.
    Case {
        held: 1,
        commits: 5,
        events: "\
1 A014020103A40FA10DA00B3009A00780055370656564
2 A00A020102B305A003800154
",
        report: "\
8 2 A00A020102B305A003800154
9 1 A014020103A40FA10DA00B3009A00780055370656564
client 1
> A10A020103A405A103850100
client 2
> A107020102B3028000
",
    },
    // The first client opened and was drained twice.
    Case {
        held: 2,
        commits: 4,
        events: "\
1 A00A020102B305A003800154
2 A014020103A40FA10DA00B3009A00780055370656564
",
        report: "\
8 1 A00A020102B305A003800154
9 2 A014020103A40FA10DA00B3009A00780055370656564
client 1
> A107020102B3028000
client 2
> A10A020103A405A103850100
",
    },
];

/// The gate of a case, with a limit of turns.
#[derive(Drop)]
struct Holding<'a> {
    case: &'a Case,
    /// How many events of the other client are committed.
    commits: AtomicU64,
    /// Whether the limit was reached.
    late: AtomicU64,
}

impl Holding<'_> {
    /// Waits until the other client has got the token, or the limit is reached.
    fn hold(&self) {
        for _turn in 0..10_000_000u32 {
            if self.commits.load(Ordering::SeqCst) >= self.case.commits {
                return;
            }
            yield_now();
        }
        self.late.store(1, Ordering::SeqCst);
    }
}

impl Gate for Holding<'_> {
    fn pass(&self, caller: u32, point: Point) {
        if caller == self.case.held {
            if point == VARIABLES {
                self.hold();
            }
        } else if caller != 0 && point == Point::Committed {
            self.commits.fetch_add(1, Ordering::SeqCst);
        }
    }
}

/// Has a case served by so many workers: the status, what is written, and whether the limit of turns was reached.
fn served<R: Threads + Wait + Sync>(
    rt: &R,
    alloc: Global,
    case: &Case,
    workers: &str,
) -> Option<(u8, String, u64)> {
    let mut words = Vec::new(alloc);
    for word in ["run", "--workers", workers] {
        words.push(String::from_str(alloc, word).ok()?).ok()?;
    }
    let recording = format!(in alloc; "{BEGINNING}{}", case.events).ok()?;
    let mut source = MemorySource::new(recording.into_bytes(), Vec::new(alloc));
    let mut sink = MemorySink::new(alloc, 4096, Vec::new(alloc)).ok()?;
    let gate = Holding {
        case,
        commits: AtomicU64::new(0),
        late: AtomicU64::new(0),
    };
    let status = run_cell(rt, alloc, &words, &mut source, &mut sink, &gate);
    let report = String::from_utf8(Vec::from_slice(alloc, sink.holds()).ok()?).ok()?;
    Some((status, report, gate.late.load(Ordering::SeqCst)))
}

#[test]
fn a_client_is_served_while_another_is_held(rt: HostRuntime) -> Result<(), Fail> {
    for case in &CASES {
        for workers in ["2", "4"] {
            let found = served(&rt, rt.alloc(), case, workers);
            let report = format!(in rt.alloc(); "{BEGUN}{}", case.report)?;
            assert_eq!(rt; found, Some((0, report, 0)), "{workers} workers");
        }
    }
    Ok(())
}
