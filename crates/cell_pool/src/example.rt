//! An example of jobs: counts that go up one by one to their goals.
ghost use Rattle.std.specs.Prelude.{◌≡◌, ◌≢◌, ◌+◌, ◌-◌, ◌<◌, ◌^◌, IsTrue};
ghost use Rattle.cell_pool.specs.declared.turn.Step.TheVariants.{Busy, Memory, Moved};

use crate::turn::{Step, Turn};
use cell_io::{Gate, Point};

/// A count on its way to a goal. In each turn it goes up by one, unless it is held up, or memory is wanting.
#[derive(Clone, Copy, Debug, PartialEq, Eq, Drop)]
pub struct Count {
    /// The caller that counts.
    pub by: u32,
    /// How far it is.
    pub at: u32,
    /// How far it has to go from there.
    pub rest: u32,
    /// How many turns it is held up before it goes on.
    pub held_up: u32,
    /// Whether memory is wanting once it has nothing more to go.
    pub is_short: bool,
}

/// What counts.
pub struct Counting;

impl Turn for Counting {
    ghost use Rattle.std.specs.Prelude.{◌≡◌, IsTrue};
    ghost use Rattle.cell_pool.specs.Counting.{IsFit, MadeOf, made_of_itself, made_of_made};

    type Job = Count;

    ghost fit = { λ turns count. IsFit count };

    ghost done = { λ count. count.rest ≡ 0 };

    ghost short = { λ count. (count.rest ≡ 0) × IsTrue count.is_short };

    ghost same_work = { λ a b. (b.at ≡ a.at) × (b.rest ≡ a.rest) };

    ghost made = { MadeOf };

    ghost same = { made_of_itself };

    ghost joins = { made_of_made };

    fn turn<G: Gate>(&self, job: &mut Count, gate: &G) -> Step {
        if job.held_up > 0 {
            job.held_up -= 1;
            gate.pass(job.by, Point::Busy(0));
            return Step::Busy;
        }
        if job.rest == 0 {
            return ended(job.is_short);
        }
        go_on(job);
        gate.pass(job.by, Point::Committed);
        Step::Moved
    }
}

/// Goes up by one.
fn go_on(count: &mut Count)
    requires { (0 < count.old.rest) × (count.old.at + count.old.rest < 2 ^ 32) }
    ensures { count.new ≡ record count.old { at = count.old.at + 1; rest = count.old.rest - 1 } }
{
    count.at += 1;
    count.rest -= 1;
}

/// How the turn of a count ends that has nothing more to go.
fn ended(is_short: bool) -> Step
    ensures memory { result ≡ Memory → IsTrue is_short }
    ensures others { (result ≢ Moved) × (result ≢ Busy) }
{
    if is_short { Step::Memory } else { Step::Done }
}
