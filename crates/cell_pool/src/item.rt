//! A job at its place.
ghost use Rattle.std.specs.Prelude.{◌≡◌, ◌<◌, ◌⊎◌, length, IfSome, slice_get, IsTrue, IsFalse};
ghost use Rattle.cell_pool.specs.Rule.{Same, Waits};
ghost use Rattle.cell_pool.specs.declared.turn.Step.TheVariants.{Moved, Busy, Done, Memory};

use crate::given::Given;
use crate::turn::{Step, Turn};
use crate::work::give_way;
use cell_io::Gate;
use std::marker::PhantomData;
use std::sync::Wait;

/// A job with its place in the order in which the jobs were given: it is fit, made of the job that was given there,
/// done where it has ended, and short where its last turn found memory wanting.
#[derive(Drop)]
pub(crate) struct Item<T: Turn, C: Given<T::Job>> {
    pub(crate) place: usize,
    pub(crate) job: T::Job,
    pub(crate) ended: bool,
    pub(crate) short: bool,
    pub(crate) of: PhantomData<C>,
    pub ghost is_place: { place < length C.given },
    pub ghost is_fit: { ∥ C.fit job ∥₁ },
    pub ghost is_made: { ∥ IfSome (slice_get C.given place) (λ from. T.made from job) ∥₁ },
    pub ghost is_done: { IsTrue ended → ∥ T.done job ∥₁ },
    pub ghost is_short: { IsTrue short → ∥ T.short job ∥₁ },
}

/// How many turns of a job a worker takes at most before the job goes back to the queue: what a job costs beside what it
/// serves, the steps on the words of the queue that all workers share and its way to another processor, is then paid
/// once for so many.
const TURNS: u32 = 16;

/// One turn more of a job that the last one moved on.
fn turned_again<T: Turn, G: Gate>(turns: &T, job: &mut T::Job, last: Step, gate: &G) -> Step
    // A job that is done, or found memory wanting, isn't turned again.
    requires moved { last ≡ Moved }
    requires fit { ∥ T.fit turns.now job.old ∥₁ }
    ensures fit { ∥ T.fit turns.now job.new ∥₁ }
    ensures made { ∥ T.made job.old job.new ∥₁ }
    ensures done { result ≡ Done → ∥ T.done job.new ∥₁ }
    ensures short { result ≡ Memory → ∥ T.short job.new ∥₁ }
{
    let _moved = last;
    turns.turn(job, gate)
}

/// Turns of a job while they move it on, and at most so many as a worker takes at once; how the last one ended.
pub(crate) fn turned<T: Turn, C: Given<T::Job>, G: Gate>(
    turns: &T,
    item: Item<T, C>,
    gate: &G,
) -> (Item<T, C>, Step)
    requires same { Same (T.fit turns.now) C.fit }
    // A job that is done, or found memory wanting, isn't turned again.
    requires waits { Waits item.ended item.short }
    ensures place { result.0.place ≡ item.place }
    ensures done { result.1 ≡ Done → IsTrue result.0.ended × IsFalse result.0.short }
    ensures memory { result.1 ≡ Memory → IsFalse result.0.ended × IsTrue result.0.short }
    ensures waits { (result.1 ≡ Moved) ⊎ (result.1 ≡ Busy) → Waits result.0.ended result.0.short }
{
    let Item { place, mut job, .. } = item;
    let mut step = turns.turn(&mut job, gate);
    for _turn in 1..TURNS {
        let Step::Moved = step else {
            break;
        };
        step = turned_again(turns, &mut job, step, gate);
    }
    let ended = matches!(step, Step::Done);
    let short = matches!(step, Step::Memory);
    (
        Item {
            place,
            job,
            ended,
            short,
            of: PhantomData,
        },
        step,
    )
}

/// Turns a job until it is done, or memory is wanting.
pub(crate) fn turned_out<T: Turn, C: Given<T::Job>, G: Gate, R: Wait>(
    rt: &R,
    turns: &T,
    item: Item<T, C>,
    gate: &G,
) -> Item<T, C>
    requires same { Same (T.fit turns.now) C.fit }
    requires waits { Waits item.ended item.short }
    ensures place { result.place ≡ item.place }
    ensures rests { IsTrue result.ended ⊎ IsTrue result.short }
{
    let mut item = item;
    for _turn in rt.forever() {
        let (after, step) = turned(turns, item, gate);
        match step {
            Step::Done | Step::Memory => return after,
            Step::Moved | Step::Busy => {
                give_way(step);
                item = after;
            }
        }
    }
    unreachable!()
}
