//! A worker: it takes a job from the queue, turns it while its turns move it on, up to sixteen times, and puts it back at
//! the end.
ghost use Rattle.cell_pool.specs.Rule.{Same};
ghost use Rattle.cell_pool.specs.Items.{HasWorked, IsReady};

use crate::given::Given;
use crate::item::{Item, turned, turned_out};
use crate::rule::{Puts, Queue, Share, Takes};
use crate::turn::{Step, Turn};
use cell_io::Gate;
use std::sync::Wait;
use std::thread;

/// A worker: its pass of the queue, the jobs that it keeps, with room for all, and whether a turn found memory wanting.
#[derive(Drop)]
pub(crate) struct Worker<T: Turn, C: Given<T::Job>> {
    pub(crate) pass: Share<T, C>,
    pub(crate) kept: Vec<Item<T, C>>,
    pub(crate) is_short: bool,
}

/// Lets other threads go first where a job was held up.
pub(crate) fn give_way(step: Step) {
    if let Step::Busy = step {
        thread::yield_now();
    }
}

/// Serves jobs until the queue is empty, or memory is wanting. A job that the queue refuses is turned until it is done.
pub(crate) fn work<T: Turn, C: Given<T::Job>, G: Gate, R: Wait>(
    rt: &R,
    turns: &T,
    queue: &Queue<T, C>,
    worker: &mut Worker<T, C>,
    gate: &G,
)
    requires same { Same (T.fit turns.now) C.fit }
    requires ready { IsReady queue.now worker.old }
    // Once a turn found memory wanting, no further job is begun.
    ensures worked { HasWorked queue.now worker.new }
{
    for _turn in rt.forever() {
        if worker.kept.len() >= worker.kept.capacity() {
            return;
        }
        let Some(item) = queue.pop_as::<Takes, R>(rt, &mut worker.pass) else {
            return;
        };
        let (item, step) = turned(turns, item, gate);
        match step {
            Step::Done => worker.kept.push_reserved(item),
            Step::Memory => {
                worker.kept.push_reserved(item);
                worker.is_short = true;
                return;
            }
            Step::Moved | Step::Busy => {
                give_way(step);
                match queue.push_as::<Puts, R>(rt, &mut worker.pass, item) {
                    Ok(()) => {}
                    Err(item) => {
                        let item = turned_out(rt, turns, item, gate);
                        let is_short = item.short;
                        worker.kept.push_reserved(item);
                        if is_short {
                            worker.is_short = true;
                            return;
                        }
                    }
                }
            }
        }
    }
    unreachable!()
}
