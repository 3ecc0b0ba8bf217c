//! A phase: its jobs go through the queue, and come back in their order.
ghost use Rattle.std.specs.Prelude.{◌≡◌, ◌<◌, ◌≤◌, ◌+◌, ◌-◌, false, length, [], IfOk, IfErr, IsTrue, IsFalse};
ghost use Rattle.std.specs.Prelude.{vec_len, vec_capacity};
ghost use Rattle.std.specs.List.{All, range_with_len};
ghost use Rattle.crossbeam_queue.specs.Passes.{view, IsPassOf, ruled_capacity};
ghost use Rattle.cell_pool.specs.Rule.{hand, MayRest, Same, Waits};
ghost use Rattle.cell_pool.specs.Items.{AddsInTurn, Flagged, HasAll, HasWorked, HoldsEach, IsReady, Owes, Settled, Suffice};
ghost use Rattle.cell_pool.specs.Served.{AreFit, EachIs, IsForWant, IsServed, OneIs};

use crate::given::Given;
use crate::item::{Item, turned_out};
use crate::order::{lay_all, take_out};
use crate::rule::{All as Whole, Cut, Fills, Queue, Share};
use crate::turn::Turn;
use crate::work::{Worker, work};
use cell_io::Gate;
use std::alloc::{AllocError, Global};
use std::marker::{Brand, PhantomData};
use std::sync::Wait;
use std::thread;
use std::thread::Threads;

/// Room for so many workers, each with room for all jobs.
fn rooms<I: Drop>(alloc: Global, count: usize, size: usize) -> Result<Vec<Vec<I>>, AllocError>
    ensures count { IfOk result (λ rooms. vec_len rooms ≡ count) }
    ensures empty { IfOk result (λ rooms. All (λ room. room.items ≡ []) rooms.items) }
{
    let mut rooms = Vec::with_capacity(alloc, count)?;
    for _place in 0..count {
        rooms.push_reserved(Vec::with_capacity(alloc, size)?);
    }
    Ok(rooms)
}

/// Puts all jobs into the queue.
fn fill<T: Turn, C: Given<T::Job>, R: Wait>(
    rt: &R,
    queue: &Queue<T, C>,
    pass: &mut Share<T, C>,
    jobs: Vec<T::Job>,
)
    requires queue { IsPassOf queue.now pass.old }
    requires view { view pass.old ≡ hand 64 [] [] }
    requires room { ruled_capacity queue.now ≡ length jobs.items }
    requires given { C.given ≡ jobs.items }
    requires fit { AreFit C.fit jobs.items }
    ensures queue { IsPassOf queue.now pass.new }
    ensures view { view pass.new ≡ hand 64 (range_with_len 0 (length jobs.items)) [] }
{
    let mut place = 0usize;
    for job in jobs {
        let item = Item {
            place,
            job,
            ended: false,
            short: false,
            of: PhantomData,
        };
        match queue.push_as::<Fills, R>(rt, pass, item) {
            Ok(()) => {}
            Err(_) => unreachable!(),
        }
        place += 1;
    }
}

/// Gives each worker a pass and room.
fn enlist<T: Turn, C: Given<T::Job>>(
    queue: &Queue<T, C>,
    pass: &mut Share<T, C>,
    rooms: Vec<Vec<Item<T, C>>>,
    mut crew: Vec<Worker<T, C>>,
) -> Vec<Worker<T, C>>
    requires queue { IsPassOf queue.now pass.old }
    requires parts { ((view pass.old).parts ≡ 64) × (length rooms.items ≤ 16) }
    requires empty { All (λ room. room.items ≡ []) rooms.items }
    requires crew { (crew.items ≡ []) × (length rooms.items ≤ vec_capacity crew) }
    ensures queue { IsPassOf queue.now pass.new }
    ensures view { view pass.new
        ≡ hand (64 - length rooms.items) (view pass.old).put (view pass.old).taken }
    ensures count { length result.items ≡ length rooms.items }
    ensures crew { All (IsReady queue.now) result.items }
{
    let mut rooms = rooms;
    while let Some(kept) = rooms.pop() {
        let pass = queue.another::<Cut>(pass);
        crew.push_reserved(Worker {
            pass,
            kept,
            is_short: false,
        });
    }
    crew
}

/// All workers at once.
fn serve_all<
    T: Turn + Sync,
    C: Given<T::Job> + Send + Sync,
    G: Gate + Sync,
    R: Threads + Wait + Sync,
>(rt: &R, turns: &T, queue: &Queue<T, C>, crew: &mut [Worker<T, C>], gate: &G)
    requires same { Same (T.fit turns.now) C.fit }
    requires some { 0 < length crew.old }
    requires crew { All (IsReady queue.now) crew.old }
    ensures crew { All (HasWorked queue.now) crew.new }
{
    let threads = crew.len();
    thread::for_each_mut(
        rt,
        crew,
        threads,
        &|_place, worker: &mut Worker<T, C>|
            requires { Same (T.fit turns.now) C.fit × IsReady queue.now worker.old }
            ensures { HasWorked queue.entry.now worker.new }
        { work(rt, turns, queue, worker, gate) },
    );
}

/// Takes in what the workers know, and what they keep. Whether a turn of one of them found memory wanting.
fn join_all<T: Turn, C: Given<T::Job>>(
    queue: &Queue<T, C>,
    pass: &mut Share<T, C>,
    mut crew: Vec<Worker<T, C>>,
    mut lists: Vec<Vec<Item<T, C>>>,
) -> (Vec<Vec<Item<T, C>>>, bool)
    requires queue { IsPassOf queue.now pass.old }
    requires parts { ((view pass.old).parts + length crew.items ≡ 64)
        × (0 < (view pass.old).parts) }
    requires crew { All (HasWorked queue.now) crew.items }
    requires owes { Owes (length C.given) (view pass.old) lists.items }
    requires flagged { Flagged false lists.items }
    requires room { length lists.items + length crew.items + 1 ≤ vec_capacity lists }
    ensures all { HasAll queue.now pass.new (length C.given) result.1 result.0 }
{
    let mut any_short = false;
    while let Some(worker) = crew.pop() {
        let Worker {
            pass: theirs,
            kept,
            is_short,
        } = worker;
        queue.absorb::<Cut>(pass, theirs);
        lists.push_reserved(kept);
        any_short |= is_short;
    }
    (lists, any_short)
}

/// Turns a job until it is done, unless memory was wanting before.
fn unless<T: Turn, C: Given<T::Job>, G: Gate, R: Wait>(
    rt: &R,
    turns: &T,
    item: Item<T, C>,
    stopped: bool,
    gate: &G,
) -> Item<T, C>
    requires same { Same (T.fit turns.now) C.fit }
    requires waits { Waits item.ended item.short }
    ensures place { result.place ≡ item.place }
    ensures rests { MayRest stopped result.ended result.short }
{
    if stopped {
        return item;
    }
    turned_out(rt, turns, item, gate)
}

/// Serves what the queue still holds, as long as no turn has found memory wanting.
fn serve_left<T: Turn, C: Given<T::Job>, G: Gate, R: Wait>(
    rt: &R,
    turns: &T,
    queue: &Queue<T, C>,
    pass: &mut Share<T, C>,
    mut lists: Vec<Vec<Item<T, C>>>,
    mut left: Vec<Item<T, C>>,
    any_short: bool,
    gate: &G,
) -> Vec<Vec<Item<T, C>>>
    requires same { Same (T.fit turns.now) C.fit }
    requires all { HasAll queue.now pass.old (length C.given) any_short lists }
    requires left { (left.items ≡ []) × (length C.given ≤ vec_capacity left) }
    ensures each { HoldsEach (length C.given) result.items }
    // The jobs are served in turn, and once a turn found memory wanting, no further one is begun.
    ensures left { AddsInTurn any_short lists.items result.items }
    ensures settled { Settled result.items }
{
    let mut stopped = any_short;
    for _turn in rt.forever() {
        match queue.pop_as::<Whole, R>(rt, pass) {
            Some(item) => {
                let item = unless(rt, turns, item, stopped, gate);
                stopped |= item.short;
                left.push_reserved(item);
            }
            None => {
                lists.push_reserved(left);
                return lists;
            }
        }
    }
    unreachable!()
}

/// There was not enough memory to serve all jobs to their end. All of them come back.
pub struct PhaseStopped<J> {
    /// The jobs in their order, each fit, and made of the one that was given at its place.
    pub jobs: Vec<J>,
}

/// No places yet filled.
fn no_items<I: Drop>(mut slots: Vec<Option<I>>, size: usize) -> Vec<Option<I>>
    requires { (slots.items ≡ []) × (size ≤ vec_capacity slots) }
    ensures { length result.items ≡ size }
{
    for _place in 0..size {
        slots.push_reserved(None);
    }
    slots
}

/// What a phase needs: room for workers and for what they keep, for all lists, for what is left, for the jobs in their
/// order, and a queue.
struct Means<T: Turn, C: Given<T::Job>> {
    rooms: Vec<Vec<Item<T, C>>>,
    crew: Vec<Worker<T, C>>,
    lists: Vec<Vec<Item<T, C>>>,
    left: Vec<Item<T, C>>,
    slots: Vec<Option<Item<T, C>>>,
    order: Vec<T::Job>,
    queue: Queue<T, C>,
    pass: Share<T, C>,
}

/// All that a phase needs, reserved before its first step.
fn make_means<T: Turn, C: Given<T::Job>>(
    alloc: Global,
    workers: usize,
    size: usize,
) -> Result<Means<T, C>, AllocError>
    requires size { 0 < size }
    ensures rooms { IfOk result (λ means. length means.rooms.items ≡ workers) }
    ensures suffice { IfOk result (Suffice size) }
{
    let rooms = rooms(alloc, workers, size)?;
    let crew = Vec::with_capacity(alloc, workers)?;
    let lists = Vec::with_capacity(alloc, workers + 1)?;
    let left = Vec::with_capacity(alloc, size)?;
    let slots = Vec::with_capacity(alloc, size)?;
    let order = Vec::with_capacity(alloc, size)?;
    let (queue, pass) = Queue::<T, C>::ruled(alloc, size)?;
    Ok(Means {
        rooms,
        crew,
        lists,
        left,
        slots,
        order,
        queue,
        pass,
    })
}

/// Serves the jobs, once all is reserved. The answer is the jobs in their order, and whether all are done.
fn serve_with<
    T: Turn + Sync,
    C: Given<T::Job> + Send + Sync,
    G: Gate + Sync,
    R: Threads + Wait + Sync,
>(rt: &R, turns: &T, jobs: Vec<T::Job>, means: Means<T, C>, gate: &G) -> (Vec<T::Job>, bool)
    requires given { C.given ≡ jobs.items }
    requires same { Same (T.fit turns.now) C.fit }
    requires fit { AreFit C.fit jobs.items }
    requires workers { (1 ≤ length means.rooms.items) × (length means.rooms.items ≤ 16) }
    requires suffice { Suffice (length jobs.items) means }
    ensures served { IsServed C.fit T.made jobs.items result.0.items }
    ensures done { IsTrue result.1 → EachIs T.done result.0.items }
    ensures short { IsFalse result.1 → OneIs (λ job. ∥ T.short job ∥₁) result.0.items }
{
    let Means {
        rooms,
        crew,
        lists,
        left,
        slots,
        order,
        queue,
        mut pass,
    } = means;
    let size = jobs.len();
    fill(rt, &queue, &mut pass, jobs);
    let mut crew = enlist(&queue, &mut pass, rooms, crew);
    serve_all(rt, turns, &queue, crew.as_mut_slice(), gate);
    let (lists, any_short) = join_all(&queue, &mut pass, crew, lists);
    let lists = serve_left(rt, turns, &queue, &mut pass, lists, left, any_short, gate);
    let mut slots = no_items(slots, size);
    lay_all(slots.as_mut_slice(), lists);
    take_out(slots, order)
}

/// All jobs as they were given.
fn handed_back<T: Turn, C: Given<T::Job>>(jobs: Vec<T::Job>) -> PhaseStopped<T::Job>
    requires fit { AreFit C.fit jobs.items }
    ensures served { IsServed C.fit T.made jobs.items result.jobs.items }
    ensures same { result.jobs.items ≡ jobs.items }
{
    PhaseStopped { jobs }
}

/// Serves a phase, whose jobs, and what makes one fit, are a parameter of types.
fn serve_given<
    T: Turn + Sync,
    C: Given<T::Job> + Send + Sync,
    G: Gate + Sync,
    R: Threads + Wait + Sync,
>(
    rt: &R,
    turns: &T,
    jobs: Vec<T::Job>,
    workers: u32,
    gate: &G,
) -> Result<Vec<T::Job>, PhaseStopped<T::Job>>
    requires given { C.given ≡ jobs.items }
    requires same { Same (T.fit turns.now) C.fit }
    requires fit { AreFit C.fit jobs.items }
    requires workers { (1 ≤ workers) × (workers ≤ 16) }
    ensures ok { IfOk result (λ back. IsServed C.fit T.made jobs.items back.items
        × EachIs T.done back.items) }
    ensures stopped { IfErr result (λ e. IsServed C.fit T.made jobs.items e.jobs.items) }
    ensures short { IfErr result (λ e. IsForWant T.short jobs.items e.jobs.items) }
{
    let size = jobs.len();
    if size == 0 {
        return Ok(jobs);
    }
    let alloc = *jobs.allocator();
    let Ok(means) = make_means::<T, C>(alloc, workers as usize, size) else {
        return Err(handed_back::<T, C>(jobs));
    };
    let (jobs, all) = serve_with(rt, turns, jobs, means, gate);
    if all {
        Ok(jobs)
    } else {
        Err(PhaseStopped { jobs })
    }
}

/// Serves the jobs of a phase by 1 to 16 workers, each on a thread of its own. The jobs wait in one queue. A worker
/// takes the first, turns it, up to sixteen times while a turn moves it on, and puts it back at the end, unless it is
/// done; where it was held up, it goes back as it is. A worker that finds the queue empty ends, and once all have ended,
/// what the queue still holds is served by who called.
///
/// The jobs come back in their order, each fit, and made of the job that was given at its place: none is lost, and none
/// comes back twice. With `Ok` each is done. The error is want of memory, before the first turn, and then the jobs are
/// as they were given, or in a turn, which left one of them short. Then no further job is begun by the worker that met
/// it, nor by who called.
///
/// It may wait, and where jobs hold one another up for ever, it never returns.
pub fn serve_phase<R: Threads + Wait + Sync, T: Turn + Sync, G: Gate + Sync>(
    rt: &R,
    turns: &T,
    jobs: Vec<T::Job>,
    workers: u32,
    gate: &G,
) -> Result<Vec<T::Job>, PhaseStopped<T::Job>>
    requires fit { AreFit (T.fit turns.now) jobs.items }
    requires workers { (1 ≤ workers) × (workers ≤ 16) }
    ensures ok { IfOk result (λ back. IsServed (T.fit turns.now) T.made jobs.items back.items
        × EachIs T.done back.items) }
    ensures stopped { IfErr result
        (λ e. IsServed (T.fit turns.now) T.made jobs.items e.jobs.items) }
    ensures short { IfErr result (λ e. IsForWant T.short jobs.items e.jobs.items) }
{
    serve_given::<T, Brand, G, R>(rt, turns, jobs, workers, gate)
}
