//! What happens in both parts of a tick, in one.

ghost use Rattle.std.specs.Prelude.{◌≡◌, ◌+◌, ◌++◌, ◌≤◌, IfOk, List, filter_map, length, map, vec_capacity, vec_len, zip};
ghost use Rattle.std.specs.VecDeque.{deque_len};
ghost use Rattle.cell_ticks.specs.Meant.{AreInOrder, From, StartsFrom, loss_in, starts_before};
ghost use Rattle.cell_ticks.specs.Parts.{in_semaphores, merged, turning};
ghost use Rattle.cell_ticks.specs.declared.happening.DatedHappening.{DatedHappening as Happened};

use crate::happening::{DatedHappening, Happening};
use event_ticks::{Loss, TurnTold};
use mms_types::{Memory, Moment};
use std::alloc::Global;
use std::collections::VecDeque;

/// What happens to semaphores, each with its moment.
pub(crate) fn in_semaphores(
    alloc: Global,
    happened: Vec<sem_ticks::Happening>,
    moments: &[Moment],
) -> Result<Vec<DatedHappening>, Memory>
    requires { length moments.now ≡ length happened.items }
    ensures { IfOk result (λ all.
        all.items ≡ map in_semaphores (zip moments.now happened.items)) }
{
    let mut all = Vec::with_capacity(alloc, moments.len())?;
    for happening in happened {
        let at = moments[all.len()];
        let happening = Happening::Semaphores(happening);
        all.push(DatedHappening { at, happening })?;
    }
    Ok(all)
}

/// The client that is lost by what happens, if one is.
fn loss_in(happened: &DatedHappening) -> Option<Loss>
    ensures { result ≡ loss_in happened.now }
{
    match happened.happening {
        Happening::Semaphores(sem_ticks::Happening::Aborts(client)) => Some(Loss {
            at: happened.at,
            client,
        }),
        _ => None,
    }
}

/// The clients that are lost.
pub(crate) fn losses(alloc: Global, happened: &[DatedHappening]) -> Result<Vec<Loss>, Memory>
    ensures { IfOk result (λ losses. losses.items ≡ filter_map loss_in happened.now) }
{
    let mut losses = Vec::new(alloc);
    let mut rest = happened;
    while let Some((first, later)) = rest.split_first() {
        if let Some(loss) = loss_in(first) {
            losses.push(loss)?;
        }
        rest = later;
    }
    Ok(losses)
}

/// What is told of conditions, each with its moment.
pub(crate) fn turning(
    alloc: Global,
    told: Vec<TurnTold>,
) -> Result<VecDeque<DatedHappening>, Memory>
    ensures { IfOk result (λ all. all.items ≡ map turning told.items) }
{
    let mut all = VecDeque::new(alloc);
    for one in told {
        let at = one.turned.at;
        let happening = Happening::Turns(one);
        all.push_back(DatedHappening { at, happening })?;
    }
    Ok(all)
}

/// Whether the first of those that are left is earlier than that moment.
fn starts_before(left: &VecDeque<DatedHappening>, at: Moment) -> bool
    ensures { result ≡ starts_before at left.now.items }
{
    match left.front() {
        None => false,
        Some(first) => first.at.0 < at.0,
    }
}

/// Those of the second list come next that are earlier than that moment. There is room for all that are left.
fn put_earlier(all: &mut Vec<DatedHappening>, left: &mut VecDeque<DatedHappening>, at: Moment)
    requires room { vec_len all.old + deque_len left.old ≤ vec_capacity all.old }
    ensures same { (xs : List Happened) → From at xs
        → all.new.items ++ merged xs left.new.items ≡ all.old.items ++ merged xs left.old.items }
    ensures starts { StartsFrom at left.new.items }
    ensures many { vec_len all.new + deque_len left.new ≡ vec_len all.old + deque_len left.old }
    ensures capacity { vec_capacity all.new ≡ vec_capacity all.old }
{
    while starts_before(left, at) {
        if let Some(first) = left.pop_front() {
            all.push_reserved(first);
        }
    }
}

/// All that is left of the second list comes next. There is room for it.
fn put_rest(all: &mut Vec<DatedHappening>, mut left: VecDeque<DatedHappening>)
    requires room { vec_len all.old + deque_len left ≤ vec_capacity all.old }
    ensures { all.new.items ≡ all.old.items ++ left.items }
{
    while let Some(first) = left.pop_front() {
        all.push_reserved(first);
    }
}

/// Two lists in one, by moments, and of one moment those of the first list before those of the second. The one refusal
/// is want of memory, for a list as long as both.
pub(crate) fn merged(
    alloc: Global,
    happened: Vec<DatedHappening>,
    mut left: VecDeque<DatedHappening>,
) -> Result<Vec<DatedHappening>, Memory>
    requires { AreInOrder happened.items }
    ensures { IfOk result (λ all. all.items ≡ merged happened.items left.items) }
{
    let mut all = Vec::with_capacity(alloc, happened.len() + left.len())?;
    for one in happened {
        put_earlier(&mut all, &mut left, one.at);
        all.push_reserved(one);
    }
    put_rest(&mut all, left);
    Ok(all)
}
