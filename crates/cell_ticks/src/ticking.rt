//! Time goes by for a device.

ghost use Rattle.std.specs.Prelude.{◌≡◌, ◌≢◌, IfNone, IfOk, IfSome, None, OnErr, OnOk, OnSome, filter_map, length, map, zip};
ghost use Rattle.mms_types.specs.Moments.{IsDated};
ghost use Rattle.sem_ticks.specs.Renewed.{renewed};
ghost use Rattle.sem_ticks.specs.Ticks as sem_ticks;
ghost use Rattle.cell_ticks.specs.Deadlines.{next_due};
ghost use Rattle.cell_ticks.specs.Meant.{AreInOrder, loss_in, state_of};
ghost use Rattle.cell_ticks.specs.Parts.{in_semaphores, losses_of, of_semaphores};
ghost use Rattle.cell_ticks.specs.Ticks.{ticked};

use crate::due::is_due;
use crate::happening::DatedHappening;
use crate::merging::{in_semaphores, losses, merged, turning};
use event_cond::{Cells, Conditions, each_condition_is_sound};
use event_enrol::Enrolments;
use event_ticks::Loss;
use mms_time::{Semaphores, each_semaphore_is_sound};
use mms_types::{Memory, Moment};
use sem_ticks::{DatedTicked, Renewed, Ticked, tick_dated};
use std::alloc::Global;

/// What becomes of a device in some time, and what happens meanwhile.
#[derive(Drop)]
pub struct DeviceTicked {
    /// What becomes of its semaphores.
    pub changed: Renewed,
    /// The clients whose associations are aborted, in order.
    pub losses: Vec<Loss>,
    /// What happens, in order.
    pub happened: Vec<DatedHappening>,
}

/// What became of semaphores and happened to them, and who is lost by it.
fn dated_part(alloc: Global, dated: DatedTicked) -> Result<DeviceTicked, Memory>
    requires { length dated.moments.items ≡ length dated.ticked.happened.items }
    ensures changed { IfOk result (λ t. t.changed ≡ dated.ticked.changed) }
    ensures losses { IfOk result (λ t. t.losses.items
        ≡ losses_of (zip dated.moments.items dated.ticked.happened.items)) }
    ensures happened { IfOk result (λ t. t.happened.items
        ≡ map in_semaphores (zip dated.moments.items dated.ticked.happened.items)) }
{
    let DatedTicked { ticked, moments } = dated;
    let Ticked { changed, happened } = ticked;
    let happened = in_semaphores(alloc, happened, &moments)?;
    let losses = losses(alloc, &happened)?;
    Ok(DeviceTicked {
        changed,
        losses,
        happened,
    })
}

/// The semaphores' part, which reads no conditions.
fn semaphores_part(
    alloc: Global,
    semaphores: &Semaphores,
    until: Moment,
) -> Result<DeviceTicked, Memory>
    requires { IsDated until }
    ensures rows { IfOk result (λ t.
        renewed t.changed semaphores.now ≡ (sem_ticks.ticked until semaphores.now).rows) }
    ensures losses { IfOk result (λ t.
        t.losses.items ≡ losses_of (of_semaphores until semaphores.now)) }
    ensures happened { IfOk result (λ t.
        t.happened.items ≡ map in_semaphores (of_semaphores until semaphores.now)) }
{
    match tick_dated(alloc, semaphores, until)? {
        None => Ok(DeviceTicked {
            changed: Renewed::Places(Vec::new(alloc)),
            losses: Vec::new(alloc),
            happened: Vec::new(alloc),
        }),
        Some(dated) => dated_part(alloc, dated),
    }
}

/// What becomes of a device where time goes by up to a moment and no cell changes meanwhile, and what happens (ISO
/// 9506-1, TakeControl and event condition): the least deadline of its semaphores and its event conditions that is at
/// most that moment is met at its own moment, again and again, as `next_due` tells it, also those that arise meanwhile.
/// A client whose association is aborted is lost then, and neither its enrollments nor the conditions of its
/// association see an evaluation of that moment or a later one. Nothing changes; what becomes of it can be put into
/// place. None exactly where no deadline is at most that moment, so that nothing happens; then no memory is taken. The
/// one refusal is want of memory.
pub fn tick_told<C: Cells>(
    alloc: Global,
    semaphores: &Semaphores,
    conditions: &Conditions,
    enrolments: &Enrolments,
    cells: &C,
    until: Moment,
) -> Result<Option<DeviceTicked>, Memory>
    requires { IsDated until }
    ensures met { IfOk result (λ met. IfSome met (λ t.
        state_of (C.says cells.now) until t semaphores.now conditions.now enrolments.now
        ≡ ticked (C.says cells.now) until semaphores.now conditions.now enrolments.now)) }
    ensures losses { IfOk result (λ met. IfSome met (λ t. t.losses.items
        ≡ filter_map loss_in t.happened.items)) }
    ensures some { IfOk result (λ met.
        OnSome met (next_due until semaphores.now conditions.now ≢ None)) }
    ensures none { IfOk result (λ met.
        IfNone met (next_due until semaphores.now conditions.now ≡ None)) }
    ensures wants { OnErr result (next_due until semaphores.now conditions.now ≢ None) }
{
    if !is_due(semaphores, conditions, until) {
        return Ok(None);
    }
    Ok(Some(both_parts(alloc, semaphores, conditions, enrolments, cells, until)?))
}

/// Both parts in one.
fn both_parts<C: Cells>(
    alloc: Global,
    semaphores: &Semaphores,
    conditions: &Conditions,
    enrolments: &Enrolments,
    cells: &C,
    until: Moment,
) -> Result<DeviceTicked, Memory>
    requires { IsDated until }
    ensures met { IfOk result (λ t.
        state_of (C.says cells.now) until t semaphores.now conditions.now enrolments.now
        ≡ ticked (C.says cells.now) until semaphores.now conditions.now enrolments.now) }
    ensures losses { IfOk result (λ t. t.losses.items ≡ filter_map loss_in t.happened.items) }
{
    let _names = semaphores.len();
    each_semaphore_is_sound(semaphores);
    let _distinct = conditions.len();
    each_condition_is_sound(conditions);
    let part = semaphores_part(alloc, semaphores, until)?;
    let told = event_ticks::tick_told(alloc, conditions, enrolments, &part.losses, cells, until)?;
    let turning = turning(alloc, told)?;
    let DeviceTicked {
        changed,
        losses,
        happened,
    } = part;
    let happened = merged(alloc, happened, turning)?;
    Ok(DeviceTicked {
        changed,
        losses,
        happened,
    })
}

impl DeviceTicked {
    /// Puts what becomes of a device in the time up to that moment into place, and tells what happened. It takes no
    /// memory.
    pub fn put<C: Cells>(
        self,
        semaphores: &mut Semaphores,
        conditions: &mut Conditions,
        enrolments: &mut Enrolments,
        cells: &C,
        until: Moment,
    ) -> Vec<DatedHappening>
        requires { IsDated until }
        ensures semaphores { semaphores.new ≡ (state_of (C.says cells.now) until self
            semaphores.old conditions.old enrolments.old).semaphores }
        ensures conditions { conditions.new ≡ (state_of (C.says cells.now) until self
            semaphores.old conditions.old enrolments.old).conditions }
        ensures enrolments { enrolments.new ≡ (state_of (C.says cells.now) until self
            semaphores.old conditions.old enrolments.old).enrolments }
        ensures happened { result ≡ self.happened }
    {
        let DeviceTicked {
            changed,
            losses,
            happened,
        } = self;
        changed.put(semaphores);
        event_ticks::tick(conditions, enrolments, &losses, cells, until);
        happened
    }
}

/// Lets time go by up to a moment, as `tick_told` tells it, and tells what happened, in order. The one refusal is want
/// of memory, only where a deadline is at most that moment; then all is as before.
pub fn tick<C: Cells>(
    alloc: Global,
    semaphores: &mut Semaphores,
    conditions: &mut Conditions,
    enrolments: &mut Enrolments,
    cells: &C,
    until: Moment,
) -> Result<Vec<DatedHappening>, Memory>
    requires { IsDated until }
    ensures semaphores { OnOk result (semaphores.new ≡ (ticked (C.says cells.now) until
        semaphores.old conditions.old enrolments.old).semaphores) }
    ensures conditions { OnOk result (conditions.new ≡ (ticked (C.says cells.now) until
        semaphores.old conditions.old enrolments.old).conditions) }
    ensures enrolments { OnOk result (enrolments.new ≡ (ticked (C.says cells.now) until
        semaphores.old conditions.old enrolments.old).enrolments) }
    ensures happened { IfOk result (λ happened. happened.items ≡ (ticked (C.says cells.now) until
        semaphores.old conditions.old enrolments.old).happened) }
    ensures wants { OnErr result (next_due until semaphores.old conditions.old ≢ None) }
    ensures kept { OnErr result ((semaphores.new ≡ semaphores.old)
        × (conditions.new ≡ conditions.old) × (enrolments.new ≡ enrolments.old)) }
{
    match tick_told(alloc, semaphores, conditions, enrolments, cells, until)? {
        None => Ok(Vec::new(alloc)),
        Some(ticked) => Ok(ticked.put(semaphores, conditions, enrolments, cells, until)),
    }
}
