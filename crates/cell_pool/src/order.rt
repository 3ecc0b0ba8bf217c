//! The jobs back in their order.
ghost use Rattle.std.specs.Prelude.{◌≡◌, ◌⊎◌, ◌<◌, ◌≤◌, ℕ, length, [], IsTrue, IsFalse, vec_capacity};
ghost use Rattle.cell_pool.specs.Items.{AreAtEnd, HasPlace, Lays, LaysAll, LiesAt, OneHasPlace};
ghost use Rattle.cell_pool.specs.Served.{EachIs, EachMadeOf, OneIs};

use crate::given::Given;
use crate::item::Item;
use crate::turn::Turn;

/// Lays each item in its place.
fn lay<T: Turn, C: Given<T::Job>>(slots: &mut [Option<Item<T, C>>], mut list: Vec<Item<T, C>>)
    requires len { length slots.old ≡ length C.given }
    ensures len { length slots.new ≡ length C.given }
    ensures laid { (p : ℕ) → LiesAt slots.old p ⊎ HasPlace list.items p → LiesAt slots.new p }
    ensures same { Lays slots.old list.items slots.new }
{
    while let Some(item) = list.pop() {
        let place = item.place;
        slots[place] = Some(item);
    }
}

/// Lays all items of the lists in their places.
pub(crate) fn lay_all<T: Turn, C: Given<T::Job>>(
    slots: &mut [Option<Item<T, C>>],
    mut lists: Vec<Vec<Item<T, C>>>,
)
    requires len { length slots.old ≡ length C.given }
    ensures len { length slots.new ≡ length C.given }
    ensures laid { (p : ℕ) → OneHasPlace lists.items p → LiesAt slots.new p }
    ensures same { LaysAll slots.old lists.items slots.new }
{
    while let Some(list) = lists.pop() {
        lay(slots, list);
    }
}

/// Whether both hold.
fn both(a: bool, b: bool) -> bool
    ensures holds { IsTrue result → IsTrue a × IsTrue b }
    ensures fails { IsFalse result → IsFalse a ⊎ IsFalse b }
{
    a && b
}

/// The jobs in their order, and whether all are done.
pub(crate) fn take_out<T: Turn, C: Given<T::Job>>(
    slots: Vec<Option<Item<T, C>>>,
    mut jobs: Vec<T::Job>,
) -> (Vec<T::Job>, bool)
    requires len { length slots.items ≡ length C.given }
    requires laid { (p : ℕ) → p < length C.given → LiesAt slots.items p }
    requires told { AreAtEnd slots.items }
    requires jobs { (jobs.items ≡ []) × (length C.given ≤ vec_capacity jobs) }
    ensures len { length result.0.items ≡ length C.given }
    ensures fit { EachIs C.fit result.0.items }
    ensures made { EachMadeOf T.made C.given result.0.items }
    ensures done { IsTrue result.1 → EachIs T.done result.0.items }
    ensures short { IsFalse result.1 → OneIs (λ job. ∥ T.short job ∥₁) result.0.items }
{
    let mut all = true;
    for slot in slots {
        let Some(item) = slot else { unreachable!() };
        all = both(all, item.ended);
        let Item { job, .. } = item;
        jobs.push_reserved(job);
    }
    (jobs, all)
}
