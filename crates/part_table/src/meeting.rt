ghost use Rattle.std.specs.Prelude.{◌≡◌, ◌+◌, ◌-◌, ◌<◌, ℕ, List, Some, length, slice_get};
ghost use Rattle.part_table.specs.Held.{IsHandOf};
ghost use Rattle.part_table.specs.History.{StartsWith, replayed};
ghost use Rattle.part_table.specs.Gathered.{AreAll, HasMetEach, HaveGathered};
ghost use Rattle.part_table.specs.Known.{IsTrueOf, Known, with_commit};

use crate::object::Object;
use crate::pass::{Pass, a_pass_knows_its_own_places};
use crate::steps::{add, inform, look};
use crate::table::PartTable;

impl<O: Object> PartTable<O> {
    /// Adds an event to the history, and answers its place, which is the length of the history that
    /// ends with it. The pass holds all that the event touches, and its hand already has the values
    /// after the event.
    pub fn commit(&self, pass: &mut Pass<O>, event: &O::Event) -> u64
        requires table { pass.old.table ≡ self.now }
        requires enough { O.suffices event.now pass.old.taken }
        requires stepped { pass.old.hand ≡ O.after event.now pass.old.taken }
        requires left { 0 < pass.old.left }
        requires may { O.may_make pass.old.by event.now }
        ensures added { (h : List (ℕ × O.Event))
            × (pass.new ≡ with_commit h event.now result pass.old)
            × StartsWith h pass.old.seen × IsHandOf pass.old.taken
            (replayed O.step pass.old.table.opening h) }
        ensures place { result ≡ length pass.new.seen }
        ensures places { IsTrueOf O.may_make pass.new }
    {
        let before = add::<O>(&self.table, &mut pass.seat, event);
        pass.left -= 1;
        before + 1
    }

    /// The pass knows a history that its old one begins. The parts that it holds, as they were taken
    /// or committed, are those of the object after that history.
    pub fn see(&self, pass: &mut Pass<O>)
        requires table { pass.old.table ≡ self.now }
        ensures kept { pass.new ≡ record pass.old { seen = pass.new.seen } }
        ensures seen { StartsWith pass.new.seen pass.old.seen }
        ensures parts { IsHandOf pass.new.taken
            (replayed O.step pass.new.table.opening pass.new.seen) }
        ensures places { IsTrueOf O.may_make pass.new }
    {
        look::<O>(&self.table, &mut pass.seat);
    }

    /// Each of the two passes knows a history that begins with what the one had seen and with what
    /// the other had seen. The two need not be equal.
    pub fn meet(&self, a: &mut Pass<O>, b: &mut Pass<O>)
        requires a_table { a.old.table ≡ self.now }
        requires b_table { b.old.table ≡ self.now }
        ensures a_kept { a.new ≡ record a.old { seen = a.new.seen } }
        ensures b_kept { b.new ≡ record b.old { seen = b.new.seen } }
        ensures a_seen { StartsWith a.new.seen a.old.seen × StartsWith a.new.seen b.old.seen }
        ensures b_seen { StartsWith b.new.seen a.old.seen × StartsWith b.new.seen b.old.seen }
        ensures places { IsTrueOf O.may_make a.new × IsTrueOf O.may_make b.new }
    {
        inform::<O>(&self.table, &mut a.seat, &mut b.seat);
    }

    /// How many places the history has that the pass sees then.
    fn see_places(&self, pass: &mut Pass<O>) -> u64
        requires table { pass.old.table ≡ self.now }
        ensures kept { pass.new ≡ record pass.old { seen = pass.new.seen } }
        ensures seen { StartsWith pass.new.seen pass.old.seen }
        ensures places { result ≡ length pass.new.seen }
    {
        look::<O>(&self.table, &mut pass.seat)
    }

    /// The first pass meets each of the others in turn.
    fn meet_each(&self, first: &mut Pass<O>, others: &mut [Pass<O>])
        requires first { first.old.table ≡ self.now }
        requires others { (i : ℕ) (p : Known O.Part O.Event) → slice_get others.old i ≡ Some p
            → p.table ≡ self.now }
        ensures { HasMetEach O.may_make first.old first.new others.old others.new }
    {
        for other in others.iter_mut() {
            a_pass_knows_its_own_places(other);
            self.meet(first, other);
        }
    }

    /// All passes of the table, in the order of their numbers, then know one history as far as the
    /// answer says, which is the number of all their own places together. It begins with what each
    /// pass had seen, and each of its places is an own place of exactly one of them.
    pub fn gather(&self, passes: &mut [Pass<O>]) -> u64
        requires all { AreAll self.now passes.old }
        ensures gathered { (common : List (ℕ × O.Event))
            × HaveGathered O.may_make passes.old passes.new result common }
    {
        let _ = &self.table;
        let (front, others) = passes.split_at_mut(1);
        let first = &mut front[0];
        a_pass_knows_its_own_places(first);
        self.meet_each(first, others);
        let places = self.see_places(first);
        self.meet_each(first, others);
        a_pass_knows_its_own_places(first);
        places
    }
}
