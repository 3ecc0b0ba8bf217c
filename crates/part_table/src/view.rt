use std::collections::LinkedList;
use std::snapshot::Snapshot;

/// What a table is told once, when it is made.
#[derive(Drop)]
pub struct Key<T> {
    /// The parts at the start.
    pub opening: Snapshot<Vec<Box<T>>>,
    /// How many callers there are.
    pub callers: u32,
    /// How many commits each caller has.
    pub quota: u64,
}

/// What a table was told, as its callers know it. No value of it is made.
pub struct Setting<T> {
    /// The parts at the start.
    pub opening: LinkedList<T>,
    /// How many callers there are.
    pub callers: u64,
    /// How many commits each caller has.
    pub quota: u64,
}

/// What is kept for the number of a caller. No value of it is made.
pub struct Account {
    /// The caller's number.
    pub number: u64,
    /// The places of its own events.
    pub own: LinkedList<u64>,
    /// How many commits it has left.
    pub left: u64,
}

/// What the holder of a seat knows. A note, which only tells what another has seen, keeps no number
/// and holds nothing. No value of it is made.
pub struct View<T, E> {
    /// What its table was told.
    pub setting: Setting<T>,
    /// The callers whose numbers it keeps.
    pub callers: LinkedList<Account>,
    /// The history that it has seen: callers and their events.
    pub seen: LinkedList<(u64, E)>,
    /// The histories that it was told of, beside the one that it has seen.
    pub told: LinkedList<LinkedList<(u64, E)>>,
    /// The parts that it holds, each with its value as taken or committed.
    pub held: LinkedList<Option<T>>,
    /// The claims that it lost: parts and their owners.
    pub lost: LinkedList<(u64, u64)>,
}
