/// Where a caller of the device stands when it passes a gate.
#[derive(Clone, Copy, Debug, PartialEq, Eq, Drop)]
pub enum Point {
    /// It has just taken the part of this number.
    Took(u32),
    /// Its event has been committed.
    Committed,
    /// It found the part of this number held by another, and is about to answer that.
    Busy(u32),
}

/// What is called at each point of a caller's way, so that a test can hold it there.
pub trait Gate {
    /// The caller of this number stands at this point.
    fn pass(&self, caller: u32, point: Point);
}

/// The gate that is always open: it does nothing.
#[derive(Clone, Copy, Debug, PartialEq, Eq, Drop)]
pub struct Open;

impl Gate for Open {
    fn pass(&self, _caller: u32, _point: Point) {}
}
