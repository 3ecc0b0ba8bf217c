ghost use Rattle.std.specs.Prelude.{◌≡◌};
ghost use Rattle.sem_queue.specs.Rows.{before};

use mms_types::Moment;

/// What an index keeps of an entry of a semaphore (ISO 9506-1, semaphore entry).
#[derive(Clone, Copy)]
pub struct Row {
    /// The number of the entry. It tells the rows apart.
    pub number: u64,
    /// From 0 to 127. The lower is served first.
    pub priority: u8,
    /// Whether the entry waits for a token; else it has one.
    pub queued: bool,
    /// Which token it wants or has. None where it wants any.
    pub token: Option<u32>,
    /// When it stops waiting, or when its token is freed. None: it has no deadline.
    pub deadline: Option<Moment>,
}

/// A deadline of a row.
#[derive(Clone, Copy)]
pub struct Due {
    /// When it is met.
    pub at: Moment,
    /// 1 where the row waits, else 0. Of one moment, 0 is met before 1.
    pub kind: u8,
    /// The number of the row.
    pub number: u64,
}

impl Row {
    /// Whether it is served before the other.
    pub(crate) fn before(&self, other: &Row) -> bool
        ensures { result ≡ before self.now other.now }
    {
        self.priority < other.priority
            || (self.priority == other.priority && self.number < other.number)
    }
}
