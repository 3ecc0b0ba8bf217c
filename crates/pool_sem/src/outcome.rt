use mms_types::Moment;

/// What a request for a token of a pool comes to. Tokens are places in the pool's sorted list.
#[derive(Clone, Copy)]
pub enum PoolOutcome {
    /// The client waits for a token, or owns the one that it names.
    Refused,
    /// The client gets the token of a hung entry: the entry's number, and the token.
    Preempts(u64, Option<u32>),
    /// The client gets this token, which is free.
    Gets(u32),
    /// The client gets none and doesn't wait.
    TimesOut,
    /// The client waits until this moment.
    WaitsUntil(Moment),
    /// The client waits for as long as it takes.
    WaitsForEver,
}

/// What is told of a token of a pool (ISO 9506-1, ReportPoolSemaphoreStatus).
#[derive(Clone, Copy)]
pub enum TokenState {
    /// Nobody has it.
    Free,
    /// A client owns it.
    Owned,
    /// It is kept for a client whose association is lost.
    Hung,
}
