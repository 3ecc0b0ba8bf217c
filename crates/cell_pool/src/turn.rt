//! What a job is, and what a turn makes of it.
ghost use Rattle.std.specs.Prelude.{◌≡◌, ◌⊎◌};
ghost use Rattle.cell_pool.specs.declared.turn.Step.TheVariants.{Busy, Done, Memory};

use cell_io::Gate;

/// How a turn ended.
#[derive(Clone, Copy, Debug, PartialEq, Eq, Drop)]
pub enum Step {
    /// The job got on, and isn't known to be done.
    Moved,
    /// What the job wants next is held by another. Its work is as before.
    Busy,
    /// The job is done.
    Done,
    /// There was not enough memory. The job's work is as before.
    Memory,
}

/// What serves jobs, turn by turn. Several workers use it at once, each with a job of its own.
pub trait Turn {
    /// What is served.
    type Job: Send + Drop;

    /// A job is fit for turns by this one.
    ghost fit: { Self → Self.Job → Type 0 };

    /// A job is done.
    ghost done: { Self.Job → Type 0 };

    /// Two jobs have the same work before them and behind them.
    ghost same_work: { Self.Job → Self.Job → Type 0 };

    /// A job is one that a turn may leave for want of memory.
    ghost short: { Self.Job → Type 0 };

    /// What turns may make of a job: the job as it was, and as it is then.
    ghost made: { Self.Job → Self.Job → Type 0 };

    /// One turn of a job that is fit. The job is fit afterwards, and made of the one before.
    fn turn<G: Gate>(&self, job: &mut Self::Job, gate: &G) -> Step
        requires fit { ∥ fit self.now job.old ∥₁ }
        ensures fit { ∥ fit self.now job.new ∥₁ }
        ensures made { ∥ made job.old job.new ∥₁ }
        ensures done { result ≡ Done → ∥ done job.new ∥₁ }
        ensures short { result ≡ Memory → ∥ short job.new ∥₁ }
        ensures same { (result ≡ Busy) ⊎ (result ≡ Memory) → ∥ same_work job.old job.new ∥₁ };

    /// A job is made of itself.
    ghost same: { (j : Self.Job) → made j j };

    /// What turns make of what turns made of a job, they make of the job.
    ghost joins: { (a : Self.Job) (b : Self.Job) (c : Self.Job) → made a b → made b c → made a c };
}
