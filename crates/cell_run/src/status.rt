//! How a run ends.

ghost use Rattle.std.specs.Prelude.{◌≡◌};
ghost use Rattle.cell_run.specs.Codes.{code_of};

/// How a run ended.
#[derive(Clone, Copy, Drop)]
pub enum Status {
    /// The whole input was read and served, and the report was written.
    Done,
    /// The words are no form of the command.
    Usage,
    /// A line of the recording breaks a rule.
    Bad,
    /// Want of memory.
    Memory,
    /// The source failed.
    ReadFault,
    /// The sink failed.
    WriteFault,
    /// A rule of the configuration is broken.
    BadConfig,
    /// The recording, or a phase of it, is too long.
    TooMuch,
}

impl Status {
    /// The exit status.
    pub fn code(self) -> u8
        ensures { result ≡ code_of self }
    {
        match self {
            Status::Done => 0,
            Status::Usage => 1,
            Status::Bad => 2,
            Status::Memory => 3,
            Status::ReadFault => 4,
            Status::WriteFault => 5,
            Status::BadConfig => 6,
            Status::TooMuch => 7,
        }
    }
}
