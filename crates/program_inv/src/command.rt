ghost use Rattle.std.specs.Prelude.{◌≡◌};
ghost use Rattle.program_inv.specs.Programs.{refusal};
ghost use Rattle.program_inv.specs.Table.{ended, next};

use mms_types::{InvocationState, ServiceError};

/// What a client commands a program invocation (ISO 9506-1, program invocation management).
#[derive(Clone, Copy)]
pub enum Command {
    /// It runs from its beginning.
    Start,
    /// It stops.
    Stop,
    /// It goes on.
    Resume,
    /// It is over, after a stop.
    Reset,
    /// It is over, and can't run any more.
    Kill,
}

/// The state after a command, by the table of states. None where it is refused.
pub(crate) fn next(
    command: Command,
    reusable: bool,
    state: InvocationState,
) -> Option<InvocationState>
    ensures { result ≡ next command reusable state }
{
    match state {
        InvocationState::Idle => match command {
            Command::Start => Some(InvocationState::Running),
            Command::Kill => Some(InvocationState::Unrunnable),
            _ => None,
        },
        InvocationState::Running => match command {
            Command::Stop => Some(InvocationState::Stopped),
            Command::Kill => Some(InvocationState::Unrunnable),
            _ => None,
        },
        InvocationState::Stopped => match command {
            Command::Resume => Some(InvocationState::Running),
            Command::Reset => Some(ended(reusable, InvocationState::Running)),
            Command::Kill => Some(InvocationState::Unrunnable),
            _ => None,
        },
        InvocationState::Unrunnable => None,
    }
}

/// The state after an invocation has ended by itself, by the table of states.
pub(crate) fn ended(reusable: bool, state: InvocationState) -> InvocationState
    ensures { result ≡ ended reusable state }
{
    match state {
        InvocationState::Running if reusable => InvocationState::Idle,
        InvocationState::Running => InvocationState::Unrunnable,
        _ => state,
    }
}

/// What a client is told whose command the state refuses.
pub(crate) fn refusal(command: Command, state: InvocationState) -> ServiceError
    ensures { result ≡ refusal command state }
{
    match command {
        Command::Start => ServiceError::state_refuses(1, state),
        Command::Stop => ServiceError::state_refuses(2, state),
        Command::Resume => ServiceError::state_refuses(3, state),
        Command::Reset => ServiceError::state_refuses(4, state),
        Command::Kill => ServiceError::OBJECT_STATE_CONFLICT,
    }
}
