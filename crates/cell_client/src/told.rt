//! What clients are told.

ghost use Rattle.std.specs.Prelude.{◌≡◌, ◌∷◌, [], IfOk};
ghost use Rattle.cell_client.specs.Telling.{effect_of, effects_told, is_output, is_wait};

use association::Waiting;
use mms_types::{Memory, What};
use std::alloc::Global;

/// What a client is told by an event (ISO 9506-1, environment and general management).
#[derive(Drop)]
pub enum ClientTold {
    /// One more output is to be sent.
    Sends(What),
    /// The association is gone.
    Closes,
    /// A request waits.
    Waits(Waiting),
    /// The request of that invokeID waits no more.
    Answers(u32),
}

impl ClientTold {
    /// Whether it is an output, for which there has to be room.
    pub fn is_output(&self) -> bool
        ensures { result ≡ is_output self.now }
    {
        match self {
            ClientTold::Sends(_) => true,
            ClientTold::Closes | ClientTold::Waits(_) | ClientTold::Answers(_) => false,
        }
    }

    /// Whether it is a request that waits, for which there has to be room.
    pub fn is_wait(&self) -> bool
        ensures { result ≡ is_wait self.now }
    {
        match self {
            ClientTold::Waits(_) => true,
            ClientTold::Sends(_) | ClientTold::Closes | ClientTold::Answers(_) => false,
        }
    }
}

/// One client is told one thing.
pub fn one_told(
    alloc: Global,
    client: u32,
    told: ClientTold,
) -> Result<Vec<(u32, ClientTold)>, Memory>
    ensures { IfOk result (λ list.
        effects_told list.items ≡ (client, effect_of told) ∷ []) }
{
    let mut list = Vec::new(alloc);
    list.push((client, told))?;
    Ok(list)
}
