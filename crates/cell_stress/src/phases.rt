//! The phases, each of which is made when it is wanted.

ghost use Rattle.std.specs.Prelude.{◌≡◌, ◌≤◌, ◌<◌, ◌^◌, ◌++◌, ◌∷◌, [], ℕ, List, length};
ghost use Rattle.std.specs.Prelude.{IfOk, OnErr, OnOk, MatchOption};
ghost use Rattle.rand_pcg.specs.Lcg.{Lcg, advance};
ghost use Rattle.rand_pcg.specs.Pcg.{multiplier_64, pcg32};
ghost use Rattle.mms_types.specs.declared.event.CellEvent.{CellEvent as EventOf};
ghost use Rattle.mms_types.specs.declared.pdu.Pdu.{Pdu as PduOf};
ghost use Rattle.cell_stress.specs.Stress.{asking, askings, opening, round_of, sent, stress_phases};

use crate::requests::{asked, define, invoke_of, proposal};
use mms_pdu::write_pdu;
use mms_types::{CellEvent, Events, Memory, Octets, Pdu};
use rand_core::utils::NextWord;
use rand_pcg::Pcg32;
use std::alloc::Global;
use std::marker::Model;

/// PCG's stream of the trial's random words.
const STREAM: u64 = 54;

/// Which phases come next.
#[derive(Clone, Copy)]
pub(crate) enum Stage {
    /// The first one, and then the rounds.
    Opening,
    /// The rounds that are left, and then the last phase.
    Rounds,
    /// None.
    Over,
}

/// The phases that are still to be made. Contracts see the list of them.
#[derive(Drop)]
pub struct StressPhases {
    /// The state of the generator, from which the next random word comes.
    state: u64,
    clients: u32,
    stage: Stage,
    /// The number of the next round.
    round: u32,
    /// How many rounds are left.
    left: u32,
}

impl Model for StressPhases {
    ghost use Rattle.std.specs.Prelude.{List, ◌+◌, ◌<◌, ◌≤◌, ◌^◌};
    ghost use Rattle.mms_types.specs.declared.event.CellEvent.{CellEvent};
    ghost use Rattle.cell_stress.specs.Stress.{phases_left, random_at};

    ghost Value = { List (List CellEvent) };

    ghost view = { λ phases. phases_left phases.stage (random_at phases.state)
        phases.clients phases.round phases.left };

    ghost invariant = { λ phases. (phases.clients < 2 ^ 31)
        × (phases.round + phases.left < 2 ^ 31) };
}

/// A client sends a PDU.
fn sent(alloc: Global, client: u32, pdu: &Pdu) -> Result<CellEvent, Memory>
    ensures { IfOk result (λ event. event ≡ sent client pdu.now) }
{
    Ok(CellEvent::Heard {
        client,
        octets: Octets::new(write_pdu(alloc, pdu)?),
    })
}

/// Each client opens its association, and client 1 makes the semaphore.
fn opening(alloc: Global, clients: u32) -> Result<Events, Memory>
    requires { clients < 2 ^ 31 }
    ensures { IfOk result (λ events. events ≡ opening clients) }
{
    let mut events = Events::new(alloc);
    let pdu = Pdu::InitiateRequest(proposal());
    for client in 0..clients {
        events.push(sent(alloc, client + 1, &pdu)?)?;
    }
    let request = define(alloc)?;
    let pdu = Pdu::ConfirmedRequest { invoke: 1, request };
    events.push(sent(alloc, 1, &pdu)?)?;
    Ok(events)
}

/// What a client asks in a round by a random word.
fn asking(alloc: Global, round: u32, client: u32, word: u32) -> Result<CellEvent, Memory>
    requires { round < 2 ^ 31 }
    ensures { IfOk result (λ event. event ≡ asking round client word) }
{
    let request = asked(alloc, word, round)?;
    let pdu = Pdu::ConfirmedRequest {
        invoke: invoke_of(client, round),
        request,
    };
    sent(alloc, client, &pdu)
}

/// A round.
fn round_of(alloc: Global, random: &mut Pcg32, clients: u32, round: u32) -> Result<Events, Memory>
    requires round { round < 2 ^ 31 }
    requires clients { clients < 2 ^ 31 }
    ensures events { IfOk result (λ events. events ≡ round_of random.old clients round) }
    ensures random { OnOk result (random.new ≡ advance 64 multiplier_64 clients random.old) }
{
    let mut events = Events::new(alloc);
    for client in 0..clients {
        let word = random.next_word();
        events.push(asking(alloc, round, client + 1, word)?)?;
    }
    events.push(CellEvent::Tick { ms: 3 })?;
    Ok(events)
}

/// The phase in which the last waits end.
fn last(alloc: Global) -> Result<Events, Memory>
    ensures { IfOk result (λ events. events ≡ EventOf.Tick 10 ∷ []) }
{
    let mut events = Events::new(alloc);
    events.push(CellEvent::Tick { ms: 10 })?;
    Ok(events)
}

impl StressPhases {
    /// All phases, of so many clients and rounds, and with the random words that begin at the seed.
    pub fn new(seed: u64, clients: u32, rounds: u32) -> StressPhases
        requires clients { clients ≤ 64 }
        requires rounds { rounds ≤ 1000 }
        ensures { result ≡ stress_phases seed clients rounds }
    {
        StressPhases {
            state: Pcg32::new(seed, STREAM).state(),
            clients,
            stage: Stage::Opening,
            round: 1,
            left: rounds,
        }
    }

    /// Makes the next phase: None where there is none. Without memory for it, it is still to be
    /// made.
    pub fn next_phase(&mut self, alloc: Global) -> Result<Option<Events>, Memory>
        ensures made { IfOk result (λ made. MatchOption made
            ((self.old ≡ []) × (self.new ≡ []))
            (λ phase. self.old ≡ phase ∷ self.new)) }
        ensures kept { OnErr result (self.new ≡ self.old) }
    {
        match self.stage {
            Stage::Opening => {
                let events = opening(alloc, self.clients)?;
                self.stage = Stage::Rounds;
                Ok(Some(events))
            }
            Stage::Rounds => {
                if self.left == 0 {
                    let events = last(alloc)?;
                    self.stage = Stage::Over;
                    return Ok(Some(events));
                }
                let mut random = Pcg32::from_state(self.state, STREAM);
                let events = round_of(alloc, &mut random, self.clients, self.round)?;
                self.state = random.state();
                self.round += 1;
                self.left -= 1;
                Ok(Some(events))
            }
            Stage::Over => Ok(None),
        }
    }
}
