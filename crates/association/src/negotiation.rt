ghost use Rattle.std.specs.Prelude.{◌≡◌};
ghost use Rattle.association.specs.Negotiation.{answer_to, negotiation, parameters_of_both, nesting_of, refusal_of, size_of, values_of};

use mms_types::{
    Initiate, InitiateAnswer, InitiateDetail, ParameterOptions, ServiceError, ServiceOptions,
};

/// The most octets of a PDU that the server takes, and what a proposal without a size means.
const SIZE: i32 = 65_000;

/// The most requests that the server lets be outstanding, on either side.
const OUTSTANDING: i16 = 10;

/// How deep data may nest at the server, and what a proposal without a nesting means.
const NESTING: i8 = 10;

/// The version of the server.
const VERSION: i16 = 1;

/// The parameters that the server supports: str1, str2, vnam, vadr and vlis.
const PARAMETERS: [u8; 2] = [0xE9, 0x00];

/// The services that the server offers: the bits of the one list of services, also of those that the server asks, of
/// eventNotification, of conclude and of cancel.
const SERVICES: [u8; 11] = [
    0xEF, 0x3C, 0x1F, 0xFF, 0x0F, 0xFD, 0xB8, 0x60, 0x7E, 0, 0x98,
];

/// What an association was negotiated to (ISO 9506-1, Initiate).
#[derive(Clone, Copy)]
pub struct Negotiated {
    /// The most octets of a PDU.
    pub size: u32,
    /// The most of the server's requests that may wait at the client.
    pub calling: u32,
    /// The most of the client's requests that may wait at the server.
    pub called: u32,
    /// How deep data may nest.
    pub nesting: u8,
}

/// The state of a client's association (ISO 9506-1, Initiate, Conclude and Abort).
#[derive(Clone, Copy)]
pub enum Association {
    /// There is none.
    Idle,
    /// There is one, of those values.
    Open(Negotiated),
}

fn size(proposal: &Initiate) -> i32
    ensures { result ≡ size_of proposal.now }
{
    proposal.size.unwrap_or(SIZE)
}

fn nesting(proposal: &Initiate) -> i8
    ensures { result ≡ nesting_of proposal.now }
{
    proposal.nesting.unwrap_or(NESTING)
}

/// Why a proposal is refused, if it is: the first of its values that is too small.
pub(crate) fn refusal(proposal: &Initiate) -> Option<ServiceError>
    ensures { result ≡ refusal_of proposal.now }
{
    if proposal.detail.version < 1 {
        Some(ServiceError::VERSION_INCOMPATIBLE)
    } else if size(proposal) < 512 {
        Some(ServiceError::MAX_SEGMENT_INSUFFICIENT)
    } else if proposal.calling < 1 {
        Some(ServiceError::CALLING_INSUFFICIENT)
    } else if proposal.called < 1 {
        Some(ServiceError::CALLED_INSUFFICIENT)
    } else if nesting(proposal) < 1 {
        Some(ServiceError::NESTING_INSUFFICIENT)
    } else {
        None
    }
}

/// The parameters that both sides support.
fn common_parameters(proposed: &ParameterOptions) -> ParameterOptions
    ensures { result.octets ≡ parameters_of_both proposed.now.octets }
{
    let [first, second] = proposed.octets;
    ParameterOptions {
        octets: [first & PARAMETERS[0], second & PARAMETERS[1]],
    }
}

/// The answer to a proposal: the lesser of its values and the server's, the parameters of both, and
/// the services that the server offers.
pub(crate) fn answer(proposal: &Initiate) -> InitiateAnswer
    ensures { result ≡ answer_to proposal.now }
{
    InitiateAnswer {
        size: size(proposal).min(SIZE),
        calling: proposal.calling.min(OUTSTANDING),
        called: proposal.called.min(OUTSTANDING),
        nesting: nesting(proposal).min(NESTING),
        detail: InitiateDetail {
            version: proposal.detail.version.min(VERSION),
            parameters: common_parameters(&proposal.detail.parameters),
            services: ServiceOptions { octets: SERVICES },
        },
    }
}

/// What `ClientPart::negotiate` answers to a proposal, for a caller that has to know it beforehand.
pub fn outcome_of(proposal: &Initiate) -> Result<InitiateAnswer, ServiceError>
    ensures { result ≡ negotiation proposal.now }
{
    match refusal(proposal) {
        Some(error) => Err(error),
        None => Ok(answer(proposal)),
    }
}

/// The values of an answer that are used later. Each of them is at least 1.
pub(crate) fn values(answer: &InitiateAnswer) -> Negotiated
    ensures { result ≡ values_of answer.now }
{
    Negotiated {
        size: answer.size.unsigned_abs(),
        calling: u32::from(answer.calling.unsigned_abs()),
        called: u32::from(answer.called.unsigned_abs()),
        nesting: answer.nesting.unsigned_abs(),
    }
}
