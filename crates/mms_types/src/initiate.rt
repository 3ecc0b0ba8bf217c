ghost use Rattle.std.specs.Prelude.{◌↔◌, ◌<◌, ◌/◌, IsTrue, length};
ghost use Rattle.mms_types.specs.OptionBits.{IsOptionSet};

/// The parameters that a side supports (ISO 9506-2, ParameterSupportOptions): 11 bits, of which bit
/// 0 is the most significant one of the first octet. Bit 9 has no name, and the last five bits of
/// the octets are not used.
#[derive(Clone, Copy)]
pub struct ParameterOptions {
    pub octets: [u8; 2],
}

impl ParameterOptions {
    /// Arrays.
    pub const STR1: u8 = 0;

    /// Structures.
    pub const STR2: u8 = 1;

    /// Named variables.
    pub const VNAM: u8 = 2;

    /// Alternate access.
    pub const VALT: u8 = 3;

    /// Variables by their address.
    pub const VADR: u8 = 4;

    /// Scattered access.
    pub const VSCA: u8 = 5;

    /// Services for a third party.
    pub const TPY: u8 = 6;

    /// Named lists of variables.
    pub const VLIS: u8 = 7;

    /// Real data.
    pub const REAL: u8 = 8;

    /// The interval at which a condition is evaluated.
    pub const CEI: u8 = 10;

    /// Whether the bit of that number is set.
    pub fn has(self, bit: u8) -> bool
        requires { bit < 11 }
        ensures { IsTrue result ↔ IsOptionSet self.octets bit }
    {
        is_option_set(&self.octets, bit)
    }
}

/// The services that a side supports (ISO 9506-2, ServiceSupportOptions): in this profile 85 bits, of
/// which bit 0 is the most significant one of the first octet. The last three bits are not used.
/// The bit of a service is the service's number; those from 78 on are named here.
#[derive(Clone, Copy)]
pub struct ServiceOptions {
    pub octets: [u8; 11],
}

impl ServiceOptions {
    pub const UNSOLICITED_STATUS: u8 = 78;

    pub const INFORMATION_REPORT: u8 = 79;

    pub const EVENT_NOTIFICATION: u8 = 80;

    pub const ATTACH_TO_EVENT_CONDITION: u8 = 81;

    pub const ATTACH_TO_SEMAPHORE: u8 = 82;

    pub const CONCLUDE: u8 = 83;

    pub const CANCEL: u8 = 84;

    /// Whether the bit of that number is set.
    pub fn has(self, bit: u8) -> bool
        requires { bit < 85 }
        ensures { IsTrue result ↔ IsOptionSet self.octets bit }
    {
        is_option_set(&self.octets, bit)
    }
}

/// What a client proposes, or the server answers, of a version and what it supports (ISO 9506-2,
/// initRequestDetail and initResponseDetail).
#[derive(Clone, Copy)]
pub struct InitiateDetail {
    /// The number of the version.
    pub version: i16,
    pub parameters: ParameterOptions,
    pub services: ServiceOptions,
}

/// What a client proposes for an association (ISO 9506-2, Initiate-Request).
#[derive(Clone, Copy)]
pub struct Initiate {
    /// The most octets of a PDU.
    pub size: Option<i32>,
    /// The most requests that may be outstanding of those that the called side, the server, makes.
    pub calling: i16,
    /// The most requests that may be outstanding of those that the calling side, the client, makes.
    pub called: i16,
    /// How deep data may nest.
    pub nesting: Option<i8>,
    pub detail: InitiateDetail,
}

/// What the server answers: the negotiated values (ISO 9506-2, Initiate-Response).
#[derive(Clone, Copy)]
pub struct InitiateAnswer {
    /// The most octets of a PDU.
    pub size: i32,
    /// The most of the server's requests that may be outstanding.
    pub calling: i16,
    /// The most of the client's requests that may be outstanding.
    pub called: i16,
    /// How deep data may nest.
    pub nesting: i8,
    pub detail: InitiateDetail,
}

pub(crate) fn is_option_set(octets: &[u8], bit: u8) -> bool
    requires { bit / 8 < length octets.now }
    ensures { IsTrue result ↔ IsOptionSet octets.now bit }
{
    octets[(bit / 8) as usize] & (1 << (7 - bit % 8)) != 0
}
