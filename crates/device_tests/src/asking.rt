//! What the clients of the tests send, and the device that they share.

ghost use Rattle.std.specs.Prelude.{◌≡◌, IfSome};
ghost use Rattle.cell_config.specs.Said.{IsConfig};

use cell_config::{Config, read_config};
use mms_types::Edition;
use std::alloc::Global;

/// Two clients, and a variable `Speed` of 32 bits.
const TWO_CLIENTS: &[u8] =
    b"clients = 2\n[[cell]]\nnumber = 0\ntype = \"850120\"\nvalue = \"850100\"\n[[variable]]\nname = \"Speed\"\ncell = 0\n";

/// A proposal of an association.
pub(crate) const OPEN: &[u8] =
    b"\xA8\x26\x80\x03\x00\xFD\xE8\x81\x01\x0A\x82\x01\x0A\x83\x01\x05\xA4\x16\x80\x01\x01\x81\x03\x05\xF1\x00\x82\x0C\x03\xEE\x1C\x00\x00\x04\x08\x00\x00\x79\xEF\x18";

/// A request to define the semaphore T, with one token.
pub(crate) const DEFINE: &[u8] = b"\xA0\x0D\x02\x01\x01\xB5\x08\xA0\x03\x80\x01\x54\x81\x01\x01";

/// A request for the token of T, which waits where the other client has it.
pub(crate) const TAKE: &[u8] = b"\xA0\x0A\x02\x01\x02\xB3\x05\xA0\x03\x80\x01\x54";

/// A request that gives the token of T back.
const GIVE: &[u8] = b"\xA0\x0A\x02\x01\x03\xB4\x05\xA0\x03\x80\x01\x54";

/// A request to read `Speed`.
pub(crate) const READ: &[u8] =
    b"\xA0\x14\x02\x01\x03\xA4\x0F\xA1\x0D\xA0\x0B\x30\x09\xA0\x07\x80\x05\x53\x70\x65\x65\x64";

/// What a client sends at a step of its script: it opens and defines T, and then asks for its token and gives it back,
/// by turns. Where the other client has the token, the request waits, is refused or has an invokeID that waits.
pub(crate) fn sent(step: usize) -> &'static [u8] {
    match step {
        0 => OPEN,
        1 => DEFINE,
        _ if step % 2 == 0 => TAKE,
        _ => GIVE,
    }
}

/// The configuration of two clients.
pub(crate) fn two_clients(alloc: Global) -> Option<Config>
    ensures { IfSome result (λ config. IsConfig config × (config.clients ≡ 2)) }
{
    let config = read_config(alloc, TWO_CLIENTS, Edition::One).ok()?;
    if config.clients == 2 {
        Some(config)
    } else {
        None
    }
}
