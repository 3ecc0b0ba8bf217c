ghost use Rattle.std.specs.Prelude.{◌≡◌, IsTrue, IfOk};
ghost use Rattle.mms_types.specs.Spelling.{is_identifier};

use mms_types::{Edition, Identifier, Memory, Unnamed};
use std::alloc::Global;

/// An identifier of the edition, copied.
pub(crate) fn identifier(alloc: Global, text: &str, edition: Edition) -> Result<Identifier, Memory>
    requires { IsTrue (is_identifier edition text.now) }
    ensures { IfOk result (λ name. name ≡ text.now) }
{
    match Identifier::read(alloc, text.as_bytes(), edition) {
        Ok(name) => Ok(name),
        Err(Unnamed::Memory) => Err(Memory::wanting()),
        Err(Unnamed::Bad(_)) => unreachable!(),
    }
}
