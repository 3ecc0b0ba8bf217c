ghost use Rattle.std.specs.Prelude.{OnOk, OnErr};
ghost use Rattle.std.specs.Io.KnownBytes.{Appends};
ghost use Rattle.cell_io.specs.Faults.{CountsFault};
ghost use Rattle.cell_io.specs.Prefix.{AppendsPrefix};

use crate::{Failed, Sink};

/// Writes all of `bytes`, by as many writes as it takes. A write that fails is the last one: after
/// `Failed` one fault more is counted, and the sink holds what it held and then a prefix of `bytes`.
pub fn write_all<K: Sink>(out: &mut K, bytes: &[u8]) -> Result<(), Failed>
    ensures whole { OnOk result (Appends (K.held out.old) (K.held out.new) bytes.now) }
    ensures part { OnErr result (AppendsPrefix (K.held out.old) (K.held out.new) bytes.now) }
    ensures cause { CountsFault (K.faults out.old) (K.faults out.new) result }
{
    let mut done = 0;
    while done < bytes.len() {
        done += out.write(&bytes[done..])?;
    }
    Ok(())
}
