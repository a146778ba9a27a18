//! Whole reads and writes over a link that may read and write less than it is asked to.

ghost use Rattle.std.specs.Prelude.{◌≡◌, length, OnOk, OnErr, IfErr, IsErr, IsErrOf};
ghost use Rattle.outside.specs.Calls.{HasCause, Extends, TakesFront};
ghost use Rattle.sync_client.specs.Steps.{StopsReading, IsShort, WritesPart};

use crate::sync_err::SyncErr;
use outside::{Failed, Link};

/// Reads as many bytes as `out` has room for.
pub(crate) fn read_full<L: Link>(link: &mut L, out: &mut [u8]) -> Result<(), SyncErr>
    ensures whole { OnOk result (TakesFront (L.left link.old) (L.left link.new) out.new) }
    ensures stops { IfErr result (λ err. StopsReading (IsShort (length out.old)) (L.left link.old) (L.left link.new) err) }
    ensures cause { HasCause (L.read_faults link.old) (L.read_faults link.new) (IsErrOf result SyncErr.Fault) }
    ensures taken { L.taken link.new ≡ L.taken link.old }
    ensures writes { L.write_faults link.new ≡ L.write_faults link.old }
{
    let mut count = 0;
    while count < out.len() {
        match link.read(&mut out[count..]) {
            Ok(0) => return Err(SyncErr::Ended),
            Ok(more) => count += more,
            Err(Failed) => return Err(SyncErr::Fault),
        }
    }
    Ok(())
}

/// Writes all bytes of a message.
pub(crate) fn write_full<L: Link>(link: &mut L, message: &[u8]) -> Result<(), Failed>
    ensures whole { OnOk result (Extends (L.taken link.old) (L.taken link.new) message.now) }
    ensures part { OnErr result (WritesPart message.now (L.taken link.old) (L.taken link.new)) }
    ensures cause { HasCause (L.write_faults link.old) (L.write_faults link.new) (IsErr result) }
    ensures left { L.left link.new ≡ L.left link.old }
    ensures reads { L.read_faults link.new ≡ L.read_faults link.old }
{
    let mut count = 0;
    while count < message.len() {
        let more = link.write(&message[count..])?;
        count += more;
    }
    Ok(())
}
