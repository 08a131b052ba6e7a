//! Writing all of some bytes.
ghost use Rattle.std.specs.Prelude.{◌≡◌, ℕ, ◌≤◌, length, take, OnOk, OnErr};
ghost use Rattle.std.specs.Io.KnownBytes.{Appends};
ghost use Rattle.apply_io.specs.Causes.{HasCause};
ghost use Rattle.line_stream.specs.Outputs.{WritesFront};

use apply_io::{Failed, Sink};

/// Writes all of these bytes, unless the sink fails; then a front of them was written.
#[tactic(auto, using(crate::proofs::Known::appends))]
pub fn write_whole<K: Sink>(output: &mut K, bytes: &[u8]) -> Result<(), Failed>
    ensures cause { HasCause (K.fault_count output.old) (K.fault_count output.new) result }
    ensures ok { OnOk result (Appends (K.held output.old) (K.held output.new) bytes.now) }
    ensures err { OnErr result (WritesFront bytes.now (K.held output.old) (K.held output.new)) }
{
    let mut at = 0;
    while at < bytes.len() {
        at += output.write(&bytes[at..])?;
    }
    Ok(())
}
