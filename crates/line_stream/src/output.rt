//! The bytes of a response.
ghost use Rattle.std.specs.Prelude.{[], ◌∷◌, ◌++◌, OnOk, OnErr};
ghost use Rattle.std.specs.Io.KnownBytes.{Appends};
ghost use Rattle.apply_io.specs.Causes.{HasCause};
ghost use Rattle.line_stream.specs.Outputs.{WritesFront, bytes_of};

use crate::write::write_whole;
use apply_io::{Failed, Sink};

/// Bytes for the output: made ones, constant ones that take no memory, or a body between the line before it and an LF, so that
/// a long body is not copied.
#[derive(Debug, Drop)]
pub enum Output {
    Made(Vec<u8>),
    Constant(&'static [u8]),
    Framed(Vec<u8>, Vec<u8>),
}

/// Writes all of the output's bytes, unless the sink fails; then a front of them was written.
#[tactic(auto, using(crate::proofs::Known::appends))]
pub fn write_output<K: Sink>(sink: &mut K, output: &Output) -> Result<(), Failed>
    ensures cause { HasCause (K.fault_count sink.old) (K.fault_count sink.new) result }
    ensures ok { OnOk result (Appends (K.held sink.old) (K.held sink.new) (bytes_of output.now)) }
    ensures err { OnErr result (WritesFront (bytes_of output.now) (K.held sink.old) (K.held sink.new)) }
{
    match output {
        Output::Made(bytes) => write_whole(sink, bytes.as_slice()),
        Output::Constant(bytes) => write_whole(sink, bytes),
        Output::Framed(line, body) => write_framed(sink, line.as_slice(), body.as_slice()),
    }
}

/// Writes a body between its line and an LF.
fn write_framed<K: Sink>(sink: &mut K, line: &[u8], body: &[u8]) -> Result<(), Failed>
    ensures cause { HasCause (K.fault_count sink.old) (K.fault_count sink.new) result }
    ensures ok { OnOk result (Appends (K.held sink.old) (K.held sink.new) (line.now ++ (body.now ++ 10 ∷ []))) }
    ensures err { OnErr result (WritesFront (line.now ++ (body.now ++ 10 ∷ [])) (K.held sink.old) (K.held sink.new)) }
{
    write_whole(sink, line)?;
    write_parts(sink, body, b"\n")
}

/// Writes two parts, one after the other.
fn write_parts<K: Sink>(sink: &mut K, first: &[u8], second: &[u8]) -> Result<(), Failed>
    ensures cause { HasCause (K.fault_count sink.old) (K.fault_count sink.new) result }
    ensures ok { OnOk result (Appends (K.held sink.old) (K.held sink.new) (first.now ++ second.now)) }
    ensures err { OnErr result (WritesFront (first.now ++ second.now) (K.held sink.old) (K.held sink.new)) }
{
    write_whole(sink, first)?;
    write_whole(sink, second)
}
