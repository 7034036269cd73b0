//! Writing a piece of bytes, or a text, whole.
ghost use Rattle.std.specs.Prelude.{◌+◌, ◌-◌, ◌<◌, ◌≤◌, length, take, drop, IfOk, OnOk, OnErr, MatchResult};
ghost use Rattle.std.specs.Io.KnownBytes.{Appends, Keeps};
ghost use Rattle.coy_io.specs.Causes.{HasCause};
ghost use Rattle.coy_io.specs.Pieces.{AppendsSome};
ghost use Rattle.coy_io.specs.Written.{WroteTo};

use crate::{Failed, Sink};
use thiserror::Error;

/// The sink failed before it had taken all.
#[derive(Clone, Copy, Debug, Error)]
#[error("the output could not be written")]
pub struct WriteFault;

/// Puts all of `bytes`, in as many calls as the sink needs. After a fault the sink has taken a
/// front of them.
#[tactic(auto, using(crate::proofs::Puts::taken_more))]
pub fn put_all<K: Sink>(sink: &mut K, bytes: &[u8]) -> Result<(), WriteFault>
    ensures whole { OnOk result (Appends (K.taken sink.old) (K.taken sink.new) bytes.now) }
    ensures front { OnErr result (AppendsSome (K.taken sink.old) (K.taken sink.new) bytes.now) }
    ensures cause { HasCause (K.faults sink.old) (K.faults sink.new) result }

    // No more calls than bytes.
    ensures calls { K.calls sink.new ≤ K.calls sink.old + length bytes.now }
{
    let mut done = 0;
    while done < bytes.len() {
        match put_behind(sink, bytes, done) {
            Ok(now) => done = now,
            Err(Failed) => return Err(WriteFault),
        }
    }
    Ok(())
}

/// Puts some of the bytes behind the first `done`, and answers how many are done then.
fn put_behind<K: Sink>(sink: &mut K, bytes: &[u8], done: usize) -> Result<usize, Failed>
    requires { done < length bytes.now }
    ensures more { IfOk result (λ now. done < now) }
    ensures within { IfOk result (λ now. now ≤ length bytes.now) }
    ensures taken { let old = K.taken sink.old in let new = K.taken sink.new in
        MatchResult result (λ now. Appends old new (take (now - done) (drop done bytes.now)))
        (λ _. Keeps old new) }
    ensures cause { HasCause (K.faults sink.old) (K.faults sink.new) result }
    ensures calls { K.calls sink.new ≤ K.calls sink.old + 1 }
{
    let count = sink.put(&bytes[done..])?;
    Ok(done + count)
}

/// Writes bytes as they are.
pub fn put_bytes<K: Sink>(bytes: &[u8], output: &mut K) -> Result<(), WriteFault>
    ensures { WroteTo K.taken K.faults output.old output.new result bytes.now }
{
    put_all(output, bytes)
}

/// Writes a text as it is.
pub fn put_text<K: Sink>(text: &str, output: &mut K) -> Result<(), WriteFault>
    ensures { WroteTo K.taken K.faults output.old output.new result text.now }
{
    put_all(output, text.as_bytes())
}
