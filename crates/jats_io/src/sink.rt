//! Where bytes go.

ghost use Rattle.std.specs.Prelude.{◌≡◌, ℕ, ◌+◌, ◌<◌, ◌≤◌, ◌^◌, ◌++◌, List, Option, IfSome, IfOk, IsErr, IsSome, take, length};
ghost use Rattle.jats_io.specs.Causes.{Counts, HasCause};
ghost use Rattle.jats_io.specs.Writes.{Writes, WritesAll};

use thiserror::Error;

/// Why a write took nothing.
#[derive(Clone, Copy, Debug, PartialEq, Eq, Error)]
pub enum WriteFault {
    /// The sink failed, and counted it.
    #[error("the write failed")]
    Failed,
}

/// A place to which bytes are appended.
pub trait Sink {
    // what was written, where the sink tells it
    ghost written: { Self → Option (List ℕ) };

    // how often a write has failed
    ghost faults: { Self → ℕ };

    // the room that a sound sink was made with, and 0 for every other sink
    ghost made: { Self → ℕ };

    /// Appends the first bytes of the piece, and answers how many: at least 1 where the piece is not empty. The faults
    /// rise exactly where `Failed` is answered, and then nothing was appended.
    fn write(&mut self, bytes: &[u8]) -> Result<usize, WriteFault>
        ensures made { made self.new ≡ made self.old }
        ensures faults { HasCause (faults self.old) (faults self.new) (IsErr result) }
        ensures failures { Counts (faults self.old) (faults self.new) (IsErr result) }
        ensures count { IfOk result (λ n. (n ≤ length bytes.now) × (0 < length bytes.now → 0 < n)) }
        ensures appends { Writes (written self.old) (written self.new) bytes.now result };
}

/// Appends all the bytes, in as many writes as it takes, of which one that fails is the last. It takes no memory. The faults
/// rise by one exactly where `Failed` is answered, and then some first bytes were appended.
pub fn write_all<K: Sink>(sink: &mut K, bytes: &[u8]) -> Result<(), WriteFault>
    ensures made { K.made sink.new ≡ K.made sink.old }
    ensures faults { HasCause (K.faults sink.old) (K.faults sink.new) (IsErr result) }
    ensures failures { Counts (K.faults sink.old) (K.faults sink.new) (IsErr result) }
    ensures appends { WritesAll (K.written sink.old) (K.written sink.new) bytes.now result }
{
    let mut done = 0;
    while done < bytes.len() {
        match sink.write(&bytes[done..]) {
            Ok(taken) => done += taken,
            Err(fault) => return Err(fault),
        }
    }
    Ok(())
}
