//! Standard output.

ghost use Rattle.std.specs.Prelude.{◌≡◌};

use crate::sink::{Sink, WriteFault};
use std::io::Print;

/// Standard output. It tells nothing of what was written, and counts each write that fails.
pub struct StdSink<'a, R: Print> {
    rt: &'a R,
    faults: u64,
}

impl<'a, R: Print> StdSink<'a, R> {
    /// The standard output of this runtime, with a count of 0.
    pub fn new(rt: &'a R) -> StdSink<'a, R>
        ensures { result.faults ≡ 0 }
    {
        StdSink { rt, faults: 0 }
    }
}

impl<'a, R: Print> Drop for StdSink<'a, R> {
    fn drop(self) {
        let StdSink { rt: _, faults: _ } = self;
    }
}

impl<'a, R: Print> Sink for StdSink<'a, R> {
    ghost use Rattle.std.specs.Prelude.{None};

    ghost written = { λ s. None };

    ghost faults = { λ s. s.faults };

    ghost made = { λ s. 0 };

    fn write(&mut self, bytes: &[u8]) -> Result<usize, WriteFault> {
        match self.rt.write_some(bytes) {
            Ok(count) => {
                if count == 0 && !bytes.is_empty() {
                    self.faults = self.faults.saturating_add(1);
                    return Err(WriteFault::Failed);
                }
                Ok(count)
            }
            Err(_) => {
                self.faults = self.faults.saturating_add(1);
                Err(WriteFault::Failed)
            }
        }
    }
}
