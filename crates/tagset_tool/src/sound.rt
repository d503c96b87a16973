//! The program over a store that never fails and a sink with room.

ghost use Rattle.tagset_tool.specs.Sound.{RunsSound};

use crate::top::run;
use jats_chars::Text;
use jats_io::{SoundSink, SoundStore};
use std::alloc::Global;

/// Does what the words ask for, as `run` does. Where the sink has more room than the output is long, the whole output
/// is written and no count of faults rises, unless memory runs out before the first write.
pub fn run_sound(alloc: Global, words: &[Text], store: &mut SoundStore, sink: &mut SoundSink) -> u8
    ensures { RunsSound words.now store.old.files sink.old sink.new result }
{
    let _before = sink.bytes().len();
    let status = run(alloc, words, store, sink);
    let _after = sink.bytes().len();
    status
}
