//! Steps of a reading that load nothing.

ghost use Rattle.std.specs.Prelude.{◌≡◌, ◌+◌, ◌<◌, ◌≤◌, Err, length, true};
ghost use Rattle.module_reader.specs.Frames.{Advances, IsSound, Nears, Stands, Turns, current, is_passed, left_of, rest_of};
ghost use Rattle.module_reader.specs.Endings.{LoadFailed, IsAbsence};
ghost use Rattle.module_reader.specs.Reading as spec;
ghost use Rattle.module_reader.specs.Sources.{Source};

use crate::frames::Work;
use crate::refusals::Stop;
use crate::stops::not_ended;
use dtd_scanner::ItemKind;
use std::alloc::Global;

/// Passes over white space, a comment or a processing instruction.
pub fn skip(work: &mut Work, kind: ItemKind, next: usize)
    requires sound { IsSound work.old }
    requires passed { is_passed kind ≡ true }
    requires stands { Stands (current work.old) kind next }
    ensures steps { (source : Source) → left_of source work.new ≡ left_of source work.old }
    ensures advances { Advances work.old work.new }
    ensures modules { work.new.state.modules ≡ work.old.state.modules }
{
    work.frame.at = next;
}

/// Ends the innermost section.
pub fn close_section(work: &mut Work)
    requires sound { IsSound work.old }
    requires within { (work.old.frame.at + 3 ≤ length (current work.old).text) × (work.old.frame.at + 3 < 9223372036854775808) }
    requires ends { spec.ends_section (current work.old).sections (rest_of (current work.old)) ≡ true }
    ensures steps { (source : Source) → left_of source work.new ≡ left_of source work.old }
    ensures advances { Advances work.old work.new }
    ensures modules { work.new.state.modules ≡ work.old.state.modules }
{
    let _start = work.frame.sections.pop();
    work.frame.at += 3;
}

/// Goes on with the last text that waits, and answers whether one does.
fn resume(work: &mut Work) -> Result<bool, Stop>
    requires sound { IsSound work.old }
    requires over { (length (current work.old).text ≤ work.old.frame.at) × (length work.old.frame.sections.items ≡ 0) }
    ensures turns { (source : Source) → Turns source work.old work.new result }
    ensures nears { Nears work.old work.new result }
    ensures load { LoadFailed result → ⊥ }
    ensures absence { IsAbsence result → ⊥ }
    ensures modules { work.new.state.modules ≡ work.old.state.modules }
{
    match work.waiting.pop() {
        None => Ok(false),
        Some(frame) => {
            work.frame = frame;
            work.names.truncate(work.waiting.len());
            Ok(true)
        }
    }
}

/// The text has ended.
pub fn finish_text(alloc: Global, work: &mut Work) -> Result<bool, Stop>
    requires sound { IsSound work.old }
    requires over { length (current work.old).text ≤ work.old.frame.at }
    ensures turns { (source : Source) → Turns source work.old work.new result }
    ensures nears { Nears work.old work.new result }
    ensures load { LoadFailed result → ⊥ }
    ensures absence { IsAbsence result → ⊥ }
    ensures modules { work.new.state.modules ≡ work.old.state.modules }
{
    match work.frame.sections.last() {
        Some(start) => Err(not_ended(alloc, &work.frame.standing, *start)),
        None => resume(work),
    }
}
