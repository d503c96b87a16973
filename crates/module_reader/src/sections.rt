//! Conditional sections (XML 1.0, 3.4).

ghost use Rattle.std.specs.Prelude.{◌≡◌, ◌<◌, ◌≤◌, IfOk, OnOk, bytes_eq, codes, length, true};
ghost use Rattle.jats_io.specs.Causes.{HasCause};
ghost use Rattle.text_fronts.specs.Fronts.{trimmed};
ghost use Rattle.module_reader.specs.Frames.{Begins, IsMoved, IsSound, Starts, current, end_of, with_start};
ghost use Rattle.module_reader.specs.Keywords.{keyword_of};
ghost use Rattle.module_reader.specs.Endings.{LoadFailed, IsAbsence};

use crate::frames::{Start, Work};
use crate::refusals::Stop;
use crate::standing::Standing;
use crate::stops::{not_ended, refused};
use crate::texts::text_read;
use jats_chars::{NoMemory, Text};
use jats_fault::{Details, numbers};
use pe_expansion::ignored_end;
use std::alloc::Global;
use text_fronts::trimmed;

/// What the keyword of a section says.
#[derive(Clone, Copy, Debug, Drop, PartialEq, Eq)]
pub enum Keyword {
    Include,
    Ignore,
    Other,
}

fn keyword_in(word: &[char]) -> Keyword
    ensures { result ≡ keyword_of word.now }
{
    if word == &['I', 'N', 'C', 'L', 'U', 'D', 'E'][..] {
        Keyword::Include
    } else if word == &['I', 'G', 'N', 'O', 'R', 'E'][..] {
        Keyword::Ignore
    } else {
        Keyword::Other
    }
}

/// What a text says as the keyword of a section, with white space at its ends.
pub fn section_word(text: &[char]) -> Keyword
    ensures { result ≡ keyword_of (trimmed text.now) }
{
    keyword_in(trimmed(text))
}

/// What the start of a section leads to by its keyword part, which is expanded.
fn start_of(
    alloc: Global,
    text: &Text,
    standing: &Standing,
    at: usize,
    next: usize,
    word: &Text,
) -> Result<Start, Stop>
    requires { (at < next) × (next ≤ length text.now) }
    ensures starts { Starts standing.now text.now at next (trimmed word.now) result }
    ensures within { IfOk result (λ s. (next ≤ end_of s next) × (end_of s next ≤ length text.now)) }
    ensures load { LoadFailed result → ⊥ }
    ensures absence { IsAbsence result → ⊥ }
{
    match section_word(word.as_slice()) {
        Keyword::Include => Ok(Start::Included),
        Keyword::Ignore => match ignored_end(text, next) {
            Some(end) => Ok(Start::Ignored(end)),
            None => Err(not_ended(alloc, standing, at)),
        },
        Keyword::Other => Err(refused(
            alloc,
            standing,
            at,
            numbers::MALFORMED,
            Details::new(alloc),
        )),
    }
}

/// Goes on behind the start of a section.
fn go_behind(work: &mut Work, start: Start, next: usize) -> Result<(), NoMemory>
    ensures same { OnOk result (IsMoved work.old work.new) }
    ensures at { OnOk result (work.new.frame.at ≡ end_of start next) }
    ensures sections { OnOk result (work.new.frame.sections.items ≡ with_start start work.old.frame.sections.items work.old.frame.at) }
    ensures modules { work.new.state.modules ≡ work.old.state.modules }
{
    match start {
        Start::Included => {
            work.frame.sections.push(work.frame.at)?;
            work.frame.at = next;
            Ok(())
        }
        Start::Ignored(end) => {
            work.frame.at = end;
            Ok(())
        }
    }
}

/// Goes on behind the start of a section, whose keyword part is expanded and ends at the next place.
pub fn begin_section(alloc: Global, work: &mut Work, next: usize, word: &Text) -> Result<(), Stop>
    requires sound { IsSound work.old }
    requires within { (work.old.frame.at < next) × (next ≤ length (current work.old).text) }
    ensures begins { Begins work.old work.new next (trimmed word.now) result }
    ensures load { LoadFailed result → ⊥ }
    ensures absence { IsAbsence result → ⊥ }
    ensures modules { work.new.state.modules ≡ work.old.state.modules }
{
    let at = work.frame.at;
    match start_of(alloc, text_read(work), &work.frame.standing, at, next, word) {
        Err(fault) => Err(fault),
        Ok(start) => match go_behind(work, start, next) {
            Err(_) => Err(Stop::NoMemory),
            Ok(()) => Ok(()),
        },
    }
}
