//! Texts that are read, and those that wait.

use crate::held::Held;
use crate::stops::Stand;
use jats_chars::NameList;

/// A text that is read up to a place: the names that are open in it, how many elements were open where it began, and where
/// it stands.
#[derive(Drop)]
pub struct Frame<'a> {
    pub text: &'a [char],
    pub names: NameList,
    pub base: usize,
    pub stand: Stand<'a>,
    pub at: usize,
}

/// A reading under way: what was read, whether a document type declaration may no longer come, the text that is read, and
/// those that wait, the last one for the text that is read.
#[derive(Drop)]
pub struct Work<'a> {
    pub held: Held,
    pub typed: bool,
    pub frame: Frame<'a>,
    pub waiting: Vec<Frame<'a>>,
}
