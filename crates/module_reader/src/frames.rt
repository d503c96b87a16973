//! Texts that are read, and those that wait.

use crate::standing::Standing;
use crate::state::State;
use jats_chars::NameList;

/// A text that is read: the number of the entity whose text it is, or None for the entry's; where it stands; the place up
/// to which it is read; and where its open sections start.
#[derive(Drop)]
pub struct Frame {
    pub text: Option<usize>,
    pub standing: Standing,
    pub at: usize,
    pub sections: Vec<usize>,
}

/// A reading under way: its state; the text that is read; those that wait, the last one for the text that is read; and the
/// names that are open: all of them in the text that is read, and the first n in the text that waits at place n.
#[derive(Drop)]
pub struct Work {
    pub state: State,
    pub frame: Frame,
    pub waiting: Vec<Frame>,
    pub names: NameList,
}

/// What the start of a section leads to: its contents are read, or they are ignored up to a place.
#[derive(Clone, Copy, Debug, Drop)]
pub enum Start {
    Included,
    Ignored(usize),
}
