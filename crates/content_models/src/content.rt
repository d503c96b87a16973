//! Contents.

ghost use Rattle.std.specs.Prelude.{◌≡◌};
ghost use Rattle.content_models.specs.Kinds as spec;

use jats_chars::{ListOf, Name, NameList};

/// How often a part occurs (XML 1.0, 3.2.1).
#[derive(Clone, Copy, Debug, PartialEq, Eq)]
pub enum Occurs {
    /// Once: no sign.
    Once,
    /// None or once: `?`.
    Opt,
    /// Any number: `*`.
    Star,
    /// At least once: `+`.
    Plus,
}

/// A part of a content model (XML 1.0, 3.2.1).
#[derive(Debug, Drop)]
pub enum Particle {
    /// An element of this name.
    One(Name, Occurs),
    /// Each of the parts, in order.
    Seq(ParticleList, Occurs),
    /// One of the parts.
    Choice(ParticleList, Occurs),
}

/// Parts in order.
pub type ParticleList = ListOf<Particle>;

/// What may stand in an element (XML 1.0, 3.2).
#[derive(Debug, Drop)]
pub enum Content {
    /// Nothing.
    Empty,
    /// Anything.
    Any,
    /// Text, and elements of these names.
    Mixed(NameList),
    /// Elements by a model.
    Children(Particle),
}

/// Which items other than elements may stand in an element (XML 1.0, 3, Element Valid).
#[derive(Clone, Copy, Debug, PartialEq, Eq)]
pub enum TextKind {
    /// None.
    NoItems,
    /// White space, comments and processing instructions.
    White,
    /// All.
    All,
}

/// Which items other than elements the content allows: none where it is EMPTY, white space, comments and processing
/// instructions under a model, and all else.
pub fn text_kind(content: &Content) -> TextKind
    ensures { result ≡ spec.text_kind content.now }
{
    match content {
        Content::Empty => TextKind::NoItems,
        Content::Children(_) => TextKind::White,
        Content::Any | Content::Mixed(_) => TextKind::All,
    }
}
