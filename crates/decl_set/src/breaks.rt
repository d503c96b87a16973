//! Why an element of one set is not as another set has it.

use attlist_merge::OddAtt;
use jats_chars::Name;

/// Why an element of the first set breaks in the second, in the order of the tests.
#[derive(Debug, Drop)]
pub enum Cause {
    /// The second does not declare it.
    Undeclared,
    /// Its content in the first derives names, each with a document, that its content in the second does not derive.
    Content,
    /// Its content in the first allows text that its content in the second does not allow.
    Text,
    /// This attribute is lacking, not covered, or missing.
    Attribute(Name),
}

/// An element of the first set that breaks in the second.
#[derive(Debug, Drop)]
pub struct BrokenDecl {
    pub element: Name,
    pub cause: Cause,
}

/// Why an element of the first set is odd in the second, whatever names stand in it, in the order of the tests.
#[derive(Debug, Drop)]
pub enum Odd {
    /// The second does not declare it.
    Undeclared,
    /// Its content in the first allows text that its content in the second does not allow.
    Text,
    /// One list of attributes allows what the other does not.
    Attribute(OddAtt),
}
