//! The numbers of refusals, by their names.

/// No file has the name of a module, a catalog, an article or a certificate.
pub const MODULE_ABSENT: u16 = 10;

/// A file has more bytes than its kind may have.
pub const MODULE_LONG: u16 = 11;

/// A set has more modules, or more bytes together, than it may have.
pub const SET_OVER: u16 = 12;

/// Bytes that are no UTF-8.
pub const NOT_UTF8: u16 = 13;

/// A character that is no Char (2.2).
pub const NOT_CHAR: u16 = 14;

/// What begins as a text declaration is none (4.3.1).
pub const BAD_TEXT_DECL: u16 = 15;

/// An encoding other than UTF-8 and US-ASCII (4.3.3).
pub const ENCODING_OTHER: u16 = 16;

/// What stands there has none of the forms that may stand there.
pub const MALFORMED: u16 = 20;

/// A parameter entity that is not declared.
pub const UNDECLARED_PE: u16 = 21;

/// A parameter entity within its own text (4.1, No Recursion).
pub const RECURSIVE_PE: u16 = 22;

/// The text of a parameter entity does not nest with what stands around it (2.8, 3.2.1).
pub const PE_NESTING: u16 = 23;

/// More than 32 entities within one another.
pub const ENTITY_TOO_DEEP: u16 = 24;

/// More included characters than there may be.
pub const EXPANSION_OVER: u16 = 25;

/// A default value refers to no internal general entity.
pub const ENTITY_UNDECLARED: u16 = 26;

/// `<` in the value of an attribute (3.1).
pub const LESS_THAN_IN_VALUE: u16 = 27;

/// A general entity within its own text (4.1, No Recursion).
pub const RECURSIVE_ENTITY: u16 = 28;

/// A second declaration of a notation (4.7).
pub const DUPLICATE_NOTATION: u16 = 29;

/// A second declaration of an element (3.2).
pub const DUPLICATE_ELEMENT: u16 = 30;

/// A name that comes twice in mixed content (3.2.2).
pub const DUPLICATE_MIXED_NAME: u16 = 31;

/// A content that is not deterministic (3.2.1, Appendix E).
pub const AMBIGUOUS: u16 = 32;

/// An ID attribute with a default (3.3.1).
pub const ID_PRESET: u16 = 33;

/// A second ID attribute of an element (3.3.1).
pub const SECOND_ID: u16 = 34;

/// A second NOTATION attribute of an element (3.3.1).
pub const SECOND_NOTATION: u16 = 35;

/// A NOTATION attribute of an element declared EMPTY (3.3.1).
pub const NOTATION_ON_EMPTY: u16 = 36;

/// A notation that is not declared (3.3.1, 4.2.2).
pub const NOTATION_UNDECLARED: u16 = 37;

/// A token that comes twice in a type (3.3.1).
pub const DUPLICATE_TOKEN: u16 = 38;

/// A default that its type does not allow (3.3.2).
pub const PRESET_NOT_IN_CLASS: u16 = 39;

/// A root that the first set does not declare.
pub const ROOT_UNDECLARED: u16 = 40;

/// More elements than a set may declare.
pub const ELEMENTS_OVER: u16 = 41;

/// More names in a content than there may be.
pub const POSITIONS_OVER: u16 = 42;

/// More follows in a set than there may be.
pub const FOLLOWS_OVER: u16 = 43;

/// More than 64 open parentheses in a declaration.
pub const GROUP_TOO_DEEP: u16 = 44;

/// More pairs of states than a comparison may have.
pub const PAIRS_OVER: u16 = 45;

/// A longer answer than may be written.
pub const OUTPUT_OVER: u16 = 46;

/// A line of a catalog has no form.
pub const CATALOG_MALFORMED: u16 = 50;

/// An identifier names no file below the folder.
pub const PATH_ESCAPES: u16 = 51;

/// An article departs there from the grammar.
pub const ARTICLE_MALFORMED: u16 = 60;

/// An end tag names another element than is open (3, Element Type Match).
pub const TAG_MISMATCH: u16 = 61;

/// An attribute comes twice in a tag (3.1, Unique Att Spec).
pub const REPEATED_ATTRIBUTE: u16 = 62;

/// A general entity that is not declared (4.1).
pub const ENTITY_UNKNOWN: u16 = 63;

/// A reference to an external general entity.
pub const ENTITY_EXTERNAL: u16 = 64;

/// More than 2,048 elements within one another.
pub const ELEMENT_TOO_DEEP: u16 = 65;

/// Something stands behind the element of an article (2.1).
pub const REST_AFTER_ROOT: u16 = 66;

/// An article has an internal subset, which is not read yet.
pub const INTERNAL_SUBSET: u16 = 67;

/// The text of a general entity is no content by itself (4.3.2).
pub const ENTITY_NESTING: u16 = 69;

/// A line of a certificate is not as needed.
pub const CERT_MALFORMED: u16 = 70;
