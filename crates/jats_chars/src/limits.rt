//! The limits of what is read, kept and written. What passes one is refused.

/// How many bytes a module or a catalog may have (refusal 11).
pub const MODULE_BYTES: usize = 4_194_304;

/// How many modules a set may have (refusal 12).
pub const MODULES: usize = 1024;

/// How many bytes the modules of a set may have together (refusal 12).
pub const SET_BYTES: u64 = 33_554_432;

/// How many bytes an article may have (refusal 11).
pub const ARTICLE_BYTES: usize = 33_554_432;

/// How many bytes a certificate may have (refusal 11).
pub const CERTIFICATE_BYTES: usize = 268_435_456;

/// How many bytes an output may have (refusal 46).
pub const OUTPUT_BYTES: u64 = 268_435_456;

/// How many entities may be open within one another (refusal 24).
pub const OPEN_ENTITIES: usize = 32;

/// How many characters the texts of entities may include in a reading, and in the reading of an article (refusal 25).
pub const INCLUDED_CHARACTERS: u64 = 67_108_864;

/// How many parentheses may be open in a content (refusal 44).
pub const OPEN_GROUPS: usize = 64;

/// How many names a content may hold, each counted as often as it stands (refusal 42).
pub const POSITIONS: usize = 1024;

/// How many elements a set may declare (refusal 41).
pub const ELEMENTS: usize = 1024;

/// How many pairs of positions that follow one another the contents of a set may have together (refusal 43).
pub const FOLLOWS: u64 = 16_000_000;

/// How many elements may be open within one another in an article (refusal 65).
pub const OPEN_ELEMENTS: usize = 2048;

/// How many pairs of states the useful elements of a comparison may have together (refusal 45).
pub const PAIRS: u64 = 2_000_000;

/// Up to how many elements a least article is sought.
pub const CAP: u32 = 100_000;
