//! Laws of the definitions.

ghost use Rattle.dtd_flattener.specs.Laws.{ReadsBack, ReadsBackAsFile};

/// A flat text says what its set says. Where a set keeps its constraints and passes the tests after the last declaration,
/// its flat text is read as the same set: as the text of a module, whatever the store and the catalog hold, since it
/// refers to nothing; and as an entry whose file holds its bytes, which are at most 4,194,304.
pub fn flat_law()
    ensures text { ReadsBack }
    ensures file { ReadsBackAsFile }
{}
