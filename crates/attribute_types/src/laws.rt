//! Laws of the definitions.

ghost use Rattle.attribute_types.specs.Chars.{ClassOfChars, SampleOfChars, UncoveredOfChars};

/// Values that are chosen from a class are of Chars where its tokens and its text are (XML 1.0, 2.2): its sample, and a
/// value of it that another class lacks. The class of a proper type and a preset of Chars is such a class.
pub fn chars_law()
    ensures class { ClassOfChars }
    ensures sample { SampleOfChars }
    ensures uncovered { UncoveredOfChars }
{}
