//! Laws of the definitions.

ghost use Rattle.content_models.specs.Laws.{OneContent, OneAnswer, ParsesSpelled, FlatSpells, ParsesBack};
ghost use Rattle.content_models.specs.Rules.{NameRule, SequenceRule, ChoiceRule};

/// What a part of a content model derives, in the words of the standard (XML 1.0, 3.2.1): a name derives itself, a
/// sequence lists of its parts joined in order, a choice what one of its parts derives; with `?` none or one of these,
/// with `*` any number, with `+` one or more.
pub fn derivation_law()
    ensures name { NameRule }
    ensures sequence { SequenceRule }
    ensures choice { ChoiceRule }
{}

/// The answers of `parse_content` are exact. A text spells one content at most, where no more than 64 parentheses are
/// open. It has one answer, but for want of memory; and where it spells a proper content, that content is the answer.
pub fn parse_law()
    ensures content { OneContent }
    ensures answer { OneAnswer }
    ensures spelled { ParsesSpelled }
{}

/// What `print_content` gives for a proper content spells that content, and `parse_content` gives it back, unless
/// memory ran out.
pub fn print_law()
    ensures spells { FlatSpells }
    ensures back { ParsesBack }
{}
