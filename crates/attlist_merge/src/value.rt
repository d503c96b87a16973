//! Values as they are written: which `&` begins a reference.

ghost use Rattle.std.specs.Prelude.{◌≡◌};
ghost use Rattle.attlist_merge.specs.Grammar as grammar;

use dtd_scanner::begins_reference;

/// Whether each `&` begins a reference.
#[tactic(auto, unfolding(crate::specs::Grammar::is_value))]
pub fn is_value(text: &[char]) -> bool
    ensures { result ≡ grammar.is_value text.now }
{
    let mut rest = text;
    while let Some((c, after)) = rest.split_first() {
        if *c == '&' && !begins_reference(rest) {
            return false;
        }
        rest = after;
    }
    true
}
