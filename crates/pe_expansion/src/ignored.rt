//! Ignored sections.

ghost use Rattle.std.specs.Prelude.{◌≡◌, ◌+◌, ◌-◌, ◌≤◌, ◌<◌, ◌==◌, ◌&&◌, IfSome, IsTrue, drop, length, nat_eq, codes};
ghost use Rattle.std.specs.List.{starts_with};
ghost use Rattle.pe_expansion.specs.Ignored as spec;

use jats_chars::Text;

fn opens(text: &[char]) -> bool
    ensures { result ≡ spec.opens text.now }
{
    text.starts_with(&['<', '!', '['])
}

fn closes(text: &[char]) -> bool
    ensures { result ≡ spec.closes text.now }
{
    text.starts_with(&[']', ']', '>'])
}

/// Whether the contents end behind the next three characters, where so many inner sections are open.
fn ends(depth: usize, text: &[char]) -> bool
    ensures value { result ≡ (nat_eq depth 0 && spec.closes text.now) }
    ensures within { IsTrue result → 3 ≤ length text.now }
{
    depth == 0 && closes(text)
}

/// How many sections are open behind the first character, where so many are open before it.
fn depth_after(depth: usize, text: &[char]) -> usize
    requires { depth < usize.MAX }
    ensures value { result ≡ spec.depth_after depth text.now }
    ensures small { result ≤ depth + 1 }
{
    if opens(text) {
        depth + 1
    } else if closes(text) && depth > 0 {
        depth - 1
    } else {
        depth
    }
}

/// The place after the `]]>` that ends the ignored contents which begin at a place, or None exactly where they do not
/// end. Only `<![` and `]]>` count there, nested (XML 1.0, 3.4); quotes, comments and references do not. It takes no
/// memory.
#[tactic(auto, using(crate::proofs::Sections::end_here, crate::proofs::Sections::end_past))]
pub fn ignored_end(text: &Text, at: usize) -> Option<usize>
    ensures end { result ≡ spec.ignored_end text.now at }
    ensures within { IfSome result (λ end. (at + 3 ≤ end) × (end ≤ length text.now)) }
{
    let text = text.as_slice();
    let mut depth = 0;
    for place in at..text.len() {
        let (_, rest) = text.split_at(place);
        if ends(depth, rest) {
            return Some(place + 3);
        }
        depth = depth_after(depth, rest);
    }
    None
}
