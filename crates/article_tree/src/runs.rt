//! Characters that stand for themselves.

ghost use Rattle.std.specs.Prelude.{◌≡◌, ◌≤◌, ◌+◌, length, drop};
ghost use Rattle.article_tree.specs.Plain as spec;

fn ends_run(c: char, text: &[char]) -> bool
    requires { 1 ≤ length text.now }
    ensures { result ≡ spec.ends_run c (drop 1 text.now) }
{
    c == '&' || c == '<' || (c == ']' && text.split_at(1).1.starts_with(&[']', '>']))
}

/// How many characters that stand for themselves the text begins with.
#[tactic(auto, unfolding(crate::specs::Plain::run_len))]
pub fn run_len(text: &[char]) -> usize
    ensures value { result ≡ spec.run_len text.now }
    ensures within { result ≤ length text.now }
{
    let mut rest = text;
    while let Some((c, after)) = rest.split_first() {
        if ends_run(*c, rest) {
            return text.len() - rest.len();
        }
        rest = after;
    }
    text.len()
}
