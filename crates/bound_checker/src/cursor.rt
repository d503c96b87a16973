//! Lines of a text in place.

ghost use Rattle.std.specs.Prelude.{◌≡◌, ◌+◌, ◌<◌, ◌^◌, ◌∷◌, [], MatchOption, IfSome, length, position, ◌==◌};
ghost use Rattle.bound_checker.specs.Lines.{lines_of};

/// The characters that are left of a text, with the number of the line that they begin, counted from 1.
#[derive(Clone, Copy)]
pub struct Cursor<'a> {
    pub rest: &'a [char],
    pub line: u64,
    ghost few: { line + length rest.now < 2 ^ 63 },
}

/// The place of the first LF.
fn feed_in(text: &[char]) -> Option<usize>
    ensures value { result ≡ position (λ c. c == 0xA) text.now }
    ensures within { IfSome result (λ at. at < length text.now) }
{
    text.iter().position(|c| *c == '\n')
}

/// The first line of a text that is not empty, and what stands behind it.
fn first_line(text: &[char]) -> (&[char], &[char])
    requires { 0 < length text.now }
    ensures line { lines_of text.now ≡ result.0.now ∷ lines_of result.1.now }
    ensures less { length result.1.now < length text.now }
{
    match feed_in(text) {
        Some(at) => (&text[..at], &text[at + 1..]),
        None => (text, &[]),
    }
}

impl<'a> Cursor<'a> {
    /// At the first line of a text.
    pub fn new(text: &'a [char]) -> Cursor<'a>
        ensures rest { result.rest.now ≡ text.now }
        ensures line { result.line ≡ 1 }
    {
        let _ = text.len();
        Cursor {
            rest: text,
            line: 1,
        }
    }

    /// The next line, or None where there are no more.
    pub fn next(&mut self) -> Option<&'a [char]>
        ensures line { MatchOption result (lines_of self.old.rest.now ≡ []) (λ x. (lines_of self.old.rest.now ≡ x.now ∷ lines_of self.new.rest.now) × (self.new.line ≡ self.old.line + 1)) }
        ensures less { IfSome result (λ x. length self.new.rest.now < length self.old.rest.now) }
    {
        if self.rest.is_empty() {
            return None;
        }
        let (line, rest) = first_line(self.rest);
        self.rest = rest;
        self.line += 1;
        Some(line)
    }
}
