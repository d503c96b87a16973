//! The lines of a catalog.

ghost use Rattle.std.specs.Prelude.{◌≡◌, ◌<◌, ◌∷◌, [], IfSome, MatchOption, not, length, position, unwrap_or};
ghost use Rattle.std.specs.List.{slice_split};
ghost use Rattle.std.specs.Option.{option_map};
ghost use Rattle.entity_catalog.specs.Lines as spec;
ghost use Rattle.entity_catalog.specs.Said.{said};

/// What a line says: nothing, which name stands for an identifier, or that it has no form.
#[derive(Clone, Copy)]
pub enum Line<'t> {
    Nothing,
    System(&'t [char], &'t [char]),
    Public(&'t [char], &'t [char]),
    Malformed,
}

fn is_blank(c: char) -> bool
    ensures { result ≡ spec.is_blank c }
{
    c == ' ' || c == '\t'
}

fn are_blanks(text: &[char]) -> bool
    ensures { result ≡ spec.are_blanks text.now }
{
    text.iter().all(|c| is_blank(*c))
}

fn is_gap(text: &[char]) -> bool
    ensures { result ≡ spec.is_gap text.now }
{
    !text.is_empty() && are_blanks(text)
}

fn first_other(text: &[char]) -> Option<usize>
    ensures value { result ≡ position (λ c. not (spec.is_blank c)) text.now }
    ensures within { IfSome result (λ k. k < length text.now) }
{
    text.iter().position(|c| !is_blank(*c))
}

/// The text without the blanks at its beginning.
fn unindented(text: &[char]) -> &[char]
    ensures { result.now ≡ spec.unindented text.now }
{
    match first_other(text) {
        None => &[],
        Some(k) => &text[k..],
    }
}

fn is_comment(text: &[char]) -> bool
    ensures { result ≡ spec.is_comment text.now }
{
    match text.split_first() {
        None => true,
        Some((first, _)) => *first == '#',
    }
}

fn is_keyword(word: &[char], text: &[char]) -> bool
    ensures { result ≡ spec.is_keyword word.now text.now }
{
    text.starts_with(word) && is_gap(&text[word.len()..])
}

const SYSTEM: [char; 6] = ['S', 'Y', 'S', 'T', 'E', 'M'];

const PUBLIC: [char; 6] = ['P', 'U', 'B', 'L', 'I', 'C'];

fn entry_of<'t>(keyword: &[char], identifier: &'t [char], name: &'t [char]) -> Line<'t>
    ensures { said result ≡ spec.entry_of keyword.now identifier.now name.now }
{
    if is_keyword(&SYSTEM, keyword) {
        Line::System(identifier, name)
    } else if is_keyword(&PUBLIC, keyword) {
        Line::Public(identifier, name)
    } else {
        Line::Malformed
    }
}

fn first_quote(text: &[char]) -> Option<usize>
    ensures value { result ≡ position spec.is_quote text.now }
    ensures within { IfSome result (λ k. k < length text.now) }
{
    text.iter().position(|c| *c == '"')
}

/// What stands before and after the first quote.
fn cut(text: &[char]) -> Option<(&[char], &[char])>
    ensures { MatchOption result (slice_split spec.is_quote text.now ≡ text.now ∷ []) (λ cut. slice_split spec.is_quote text.now ≡ cut.0.now ∷ slice_split spec.is_quote cut.1.now) }
{
    match first_quote(text) {
        None => None,
        Some(k) => Some((&text[..k], &text[k + 1..])),
    }
}

fn entry_in(line: &[char]) -> Option<Line<'_>>
    ensures { unwrap_or (option_map said result) spec.malformed ≡ spec.line_of_parts (slice_split spec.is_quote line.now) }
{
    let (keyword, rest) = cut(line)?;
    let (identifier, rest) = cut(rest)?;
    let (between, rest) = cut(rest)?;
    let (name, end) = cut(rest)?;
    if is_gap(between) && are_blanks(end) {
        Some(entry_of(unindented(keyword), identifier, name))
    } else {
        None
    }
}

/// What the line says.
#[tactic(auto, unfolding(crate::specs::Lines::line_of))]
pub fn line_of(line: &[char]) -> Line<'_>
    ensures { said result ≡ spec.line_of line.now }
{
    if is_comment(unindented(line)) {
        return Line::Nothing;
    }
    match entry_in(line) {
        None => Line::Malformed,
        Some(entry) => entry,
    }
}
