//! Parts of the text of a node.

ghost use Rattle.std.specs.Prelude.{◌≡◌, ◌++◌, [], OnOk, codes, map, true};
ghost use Rattle.std.specs.List.{flat_map};
ghost use Rattle.decl_set.specs.ValueEscaped.{decimal_reference};
ghost use Rattle.document_trees.specs.Trees.{is_white as white};
ghost use Rattle.jats_chars.specs.Classes.{is_space as space};
ghost use Rattle.article_tree.specs.Writing as spec;

use jats_chars::{Name, NoMemory, Text, is_space};

/// Appends a character of a value.
fn put_value_char(out: &mut Text, c: char) -> Result<(), NoMemory>
    ensures { OnOk result (out.new ≡ out.old ++ spec.value_char c) }
{
    match c {
        '&' => out.push_slice(&['&', 'a', 'm', 'p', ';']),
        '<' => out.push_slice(&['&', 'l', 't', ';']),
        '"' => out.push_slice(&['&', 'q', 'u', 'o', 't', ';']),
        '\t' => out.push_slice(&['&', '#', '9', ';']),
        '\n' => out.push_slice(&['&', '#', '1', '0', ';']),
        '\r' => out.push_slice(&['&', '#', '1', '3', ';']),
        _ => out.push(c),
    }
}

fn put_value(out: &mut Text, text: &[char]) -> Result<(), NoMemory>
    ensures { OnOk result (out.new ≡ out.old ++ flat_map spec.value_char text.now) }
{
    for c in text {
        put_value_char(out, *c)?;
    }
    Ok(())
}

fn put_attribute(out: &mut Text, name: &Name, value: &Text) -> Result<(), NoMemory>
    ensures { OnOk result (out.new ≡ out.old ++ spec.written_attribute (name.now, value.now)) }
{
    out.push(' ')?;
    out.push_slice(name.text().as_slice())?;
    out.push_slice(&['=', '"'])?;
    put_value(out, value.as_slice())?;
    out.push('"')
}

/// Appends attributes, each behind a space.
fn put_attributes(out: &mut Text, atts: &[(Name, Text)]) -> Result<(), NoMemory>
    ensures { OnOk result (out.new ≡ out.old ++ flat_map spec.written_attribute atts.now) }
{
    for (name, value) in atts {
        put_attribute(out, name, value)?;
    }
    Ok(())
}

/// Appends the front of a tag: what stands before its end.
pub fn put_tag(out: &mut Text, name: &Name, atts: &[(Name, Text)]) -> Result<(), NoMemory>
    ensures { OnOk result (out.new ≡ out.old ++ spec.tag_front name.now atts.now) }
{
    out.push('<')?;
    out.push_slice(name.text().as_slice())?;
    put_attributes(out, atts)
}

/// Appends an end tag.
pub fn put_end(out: &mut Text, name: &Name) -> Result<(), NoMemory>
    ensures { OnOk result (out.new ≡ out.old ++ spec.end_tag name.now) }
{
    out.push_slice(&['<', '/'])?;
    out.push_slice(name.text().as_slice())?;
    out.push('>')
}

/// Appends a character of a run that is not plain.
fn put_run_char(out: &mut Text, c: char) -> Result<(), NoMemory>
    ensures { OnOk result (out.new ≡ out.old ++ spec.run_char c) }
{
    match c {
        '&' => out.push_slice(&['&', 'a', 'm', 'p', ';']),
        '<' => out.push_slice(&['&', 'l', 't', ';']),
        '>' => out.push_slice(&['&', 'g', 't', ';']),
        '\r' => out.push_slice(&['&', '#', '1', '3', ';']),
        _ => out.push(c),
    }
}

fn put_run_chars(out: &mut Text, text: &[char]) -> Result<(), NoMemory>
    ensures { OnOk result (out.new ≡ out.old ++ flat_map spec.run_char text.now) }
{
    for c in text {
        put_run_char(out, *c)?;
    }
    Ok(())
}

/// Appends a reference to a white space character.
fn put_reference(out: &mut Text, c: char) -> Result<(), NoMemory>
    requires { space c ≡ true }
    ensures { OnOk result (out.new ≡ out.old ++ decimal_reference c) }
{
    if c == '\t' {
        out.push_slice(&['&', '#', '9', ';'])
    } else if c == '\n' {
        out.push_slice(&['&', '#', '1', '0', ';'])
    } else if c == '\r' {
        out.push_slice(&['&', '#', '1', '3', ';'])
    } else {
        out.push_slice(&['&', '#', '3', '2', ';'])
    }
}

/// Whether all characters are white space.
pub fn is_white(text: &[char]) -> bool
    ensures { result ≡ white text.now }
{
    text.iter().all(|c| is_space(*c))
}

/// Appends a run that is not plain.
fn put_marked(out: &mut Text, text: &[char]) -> Result<(), NoMemory>
    ensures { OnOk result (out.new ≡ out.old ++ spec.marked_run text.now) }
{
    match text.split_first() {
        None => out.push_slice(&['<', '!', '[', 'C', 'D', 'A', 'T', 'A', '[', ']', ']', '>']),
        Some((c, rest)) => {
            if is_space(*c) && is_white(rest) {
                put_reference(out, *c)?;
                put_run_chars(out, rest)
            } else {
                put_run_chars(out, text)
            }
        }
    }
}

/// Appends a plain run, with CR as LF.
fn put_plain(out: &mut Text, text: &[char]) -> Result<(), NoMemory>
    ensures { OnOk result (out.new ≡ out.old ++ map spec.line_end text.now) }
{
    for c in text {
        out.push(if *c == '\r' { '\n' } else { *c })?;
    }
    Ok(())
}

/// Appends a run.
pub fn put_run(out: &mut Text, text: &[char], plain: bool) -> Result<(), NoMemory>
    ensures { OnOk result (out.new ≡ out.old ++ spec.written_run text.now plain) }
{
    if plain {
        put_plain(out, text)
    } else {
        put_marked(out, text)
    }
}

/// Appends a comment.
pub fn put_comment(out: &mut Text, text: &[char]) -> Result<(), NoMemory>
    ensures { OnOk result (out.new ≡ out.old ++ spec.written_comment text.now) }
{
    out.push_slice(&['<', '!', '-', '-'])?;
    out.push_slice(text)?;
    out.push_slice(&['-', '-', '>'])
}

fn put_body(out: &mut Text, body: &[char]) -> Result<(), NoMemory>
    ensures { OnOk result (out.new ≡ out.old ++ spec.written_body body.now) }
{
    match body.split_first() {
        None => Ok(()),
        Some(_) => {
            out.push(' ')?;
            out.push_slice(body)
        }
    }
}

/// Appends a processing instruction.
pub fn put_instruction(out: &mut Text, target: &Name, body: &[char]) -> Result<(), NoMemory>
    ensures { OnOk result (out.new ≡ out.old ++ spec.written_pi target.now body.now) }
{
    out.push_slice(&['<', '?'])?;
    out.push_slice(target.text().as_slice())?;
    put_body(out, body)?;
    out.push_slice(&['?', '>'])
}
