//! Contents printed.

ghost use Rattle.std.specs.Prelude.{◌≡◌, ◌++◌, ◌∷◌, [], map, OnOk, IfOk, codes};
ghost use Rattle.content_models.specs.Grammar.{mark};
ghost use Rattle.content_models.specs.Proper.{IsProper};
ghost use Rattle.content_models.specs.Spelling as spec;

use crate::{Content, Occurs, Particle};
use jats_chars::{Name, NoMemory, Text};
use std::alloc::Global;

fn print_sign(occurs: Occurs, out: &mut Text) -> Result<(), NoMemory>
    ensures { OnOk result (out.new ≡ out.old ++ mark occurs) }
{
    match occurs {
        Occurs::Once => Ok(()),
        Occurs::Opt => out.push('?'),
        Occurs::Star => out.push('*'),
        Occurs::Plus => out.push('+'),
    }
}

fn print_one(name: &Name, occurs: Occurs, out: &mut Text) -> Result<(), NoMemory>
    ensures { OnOk result (out.new ≡ out.old ++ (name.now ++ mark occurs)) }
{
    out.push_slice(name.text().as_slice())?;
    print_sign(occurs, out)
}

/// Appends the spelling of a part.
#[cycle(print)]
#[tactic(auto, using(crate::proofs::Spelled::spellings, crate::specs::declared::content::Particle::the_lemmas))]
fn print_part(part: &Particle, out: &mut Text) -> Result<(), NoMemory>
    ensures { OnOk result (out.new ≡ out.old ++ spec.spelled part.now) }
{
    match part {
        Particle::One(name, occurs) => print_one(name, *occurs, out),
        Particle::Seq(parts, occurs) => print_group(parts.as_slice(), ',', *occurs, out),
        Particle::Choice(parts, occurs) => print_group(parts.as_slice(), '|', *occurs, out),
    }
}

#[cycle(print)]
#[tactic(auto, using(crate::proofs::Spelled::spellings, crate::specs::declared::content::Particle::the_lemmas))]
fn print_group(
    parts: &[Particle],
    separator: char,
    occurs: Occurs,
    out: &mut Text,
) -> Result<(), NoMemory>
    ensures { OnOk result (out.new ≡ out.old ++ spec.group separator (map spec.spelled parts.now) occurs) }
{
    out.push('(')?;
    print_parts(parts, separator, out)?;
    out.push(')')?;
    print_sign(occurs, out)
}

#[cycle(print)]
#[tactic(auto, using(crate::proofs::Spelled::spellings, crate::specs::declared::content::Particle::the_lemmas))]
fn print_parts(parts: &[Particle], separator: char, out: &mut Text) -> Result<(), NoMemory>
    ensures { OnOk result (out.new ≡ out.old ++ spec.joined separator (map spec.spelled parts.now)) }
{
    for (at, part) in parts.iter().enumerate() {
        if at > 0 {
            out.push(separator)?;
        }
        print_part(part, out)?;
    }
    Ok(())
}

fn print_names(names: &[Name], out: &mut Text) -> Result<(), NoMemory>
    ensures { OnOk result (out.new ≡ out.old ++ spec.behind 124 names.now) }
{
    for name in names {
        out.push('|')?;
        out.push_slice(name.text().as_slice())?;
    }
    Ok(())
}

fn print_mixed(alloc: Global, names: &[Name]) -> Result<Text, NoMemory>
    ensures { IfOk result (λ t. t ≡ codes "(#PCDATA" ++ (spec.behind 124 names.now ++ spec.mixed_close names.now)) }
{
    let mut out = Text::from_slice(alloc, &['(', '#', 'P', 'C', 'D', 'A', 'T', 'A'])?;
    print_names(names, &mut out)?;
    if names.is_empty() {
        out.push(')')?;
    } else {
        out.push_slice(&[')', '*'])?;
    }
    Ok(out)
}

fn print_model(alloc: Global, part: &Particle) -> Result<Text, NoMemory>
    ensures { IfOk result (λ t. t ≡ spec.spelled part.now) }
{
    let mut out = Text::new(alloc);
    print_part(part, &mut out)?;
    Ok(out)
}

/// The flat spelling of a proper content, without white space: `EMPTY`, `ANY`, `(#PCDATA)`, `(#PCDATA|a|b)*`, or the
/// model. It parses back as the same content.
#[tactic(auto, unfolding(crate::specs::Spelling::flat))]
pub fn print_content(alloc: Global, content: &Content) -> Result<Text, NoMemory>
    requires { IsProper content.now }
    ensures { IfOk result (λ t. t ≡ spec.flat content.now) }
{
    match content {
        Content::Empty => Text::from_slice(alloc, &['E', 'M', 'P', 'T', 'Y']),
        Content::Any => Text::from_slice(alloc, &['A', 'N', 'Y']),
        Content::Mixed(names) => print_mixed(alloc, names.as_slice()),
        Content::Children(part) => print_model(alloc, part),
    }
}
