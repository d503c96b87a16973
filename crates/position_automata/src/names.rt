//! The names of a model, in order and numbered.

ghost use Rattle.std.specs.Prelude.{◌≡◌, ◌++◌, OnOk, IfOk, bytes_eq};
ghost use Rattle.std.specs.List.{list_any, position_or_len};
ghost use Rattle.content_models.specs.Model.{Chars, model};
ghost use Rattle.position_automata.specs.Places.{letters, models, all_letters};
ghost use Rattle.position_automata.specs.Rows.{numbers_of};
ghost use Rattle.indexmap.specs.IndexSet.{contains};

use content_models::Particle;
use indexmap::IndexSet;
use jats_chars::{Name, NameList, NoMemory};
use std::alloc::Global;

/// Appends the names of a particle, in order.
#[cycle(spell)]
#[tactic(auto, using(crate::proofs::Spelling::spellings, content_models::specs::declared::content::Particle::the_lemmas))]
pub fn spell(alloc: Global, particle: &Particle, out: &mut NameList) -> Result<(), NoMemory>
    ensures { OnOk result (out.new ≡ out.old ++ letters (model particle.now)) }
{
    match particle {
        Particle::One(name, _) => out.push(name.copy(alloc)?),
        Particle::Seq(parts, _) => spell_parts(alloc, parts.as_slice(), out),
        Particle::Choice(parts, _) => spell_parts(alloc, parts.as_slice(), out),
    }
}

#[cycle(spell)]
#[tactic(auto, using(crate::proofs::Spelling::spellings, content_models::specs::declared::content::Particle::the_lemmas))]
fn spell_parts(alloc: Global, parts: &[Particle], out: &mut NameList) -> Result<(), NoMemory>
    ensures { OnOk result (out.new ≡ out.old ++ all_letters (models parts.now)) }
{
    for part in parts {
        spell(alloc, part, out)?;
    }
    Ok(())
}

/// These names, each once.
pub fn distinct(alloc: Global, names: &[Name]) -> Result<IndexSet<Name>, NoMemory>
    ensures { IfOk result (λ s. (name : Chars) → contains bytes_eq s name ≡ list_any (bytes_eq name) names.now) }
{
    let mut found = IndexSet::new(alloc);
    for name in names {
        found.insert(name.copy(alloc)?)?;
    }
    Ok(found)
}

/// The same names, in their order.
pub fn copy_distinct(alloc: Global, names: &IndexSet<Name>) -> Result<IndexSet<Name>, NoMemory>
    ensures { IfOk result (λ s. s.keys ≡ names.now.keys) }
{
    let mut copied = IndexSet::new(alloc);
    for name in names.as_slice() {
        copied.insert(name.copy(alloc)?)?;
    }
    Ok(copied)
}

/// The number of a name: its place among the distinct ones, or how many there are where it is none of them.
pub fn number_of(found: &IndexSet<Name>, name: &Name) -> usize
    ensures { result ≡ position_or_len (bytes_eq name.now) found.now.keys }
{
    match found.get_index_of(name) {
        Some(number) => number,
        None => found.len(),
    }
}

/// The number of each of these names. Where numbers do not fit, memory is said to run out: no machine holds so many names.
pub fn numbers(alloc: Global, found: &IndexSet<Name>, names: &[Name]) -> Result<Vec<u32>, NoMemory>
    ensures { IfOk result (λ v. v.items ≡ numbers_of found.now.keys names.now) }
{
    let mut numbers = Vec::with_capacity(alloc, names.len())?;
    for name in names {
        match u32::try_from(number_of(found, name)) {
            Ok(number) => numbers.push(number)?,
            Err(_) => return Err(NoMemory),
        }
    }
    Ok(numbers)
}

/// Whether the name is one of these.
pub fn has_name(found: &IndexSet<Name>, name: &Name) -> bool
    ensures { result ≡ list_any (bytes_eq name.now) found.now.keys }
{
    found.contains(name)
}
