//! Copies of contents.

ghost use Rattle.std.specs.Prelude.{◌≡◌, IfOk};

use crate::{Content, Particle, ParticleList};
use jats_chars::NoMemory;
use std::alloc::Global;

#[cycle(copy)]
fn copy_parts(alloc: Global, parts: &[Particle]) -> Result<ParticleList, NoMemory>
    ensures { IfOk result (λ copied. copied ≡ parts.now) }
{
    let mut copied = ParticleList::new(alloc);
    for part in parts {
        copied.push(part.copy(alloc)?)?;
    }
    Ok(copied)
}

impl Particle {
    /// The same part.
    #[cycle(copy)]
    pub fn copy(&self, alloc: Global) -> Result<Particle, NoMemory>
        ensures { IfOk result (λ copied. copied ≡ self.now) }
    {
        match self {
            Particle::One(name, occurs) => Ok(Particle::One(name.copy(alloc)?, *occurs)),
            Particle::Seq(parts, occurs) => {
                let parts = copy_parts(alloc, parts.as_slice())?;
                Ok(Particle::Seq(parts, *occurs))
            }
            Particle::Choice(parts, occurs) => {
                let parts = copy_parts(alloc, parts.as_slice())?;
                Ok(Particle::Choice(parts, *occurs))
            }
        }
    }
}

impl Content {
    /// The same content.
    pub fn copy(&self, alloc: Global) -> Result<Content, NoMemory>
        ensures { IfOk result (λ copied. copied ≡ self.now) }
    {
        match self {
            Content::Empty => Ok(Content::Empty),
            Content::Any => Ok(Content::Any),
            Content::Mixed(names) => {
                let names = names.copy(alloc)?;
                Ok(Content::Mixed(names))
            }
            Content::Children(particle) => {
                let particle = particle.copy(alloc)?;
                Ok(Content::Children(particle))
            }
        }
    }
}
