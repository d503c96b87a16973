//! The refusals that the commands make themselves.

ghost use Rattle.std.specs.Prelude.{◌≡◌, [], IfOk, codes};
ghost use Rattle.module_reader.specs.Stops.{refusal};
ghost use Rattle.tagset_tool.specs.Refusals as spec;

use jats_chars::{Name, NoMemory, Text};
use jats_fault::{Details, Fault, Place, numbers};
use std::alloc::Global;

/// The place of what is refused in no module.
fn nowhere(alloc: Global) -> Result<Place, NoMemory>
    ensures { IfOk result (λ p. (p.module ≡ codes "-") × (p.offset ≡ 0)) }
{
    let module = Text::from_slice(alloc, &['-'])?;
    Ok(Place { module, offset: 0 })
}

/// The refusal of this number, in no module and without details.
fn bare(alloc: Global, number: u16) -> Result<Fault, NoMemory>
    ensures { IfOk result (λ f. f ≡ refusal number (codes "-") 0 []) }
{
    let place = nowhere(alloc)?;
    Ok(Fault {
        number,
        place,
        details: Details::new(alloc),
    })
}

/// A root that the first set does not declare.
pub fn root_undeclared(alloc: Global, root: &Text) -> Result<Fault, NoMemory>
    ensures { IfOk result (λ f. f ≡ spec.root_undeclared root.now) }
{
    let place = nowhere(alloc)?;
    let root = root.copy(alloc)?;
    let mut details = Details::new(alloc);
    details.add(root);
    Ok(Fault {
        number: numbers::ROOT_UNDECLARED,
        place,
        details,
    })
}

/// An element at which the listed pairs of two sets are too many.
pub fn pairs_over(alloc: Global, name: &Name) -> Result<Fault, NoMemory>
    ensures { IfOk result (λ f. f ≡ spec.pairs_over name.now) }
{
    let place = nowhere(alloc)?;
    let name = name.text().copy(alloc)?;
    let mut details = Details::new(alloc);
    details.add(name);
    Ok(Fault {
        number: numbers::PAIRS_OVER,
        place,
        details,
    })
}

/// A line of a certificate that is not as needed.
pub fn cert_malformed(alloc: Global, name: &Text, line: u64) -> Result<Fault, NoMemory>
    ensures { IfOk result (λ f. f ≡ spec.cert_malformed name.now line) }
{
    let module = name.copy(alloc)?;
    Ok(Fault {
        number: numbers::CERT_MALFORMED,
        place: Place {
            module,
            offset: line,
        },
        details: Details::new(alloc),
    })
}

/// An output that is longer than an output may be.
pub fn output_over(alloc: Global) -> Result<Fault, NoMemory>
    ensures { IfOk result (λ f. f ≡ spec.output_over) }
{
    bare(alloc, numbers::OUTPUT_OVER)
}
