//! Copies of what is listed of an element that breaks.

ghost use Rattle.std.specs.Prelude.{◌≡◌, IfOk};

use decl_set::{BrokenDecl, Cause};
use jats_chars::NoMemory;
use std::alloc::Global;

fn copy_cause(alloc: Global, cause: &Cause) -> Result<Cause, NoMemory>
    ensures { IfOk result (λ it. it ≡ cause.now) }
{
    match cause {
        Cause::Undeclared => Ok(Cause::Undeclared),
        Cause::Content => Ok(Cause::Content),
        Cause::Text => Ok(Cause::Text),
        Cause::Attribute(name) => Ok(Cause::Attribute(name.copy(alloc)?)),
    }
}

/// The same element with the same cause.
pub(crate) fn copy_broken(alloc: Global, broken: &BrokenDecl) -> Result<BrokenDecl, NoMemory>
    ensures { IfOk result (λ it. it ≡ broken.now) }
{
    Ok(BrokenDecl {
        element: broken.element.copy(alloc)?,
        cause: copy_cause(alloc, &broken.cause)?,
    })
}
