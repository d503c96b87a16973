//! The file that an external identifier names.

ghost use Rattle.std.specs.Prelude.{◌≡◌};
ghost use Rattle.std.specs.Option.{option_copied, option_or};
ghost use Rattle.entity_catalog.specs.Identifiers.{HasSystem};
ghost use Rattle.entity_catalog.specs.Join.{join as spec_join};
ghost use Rattle.entity_catalog.specs.Outcomes.{Resolves};
ghost use Rattle.entity_catalog.specs.Resolution as spec;

use crate::paths::join;
use crate::public_ids::collapse_public;
use crate::{Catalog, Ids, ResolveFault};
use jats_chars::Text;
use std::alloc::Global;

/// The file that the catalog names, or the join of the base and the system identifier.
fn file_or_join(
    alloc: Global,
    named: Option<&Text>,
    base: &Text,
    system: &Text,
) -> Result<Text, ResolveFault>
    ensures { Resolves (option_or (option_copied named.entry) (spec_join base.now system.now)) result }
{
    match named {
        None => join(alloc, base, system),
        Some(file) => Ok(file.copy(alloc)?),
    }
}

/// The file that an external identifier names, where base is the name of the file in which it stands (XML 1.0, 4.2.2).
/// It is the file of the first SYSTEM line with the same system identifier; else the file of the first PUBLIC line with
/// the same public identifier, both collapsed; else the join of the base and the system identifier, as `join` says.
/// `PathEscapes` comes exactly where no line names it and that join leaves the folder.
#[tactic(auto, unfolding(crate::specs::Resolution::resolve))]
pub fn resolve(
    alloc: Global,
    catalog: &Catalog,
    base: &Text,
    ids: &Ids,
) -> Result<Text, ResolveFault>
    requires { HasSystem ids.now }
    ensures { Resolves (spec.resolve catalog.now base.now ids.now) result }
{
    match ids {
        Ids::System(system) => file_or_join(alloc, catalog.system_file(system), base, system),
        Ids::Public(public, system) => {
            let collapsed = collapse_public(alloc, public)?;
            let by_system = catalog.system_file(system);
            let named = by_system.or_else(|| catalog.public_file(&collapsed));
            file_or_join(alloc, named, base, system)
        }
        Ids::PublicOnly(_) => unreachable!(),
    }
}
