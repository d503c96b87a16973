//! Catalogs, and the files that external identifiers name.
//!
//! A declaration names a text outside of its module by a system identifier, and perhaps by a public one (XML 1.0,
//! 4.2.2). What goes in are these identifiers, the name of the file in which they stand, and the text of a catalog with
//! its own name; what comes out is the name of a file, or that the path leaves the folder.
//!
//! `Lines.line_of` is what a line of a catalog says, from the parts between its quotes; `Spelling.IsEntry` is the same as a
//! grammar, and `lines_are_spelled` states that they agree. `Catalogs.catalog_of` is what a text names: each identifier
//! with the file of its first line (`first_lines_count`), or the fault of the first line that has one. `Join.join` goes
//! over the parts of a path, and `joined_names_stay_inside` states what it is for. `Resolution.resolve` is the order in
//! which a file is looked for.
//!
//! Contracts see a catalog as two lists of identifiers with their files. The code keeps them as maps in that order, so a
//! look-up goes by hash.
#![tactic(auto)]

mod catalog;
mod faults;
mod ids;
mod laws;
mod lines;
mod parts;
mod paths;
mod public_ids;
mod resolution;

pub use catalog::{Catalog, read_catalog};
pub use faults::{CatalogFault, ResolveFault};
pub use ids::Ids;
pub use laws::{first_lines_count, joined_names_stay_inside, lines_are_spelled};
pub use paths::join;
pub use public_ids::collapse_public;
pub use resolution::resolve;
