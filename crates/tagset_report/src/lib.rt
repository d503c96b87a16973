//! Two sets of declarations against each other.
//!
//! Every document of the first set from a root is one of the second exactly where no useful element breaks there
//! (`subset_law`); which elements are useful is told by chains of live children. `report` lists the useful elements that
//! break, each with its first cause; what it is stands in `specs/Reported.antt`, and `report_law` says that it lists nothing
//! exactly where every document of the first is one of the second, and that there is one report.
//!
//! Least sizes of the first set tell which names have documents, and from which states they lead to acceptance
//! (`live_law`). With them `useful_flags` goes once along each step of the first set, and `judge` compares one element's
//! contents on the names that have documents; `report` puts these together element by element.
#![tactic(auto)]

mod causes;
mod fault;
mod laws;
mod live;
mod outcome;
mod reporting;
mod useful;

pub use bound_checker::odd_law;
pub use causes::{Judged, judge};
pub use fault::ReportFault;
pub use laws::{live_law, report_law, subset_law};
pub use live::{finite_flags, live_names};
pub use outcome::{BrokenList, Report};
pub use reporting::report;
pub use useful::useful_flags;
