//! Whether every document of one set is one of another.
//!
//! `compare` answers for two sets of declarations and a root, up to a cap on the number of elements. Where every document of
//! the first from the root is one of the second it says so; else it shows a separating article, valid in the first and not
//! in the second, with as few elements as can be; and where each of those has more elements than the cap, it names the first
//! useful element that breaks. With each answer go the exact tables that certify it (`bound_checker` checks them anew).
//! `specs/Compared.antt` says what each answer is by these tables, and `specs/Verdicts.antt` what it says of all documents:
//! that it is true (`verdict_law`), and that for two sets, a root, a cap and a limit there is one (`one_law`).
//!
//! The parts are made in the crates below: the tables in `comparison_tables`, the article in `separating_article`, the first
//! node of it that the second does not allow in `article_validator`, the elements that break in `tagset_report`. Here the
//! bound of the root chooses among them.
#![tactic(auto)]

mod bounds;
mod comparing;
mod copies;
mod fault;
mod laws;
mod outcome;

pub use bounds::bound_of;
pub use comparing::compare;
pub use fault::CompareFault;
pub use laws::{one_law, verdict_law};
pub use outcome::Verdict;
pub use tagset_report::{Report, ReportFault, report};
