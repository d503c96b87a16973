//! What exact tables say of two sets of declarations.
//!
//! The exact tables of two sets have the least sizes of documents and of those that separate, and the least sums along
//! names (`specs/Families.antt`); there is one for each cap. They are feasible, and tables that are feasible and reached by
//! documents are exact. `specs/Verdicts.antt` reads the answer of a comparison off them. `specs/LeastTrees.antt` says
//! which one of the least documents of a set is chosen, by the exact costs of that set alone, and `specs/Chosen.antt` which
//! one of the least separating ones.
//!
//! A solver has two ways: `specs/Lowering.antt` for one that lowers costs until none falls, with each cost one of documents
//! (`specs/Forests.antt`), and `specs/Comparing.antt` for one that solves a graph of steps, in numbers by
//! `specs/Numbered.antt`. The crate has definitions and their laws alone.
#![tactic(auto)]

mod laws;

pub use laws::{
    chosen_law, comparing_law, exact_law, least_law, lowering_law, separating_law, tree_law,
    verdict_law,
};
