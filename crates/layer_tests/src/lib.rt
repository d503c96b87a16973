//! The public calls of each layer, each once by an example.
//!
//! They stand in a crate of their own, so that a layer is proved once and not once more with its tests.
#![tactic(auto)]

#[cfg(test)]
mod article_tree_tests;
#[cfg(test)]
mod article_validator_tests;
#[cfg(test)]
mod attlist_merge_tests;
#[cfg(test)]
mod attribute_types_tests;
#[cfg(test)]
mod content_models_tests;
#[cfg(test)]
mod document_trees_tests;
#[cfg(test)]
mod dtd_scanner_tests;
#[cfg(test)]
mod entity_catalog_tests;
#[cfg(test)]
mod folder_tests;
#[cfg(test)]
mod jats_chars_tests;
#[cfg(test)]
mod jats_fault_tests;
#[cfg(test)]
mod jats_io_tests;
#[cfg(test)]
mod least_trees_tests;
#[cfg(test)]
mod model_inclusion_tests;
#[cfg(test)]
mod module_reader_tests;
#[cfg(test)]
mod pe_expansion_tests;
#[cfg(test)]
mod position_automata_tests;
#[cfg(test)]
mod separating_article_tests;
#[cfg(test)]
mod tagset_tool_tests;
#[cfg(test)]
mod tree_costs_tests;
