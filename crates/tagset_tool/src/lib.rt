//! The program over any store and sink.
//!
//! `run` takes the words of the command line, a store of files and a sink for the output. It reads the words, reads the
//! sets that they name, answers, and writes the whole answer once. `specs/Output.antt` says which status and which bytes
//! the answer to words over files has, command by command: what `src/commands/NAME.rt` answers is said by
//! `specs/commands/NAME.antt`, by the outcomes of `specs/Outcomes.antt`. What a comparison of two sets comes to, over all
//! documents, is said by `tagset_compare`; `specs/Law.antt` says it of what is written. Which set the files stand for is
//! said by `module_reader`, and what its flat text is by `dtd_flattener`.
#![tactic(auto)]

mod answer;
mod commands;
mod counts;
mod laws;
mod refusals;
mod reports;
mod shown;
mod sound;
mod top;
mod words;

pub use laws::{headline_law, output_law, subset_law, written_law};
pub use sound::run_sound;
pub use top::run;
