//! The command line: the words, the files below the current folder, standard output, and the exit status of `run`.
#![tactic(auto)]

use jats_chars::Text;
use jats_io::{FolderStore, StdSink};
use std::env;
use std::process::ExitCode;

enum Words {
    Given(Vec<Text>),
    NotText,
    NoMemory,
}

fn given_words(rt: &HostRuntime) -> Words {
    let mut words = Vec::new(rt.alloc());
    match env::args(rt) {
        Err(_) => Words::NotText,
        Ok(args) => {
            for arg in args.skip(1) {
                match Text::from_str(rt.alloc(), arg.as_str()) {
                    Err(_) => return Words::NoMemory,
                    Ok(word) => {
                        if words.push(word).is_err() {
                            return Words::NoMemory;
                        }
                    }
                }
            }
            Words::Given(words)
        }
    }
}

fn run(rt: &HostRuntime, words: &[Text]) -> u8 {
    match Text::from_str(rt.alloc(), ".") {
        Err(_) => 6,
        Ok(folder) => {
            let mut store = FolderStore::new(rt, folder);
            let mut sink = StdSink::new(rt);
            tagset_tool::run(rt.alloc(), words, &mut store, &mut sink)
        }
    }
}

fn main(rt: HostRuntime) -> ExitCode {
    match given_words(&rt) {
        Words::Given(words) => ExitCode::from(run(&rt, words.as_slice())),
        Words::NotText => ExitCode::from(run(&rt, &[])),
        Words::NoMemory => ExitCode::from(6),
    }
}
