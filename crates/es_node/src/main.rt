//! `es_node`: the program of the search service. `es_node replay` reads HTTP requests from standard input and
//! writes their responses to standard output.
#![tactic(auto)]

ghost use Rattle.std.specs.Prelude.{◌≡◌, ◌↔◌, false};
ghost use Rattle.es_node.specs.Running.{is_replay};

mod adapter;
mod laws;
mod run;
mod search_exec;
mod solo;
#[cfg(test)]
mod tests;

use crate::adapter::{Input, Output};
use crate::run::{Status, run};
use es_types::Text;
use std::alloc::Global;
use std::env;
use std::io::{self, ErrorKind};
use std::process::ExitCode;

/// The words of the command, without the program's name.
fn words(rt: &HostRuntime, alloc: Global) -> io::Result<Vec<Text>> {
    let mut words = Vec::new(alloc);
    for word in env::args(rt)?.skip(1) {
        words.push(Text::of(word))?;
    }
    Ok(words)
}

// Runs the command over standard input and output.
fn run_words(rt: &HostRuntime, alloc: Global, words: &[Text]) -> Status
    ensures { (result ≡ Status.Usage) ↔ (is_replay words.now ≡ false) }
{
    let mut input = Input {
        reader: rt.stdin(),
        faults: 0,
    };
    let mut output = Output {
        writer: io::writer(rt),
        faults: 0,
    };
    run(alloc, words, &mut input, &mut output)
}

fn main(rt: HostRuntime) -> io::Result<ExitCode> {
    let alloc = rt.alloc();
    let status = match words(&rt, alloc) {
        Ok(words) => run_words(&rt, alloc, &words),
        Err(error) if error.kind() == ErrorKind::OutOfMemory => Status::NoMemory,
        // A word that is no UTF-8 is none of a command.
        Err(_) => Status::Usage,
    };
    if status == Status::Usage {
        let _ = eprintln!(rt; "usage: es_node replay|serve|generate");
    }
    Ok(ExitCode::from(status.code()))
}
