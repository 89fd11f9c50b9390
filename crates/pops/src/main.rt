//! The program `pops`: reads chess problems in a part of Popeye's input language and reports their solutions.
//!
//! ```sh
//! printf 'BeginProblem Pieces White Kg6 Ra1 Black Kg8 Stipulation #1 EndProblem\n' | pops --no-board
//! ```
//!
//! `main` passes the words of the command line and the standard streams to `program`, which does all the rest.
#![tactic(auto)]

pub mod program;
#[cfg(test)]
mod tests;

use pop_program::on_words;
use pop_run::EXIT_OUT_OF_MEMORY;
use program::program as run_program;
use std::io;
use std::process::ExitCode;

fn main(rt: HostRuntime) -> ExitCode {
    match run_words(&rt) {
        Ok(status) => ExitCode::from(status),
        Err(_) => {
            let _reported = rt.stderr().write_all(b"pops: out of memory\n");
            ExitCode::from(EXIT_OUT_OF_MEMORY)
        }
    }
}

// Runs the program on the words of the command line and the standard streams. Fails if a word isn't UTF-8 or there is
// too little memory for the words.
fn run_words(rt: &HostRuntime) -> io::Result<u8> {
    on_words!(rt, run_program)
}
