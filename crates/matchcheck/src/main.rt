//! The program: `matchcheck check FILE` judges the matches of a Rust source and writes the report as JSON, `matchcheck trees
//! FILE` with decision trees; `matchcheck arms FILE` writes the arms to add to each match; `matchcheck eval FILE FN VALUE`
//! tells what a match does with a value. Behind them may stand a width of `usize` and `isize`, and an edition.
//!
//! It hands the words of the command line, the files and the standard output to `match_top::run`, and ends with the
//! number of the status that comes back. It writes nothing else.
#![tactic(auto)]

use match_io::{RealFiles, RealOut};
use match_top::{Status, run};
use std::alloc::Global;
use std::io::ErrorKind;
use std::process::ExitCode;
use std::rt::Env;
use std::{env, io};

// The words behind the program's name. `OutOfMemory` is want of memory, any other error a word that is no text.
fn words<R: Env + AllocGlobal>(rt: &R) -> io::Result<Vec<String>> {
    let mut words = Vec::new(rt.alloc());
    for (i, word) in env::args(rt)?.enumerate() {
        if i > 0 {
            words.push(word)?;
        }
    }
    Ok(words)
}

fn main(rt: HostRuntime) -> ExitCode {
    let status = match words(&rt) {
        Ok(words) => {
            let mut files = RealFiles::new(&rt);
            let mut out = RealOut::new(&rt);
            run(rt.alloc(), &words, &mut files, &mut out)
        }
        Err(error) if error.kind() == ErrorKind::OutOfMemory => Status::NoMemory,
        Err(_) => Status::Words,
    };
    ExitCode::from(status.number())
}
