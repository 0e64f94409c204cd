//! The program: `matchexplain FILE` reads the report that `matchcheck` writes of a source from standard input, and prints
//! its findings beside the lines of FILE, with `--short` each in one line, or with `--json` as rustc's JSON. A second line of standard input is the
//! report of `arms`, whose arms are then shown. `--color always` adds colours. `matchexplain FILE --dot FUNCTION` reads a
//! report with trees, and prints the decision tree of that function as a graph in Graphviz's language.
//!
//! What is printed is told by `explain_text::explain` or `explain_json::explain`, and so is whether a finding breaks a
//! build, and by `explain_tree::picture`. Where there is nothing to print, the reason goes to standard error, and nothing to standard
//! output.
#![tactic(auto)]

use explain_text::{Explained, Fault, Form, Manner, explain};
use explain_tree::picture;
use std::alloc::Global;
use std::io::{ErrorKind, Read, Write};
use std::process::ExitCode;
use std::rt::{Env, Files};
use std::{env, fs, io};

// How a run ended.
#[derive(Clone, Copy, Debug)]
enum Status {
    // No finding breaks a build.
    Clean,
    // One does.
    Found,
    // The words have none of the forms, or there is no report on the file.
    Words,
    // The file or the standard input could not be read.
    ReadFault,
    // The standard output could not be written.
    WriteFault,
    // Memory was refused.
    NoMemory,
}

impl Status {
    // The number with which the program ends.
    fn number(self) -> u8 {
        match self {
            Status::Clean => 0,
            Status::Found => 1,
            Status::Words => 2,
            Status::ReadFault => 4,
            Status::WriteFault => 5,
            Status::NoMemory => 6,
        }
    }
}

// The status of a call on the outside that failed.
fn fault(error: &io::Error, otherwise: Status) -> Status {
    if error.kind() == ErrorKind::OutOfMemory {
        Status::NoMemory
    } else {
        otherwise
    }
}

// The words behind the program's name.
fn words<R: Env + AllocGlobal>(rt: &R) -> io::Result<Vec<String>> {
    let mut words = Vec::new(rt.alloc());
    for (i, word) in env::args(rt)?.enumerate() {
        if i > 0 {
            words.push(word)?;
        }
    }
    Ok(words)
}

// All bytes of the standard input.
fn read_input<R: Input + AllocGlobal>(rt: &R) -> io::Result<Vec<u8>> {
    let mut bytes = Vec::new(rt.alloc());
    rt.reader().read_to_end(&mut bytes)?;
    Ok(bytes)
}

// Writes the whole text.
fn write_out<R: Print>(rt: &R, text: &[u8]) -> io::Result<()> {
    let mut out = io::writer(rt);
    out.write_all(text)?;
    out.flush()
}

// How findings are printed.
#[derive(Clone, Copy, Debug)]
enum Wanted {
    // As text.
    Text(Manner),
    // As JSON.
    Json,
}

// The report in its first line, and the report of `arms` in what follows.
fn both_reports(json: &str) -> (&str, &str) {
    match json.split_once('\n') {
        Some((report, arms)) => (report, arms),
        None => (json, ""),
    }
}

// The text of a report beside its file.
fn explained(
    alloc: Global,
    wanted: Wanted,
    name: &str,
    file: &[u8],
    input: Vec<u8>,
) -> Result<Explained, Fault> {
    match String::from_utf8(input) {
        Ok(json) => {
            let (report, arms) = both_reports(json.as_str());
            match wanted {
                Wanted::Text(manner) => explain(alloc, manner, name, file, report, arms),
                Wanted::Json => explain_json::explain(alloc, name, file, report, arms),
            }
        }
        Err(_) => Err(Fault::NoReport),
    }
}

// Says why there is no text.
fn tell_fault<R: Eprint>(rt: &R, name: &str, fault: Fault) -> Status {
    let (reason, status) = match fault {
        Fault::NoReport => ("the standard input is no report in JSON", Status::Words),
        Fault::NoPlace => ("a place of the report is not in this file", Status::Words),
        Fault::NoMemory => ("memory is refused", Status::NoMemory),
    };
    let _ = eprintln!(rt; "matchexplain: {name}: {reason}");
    status
}

// The bytes of the file and of the standard input.
fn read_both<R: Files + Input + Eprint + AllocGlobal>(
    rt: &R,
    name: &str,
) -> Result<(Vec<u8>, Vec<u8>), Status> {
    let file = match fs::read(rt, name) {
        Ok(file) => file,
        Err(error) => {
            let _ = eprintln!(rt; "matchexplain: {name}: the file cannot be read");
            return Err(fault(&error, Status::ReadFault));
        }
    };
    match read_input(rt) {
        Ok(input) => Ok((file, input)),
        Err(error) => {
            let _ = eprintln!(rt; "matchexplain: the standard input cannot be read");
            Err(fault(&error, Status::ReadFault))
        }
    }
}

// Prints the findings of the report on a file.
fn explain_file<R: Files + Input + Print + Eprint + AllocGlobal>(
    rt: &R,
    wanted: Wanted,
    name: &str,
) -> Status {
    let (file, input) = match read_both(rt, name) {
        Ok(both) => both,
        Err(status) => return status,
    };
    match explained(rt.alloc(), wanted, name, file.as_slice(), input) {
        Ok(explained) => match write_out(rt, explained.text.as_bytes()) {
            Ok(()) if explained.breaks => Status::Found,
            Ok(()) => Status::Clean,
            Err(error) => fault(&error, Status::WriteFault),
        },
        Err(fault) => tell_fault(rt, name, fault),
    }
}

// The picture of a function's tree.
fn pictured(
    alloc: Global,
    file: &[u8],
    input: Vec<u8>,
    function: &str,
) -> Result<Vec<u8>, explain_tree::Fault> {
    match String::from_utf8(input) {
        Ok(json) => picture(alloc, file, json.as_str(), function),
        Err(_) => Err(explain_tree::Fault::NoReport),
    }
}

// Says why there is no picture.
fn tell_no_picture<R: Eprint>(
    rt: &R,
    name: &str,
    function: &str,
    fault: explain_tree::Fault,
) -> Status {
    match fault {
        explain_tree::Fault::NoReport => tell_fault(rt, name, Fault::NoReport),
        explain_tree::Fault::NoMemory => tell_fault(rt, name, Fault::NoMemory),
        explain_tree::Fault::NoTree => {
            let _ = eprintln!(rt; "matchexplain: {name}: the report has no tree of `{function}`");
            Status::Words
        }
    }
}

// Prints the picture of a function's tree.
fn draw<R: Files + Input + Print + Eprint + AllocGlobal>(
    rt: &R,
    name: &str,
    function: &str,
) -> Status {
    let (file, input) = match read_both(rt, name) {
        Ok(both) => both,
        Err(status) => return status,
    };
    match pictured(rt.alloc(), file.as_slice(), input, function) {
        Ok(picture) => match write_out(rt, picture.as_slice()) {
            Ok(()) => Status::Clean,
            Err(error) => fault(&error, Status::WriteFault),
        },
        Err(fault) => tell_no_picture(rt, name, function, fault),
    }
}

// Says which words there are.
fn tell_usage<R: Eprint>(rt: &R) -> Status {
    let _ = eprintln!(rt;
        "usage: matchcheck check FILE | matchexplain FILE [--short] [--color always|never]"
    );
    let _ = eprintln!(rt; "       matchcheck check FILE | matchexplain FILE --json");
    let _ = eprintln!(rt; "       matchcheck trees FILE | matchexplain FILE --dot FUNCTION");
    Status::Words
}

// Whether colours are wanted, by the word behind `--color`.
fn paint_of(word: &str) -> Option<bool> {
    match word {
        "always" => Some(true),
        "never" => Some(false),
        _ => None,
    }
}

// Prints findings in a form, with colours or without.
fn explain_in<R: Files + Input + Print + Eprint + AllocGlobal>(
    rt: &R,
    form: Form,
    color: &str,
    name: &str,
) -> Status {
    match paint_of(color) {
        Some(paint) => explain_file(rt, Wanted::Text(Manner { form, paint }), name),
        None => tell_usage(rt),
    }
}

// Does what the words ask for.
fn run<R: Env + Files + Input + Print + Eprint + AllocGlobal>(rt: &R, words: &[String]) -> Status {
    match words {
        [file] => explain_in(rt, Form::Full, "never", file.as_str()),
        [file, short] if short.as_str() == "--short" => {
            explain_in(rt, Form::Short, "never", file.as_str())
        }
        [file, json] if json.as_str() == "--json" => {
            explain_file(rt, Wanted::Json, file.as_str())
        }
        [file, option, color] if option.as_str() == "--color" => {
            explain_in(rt, Form::Full, color.as_str(), file.as_str())
        }
        [file, option, function] if option.as_str() == "--dot" => {
            draw(rt, file.as_str(), function.as_str())
        }
        [file, short, option, color]
            if short.as_str() == "--short" && option.as_str() == "--color" => {
            explain_in(rt, Form::Short, color.as_str(), file.as_str())
        }
        _ => tell_usage(rt),
    }
}

fn main(rt: HostRuntime) -> ExitCode {
    let status = match words(&rt) {
        Ok(words) => run(&rt, words.as_slice()),
        Err(error) => fault(&error, Status::Words),
    };
    ExitCode::from(status.number())
}
