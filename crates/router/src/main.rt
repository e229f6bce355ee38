// The router, as people run it.
#![tactic(auto)]

mod failures;
mod words;

use failures::{Failure, Unheld};
use filter::Filter;
use filter_text::parse_filter;
use message::hit;
use recording::Recording;
use std::process::ExitCode;
use std::{env, fs, io};
use vocabulary::{Fault, Vocabulary};
use words::words_in;
use xml::TextReader;

fn help(rt: &HostRuntime) -> io::Result<()> {
    println!(rt; "Routes customs messages by standing filters.")?;
    println!(rt; "")?;
    println!(rt; "  router hit VOCABULARY FILTER FILE...   does the filter hit these messages?")?;
    println!(rt; "  router --help                          this text")?;
    println!(rt; "")?;
    println!(rt; "VOCABULARY  a file with one name a line, each line ended by a line feed")?;
    println!(rt; "FILTER      the filter itself, as '/D//G/*': steps of / or // and a name or *")?;
    println!(rt; "FILE        a message: a recording if its name ends in .rec, else XML text")
}

// Prints the line of one message.
fn say(rt: &HostRuntime, path: &str, answer: Result<bool, Fault>) -> io::Result<()> {
    match answer {
        Ok(true) => println!(rt; "{path}: hit"),
        Ok(false) => println!(rt; "{path}: no hit"),
        Err(fault) => println!(rt; "{path}: {fault}"),
    }
}

fn read_file<'a>(rt: &HostRuntime, path: &'a str) -> Result<Vec<u8>, Failure<'a>> {
    fs::read(rt, path).map_err(|error| Failure::Unread(path, Unheld::Unreadable(error)))
}

// Whether the filter hits the message of a file.
fn ask<'a>(
    rt: &HostRuntime,
    path: &'a str,
    filter: &Filter,
    vocabulary: &Vocabulary,
) -> Result<Result<bool, Fault>, Failure<'a>> {
    let bytes = read_file(rt, path)?;
    if !path.ends_with(".rec") {
        let mut source = TextReader::new(bytes.as_slice(), vocabulary);
        return Ok(hit(filter, &mut source));
    }
    if bytes.len() % 2 != 0 {
        return Err(Failure::Unread(path, Unheld::OddLength(bytes.len())));
    }
    let words = words_in(rt.alloc(), bytes.as_slice())?;
    Ok(hit(filter, &mut Recording::new(words.as_slice())))
}

// The command `hit`: does this filter hit these messages?
// Prints one line for each message. A file that holds none is told on standard error, and makes the command fail at its end.
fn run_hit<'a>(rt: &HostRuntime, words: &'a [String]) -> Result<(), Failure<'a>> {
    let [names, text, files @ ..] = words else {
        return Err(Failure::Usage("hit wants VOCABULARY FILTER FILE...; router --help tells more"));
    };
    if files.is_empty() {
        return Err(Failure::Usage("hit wants at least one FILE; router --help tells more"));
    }
    let (names, text) = (names.as_str(), text.as_str());
    let bytes = read_file(rt, names)?;
    let vocabulary = Vocabulary::try_from(bytes.as_slice()).map_err(|fault| Failure::Refused(
        "vocabulary",
        names,
        fault,
    ))?;
    let filter = parse_filter(text.as_bytes(), &vocabulary).map_err(|fault| Failure::Refused(
        "filter", text, fault,
    ))?;
    let mut unheld = 0usize;
    for file in files {
        match ask(rt, file.as_str(), &filter, &vocabulary) {
            Ok(answer) => say(rt, file.as_str(), answer)?,
            Err(Failure::Unread(path, reason)) => {
                eprintln!(rt; "{path}: {reason}")?;
                unheld = unheld.saturating_add(1);
            }
            Err(failure) => return Err(failure),
        }
    }
    if unheld > 0 {
        return Err(Failure::NoMessage(unheld));
    }
    Ok(())
}

fn command<'a>(rt: &HostRuntime, words: &'a [String]) -> Result<(), Failure<'a>> {
    match words {
        [] => help(rt)?,
        [command, rest @ ..] => match command.as_str() {
            "hit" => run_hit(rt, rest)?,
            "--help" | "-h" => help(rt)?,
            _ => {
                return Err(Failure::Usage("there is no such command; router --help tells the use"));
            }
        },
    }
    Ok(())
}

fn run(rt: &HostRuntime) -> Result<ExitCode, Failure<'static>> {
    let words: Vec<String> = env::args(rt)?.skip(1).collect(rt.alloc())?;
    if let Err(failure) = command(rt, words.as_slice()) {
        eprintln!(rt; "router: {failure}")?;
        return Ok(ExitCode::FAILURE);
    }
    Ok(ExitCode::SUCCESS)
}

fn main(rt: HostRuntime) -> ExitCode {
    match run(&rt) {
        Ok(code) => code,
        Err(failure) => {
            // where this fails there is nowhere left to tell it
            let _told = eprintln!(rt; "router: {failure}");
            ExitCode::FAILURE
        }
    }
}
