// Compares the text reader with examples and with published XML files.
#![tactic(auto)]

use anyhow::anyhow;
use filter_text::parse_filter;
use message::{Event, Source};
use std::alloc::{AllocError, Global};
use std::{fmt, fs};
use vocabulary::{Fault, Vocabulary};
use xml::TextReader;

// Messages, and what the reader is to say of them.
const EXAMPLES: [(&str, &str); 12] = [
    ("", "refused 39 at 0"),
    ("<D></G>", "refused 38 at 3"),
    ("<D/><D/>", "refused 36 at 4"),
    ("<D a=b/>", "refused 35 at 5"),
    ("<D", "refused 34 at 0"),
    ("<D a=\"x>y\"/>", "closes"),
    ("<!-->", "refused 34 at 0"),
    ("<?>", "refused 34 at 0"),
    ("<!-", "refused 34 at 0"),
    ("<!D>", "refused 33 at 0"),
    (" x<D/>", "refused 32 at 1"),
    ("<D>]]> & -- <!-- -- --></D >", "closes"),
];

// What the reader says of a message, or of a filter. Not a Result: four words are told, and a refusal is one that may be expected.
#[derive(Clone, Copy, Debug, PartialEq, Eq)]
enum Verdict {
    Closes,
    Accepted,
    Refused(Fault),
    Unending,
}

impl fmt::Display for Verdict {
    fn fmt<W: fmt::Write>(&self, f: &mut fmt::Formatter<W>) -> fmt::Result {
        match self {
            Verdict::Closes => write!(f, "closes"),
            Verdict::Accepted => write!(f, "accepted"),
            Verdict::Refused(fault) => {
                let number = u8::from(fault.question);
                let place = fault.place;
                write!(f, "refused {number} at {place}")
            }
            Verdict::Unending => write!(f, "does not end"),
        }
    }
}

// How many cases were judged, and how many of them differ from what is expected.
#[derive(Clone, Copy, Debug, Default, PartialEq, Eq)]
struct Tally {
    cases: usize,
    differ: usize,
}

impl Tally {
    fn note(&mut self, is_expected: bool) {
        self.cases = self.cases.saturating_add(1);
        if !is_expected {
            self.differ = self.differ.saturating_add(1);
        }
    }
}

fn push_name(names: &mut String, name: &[u8]) -> Result<(), AllocError> {
    if !names.is_empty() {
        names.push_str(" ")?;
    }
    for byte in name {
        names.push(char::from(*byte))?;
    }
    Ok(())
}

// Reads a message, and puts the names of its elements behind `names` in their order.
fn read(message: &[u8], names: &mut String) -> Result<Verdict, AllocError> {
    let vocabulary = Vocabulary::new();
    let mut reader = TextReader::new(message, &vocabulary);
    // each event but the end of an empty tag takes a byte, and the ending comes last
    for _ in 0..=message.len() {
        match reader.next() {
            Ok(Some(Event::Start { .. })) => {
                if let Some((_, name)) = reader.name() {
                    push_name(names, name)?;
                }
            }
            Ok(Some(Event::End { .. })) => {}
            Ok(None) => return Ok(Verdict::Closes),
            Err(fault) => return Ok(Verdict::Refused(fault)),
        }
    }
    Ok(Verdict::Unending)
}

// Prints the line of one case; true where it is as expected. The names count only where the message closes.
fn judge(
    rt: &HostRuntime,
    label: &str,
    message: &[u8],
    verdict: &str,
    names: &str,
) -> anyhow::Result<bool> {
    let mut found = String::new(rt.alloc());
    let told = read(message, &mut found)?.to_string(rt.alloc())?;
    if told.as_str() != verdict {
        println!(rt; "{label}: DIFFERS: {told} where {verdict} ({names}) is expected")?;
        return Ok(false);
    }
    if verdict == "closes" && found.as_str() != names {
        println!(rt;
            "{label}: DIFFERS: {told} with other names where {verdict} ({names}) is expected"
        )?;
        return Ok(false);
    }
    println!(rt; "{label}: {told}")?;
    Ok(true)
}

// Elements of one name, each inside the one before.
fn judge_depth(rt: &HostRuntime, depth: usize, verdict: &str) -> anyhow::Result<bool> {
    let starts = "<D>".repeat(rt.alloc(), depth)?;
    let ends = "</D>".repeat(rt.alloc(), depth)?;
    let message = format!(in rt.alloc(); "{starts}{ends}")?;
    let more = " D".repeat(rt.alloc(), depth.saturating_sub(1))?;
    let names = format!(in rt.alloc(); "D{more}")?;
    let label = format!(in rt.alloc(); "depth {depth}")?;
    judge(
        rt,
        label.as_str(),
        message.as_str().as_bytes(),
        verdict,
        names.as_str(),
    )
}

// A filter of so many steps.
fn judge_steps(rt: &HostRuntime, steps: usize, verdict: &str) -> anyhow::Result<bool> {
    let text = "/*".repeat(rt.alloc(), steps)?;
    let vocabulary = Vocabulary::new();
    let said = match parse_filter(text.as_str().as_bytes(), &vocabulary) {
        Ok(_) => Verdict::Accepted,
        Err(fault) => Verdict::Refused(fault),
    };
    let told = said.to_string(rt.alloc())?;
    println!(rt; "{steps} steps: {told}")?;
    Ok(told.as_str() == verdict)
}

// The last that is accepted and the first that is refused.
fn judge_edges(rt: &HostRuntime, tally: &mut Tally) -> anyhow::Result<()> {
    tally.note(judge_depth(rt, 32, "closes")?);
    tally.note(judge_depth(rt, 33, "refused 37 at 96")?);
    tally.note(judge_steps(rt, 8, "accepted")?);
    tally.note(judge_steps(rt, 9, "refused 22 at 16")?);
    Ok(())
}

fn judge_examples(rt: &HostRuntime, tally: &mut Tally) -> anyhow::Result<()> {
    for (message, verdict) in EXAMPLES {
        tally.note(judge(rt, message, message.as_bytes(), verdict, "D")?);
    }
    Ok(())
}

// A line of the expectations: file, verdict, how it stands to XML 1.0, names.
fn judge_line(rt: &HostRuntime, line: &str) -> anyhow::Result<bool> {
    let mut fields = line.split('\t');
    let (Some(file), Some(verdict), Some(standing), Some(names)) = (
        fields.next(),
        fields.next(),
        fields.next(),
        fields.next(),
    ) else {
        return Err(anyhow!("expected.txt: a line has not four fields"));
    };
    let message = fs::read(rt, file)?;
    let label = format!(in rt.alloc(); "{file} [{standing}]")?;
    judge(rt, label.as_str(), message.as_slice(), verdict, names)
}

fn run(rt: &HostRuntime) -> anyhow::Result<()> {
    let mut tally = Tally::default();
    judge_examples(rt, &mut tally)?;
    judge_edges(rt, &mut tally)?;
    let text = fs::read_to_string(rt, "expected.txt")?;
    for line in text.as_str().lines() {
        tally.note(judge_line(rt, line)?);
    }
    let Tally { cases, differ } = tally;
    println!(rt; "{cases} cases, {differ} differ")?;
    if differ > 0 {
        return Err(anyhow!("the reader differs from what is expected"));
    }
    Ok(())
}

fn main(rt: HostRuntime) -> anyhow::Result<()> {
    run(&rt)
}
