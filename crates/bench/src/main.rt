// Measures how fast messages are read: bench VOCABULARY FILTERS MESSAGE ROUNDS.
#![tactic(auto)]

use anyhow::anyhow;
use filter::Filter;
use filter_text::parse_filter;
use message::{Event, Source, hit};
use std::process::ExitCode;
use std::time::{Duration, Instant};
use std::{env, fs};
use vocabulary::{Fault, Vocabulary};
use xml::TextReader;

// What one reading of a message counted.
#[derive(Clone, Copy, Debug, Default, PartialEq, Eq)]
struct Counted {
    elements: u64,
    events: u64,
}

// A message that is read so many times, by a vocabulary.
#[derive(Clone, Copy)]
struct Job<'a> {
    message: &'a [u8],
    vocabulary: &'a Vocabulary<'a>,
    rounds: u64,
}

fn count(message: &[u8], vocabulary: &Vocabulary) -> Result<Counted, Fault> {
    let mut reader = TextReader::new(message, vocabulary);
    let mut counted = Counted::default();
    // the bound is only there to show that this ends
    for _ in 0..=message.len() {
        let Some(event) = reader.next()? else {
            break;
        };
        counted.events = counted.events.wrapping_add(1);
        if matches!(event, Event::Start { .. }) {
            counted.elements = counted.elements.wrapping_add(1);
        }
    }
    Ok(counted)
}

impl<'a> Job<'a> {
    // Does the work in each round, and answers what the last one came to and the time of all.
    fn time<T: Default + Drop, F: FnMut(&Job<'a>) -> Result<T, Fault>>(
        &self,
        rt: &HostRuntime,
        mut work: F,
    ) -> anyhow::Result<(T, Duration)>
        requires { F.IsAlwaysCallable work }
    {
        let mut last = T::default();
        let start = Instant::now(rt)?;
        for _ in 0..self.rounds {
            match work(self) {
                Ok(answer) => last = answer,
                Err(fault) => return Err(anyhow!(format!(in rt.alloc(); "message: {fault}")?)),
            }
        }
        Ok((last, start.elapsed(rt)?))
    }

    // Prints nanoseconds per element and megabytes per second.
    fn report(
        &self,
        rt: &HostRuntime,
        what: &str,
        time: Duration,
        elements: u64,
    ) -> anyhow::Result<()> {
        let nanos = time.as_nanos().max(1);
        let rounds = u128::from(self.rounds);
        let total = rounds * u128::from(elements.max(1));
        let tenths = nanos.saturating_mul(10) / total.max(1);
        let whole = tenths / 10;
        let tenth = tenths % 10;
        let rate = rounds
            // there is no From of a usize for it
            .saturating_mul(self.message.len() as u128)
            .saturating_mul(1000)
            / nanos;
        println!(rt; "{what}: {whole}.{tenth} ns per element, {rate} MB/s")?;
        Ok(())
    }
}

fn measure(rt: &HostRuntime, job: &Job, filter: &Filter) -> anyhow::Result<()> {
    let (counted, time) = job.time(rt, |job| count(job.message, job.vocabulary))?;
    job.report(rt, "reader", time, counted.elements)?;
    let (is_hit, time) = job.time(rt, |job| {
        let mut reader = TextReader::new(job.message, job.vocabulary);
        hit(filter, &mut reader)
    })?;
    let what = if is_hit {
        "one filter (hit)"
    } else {
        "one filter (no hit)"
    };
    job.report(rt, what, time, counted.elements)
}

// Tells what refuses the measuring. An error would keep only the front of a long name, and lose the reason.
fn refusal(rt: &HostRuntime, kind: &str, name: &str, fault: Fault) -> anyhow::Result<ExitCode> {
    eprintln!(rt; "Error: {kind} {name}: {fault}")?;
    Ok(ExitCode::FAILURE)
}

fn bench(
    rt: &HostRuntime,
    names: &str,
    filters: &str,
    path: &str,
    rounds: &str,
) -> anyhow::Result<ExitCode> {
    let rounds = rounds.parse::<u64>()?;
    let bytes = fs::read(rt, names)?;
    let vocabulary = match Vocabulary::try_from(bytes.as_slice()) {
        Ok(vocabulary) => vocabulary,
        Err(fault) => return refusal(rt, "vocabulary", names, fault),
    };
    let text = fs::read_to_string(rt, filters)?;
    let line = text.as_str().lines().next().unwrap_or("/*");
    let filter = match parse_filter(line.as_bytes(), &vocabulary) {
        Ok(filter) => filter,
        Err(fault) => return refusal(rt, "filter", line, fault),
    };
    let message = fs::read(rt, path)?;
    let job = Job {
        message: message.as_slice(),
        vocabulary: &vocabulary,
        rounds,
    };
    measure(rt, &job, &filter)?;
    Ok(ExitCode::SUCCESS)
}

// One reading of a small file; only what does not vary is printed.
fn once(rt: &HostRuntime) -> anyhow::Result<ExitCode> {
    let message = fs::read(rt, "small.xml")?;
    let len = message.len();
    let vocabulary = Vocabulary::new();
    match count(message.as_slice(), &vocabulary) {
        Ok(Counted { elements, events }) => {
            println!(rt; "small.xml: {len} bytes, {elements} elements, {events} events")?;
        }
        Err(fault) => println!(rt; "small.xml: {fault}")?,
    }
    Ok(ExitCode::SUCCESS)
}

fn run(rt: &HostRuntime) -> anyhow::Result<ExitCode> {
    let words: Vec<String> = env::args(rt)?.skip(1).collect(rt.alloc())?;
    match words.as_slice() {
        [] => once(rt),
        [names, filters, path, rounds] => bench(
            rt,
            names.as_str(),
            filters.as_str(),
            path.as_str(),
            rounds.as_str(),
        ),
        _ => Err(anyhow!("bench VOCABULARY FILTERS MESSAGE ROUNDS, or no words at all")),
    }
}

fn main(rt: HostRuntime) -> anyhow::Result<ExitCode> {
    run(&rt)
}
