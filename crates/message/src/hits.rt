// Whether a filter hits the message of a source.
ghost use Rattle.std.specs.Prelude.{◌≡◌, length, IfOk, Decides};
ghost use Rattle.filter.specs.Walks.{steps_of, path_of};
ghost use Rattle.message.specs.Answers.{hit_answer, left_after, taken_after};
ghost use Rattle.message.specs.Elements.{Hits};
ghost use Rattle.message.specs.Passing.{embeds_at, path_after};
ghost use Rattle.message.specs.Settled.{Settled, examples};
ghost use Rattle.message.specs.Trees.{SelectedIn};

use super::events::{Event, Source};
use filter::{Filter, Walk};
use vocabulary::{Fault, Question};

// Reads a fresh source to its ending, and answers whether the filter hits its message, or the fault that ends it. A
// source that was read from before is refused and left as it is.
pub fn hit<S: Source>(filter: &Filter, source: &mut S) -> Result<bool, Fault>
    ensures answer { result ≡ hit_answer (steps_of filter.now) (S.taken source.old) (S.events source.old) (S.ending source.old) }
    ensures left { S.events source.new ≡ left_after (S.taken source.old) (S.events source.old) }
    ensures ending { S.ending source.new ≡ S.ending source.old }
    ensures taken { S.taken source.new ≡ taken_after (S.taken source.old) (S.events source.old) }
    ensures rule { IfOk result (λ b. Decides b (Hits (steps_of filter.now) (S.events source.old))) }
    ensures xpath { IfOk result (λ b. SelectedIn (steps_of filter.now) (S.events source.old) b) }
{
    if !source.is_fresh() {
        return Err(Question::SourceNotFresh.at(0));
    }
    let mut walk = Walk::new(filter);
    let mut found = false;
    // it goes on after a hit, since the ending decides
    while let Some(event) = source.next()? {
        found |= pass(&mut walk, event);
    }
    Ok(found)
}

// Passes an event on to a walk, and answers whether the filter embeds at the element that it starts.
fn pass(walk: &mut Walk, event: Event) -> bool
    ensures answer { result ≡ embeds_at (steps_of walk.old.filter) (path_of walk.old) event }
    ensures path { path_of walk.new ≡ path_after (path_of walk.old) event }
    ensures filter { walk.new.filter ≡ walk.old.filter }
{
    match event {
        Event::Start { code, .. } => walk.start(code),
        Event::End { .. } => {
            walk.end();
            false
        }
    }
}

// How many examples settle the rules; each holds.
pub fn settled_examples() -> usize
    ensures answer { result ≡ length examples }
    ensures theorem { Settled }
{
    10
}
