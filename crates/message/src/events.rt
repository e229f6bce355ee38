// The events of a message, and the interface of what tells them.
ghost use Rattle.std.specs.Prelude.{◌≡◌, ℕ, cond, List, ◌==◌};
ghost use Rattle.message.specs.declared.events.Event.{Event};
ghost use Rattle.message.specs.Sources.{Ending, closed, faulted, last_told, told, rest, counted, Wellformed};

use vocabulary::Fault;

// An element starts, with its code, or ends. The place is where the source has it.
#[derive(Clone, Copy, Debug, PartialEq, Eq)]
pub enum Event {
    Start { code: u16, place: u32 },
    End { place: u32 },
}

// A source means the events still to come, its ending, and how many events were taken.
pub trait Source {
    ghost events: { Self → List Event };

    ghost ending: { Self → Ending };

    ghost taken: { Self → ℕ };

    // Takes and tells the first event; with none left it tells the ending, `None` where the message is closed, and alters nothing.
    fn next(&mut self) -> Result<Option<Event>, Fault>
        ensures answer { result ≡ told (events self.old) (ending self.old) }
        ensures left { events self.new ≡ rest (events self.old) }
        ensures ending { ending self.new ≡ ending self.old }
        ensures taken { taken self.new ≡ counted (events self.old) (taken self.old) };

    // Whether no event was taken yet.
    fn is_fresh(&self) -> bool
        ensures answer { result ≡ (taken self.now == 0) };

    // A law: what every fresh source keeps.
    ghost sound: { (s : Self) → taken s ≡ 0 → Wellformed (events s) (ending s) };
}

// What a source tells after its last event: the message is closed where its root has ended, and else this fault ends it.
pub fn conclude(over: bool, unended: Fault) -> Result<Option<Event>, Fault>
    ensures answer { result ≡ last_told (cond over closed (faulted unended)) }
{
    if over { Ok(None) } else { Err(unended) }
}
