// Reading a message tag by tag.
ghost use Rattle.std.specs.Prelude.{◌≡◌, ◌+◌, ◌<◌, ◌≤◌, false, ◌∷◌, length, drop, Some, None, is_some};
ghost use Rattle.std.specs.Option.{option_map};
ghost use Rattle.vocabulary.specs.Limits.{most_open};
ghost use Rattle.vocabulary.specs.Names.{name_size};
ghost use Rattle.vocabulary.specs.Readings.{names_of};
ghost use Rattle.message.specs.Sources.{counted, rest, told};
ghost use Rattle.markup.specs.Documents.{code_or_0};
ghost use Rattle.markup.specs.Grammar.{closing, empty, opening};
ghost use Rattle.markup.specs.Readings.{Grammatical, is_empty, text_ending, text_events};
ghost use Rattle.xml.specs.Items.{cut, IsEndTag};
ghost use Rattle.xml.specs.Opened.{admitted, After, closes_innermost, Innermost, met, MetAt, Ready};
ghost use Rattle.xml.specs.Seeks.{Onwards};
ghost use Rattle.xml.specs.Tags.{TagIs};
ghost use Rattle.xml.specs.Texts.{bytes_of, CodeOf, codes_of, ending_of, events_of, held, latest_after, latest_of, open_names, sound_of, stand_of, taken_of, Turn};

use super::super::items::At;
use super::super::seeking::{Sought, seek};
use super::super::tags::Tagged;
use super::{MOST_TEXT, TextReader};
use markup::TagKind;
use message::{Event, Source, conclude};
use rows::Row;
use vocabulary::names::is_same_name;
use vocabulary::{Fault, MOST_OPEN, Question, Vocabulary};

// The code of a name, 0 where the vocabulary does not have it: so recordings hold it, and one message has the same events.
fn code_of(vocabulary: &Vocabulary, name: &[u8]) -> u16
    ensures answer { result ≡ code_or_0 (names_of vocabulary.now) name.now }
{
    vocabulary.code_of(name).unwrap_or(0)
}

impl<'a, 'v, 'n> TextReader<'a, 'v, 'n> {
    // The reader of a message by the names of a vocabulary, from the message's beginning.
    pub fn new(message: &'a [u8], vocabulary: &'v Vocabulary<'n>) -> TextReader<'a, 'v, 'n>
        ensures events { events_of result ≡ text_events (names_of vocabulary.now) message.now }
        ensures ending { ending_of result ≡ text_ending (names_of vocabulary.now) message.now }
        ensures taken { taken_of result ≡ 0 }
        ensures name { latest_of result ≡ None }
        ensures theorem { Grammatical (names_of vocabulary.now) }
    {
        TextReader {
            message,
            vocabulary,
            place: 0,
            spans: Row::new(),
            over: false,
            pending: None,
            latest: None,
            taken: 0,
        }
    }

    // Whether a start tag may stand at this place.
    fn admit(&self, at: At) -> Result<(), Fault>
        ensures answer { result ≡ admitted self.now.over (length (open_names self.now)) at.entry.place }
    {
        if self.over {
            return Err(at.refuse(Question::TagAfterRoot));
        }
        if self.spans.len() >= MOST_OPEN {
            return Err(at.refuse(Question::TagTooDeep));
        }
        Ok(())
    }

    // Goes past a start tag, and opens its element. What `ready` says stands on this and the other methods that take a place:
    // a type around reader and place would hold the reader by a `&mut`, and be taken apart in each.
    fn open(&mut self, at: At, tag: Tagged)
        requires tag { TagIs (bytes_of self.old) at.place opening tag }
        requires ready { Ready self.old at }
        requires fresh { self.old.over ≡ false }
        requires room { length (open_names self.old) < most_open }
        ensures after { After self.old at.entry.place tag (cut (bytes_of self.old) tag.name ∷ open_names self.old) false None (Some tag.name) self.new }
    {
        self.spans.push(tag.name).unwrap();
        self.place = at.place + 1 + tag.len;
        self.latest = Some(tag.name);
        self.taken += 1;
    }

    // Goes past an empty tag, whose end is still to tell.
    fn pass(&mut self, at: At, tag: Tagged)
        requires tag { TagIs (bytes_of self.old) at.place empty tag }
        requires ready { Ready self.old at }
        ensures after { After self.old at.entry.place tag (open_names self.old) (is_empty (open_names self.old)) (Some at.entry.place) (Some tag.name) self.new }
    {
        self.over = self.spans.is_empty();
        self.pending = Some(at.place as u32);
        self.place = at.place + 1 + tag.len;
        self.latest = Some(tag.name);
        self.taken += 1;
    }

    // Goes past an end tag, and closes the innermost element.
    fn close(&mut self, at: At, tag: Tagged)
        requires tag { TagIs (bytes_of self.old) at.place closing tag }
        requires ready { Ready self.old at }
        ensures after { After self.old at.entry.place tag (drop 1 (open_names self.old)) (is_empty (drop 1 (open_names self.old))) None self.old.latest self.new }
    {
        self.spans.pop();
        self.over = self.spans.is_empty();
        self.place = at.place + 1 + tag.len;
        self.taken += 1;
    }

    // The name of the innermost open element.
    fn innermost(&self) -> Option<&'a [u8]>
        ensures answer { Innermost (open_names self.now) result }
    {
        let span = self.spans.last()?;
        Some(span.of(self.message))
    }

    // Whether the end tag meets the innermost open element.
    fn meet(&self, at: At, tag: Tagged) -> Result<(), Fault>
        requires order { tag.name.start ≤ tag.name.end }
        requires inside { tag.name.end ≤ length (bytes_of self.now) }
        ensures answer { result ≡ met (open_names self.now) at.entry.place (cut (bytes_of self.now) tag.name) }
    {
        match self.innermost() {
            Some(name) if is_same_name(name, tag.name.of(self.message)) => Ok(()),
            _ => Err(at.refuse(Question::EndTagUnmet)),
        }
    }

    // The end tag, if it meets the innermost open element and its `>` stands right behind its name.
    fn met_at(&self, at: At) -> Option<Tagged>
        requires ready { Ready self.now at }
        requires end_tag { IsEndTag at.message.now at.place }
        ensures answer { MetAt (bytes_of self.now) (open_names self.now) at.entry.place result }
        ensures when { is_some result ≡ closes_innermost (open_names self.now) (drop (at.entry.place + 2) (bytes_of self.now)) }
    {
        at.end_named(self.innermost()?)
    }

    // Takes the start tag at this place.
    fn start_tag(&mut self, at: At) -> Result<Option<Event>, Fault>
        requires ready { Ready self.old at }
        requires named { 0 < name_size (drop (at.place + 1) at.message.now) }
        requires onwards { Onwards (codes_of self.old) (stand_of self.old) (bytes_of self.old) self.old.place at.place }
        ensures turn { Turn self.old result self.new }
    {
        let tag = at.start_tag()?;
        self.admit(at)?;
        let event = Event::Start {
            code: code_of(self.vocabulary, tag.name.of(self.message)),
            place: at.place as u32,
        };
        match tag.kind {
            TagKind::Opening => self.open(at, tag),
            _ => self.pass(at, tag),
        }
        Ok(Some(event))
    }

    // Takes the end tag at this place.
    fn end_tag(&mut self, at: At) -> Result<Option<Event>, Fault>
        requires ready { Ready self.old at }
        requires end_tag { IsEndTag at.message.now at.place }
        requires onwards { Onwards (codes_of self.old) (stand_of self.old) (bytes_of self.old) self.old.place at.place }
        ensures turn { Turn self.old result self.new }
    {
        let event = Event::End {
            place: at.place as u32,
        };
        if let Some(tag) = self.met_at(at) {
            self.close(at, tag);
            return Ok(Some(event));
        }
        let tag = at.end_tag()?;
        self.meet(at, tag)?;
        self.close(at, tag);
        Ok(Some(event))
    }

    // Tells the end of the empty tag at `place`.
    fn end_empty(&mut self, place: u32) -> Result<Option<Event>, Fault>
        requires owing { self.old.pending ≡ Some place }
        ensures turn { Turn self.old result self.new }
    {
        self.pending = None;
        self.taken += 1;
        Ok(Some(Event::End { place }))
    }

    // The name of the latest start, and where it begins.
    pub fn name(&self) -> Option<(usize, &'a [u8])>
        ensures answer { option_map held result ≡ latest_of self.now }
    {
        let span = self.latest?;
        Some((span.start, span.of(self.message)))
    }
}

impl<'a, 'v, 'n> Source for TextReader<'a, 'v, 'n> {
    ghost events = { events_of };

    ghost ending = { ending_of };

    ghost taken = { taken_of };

    ghost sound = { sound_of };

    fn next(&mut self) -> Result<Option<Event>, Fault>
        ensures answer { result ≡ told (events_of self.old) (ending_of self.old) }
        ensures left { events_of self.new ≡ rest (events_of self.old) }
        ensures ending { ending_of self.new ≡ ending_of self.old }
        ensures taken { taken_of self.new ≡ counted (events_of self.old) (taken_of self.old) }
        ensures name { latest_of self.new ≡ latest_after (bytes_of self.old) result (latest_of self.old) }
        ensures code { CodeOf (codes_of self.old) (bytes_of self.old) result }
    {
        if self.message.len() > MOST_TEXT {
            return Err(Question::TextSize.at(0));
        }
        if let Some(place) = self.pending {
            return self.end_empty(place);
        }
        match seek(self.message, self.place, !self.spans.is_empty())? {
            Some(Sought::Start(at)) => self.start_tag(at),
            Some(Sought::End(at)) => self.end_tag(at),
            None => {
                // it fits: the message is not too long
                let unended = Question::TextNotEnded.at(self.message.len() as u32);
                conclude(self.over, unended)
            }
        }
    }

    fn is_fresh(&self) -> bool {
        self.taken == 0
    }
}

#[cfg(test)]
mod tests {
    use super::super::MOST_TEXT;
    use super::TextReader;
    use message::{Event, Source};
    use std::process::Abort;
    use std::test::Fail;
    use vocabulary::Vocabulary;
    use vocabulary::names::is_same_name;

    // How many events the text tells, and the number and the place of the fault after them.
    fn read_by(text: &[u8], vocabulary: &Vocabulary) -> (usize, Option<(u8, u32)>) {
        let mut reader = TextReader::new(text, vocabulary);
        for count in 0..=text.len() {
            match reader.next() {
                Ok(Some(_)) => {}
                Ok(None) => return (count, None),
                Err(fault) => return (count, Some((u8::from(fault.question), fault.place))),
            }
        }
        (0, None)
    }

    fn read(text: &[u8]) -> (usize, Option<(u8, u32)>) {
        let vocabulary = Vocabulary::new();
        read_by(text, &vocabulary)
    }

    #[test]
    fn endings(rt: HostRuntime) {
        assert_eq!(rt; read(b""), (0, Some((39, 0))));
        assert_eq!(rt; read(b"<D></G>"), (1, Some((38, 3))));
        assert_eq!(rt; read(b"<D/><D/>"), (2, Some((36, 4))));
        assert_eq!(rt; read(b"<D a=b/>"), (0, Some((35, 5))));
        assert_eq!(rt; read(b"<D a=\"x>y\"/>"), (2, None));
        assert_eq!(rt; read(b"<D>x<1/></D>"), (1, Some((33, 4))));
        assert_eq!(rt; read(b"x<D/>"), (0, Some((32, 0))));
        assert_eq!(rt; read(b" <D></1>"), (1, Some((35, 6))));
    }

    #[test]
    fn cut_short(rt: HostRuntime) {
        assert_eq!(rt; read(b"<D"), (0, Some((34, 0))));
        assert_eq!(rt; read(b"<"), (0, Some((34, 0))));
        assert_eq!(rt; read(b"<!-"), (0, Some((34, 0))));
        assert_eq!(rt; read(b"<!x"), (0, Some((33, 0))));
        assert_eq!(rt; read(b"<!-->"), (0, Some((34, 0))));
        assert_eq!(rt; read(b"<?>"), (0, Some((34, 0))));
        assert_eq!(rt; read(b"<!----><?x?><D/>"), (2, None));
    }

    #[test]
    fn end_tags(rt: HostRuntime) {
        assert_eq!(rt; read(b"<D></D>"), (2, None));
        assert_eq!(rt; read(b"<D></D \n>"), (2, None));
        assert_eq!(rt; read(b"<D></Da>"), (1, Some((38, 3))));
        assert_eq!(rt; read(b"<Da></D>"), (1, Some((38, 4))));
        assert_eq!(rt; read(b"<D></D/>"), (1, Some((35, 6))));
        assert_eq!(rt; read(b"<D></D"), (1, Some((34, 3))));
        assert_eq!(rt; read(b"<D></>"), (1, Some((35, 5))));
        assert_eq!(rt; read(b"</D>"), (0, Some((38, 0))));
    }

    #[test]
    fn depth(rt: HostRuntime) -> Result<(), Fail> {
        let mut text = Vec::new(rt.alloc());
        for _ in 0..32 {
            text.extend_from_slice(b"<a>")?;
        }
        let mut deeper = text.clone()?;
        deeper.extend_from_slice(b"<a>")?;
        assert_eq!(rt; read(&deeper), (32, Some((37, 96))));
        for _ in 0..32 {
            text.extend_from_slice(b"</a>")?;
        }
        assert_eq!(rt; read(&text), (64, None));
        Ok(())
    }

    #[test]
    fn size(rt: HostRuntime) -> Result<(), Fail> {
        let mut text = vec![in rt.alloc(); b' '; MOST_TEXT]?;
        assert_eq!(rt; read(&text), (0, Some((39, 1_048_576))));
        text.push(b' ')?;
        assert_eq!(rt; read(&text), (0, Some((31, 0))));
        Ok(())
    }

    fn events_by(rt: &impl Abort, vocabulary: &Vocabulary) -> Result<(), Fail> {
        let mut reader = TextReader::new(b"<D a='1'>t<!-- > --><G/><X ></X></D>", vocabulary);
        assert!(rt; reader.is_fresh());
        assert!(rt; reader.name().is_none());
        assert_eq!(rt; reader.next()?, Some(Event::Start { code: 1, place: 0 }));
        assert!(rt; !reader.is_fresh());
        assert_eq!(rt; reader.next()?, Some(Event::Start { code: 2, place: 20 }));
        assert_eq!(rt; reader.next()?, Some(Event::End { place: 20 }));
        let (place, name) = reader.name().ok_or("none")?;
        assert_eq!(rt; place, 21);
        assert!(rt; is_same_name(name, b"G"));
        assert_eq!(rt; reader.next()?, Some(Event::Start { code: 0, place: 24 }));
        assert_eq!(rt; reader.next()?, Some(Event::End { place: 28 }));
        assert_eq!(rt; reader.next()?, Some(Event::End { place: 32 }));
        assert_eq!(rt; reader.next()?, None);
        assert_eq!(rt; reader.next()?, None);
        Ok(())
    }

    #[test]
    fn events(rt: HostRuntime) -> Result<(), Fail> {
        let mut vocabulary = Vocabulary::new();
        vocabulary.read(b"D\nG\n")?;
        events_by(&rt, &vocabulary)
    }
}
