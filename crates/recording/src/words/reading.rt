// Reading a recording word by word.
ghost use Rattle.std.specs.Prelude.{◌≡◌, ◌+◌, ◌<◌, ◌≤◌, length};
ghost use Rattle.recording.specs.Kinds.{word_of};
ghost use Rattle.recording.specs.Laws.{Fitting};
ghost use Rattle.recording.specs.Recordings.{events_of, ending_of, taken_of, sound_of};
ghost use Rattle.recording.specs.Replays.{Faithful};
ghost use Rattle.recording.specs.Words.{most_words, said, depth_after, over_after, word_events, word_ending};

use super::{MOST_WORDS, Recording, Word};
use message::{Event, Source, conclude};
use vocabulary::{Fault, MOST_NAMES, MOST_OPEN, Question};

impl TryFrom<u16> for Word {
    type Error = Question;

    ghost try_from_gives = { λ word result. result ≡ word_of word };

    fn try_from(word: u16) -> Result<Word, Question> {
        match word {
            0 => Ok(Word::End),
            _ if usize::from(word) <= MOST_NAMES + 1 => Ok(Word::Start(word - 1)),
            _ => Err(Question::WordTooGreat),
        }
    }
}

impl<'a> Recording<'a> {
    // The recording of these words, from its beginning.
    pub fn new(words: &'a [u16]) -> Recording<'a>
        ensures events { events_of result ≡ word_events words.now }
        ensures ending { ending_of result ≡ word_ending words.now }
        ensures taken { taken_of result ≡ 0 }
        ensures theorem { Faithful }
    {
        Recording {
            words,
            at: 0,
            depth: 0,
            over: false,
        }
    }

    // The place of the next word.
    fn place(&self) -> u32
        requires { self.now.at ≤ most_words }
        ensures { result ≡ self.now.at + 1 }
    {
        // it fits, and so there is no TryFrom: a recording that is read has few words
        (self.at + 1) as u32
    }

    // What the next word tells.
    fn tell(&self, word: u16) -> Result<Event, Fault>
        requires { self.now.at ≤ most_words }
        ensures { result ≡ said (self.now.at + 1) self.now.depth self.now.over word }
    {
        let place = self.place();
        match Word::try_from(word) {
            Err(question) => Err(question.at(place)),
            Ok(Word::End) if self.depth == 0 => Err(Question::WordNoneOpen.at(place)),
            Ok(Word::End) => Ok(Event::End { place }),
            Ok(Word::Start(_)) if self.over => Err(Question::WordAfterRoot.at(place)),
            Ok(Word::Start(_)) if self.depth >= MOST_OPEN => Err(Question::WordTooDeep.at(place)),
            Ok(Word::Start(code)) => Ok(Event::Start { code, place }),
        }
    }

    // Goes past the word that told the event.
    fn pass(&mut self, event: Event)
        requires within { self.old.at < length self.old.words.now }
        requires fitting { Fitting self.old.depth event }
        ensures words { self.new.words.now ≡ self.old.words.now }
        ensures at { self.new.at ≡ self.old.at + 1 }
        ensures depth { self.new.depth ≡ depth_after self.old.depth event }
        ensures over { self.new.over ≡ over_after self.old.depth self.old.over event }
    {
        self.at += 1;
        match event {
            Event::Start { .. } => self.depth += 1,
            Event::End { .. } => {
                self.over = self.depth == 1;
                self.depth -= 1;
            }
        }
    }
}

impl<'a> Source for Recording<'a> {
    ghost events = { events_of };

    ghost ending = { ending_of };

    ghost taken = { taken_of };

    ghost sound = { sound_of };

    fn next(&mut self) -> Result<Option<Event>, Fault> {
        if self.words.len() > MOST_WORDS {
            return Err(Question::RecordingSize.at(0));
        }
        let Some(word) = self.words.get(self.at) else {
            return conclude(self.over, Question::RecordingNotEnded.at(self.place()));
        };
        let event = self.tell(*word)?;
        self.pass(event);
        Ok(Some(event))
    }

    fn is_fresh(&self) -> bool {
        self.at == 0
    }
}

#[cfg(test)]
mod tests {
    use super::{MOST_WORDS, Recording};
    use message::{Event, Source};
    use std::test::Fail;

    // How many events the words tell, and the number and the place of the fault after them, if there is one. The text reader's
    // tests have the like: shared, it would be a public function for tests alone.
    fn read(words: &[u16]) -> (usize, Option<(u8, u32)>) {
        let mut recording = Recording::new(words);
        for count in 0..=words.len() {
            match recording.next() {
                Ok(Some(_)) => {}
                Ok(None) => return (count, None),
                Err(fault) => return (count, Some((u8::from(fault.question), fault.place))),
            }
        }
        (0, None)
    }

    #[test]
    fn endings(rt: HostRuntime) {
        assert_eq!(rt; read(&[]), (0, Some((46, 1))));
        assert_eq!(rt; read(&[0]), (0, Some((45, 1))));
        assert_eq!(rt; read(&[1]), (1, Some((46, 2))));
        assert_eq!(rt; read(&[1, 0]), (2, None));
        assert_eq!(rt; read(&[1, 0, 0]), (2, Some((45, 3))));
        assert_eq!(rt; read(&[1, 0, 1]), (2, Some((43, 3))));
        assert_eq!(rt; read(&[1, 0, 514]), (2, Some((42, 3))));
        assert_eq!(rt; read(&[513, 0]), (2, None));
        assert_eq!(rt; read(&[514, 0]), (0, Some((42, 1))));
    }

    #[test]
    fn depth(rt: HostRuntime) -> Result<(), Fail> {
        let mut words = vec![in rt.alloc(); 1; 32]?;
        words.resize(64, 0)?;
        assert_eq!(rt; read(&words), (64, None));
        assert_eq!(rt; read(&[1; 33]), (32, Some((44, 33))));
        Ok(())
    }

    #[test]
    fn size(rt: HostRuntime) -> Result<(), Fail> {
        let mut words = vec![in rt.alloc(); 0; MOST_WORDS]?;
        assert_eq!(rt; read(&words), (0, Some((45, 1))));
        words.push(0)?;
        assert_eq!(rt; read(&words), (0, Some((41, 0))));
        Ok(())
    }

    #[test]
    fn events(rt: HostRuntime) -> Result<(), Fail> {
        let mut recording = Recording::new(&[3, 513, 0, 0]);
        assert!(rt; recording.is_fresh());
        assert_eq!(rt; recording.next()?, Some(Event::Start { code: 2, place: 1 }));
        assert!(rt; !recording.is_fresh());
        assert_eq!(rt;
            recording.next()?,
            Some(Event::Start {
                code: 512,
                place: 2,
            })
        );
        assert_eq!(rt; recording.next()?, Some(Event::End { place: 3 }));
        assert_eq!(rt; recording.next()?, Some(Event::End { place: 4 }));
        assert_eq!(rt; recording.next()?, None);
        assert_eq!(rt; recording.next()?, None);
        Ok(())
    }
}
