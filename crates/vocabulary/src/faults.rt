// Faults: which question said no, and where.
ghost use Rattle.std.specs.Prelude.{◌≡◌};
ghost use Rattle.vocabulary.specs.Faults.{fault, number_of};

use std::error::Error;
use std::fmt;

// The questions that can be answered with no. Each has its number, which people are told.
#[derive(Clone, Copy, Debug, PartialEq, Eq)]
pub enum Question {
    VocabularySize = 11,
    LineNotEnded = 12,
    LineNotName = 13,
    TooManyNames = 14,
    NameTwice = 15,
    FilterSize = 21,
    TooManySteps = 22,
    StepNoSlash = 23,
    StepNoTest = 24,
    StepNameLong = 25,
    StepNameUnknown = 26,
    CodeUnknown = 27,
    BufferShort = 28,
    TextSize = 31,
    ByteOutsideRoot = 32,
    NoMarkup = 33,
    MarkupNotEnded = 34,
    ByteMisfit = 35,
    TagAfterRoot = 36,
    TagTooDeep = 37,
    EndTagUnmet = 38,
    TextNotEnded = 39,
    RecordingSize = 41,
    WordTooGreat = 42,
    WordAfterRoot = 43,
    WordTooDeep = 44,
    WordNoneOpen = 45,
    RecordingNotEnded = 46,
    SourceNotFresh = 72,
}

// Bytes are counted from 0, steps and words from 1. The place is 0 where none is named, and not None: so C is answered.
#[derive(Clone, Copy, Debug, PartialEq, Eq)]
pub struct Fault {
    pub question: Question,
    pub place: u32,
}

impl Question {
    // This question's no at a place.
    pub fn at(self, place: u32) -> Fault
        ensures answer { result ≡ fault self place }
    {
        Fault {
            question: self,
            place,
        }
    }
}

// The number that people are told.
impl From<Question> for u8 {
    ghost from_gives = { λ question number. number ≡ number_of question };

    fn from(question: Question) -> u8
        ensures answer { result ≡ number_of question }
    {
        question as u8
    }
}

impl fmt::Display for Question {
    fn fmt<W: fmt::Write>(&self, f: &mut fmt::Formatter<W>) -> fmt::Result {
        f.write_str(match self {
            Question::VocabularySize => "the vocabulary is not 1 to 16384 bytes long",
            Question::LineNotEnded => "a line of the vocabulary is not ended by a line feed",
            Question::LineNotName => "a line of the vocabulary is not a name of 1 to 32 bytes",
            Question::TooManyNames => "the vocabulary has more than 512 names",
            Question::NameTwice => "the name stands on an earlier line of the vocabulary too",
            Question::FilterSize => "the filter is not 1 to 272 bytes long",
            Question::TooManySteps => "the filter has more than 8 steps",
            Question::StepNoSlash => "a step does not begin with /",
            Question::StepNoTest => "neither * nor a name follows the slashes",
            Question::StepNameLong => "a name in the filter is longer than 32 bytes",
            Question::StepNameUnknown => "a name in the filter is not in the vocabulary",
            Question::CodeUnknown => "a step's code is not in the vocabulary",
            Question::BufferShort => "the buffer is too short for the filter's text",
            Question::TextSize => "the message is longer than 1048576 bytes",
            Question::ByteOutsideRoot => "neither white space nor markup outside the root element",
            Question::NoMarkup => "no tag, comment or instruction begins at this <",
            Question::MarkupNotEnded => "the text ends inside a tag, a comment or an instruction",
            Question::ByteMisfit => "a byte does not fit into its tag",
            Question::TagAfterRoot => "a start tag after the root element has ended",
            Question::TagTooDeep => "a start tag with 32 elements open",
            Question::EndTagUnmet => "the end tag does not meet the innermost open element",
            Question::TextNotEnded => "the text ends before the root element has ended",
            Question::RecordingSize => "the recording has more than 1048576 words",
            Question::WordTooGreat => "a word is above 513",
            Question::WordAfterRoot => "a start after the root has ended",
            Question::WordTooDeep => "a start with 32 elements open",
            Question::WordNoneOpen => "an end with no element open",
            Question::RecordingNotEnded => "the recording ends before its root has ended",
            Question::SourceNotFresh => "the source was read from before",
        })
    }
}

impl Error for Fault {}

impl fmt::Display for Fault {
    fn fmt<W: fmt::Write>(&self, f: &mut fmt::Formatter<W>) -> fmt::Result {
        let number = u8::from(self.question);
        let place = self.place;
        let question = self.question;
        write!(f, "refused {number} at {place}: {question}")
    }
}
