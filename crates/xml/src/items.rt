// What stands at a place of a message: text, a comment or an instruction, with its end, or a tag.
ghost use Rattle.std.specs.Prelude.{◌≡◌, ◌+◌, ◌-◌, ◌<◌, ◌≤◌, length, drop};
ghost use Rattle.vocabulary.specs.Faults.{fault};
ghost use Rattle.markup.specs.Readings.{most_text};
ghost use Rattle.markup.specs.Runs.{shifted};
ghost use Rattle.markup.specs.Tags.{at_bang, scan_from};
ghost use Rattle.xml.specs.Items.{begun, cut, item_of, piece_by, piece_of, text_of};

use markup::{Mark, is_white, text_len};
use vocabulary::names::is_name_start;
use vocabulary::{Fault, Question};

// The bytes of a message from `start` to `end`.
#[derive(Clone, Copy, Debug, Default, PartialEq, Eq)]
pub(crate) struct Span {
    pub(crate) start: usize,
    pub(crate) end: usize,
}

// What tells nothing, up to a place; or the beginning of a tag.
#[derive(Clone, Copy, Debug, PartialEq, Eq)]
pub(crate) enum Piece {
    Quiet(usize),
    Start,
    End,
}

// A place inside a message that is not too long. The place fits into 32 bits, so that no cast of it needs a TryFrom.
#[derive(Clone, Copy, Debug, PartialEq, Eq)]
pub(crate) struct At<'a> {
    pub(crate) message: &'a [u8],
    pub(crate) place: usize,
    ghost within: { place < length message.now },
    ghost small: { length message.now ≤ most_text },
}

impl Span {
    // The bytes. That they lie in the text is no invariant: a span does not know its text.
    pub(crate) fn of(self, text: &[u8]) -> &[u8]
        requires order { self.start ≤ self.end }
        requires inside { self.end ≤ length text.now }
        ensures answer { result.now ≡ cut text.now self }
    {
        &text[self.start..self.end]
    }
}

impl<'a> At<'a> {
    // This question's no here.
    pub(crate) fn refuse(self, question: Question) -> Fault
        ensures answer { result ≡ fault question self.entry.place }
    {
        question.at(self.place as u32)
    }

    // A comment or an instruction here, which begins with `head` bytes.
    fn marked(self, mark: Mark, head: usize) -> Result<Piece, Fault>
        requires some { 1 ≤ head }
        requires inside { self.place + head ≤ length self.message.now }
        ensures answer { result ≡ piece_by self.entry.place (shifted (head - 1) (scan_from (begun mark) (drop (self.entry.place + head) self.entry.message.now))) }
    {
        let start = self.place + head;
        match mark.first_in(&self.message[start..]) {
            Some(n) => Ok(Piece::Quiet(start + n + mark.bytes().len())),
            None => Err(self.refuse(Question::MarkupNotEnded)),
        }
    }

    // The markup here, at a `<!`.
    fn remark(self) -> Result<Piece, Fault>
        requires inside { self.place + 2 ≤ length self.message.now }
        ensures answer { result ≡ piece_by self.entry.place (shifted 1 (scan_from at_bang (drop (self.entry.place + 2) self.entry.message.now))) }
    {
        let rest = &self.message[self.place + 2..];
        match rest {
            [b'-', b'-', ..] => self.marked(Mark::Comment, 4),
            [] | [b'-'] => Err(self.refuse(Question::MarkupNotEnded)),
            _ => Err(self.refuse(Question::NoMarkup)),
        }
    }

    // The markup here, at a `<`.
    fn markup(self) -> Result<Piece, Fault>
        ensures answer { result ≡ piece_of self.entry.place (drop (self.entry.place + 1) self.entry.message.now) }
    {
        let rest = &self.message[self.place + 1..];
        match rest {
            [b'/', ..] => Ok(Piece::End),
            [b'!', ..] => self.remark(),
            [b'?', ..] => self.marked(Mark::Instruction, 2),
            [first, ..] if is_name_start(*first) => Ok(Piece::Start),
            [] => Err(self.refuse(Question::MarkupNotEnded)),
            _ => Err(self.refuse(Question::NoMarkup)),
        }
    }

    // The text here; outside the root it is one byte of white space.
    fn text(self, inside: bool) -> Result<Piece, Fault>
        ensures answer { result ≡ text_of inside self.entry.place (drop self.entry.place self.entry.message.now) }
    {
        let rest = &self.message[self.place..];
        if inside {
            return Ok(Piece::Quiet(self.place + text_len(rest)));
        }
        if !is_white(rest[0]) {
            return Err(self.refuse(Question::ByteOutsideRoot));
        }
        Ok(Piece::Quiet(self.place + 1))
    }

    // What stands here, inside the root or outside.
    pub(crate) fn item(self, inside: bool) -> Result<Piece, Fault>
        ensures answer { result ≡ item_of inside self.entry.place (drop self.entry.place self.entry.message.now) }
    {
        match self.message[self.place] {
            b'<' => self.markup(),
            _ => self.text(inside),
        }
    }
}
