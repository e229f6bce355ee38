// Start and end tags, read by a machine from behind the first byte of the name.
ghost use Rattle.std.specs.Prelude.{◌≡◌};
ghost use Rattle.markup.specs.Classes.{class_of, table};
ghost use Rattle.markup.specs.Runs.{move_of, scan_of, standing};
ghost use Rattle.markup.specs.Tags.{after, scan_from};

// What a byte is to a tag.
#[derive(Clone, Copy, Debug, PartialEq, Eq)]
pub enum Class {
    Start,
    Inner,
    White,
    Equals,
    Single,
    Double,
    Slash,
    Close,
    Open,
    Other,
}

// Where the reading stands inside a tag.
#[derive(Clone, Copy, Debug, PartialEq, Eq)]
pub enum Tag {
    Name,
    Gap,
    Word,
    Wait,
    Value,
    InSingle,
    InDouble,
    Ended,
    Slash,
    EndFirst,
    EndName,
    EndGap,
}

// What a tag is, by its end.
#[derive(Clone, Copy, Debug, PartialEq, Eq)]
pub enum TagKind {
    Opening,
    Empty,
    Closing,
}

// What a byte of a tag comes to: the tag goes on, it ends, or the byte does not fit.
#[derive(Clone, Copy, Debug, PartialEq, Eq)]
pub enum Outcome {
    GoesOn(Tag),
    Ends(TagKind),
    Misfit,
}

// A tag that has ended after so many bytes.
#[derive(Clone, Copy, Debug, PartialEq, Eq)]
pub struct Ended {
    pub kind: TagKind,
    pub len: usize,
}

// Why a tag does not end: the text ends first, or the byte after so many does not fit.
#[derive(Clone, Copy, Debug, PartialEq, Eq)]
pub enum Misread {
    CutShort,
    Misfit(usize),
}

pub fn class_of(byte: u8) -> Class
    ensures answer { result ≡ class_of byte }
{
    match byte {
        b'a'..=b'z' | b'A'..=b'Z' | b'_' | b':' => Class::Start,
        b'0'..=b'9' | b'-' | b'.' => Class::Inner,
        b' ' | b'\t' | b'\r' | b'\n' => Class::White,
        b'=' => Class::Equals,
        b'\'' => Class::Single,
        b'"' => Class::Double,
        b'/' => Class::Slash,
        b'>' => Class::Close,
        b'<' => Class::Open,
        _ => Class::Other,
    }
}

impl Tag {
    fn step_by(self, class: Class) -> Outcome
        ensures table { result ≡ table self class }
    {
        match (self, class) {
            (Tag::Name, Class::Start | Class::Inner) => Outcome::GoesOn(Tag::Name),
            (Tag::Name | Tag::Gap | Tag::Ended, Class::White) => Outcome::GoesOn(Tag::Gap),
            (Tag::Name | Tag::Gap | Tag::Ended, Class::Slash) => Outcome::GoesOn(Tag::Slash),
            (Tag::Name | Tag::Gap | Tag::Ended, Class::Close) => Outcome::Ends(TagKind::Opening),
            (Tag::Gap, Class::Start) => Outcome::GoesOn(Tag::Word),
            (Tag::Word, Class::Start | Class::Inner) => Outcome::GoesOn(Tag::Word),
            (Tag::Word | Tag::Wait, Class::White) => Outcome::GoesOn(Tag::Wait),
            (Tag::Word | Tag::Wait, Class::Equals) => Outcome::GoesOn(Tag::Value),
            (Tag::Value, Class::White) => Outcome::GoesOn(Tag::Value),
            (Tag::Value, Class::Single) => Outcome::GoesOn(Tag::InSingle),
            (Tag::Value, Class::Double) => Outcome::GoesOn(Tag::InDouble),
            (Tag::InSingle, Class::Single) => Outcome::GoesOn(Tag::Ended),
            (Tag::InDouble, Class::Double) => Outcome::GoesOn(Tag::Ended),
            (Tag::InSingle | Tag::InDouble, Class::Open) => Outcome::Misfit,
            (Tag::InSingle | Tag::InDouble, _) => Outcome::GoesOn(self),
            (Tag::Slash, Class::Close) => Outcome::Ends(TagKind::Empty),
            (Tag::EndFirst, Class::Start) => Outcome::GoesOn(Tag::EndName),
            (Tag::EndName, Class::Start | Class::Inner) => Outcome::GoesOn(Tag::EndName),
            (Tag::EndName | Tag::EndGap, Class::White) => Outcome::GoesOn(Tag::EndGap),
            (Tag::EndName | Tag::EndGap, Class::Close) => Outcome::Ends(TagKind::Closing),
            _ => Outcome::Misfit,
        }
    }

    // Takes one byte.
    #[tactic(auto, using(crate::proofs::Bridge::row_after))]
    pub fn step(self, byte: u8) -> Outcome
        ensures table { result ≡ table self (class_of byte) }
        ensures after { move_of result ≡ after (standing self) byte }
    {
        self.step_by(class_of(byte))
    }

    // Reads on to the tag's end, byte by byte.
    fn read_on(self, rest: &[u8]) -> Result<Ended, Misread>
        ensures answer { scan_of result ≡ scan_from (standing self) rest.now }
    {
        let mut tag = self;
        for (n, byte) in rest.iter().enumerate() {
            match tag.step(*byte) {
                Outcome::GoesOn(next) => tag = next,
                Outcome::Ends(kind) => return Ok(Ended { kind, len: n + 1 }),
                Outcome::Misfit => return Err(Misread::Misfit(n)),
            }
        }
        Err(Misread::CutShort)
    }

    // Reads on to the tag's end; looks first for a `>` right behind a name. Each caller has a copy that knows its tag.
    #[inline(always)]
    #[tactic(auto, using(crate::proofs::Scanning::opens, crate::proofs::Scanning::closes))]
    pub fn run(self, rest: &[u8]) -> Result<Ended, Misread>
        ensures answer { scan_of result ≡ scan_from (standing self) rest.now }
    {
        match (self, rest) {
            (Tag::Name, [b'>', ..]) => Ok(Ended {
                kind: TagKind::Opening,
                len: 1,
            }),
            (Tag::EndName, [b'>', ..]) => Ok(Ended {
                kind: TagKind::Closing,
                len: 1,
            }),
            _ => self.read_on(rest),
        }
    }
}
