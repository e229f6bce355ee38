// Reading a vocabulary, and asking it for codes and names.
ghost use Rattle.std.specs.Prelude.{◌≡◌, ◌+◌, ◌<◌, ◌≤◌, [], length, drop, IfOk, IfSome};
ghost use Rattle.std.specs.Option.{option_map};
ghost use Rattle.std.specs.List.{prefix_len};
ghost use Rattle.std.specs.Result.{result_map_both, result_unwrap_or};
ghost use Rattle.vocabulary.specs.Limits.{most_name_bytes};
ghost use Rattle.vocabulary.specs.Names.{code_of, IsCode, name_of};
ghost use Rattle.vocabulary.specs.Readings.{names_of, verdict};
ghost use Rattle.vocabulary.specs.Tables.{names_in};
ghost use Rattle.vocabulary.specs.Vocabularies.{Accepts, admitted, is_in_line, LineRead, most_bytes, read_lines, read_names};

use super::super::faults::{Fault, Question};
use super::super::limits::{MOST_NAME_BYTES, MOST_NAMES};
use super::super::names::is_short_name;
use super::super::tables::Table;
use super::Vocabulary;

// The bytes of a vocabulary at most.
const MOST_BYTES: usize = 16384;

// How many bytes come before the first line feed.
fn line_len(rest: &[u8]) -> usize
    ensures answer { result ≡ prefix_len is_in_line rest.now }
    ensures within { result ≤ length rest.now }
{
    rest.iter().take_while(|byte| **byte != b'\n').count()
}

// Whether the name, whose line begins at `place`, may follow those of the table.
fn admit(table: &Table, name: &[u8], place: u32) -> Result<(), Fault>
    ensures answer { result ≡ admitted (names_in table.now) place name.now }
{
    if !is_short_name(name) {
        return Err(Question::LineNotName.at(place));
    }
    if table.len() >= MOST_NAMES {
        return Err(Question::TooManyNames.at(place));
    }
    if table.code_of(name).is_some() {
        return Err(Question::NameTwice.at(place));
    }
    Ok(())
}

// Takes the first line of `rest`, which begins at `place` in the text, into the table, and answers what comes after it.
// A place fits into 16 bits: a text that is read has at most 16,384 bytes.
fn take_line<'a>(table: &mut Table<'a>, rest: &'a [u8], place: usize) -> Result<&'a [u8], Fault>
    requires here { rest.now ≡ drop place table.old.text.now }
    requires some { 0 < length rest.now }
    requires small { place + length rest.now ≤ most_bytes }
    ensures text { table.new.text.now ≡ table.old.text.now }
    ensures answer { LineRead rest.now place (names_in table.old) (names_in table.new) result }
{
    let len = line_len(rest);
    if len == rest.len() {
        return Err(Question::LineNotEnded.at(place as u32));
    }
    let (name, after) = rest.split_at(len);
    admit(table, name, place as u32)?;
    table.add(place as u16, (place + len) as u16);
    Ok(&after[1..])
}

// The table of all lines of the text.
fn read_lines(text: &[u8]) -> Result<Table<'_>, Fault>
    requires small { length text.now ≤ most_bytes }
    ensures text { IfOk result (λ table. table.text.now ≡ text.now) }
    ensures answer { result_map_both names_in (λ f. f) result ≡ read_lines [] 0 [] text.now }
{
    let mut table = Table::new(text);
    let mut rest = text;
    while !rest.is_empty() {
        let place = text.len() - rest.len();
        rest = take_line(&mut table, rest, place)?;
    }
    Ok(table)
}

// The vocabulary of a text, or the text's first fault.
impl<'a> TryFrom<&'a [u8]> for Vocabulary<'a> {
    type Error = Fault;

    ghost try_from_gives = { λ text result. result_map_both names_of (λ f. f) result ≡ read_names text.now };

    fn try_from(text: &'a [u8]) -> Result<Vocabulary<'a>, Fault>
        ensures gives { result_map_both names_of (λ f. f) result ≡ read_names text.now }
        ensures theorem { Accepts }
    {
        if text.is_empty() || text.len() > MOST_BYTES {
            return Err(Question::VocabularySize.at(0));
        }
        let table = read_lines(text)?;
        Ok(Vocabulary { table })
    }
}

impl<'a> Vocabulary<'a> {
    // A fresh vocabulary has no names.
    pub fn new() -> Vocabulary<'a>
        ensures answer { names_of result ≡ [] }
    {
        Vocabulary {
            table: Table::new(&[]),
        }
    }

    // Takes the names of the text in place of its own, or answers the first fault and stays as it is.
    pub fn read(&mut self, text: &'a [u8]) -> Result<(), Fault>
        ensures answer { result ≡ verdict (read_names text.now) }
        ensures after { names_of self.new ≡ result_unwrap_or (read_names text.now) (names_of self.old) }
        ensures theorem { Accepts }
    {
        *self = Vocabulary::try_from(text)?;
        Ok(())
    }

    // How many names there are.
    pub fn len(&self) -> usize
        ensures answer { result ≡ length (names_of self.now) }
    {
        self.table.len()
    }

    // The code of a name, from 1; none where it is not in the vocabulary.
    pub fn code_of(&self, name: &[u8]) -> Option<u16>
        ensures answer { result ≡ code_of (names_of self.now) name.now }
        ensures rule { IsCode (names_of self.now) name.now result }
    {
        if name.len() > MOST_NAME_BYTES {
            return None;
        }
        self.table.code_of(name)
    }

    // The name of a code; none where no line has it.
    pub fn name_of(&self, code: u16) -> Option<&'a [u8]>
        ensures answer { option_map (λ x. x.now) result ≡ name_of (names_of self.now) code }
        ensures short { IfSome result (λ name. length name.now ≤ most_name_bytes) }
    {
        let code = usize::from(code);
        if code == 0 || code > self.table.len() {
            return None;
        }
        Some(self.table.name(code - 1))
    }
}
