// Reading filter text into a filter.
ghost use Rattle.std.specs.Prelude.{◌≡◌, ◌+◌, ◌<◌, ◌≤◌, [], length, drop, IfSome, IfOk, OnErr, OnOk};
ghost use Rattle.std.specs.Option.{option_map};
ghost use Rattle.std.specs.Result.{result_map_both, result_unwrap_or};
ghost use Rattle.rows.specs.Rows.{items_of};
ghost use Rattle.vocabulary.specs.Faults.{fault};
ghost use Rattle.vocabulary.specs.Limits.{most_steps};
ghost use Rattle.vocabulary.specs.Readings.{names_of, verdict};
ghost use Rattle.filter.specs.Walks.{steps_of};
ghost use Rattle.filter_text.specs.Reads.{axis_of, most_text, read_from, read_steps, Reading, step_of, test_of};
ghost use Rattle.filter_text.specs.Texts.{text_of};

use filter::{Axis, Filter, Step, Test};
use rows::Row;
use vocabulary::names::name_len;
use vocabulary::{Fault, MOST_NAME_BYTES, MOST_STEPS, Question, Vocabulary};

// The bytes of a filter's text at most.
const MOST_TEXT: usize = 272;

// What is left of a filter's text, and where it stands in the whole.
#[derive(Clone, Copy)]
struct Rest<'a> {
    bytes: &'a [u8],
    place: usize,
    ghost low: { place + length bytes.now ≤ most_text },
}

impl<'a> Rest<'a> {
    // What is left behind the first n bytes.
    fn past(self, n: usize) -> Rest<'a>
        requires within { n ≤ length self.bytes.now }
        ensures bytes { result.bytes.now ≡ drop n self.entry.bytes.now }
        ensures place { result.place ≡ self.entry.place + n }
        ensures len { length result.bytes.now + n ≡ length self.entry.bytes.now }
    {
        Rest {
            bytes: &self.bytes[n..],
            place: self.place + n,
        }
    }

    // This question's no at the first byte.
    fn refuse(self, question: Question) -> Fault
        ensures answer { result ≡ fault question self.entry.place }
    {
        // the place fits: no text that is read has more than 272 bytes
        question.at(self.place as u32)
    }

    // The axis at the front, and what comes after it.
    fn axis(self) -> Option<(Axis, Rest<'a>)>
        ensures answer { option_map (λ x. (x.0, x.1.bytes.now)) result ≡ axis_of self.entry.bytes.now }
        ensures shorter { IfSome result (λ x. length x.1.bytes.now < length self.entry.bytes.now) }
        ensures place { IfSome result (λ x. x.1.place + length x.1.bytes.now ≡ self.entry.place + length self.entry.bytes.now) }
    {
        match self.bytes {
            [b'/', b'/', ..] => Some((Axis::Descendant, self.past(2))),
            [b'/', ..] => Some((Axis::Child, self.past(1))),
            _ => None,
        }
    }

    // The test at the front, and what comes after it.
    fn test(self, vocabulary: &Vocabulary) -> Result<(Test, Rest<'a>), Fault>
        ensures answer { result_map_both (λ x. (x.0, x.1.bytes.now)) (λ f. f) result ≡ test_of (names_of vocabulary.now) self.entry.place self.entry.bytes.now }
        ensures shorter { IfOk result (λ x. length x.1.bytes.now ≤ length self.entry.bytes.now) }
        ensures place { IfOk result (λ x. x.1.place + length x.1.bytes.now ≡ self.entry.place + length self.entry.bytes.now) }
    {
        if let [b'*', ..] = self.bytes {
            return Ok((Test::Any, self.past(1)));
        }
        let len = name_len(self.bytes);
        if len == 0 {
            return Err(self.refuse(Question::StepNoTest));
        }
        if len > MOST_NAME_BYTES {
            return Err(self.refuse(Question::StepNameLong));
        }
        let unknown = self.refuse(Question::StepNameUnknown);
        let code = vocabulary.code_of(&self.bytes[..len]).ok_or(unknown)?;
        Ok((Test::Code(code), self.past(len)))
    }

    // The step at the front, and what comes after it.
    fn step(self, vocabulary: &Vocabulary) -> Result<(Step, Rest<'a>), Fault>
        ensures answer { result_map_both (λ x. (x.0, x.1.bytes.now)) (λ f. f) result ≡ step_of (names_of vocabulary.now) self.entry.place self.entry.bytes.now }
        ensures shorter { IfOk result (λ x. length x.1.bytes.now < length self.entry.bytes.now) }
        ensures place { IfOk result (λ x. x.1.place + length x.1.bytes.now ≡ self.entry.place + length self.entry.bytes.now) }
    {
        let (axis, rest) = self.axis().ok_or(self.refuse(Question::StepNoSlash))?;
        let (test, rest) = rest.test(vocabulary)?;
        Ok((Step { axis, test }, rest))
    }
}

// The steps of the whole text.
fn read_row(text: &[u8], vocabulary: &Vocabulary) -> Result<Row<Step, MOST_STEPS>, Fault>
    requires small { length text.now ≤ most_text }
    ensures answer { result_map_both items_of (λ f. f) result ≡ read_from (names_of vocabulary.now) most_steps [] 0 text.now }
{
    let mut steps = Row::new();
    let mut rest = Rest {
        bytes: text,
        place: 0,
    };
    while !rest.bytes.is_empty() {
        if steps.is_full() {
            return Err(rest.refuse(Question::TooManySteps));
        }
        let (step, after) = rest.step(vocabulary)?;
        steps.push(step).unwrap();
        rest = after;
    }
    Ok(steps)
}

// The filter of the text, or its first fault.
pub fn parse_filter(text: &[u8], vocabulary: &Vocabulary) -> Result<Filter, Fault>
    ensures answer { result_map_both steps_of (λ f. f) result ≡ read_steps (names_of vocabulary.now) text.now }
    ensures back { IfOk result (λ filter. text_of (names_of vocabulary.now) (steps_of filter) ≡ text.now) }
    ensures theorem { Reading }
{
    if !(1..=MOST_TEXT).contains(&text.len()) {
        return Err(Question::FilterSize.at(0));
    }
    let steps = read_row(text, vocabulary)?;
    Ok(Filter::from_steps(steps.as_slice()).unwrap())
}

// Reads the text into the filter; a refusal leaves the filter as it was.
pub fn read_filter(text: &[u8], vocabulary: &Vocabulary, filter: &mut Filter) -> Result<(), Fault>
    ensures answer { result ≡ verdict (read_steps (names_of vocabulary.now) text.now) }
    ensures after { steps_of filter.new ≡ result_unwrap_or (read_steps (names_of vocabulary.now) text.now) (steps_of filter.old) }
    ensures unchanged { OnErr result (filter.new ≡ filter.old) }
    ensures back { OnOk result (text_of (names_of vocabulary.now) (steps_of filter.new) ≡ text.now) }
    ensures theorem { Reading }
{
    *filter = parse_filter(text, vocabulary)?;
    Ok(())
}
