// Writing a filter as text.
ghost use Rattle.std.specs.Prelude.{◌≡◌, ◌+◌, ◌-◌, ◌≤◌, ◌++◌, length, take, replicate, IfSome, IfOk, None, Ok};
ghost use Rattle.std.specs.Option.{option_map};
ghost use Rattle.vocabulary.specs.Limits.{most_name_bytes, most_steps};
ghost use Rattle.vocabulary.specs.Readings.{names_of};
ghost use Rattle.filter.specs.Walks.{steps_of};
ghost use Rattle.filter_text.specs.Reads.{read_steps};
ghost use Rattle.filter_text.specs.Texts.{slashes, test_text, text_of, unknown_from};
ghost use Rattle.filter_text.specs.Writes.{filled, text_length, write_answer};

use filter::{Axis, Filter, Step, Test};
use vocabulary::{Fault, Question, Vocabulary};

fn axis_text(axis: Axis) -> &'static [u8]
    ensures answer { result.now ≡ slashes axis }
{
    match axis {
        Axis::Child => b"/",
        Axis::Descendant => b"//",
    }
}

// The text of a test; none where its code is not in the vocabulary.
fn test_text<'a>(test: Test, vocabulary: &Vocabulary<'a>) -> Option<&'a [u8]>
    ensures answer { option_map (λ x. x.now) result ≡ test_text (names_of vocabulary.now) test }
    ensures short { IfSome result (λ text. length text.now ≤ most_name_bytes) }
{
    match test {
        Test::Any => Some(b"*"),
        Test::Code(code) => vocabulary.name_of(code),
    }
}

// How long the text of the steps is, or the fault of the first whose code is not in the vocabulary.
fn text_len(steps: &[Step], vocabulary: &Vocabulary) -> Result<usize, Fault>
    requires few { length steps.now ≤ most_steps }
    ensures answer { result ≡ text_length (names_of vocabulary.now) steps.now }
{
    let mut len = 0;
    for (i, step) in steps.iter().enumerate() {
        // it fits: a filter has at most eight steps
        let unknown = Question::CodeUnknown.at(i as u32 + 1);
        let text = test_text(step.test, vocabulary).ok_or(unknown)?;
        len += axis_text(step.axis).len() + text.len();
    }
    Ok(len)
}

// Copies the text to the place in the buffer, and answers the place after it. Buffer and place are no struct of three functions:
// it would hold the buffer by a `&mut`, which each call lends on.
fn put(text: &[u8], buffer: &mut [u8], place: usize) -> usize
    requires room { place + length text.now ≤ length buffer.old }
    ensures answer { result ≡ place + length text.now }
    ensures buffer { take (place + length text.now) buffer.new ≡ take place buffer.old ++ text.now }
{
    let end = place + text.len();
    buffer[place..end].copy_from_slice(text);
    end
}

// Copies the text of the steps to the front of the buffer.
fn put_steps(steps: &[Step], vocabulary: &Vocabulary, buffer: &mut [u8]) -> usize
    requires known { unknown_from (names_of vocabulary.now) 1 steps.now ≡ None }
    requires room { length (text_of (names_of vocabulary.now) steps.now) ≤ length buffer.old }
    ensures answer { result ≡ length (text_of (names_of vocabulary.now) steps.now) }
    ensures buffer { take result buffer.new ≡ text_of (names_of vocabulary.now) steps.now }
{
    let mut place = 0;
    for step in steps {
        place = put(axis_text(step.axis), buffer, place);
        let text = test_text(step.test, vocabulary).unwrap();
        place = put(text, buffer, place);
    }
    place
}

// Fills the buffer with zeros from the place on.
fn clear_from(buffer: &mut [u8], place: usize)
    requires inside { place ≤ length buffer.old }
    ensures buffer { buffer.new ≡ take place buffer.old ++ replicate (length buffer.old - place) 0 }
{
    buffer[place..].fill(0);
}

// Writes the filter's text and then zeros into the buffer, and answers the text's length; a refusal writes nothing.
pub fn write_filter(
    filter: &Filter,
    vocabulary: &Vocabulary,
    buffer: &mut [u8],
) -> Result<usize, Fault>
    ensures answer { result ≡ write_answer (names_of vocabulary.now) (steps_of filter.now) (length buffer.old) }
    ensures buffer { buffer.new ≡ filled result (text_of (names_of vocabulary.now) (steps_of filter.now)) buffer.old }
    ensures back { IfOk result (λ n. read_steps (names_of vocabulary.now) (take n buffer.new) ≡ Ok (steps_of filter.now)) }
{
    let steps = filter.steps();
    let len = text_len(steps, vocabulary)?;
    if len > buffer.len() {
        return Err(Question::BufferShort.at(0));
    }
    let place = put_steps(steps, vocabulary, buffer);
    clear_from(buffer, place);
    Ok(place)
}
