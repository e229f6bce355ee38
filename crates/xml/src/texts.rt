// A message as text, and how far it was read.
ghost use Rattle.std.specs.Prelude.{◌≡◌, ◌+◌, ◌≤◌, true, false, [], length, None};
ghost use Rattle.std.specs.List.{All};
ghost use Rattle.rows.specs.Rows.{items_of};
ghost use Rattle.xml.specs.Fields.{end_of, owed, start_of};
ghost use Rattle.xml.specs.Items.{IsName};

use super::items::Span;
use rows::Row;
use vocabulary::{MOST_OPEN, Vocabulary};

pub mod reading;

// The bytes of a message at most.
pub const MOST_TEXT: usize = 1_048_576;

// A message, read up to `place`, and the vocabulary that has the codes of its names: the names of the open elements
// are at `spans`, and `over` says whether the root has ended. `pending` is the `<` of an empty tag whose end is
// still to tell, and `latest` the name of the latest start.
#[derive(Clone, Copy)]
pub struct TextReader<'a, 'v, 'n> {
    message: &'a [u8],
    vocabulary: &'v Vocabulary<'n>,
    place: usize,
    spans: Row<Span, MOST_OPEN>,
    // Not one enum with the names: they would be a part of one variant, and each method would reach them by a match.
    over: bool,
    pending: Option<u32>,
    latest: Option<Span>,
    taken: usize,
    ghost placed: { place ≤ length message.now },
    ghost spelt: { All (IsName message.now) (items_of spans) },
    ghost rooted: { (over ≡ true → items_of spans ≡ []) },
    ghost named: { start_of latest ≤ end_of latest },
    ghost within: { end_of latest ≤ length message.now },
    ghost fewer: { taken + owed pending ≤ place },
    ghost begun: { (taken ≡ 0 → (place ≡ 0) × (items_of spans ≡ []) × (over ≡ false) × (pending ≡ None)) },
}
