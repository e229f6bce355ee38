// A recording, and how far it was read.
ghost use Rattle.std.specs.Prelude.{◌≡◌, ◌≤◌, false, length};
ghost use Rattle.vocabulary.specs.Limits.{most_open};

pub mod reading;

// The words of a recording at most.
pub const MOST_WORDS: usize = 1_048_576;

// What a word stands for. An end is no lack of a start, and so there is no Option.
#[derive(Clone, Copy, Debug, PartialEq, Eq)]
pub enum Word {
    End,
    Start(u16),
}

// Words, of which `at` were read: `depth` elements are open, and `over` says whether the root has ended.
#[derive(Clone, Copy)]
pub struct Recording<'a> {
    words: &'a [u16],
    at: usize,
    depth: usize,
    // Not one enum with the depth: an end would be a match over its states in place of two assignments.
    over: bool,
    ghost within: { at ≤ length words.now },
    ghost shallow: { depth ≤ most_open },
    ghost begun: { (at ≡ 0 → (depth ≡ 0) × (over ≡ false)) },
}
