// A step of a filter: an axis and a test.
ghost use Rattle.std.specs.Prelude.{◌≡◌};
ghost use Rattle.filter.specs.Embedding.{fits};
ghost use Rattle.filter.specs.Filters.{is_test};

use vocabulary::MOST_NAMES;

// How a step goes on from the step before it: `/` to a child, `//` to any element below.
#[derive(Clone, Copy, Debug, Default, PartialEq, Eq)]
pub enum Axis {
    #[default]
    Child,
    Descendant,
}

// What a step asks of an element's code: nothing, or that it is this code. The rules speak of it by these names.
#[derive(Clone, Copy, Debug, Default, PartialEq, Eq)]
pub enum Test {
    #[default]
    Any,
    Code(u16),
}

// The default is the step of a fresh filter, `/*`.
#[derive(Clone, Copy, Debug, Default, PartialEq, Eq)]
pub struct Step {
    pub axis: Axis,
    pub test: Test,
}

impl Test {
    // Whether an element of this code fits the test. A match, since `matches!` would need two patterns and a guard.
    pub fn accepts(self, code: u16) -> bool
        ensures answer { result ≡ fits self code }
    {
        match self {
            Test::Any => true,
            Test::Code(wanted) => code == wanted,
        }
    }

    // Whether a filter may hold the test: a code is 1 to 512. A match for the same reason.
    pub fn is_known(self) -> bool
        ensures answer { result ≡ is_test self }
    {
        match self {
            Test::Any => true,
            Test::Code(code) => (1..=MOST_NAMES).contains(&usize::from(code)),
        }
    }
}
