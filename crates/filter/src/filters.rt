// A filter: one to eight steps, each code from 1 to 512. The type holds nothing else.
ghost use Rattle.std.specs.Prelude.{◌≡◌, ◌<◌, true, length};
ghost use Rattle.rows.specs.Rows.{items_of};
ghost use Rattle.filter.specs.Filters.{are_tests};

use super::steps::Step;
use rows::Row;
use vocabulary::MOST_STEPS;

pub mod making;

#[derive(Clone, Copy)]
pub struct Filter {
    pub(crate) steps: Row<Step, MOST_STEPS>,
    ghost some: { 0 < length (items_of steps) },
    ghost known: { are_tests (items_of steps) ≡ true },
}
