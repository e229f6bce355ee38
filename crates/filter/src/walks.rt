// One filter along the open elements of a message.
ghost use Rattle.std.specs.Prelude.{◌≡◌, length};
ghost use Rattle.vocabulary.specs.Limits.{most_steps};
ghost use Rattle.rows.specs.Rows.{items_of};
ghost use Rattle.filter.specs.Masks.{Columns};

use super::filters::Filter;
use rows::Row;
use vocabulary::{MOST_OPEN, MOST_STEPS};

pub mod acts;

// One filter along an open path. Bit d - 1 of `masks[k]` says that the first k + 1 steps embed at the open element of depth d.
#[derive(Drop)]
pub struct Walk {
    filter: Filter,
    // Beside the filter's steps and not in one row with them: the contracts speak of the filter as a whole.
    masks: [u32; MOST_STEPS],
    path: Row<u16, MOST_OPEN>,
    ghost eight: { length masks ≡ most_steps },
    ghost kept: { Columns (items_of filter.steps) (items_of path) masks (length (items_of path)) },
}
