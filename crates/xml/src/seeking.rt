// Passing over what tells nothing.
ghost use Rattle.std.specs.Prelude.{◌≡◌, ◌≤◌, length};
ghost use Rattle.markup.specs.Readings.{most_text};
ghost use Rattle.xml.specs.Seeks.{SoughtIn, SoughtTold};

use super::items::{At, Piece};
use vocabulary::Fault;

// A start tag or an end tag, at this place.
#[derive(Clone, Copy, Debug, PartialEq, Eq)]
pub(crate) enum Sought<'a> {
    Start(At<'a>),
    End(At<'a>),
}

// The first tag from `start` on, where all before it is text, comments and instructions.
pub(crate) fn seek(message: &[u8], start: usize, inside: bool) -> Result<Option<Sought>, Fault>
    requires within { start ≤ length message.now }
    requires small { length message.now ≤ most_text }
    ensures found { SoughtIn message.now start result }
    ensures told { SoughtTold message.now start inside result }
{
    let mut place = start;
    // What stands at a place says where the next begins, so no iterator counts here.
    while place < message.len() {
        let at = At { message, place };
        match at.item(inside)? {
            Piece::Quiet(next) => place = next,
            Piece::Start => return Ok(Some(Sought::Start(at))),
            Piece::End => return Ok(Some(Sought::End(at))),
        }
    }
    Ok(None)
}
