// The tag at a place of a message: its name, where it ends, and its kind.
ghost use Rattle.std.specs.Prelude.{◌≡◌, ◌+◌, ◌-◌, ◌<◌, ◌≤◌, ◌∷◌, length, drop, [], ◌++◌, is_some};
ghost use Rattle.vocabulary.specs.Names.{name_size};
ghost use Rattle.markup.specs.Bytes.{begins, close_angle};
ghost use Rattle.markup.specs.Runs.{shifted, standing};
ghost use Rattle.markup.specs.Tags.{scan_from};
ghost use Rattle.xml.specs.Items.{IsEndTag};
ghost use Rattle.xml.specs.Tags.{EndNamed, EndTagged, Reads, StartTagged};

use super::items::{At, Span};
use markup::{Ended, Misread, Tag, TagKind};
use vocabulary::names::{is_same_name, name_len};
use vocabulary::{Fault, Question};

// A tag with its name and the number of bytes behind its `<`.
#[derive(Clone, Copy, Debug, PartialEq, Eq)]
pub(crate) struct Tagged {
    pub(crate) kind: TagKind,
    pub(crate) name: Span,
    pub(crate) len: usize,
}

impl<'a> At<'a> {
    // The tag here, of which the name is read already and `tag` says how the reading stands behind it. Each caller has a copy
    // that knows its tag.
    #[inline(always)]
    fn tagged(self, name: Span, tag: Tag) -> Result<Tagged, Fault>
        requires behind { self.place < name.end }
        requires inside { name.end ≤ length self.message.now }
        ensures answer { Reads self.entry.place name (shifted (name.end - (self.entry.place + 1)) (scan_from (standing tag) (drop name.end self.entry.message.now))) result }
    {
        match tag.run(&self.message[name.end..]) {
            Ok(Ended { kind, len }) => Ok(Tagged {
                kind,
                name,
                len: name.end - (self.place + 1) + len,
            }),
            // it fits: this place lies in the message too
            Err(Misread::Misfit(n)) => Err(Question::ByteMisfit.at((name.end + n) as u32)),
            Err(Misread::CutShort) => Err(self.refuse(Question::MarkupNotEnded)),
        }
    }

    // The start tag here.
    pub(crate) fn start_tag(self) -> Result<Tagged, Fault>
        requires named { 0 < name_size (drop (self.place + 1) self.message.now) }
        ensures answer { StartTagged self.entry.message.now self.entry.place result }
    {
        let start = self.place + 1;
        let end = start + name_len(&self.message[start..]);
        self.tagged(Span { start, end }, Tag::Name)
    }

    // The end tag here.
    pub(crate) fn end_tag(self) -> Result<Tagged, Fault>
        requires end_tag { IsEndTag self.message.now self.place }
        ensures answer { EndTagged self.entry.message.now self.entry.place result }
    {
        let start = self.place + 2;
        let size = name_len(&self.message[start..]);
        let end = start + size;
        let tag = if size == 0 {
            Tag::EndFirst
        } else {
            Tag::EndName
        };
        self.tagged(Span { start, end }, tag)
    }

    // The end tag here, if it is this name and a `>` right behind it.
    pub(crate) fn end_named(self, name: &[u8]) -> Option<Tagged>
        requires end_tag { IsEndTag self.message.now self.place }
        requires some { 0 < length name.now }
        requires name { length name.now ≤ name_size name.now }
        ensures answer { EndNamed self.entry.message.now self.entry.place name.now result }
        ensures when { is_some result ≡ begins (name.now ++ close_angle ∷ []) (drop (self.entry.place + 2) self.entry.message.now) }
    {
        let start = self.place + 2;
        if name.len() >= self.message.len() - start {
            return None;
        }
        let end = start + name.len();
        let is_closed = self.message[end] == b'>';
        if !is_closed || !is_same_name(&self.message[start..end], name) {
            return None;
        }
        Some(Tagged {
            kind: TagKind::Closing,
            name: Span { start, end },
            len: 1 + name.len() + 1,
        })
    }
}
