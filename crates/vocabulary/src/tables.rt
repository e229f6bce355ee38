// The table in which a vocabulary finds the code of a name. A name is compared only with those of its bucket.
ghost use Rattle.std.specs.Prelude.{◌≡◌, ℕ, ◌+◌, ◌<◌, ◌≤◌, [], ◌∷◌, ◌++◌, length, slice_index_or, Some};
ghost use Rattle.std.specs.List.{All};
ghost use Rattle.rows.specs.Rows.{items_of};
ghost use Rattle.vocabulary.specs.Entries.{bucket_of, buckets, cut, link_of, names_on, no_link, Heads, Links, LiesIn};
ghost use Rattle.vocabulary.specs.Limits.{most_names, most_name_bytes};
ghost use Rattle.vocabulary.specs.Names.{code_of};

use super::limits::MOST_NAMES;
use super::names::is_same_name;
use rows::Row;

const BUCKETS: usize = 512;

// The code of a name or none, 0 inside: an Option of a code is twice as large, and a table has 1,024 of these.
#[derive(Clone, Copy, Default)]
pub(crate) struct Link {
    pub(crate) code: u16,
}

// Where a name stands in the text, and the code of the one before it in its bucket. A slice of it would be four times as large.
#[derive(Clone, Copy, Default)]
pub(crate) struct Entry {
    pub(crate) start: u16,
    pub(crate) end: u16,
    pub(crate) before: Link,
}

// The names of the text by code, from 1 on, and the newest code of each bucket. No map in place of it: the core uses no heap.
#[derive(Clone, Copy)]
pub(crate) struct Table<'a> {
    pub(crate) text: &'a [u8],
    entries: Row<Entry, MOST_NAMES>,
    heads: [Link; BUCKETS],
    ghost inside: { All (LiesIn text.now) (items_of entries) },
    ghost short: { ((k : ℕ) → k < length (names_on text.now (items_of entries)) → length (slice_index_or (names_on text.now (items_of entries)) k []) ≤ most_name_bytes) },
    ghost whole: { length heads ≡ buckets },
    ghost headed: { Heads text.now (items_of entries) heads },
    ghost linked: { Links text.now (items_of entries) },
}

fn bucket_of(name: &[u8]) -> usize
    // this stands here and on two methods, and not in a type around the name, which each use would take off
    requires short { length name.now ≤ most_name_bytes }
    ensures answer { result ≡ bucket_of name.now }
    ensures within { result < buckets }
{
    let mut sum = 0;
    for (i, byte) in name.iter().enumerate() {
        sum += (i + 1) * usize::from(*byte);
    }
    sum % BUCKETS
}

impl Link {
    // To a name of this code.
    fn to(code: u16) -> Link
        requires some { 0 < code }
        ensures answer { link_of result ≡ Some code }
    {
        Link { code }
    }

    fn get(self) -> Option<u16>
        ensures answer { result ≡ link_of self }
    {
        if self.code == 0 {
            return None;
        }
        Some(self.code)
    }
}

impl Entry {
    // The name, which stands in this text.
    fn name(self, text: &[u8]) -> &[u8]
        requires inside { LiesIn text.now self }
        ensures answer { result.now ≡ cut text.now self }
    {
        &text[usize::from(self.start)..usize::from(self.end)]
    }
}

impl<'a> Table<'a> {
    ghost use Rattle.vocabulary.specs.Tables.{names_in};

    // The table of a text, with none of its names.
    pub(crate) fn new(text: &'a [u8]) -> Table<'a>
        ensures text { result.text.now ≡ text.now }
        ensures names { names_in result ≡ [] }
    {
        Table {
            text,
            entries: Row::new(),
            heads: [Link { code: 0 }; BUCKETS],
        }
    }

    pub(crate) fn len(&self) -> usize
        ensures answer { result ≡ length (names_in self.now) }
    {
        self.entries.len()
    }

    // The name at the index `at`.
    pub(crate) fn name(&self, at: usize) -> &'a [u8]
        requires within { at < length (names_in self.now) }
        ensures answer { result.now ≡ slice_index_or (names_in self.now) at [] }
    {
        self.entries.as_slice()[at].name(self.text)
    }

    pub(crate) fn code_of(&self, name: &[u8]) -> Option<u16>
        requires short { length name.now ≤ most_name_bytes }
        ensures answer { result ≡ code_of (names_in self.now) name.now }
    {
        let mut next = self.heads[bucket_of(name)].get();
        while let Some(code) = next {
            let entry = self.entries.as_slice()[usize::from(code) - 1];
            if is_same_name(entry.name(self.text), name) {
                return Some(code);
            }
            next = entry.before.get();
        }
        None
    }

    // One name more, which stands from `start` to `end` in the text.
    pub(crate) fn add(&mut self, start: u16, end: u16)
        requires room { length (names_in self.old) < most_names }
        requires inside { LiesIn self.old.text.now (record { start = start; end = end; before = no_link }) }
        requires short { end ≤ start + most_name_bytes }
        ensures text { self.new.text.now ≡ self.old.text.now }
        ensures names { names_in self.new ≡ names_in self.old ++ cut self.old.text.now (record { start = start; end = end; before = no_link }) ∷ [] }
    {
        let bucket = bucket_of(&self.text[usize::from(start)..usize::from(end)]);
        let before = self.heads[bucket];
        self.entries.push(Entry { start, end, before }).unwrap();
        // it fits: there are at most 512 names
        self.heads[bucket] = Link::to(self.entries.len() as u16);
    }
}
