// A vocabulary over borrowed bytes. Every value of the type is an accepted one, or a fresh one with no names.
ghost use Rattle.std.specs.Prelude.{◌≡◌};
ghost use Rattle.std.specs.List.{flat_map};
ghost use Rattle.vocabulary.specs.Tables.{names_in};
ghost use Rattle.vocabulary.specs.Vocabularies.{line, EachName, NoTwo};

use super::tables::Table;

pub mod reading;

#[derive(Clone, Copy)]
pub struct Vocabulary<'a> {
    table: Table<'a>,
    ghost spelled: { table.text.now ≡ flat_map line (names_in table) },
    ghost each: { EachName (names_in table) },
    ghost once: { NoTwo (names_in table) },
}
