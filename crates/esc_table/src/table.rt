ghost use Rattle.std.specs.Prelude.{◌≡◌, None, Some, length, IsTrue, MatchOption};
ghost use Rattle.esc_table.specs.Kept.{kept_by};
ghost use Rattle.esc_table.specs.Rows.{rows_of, found, is_distinct};

use crate::run::bytes_kept;
use std::marker::Model;

/// A table of `N` rows, each a character and what is written for it. Contracts see the list of the rows, in which no
/// character stands twice.
#[derive(Debug, Drop)]
pub struct Table<const N: usize> {
    characters: &'static [char; N],
    replacements: &'static [&'static str],
}

impl<const N: usize> Model for Table<N> {
    ghost use Rattle.std.specs.Prelude.{List};
    ghost use Rattle.esc_table.specs.Rows.{EscapeRow, IsTable, rows_of};

    ghost Value = { List EscapeRow };

    ghost view = { λ table. rows_of table.characters.now table.replacements.now };

    ghost invariant = { λ table. IsTable N table.characters.now table.replacements.now };
}

impl<const N: usize> Table<N> {
    /// The table of these characters, each with the replacement at its place. There are as many of both, and no
    /// character stands twice. The macro `table` writes this call, with each character beside its replacement.
    pub fn new(characters: &'static [char; N], replacements: &'static [&'static str]) -> Table<N>
        requires whole { length replacements.now ≡ N }
        requires distinct { IsTrue (is_distinct (rows_of characters.now replacements.now)) }
        ensures { result ≡ rows_of characters.now replacements.now }
    {
        Table {
            characters,
            replacements,
        }
    }

    // The bytes with which no character of the table begins.
    pub(crate) fn kept(&self) -> [bool; 256]
        ensures { result ≡ kept_by self.now }
    {
        let characters = self.characters;
        bytes_kept(characters)
    }

    // The replacement of a character, or nothing if no row has it.
    pub(crate) fn find(&self, character: char) -> Option<&'static str>
        ensures { MatchOption result (found self.now character ≡ None)
            (λ replacement. found self.now character ≡ Some replacement.now) }
    {
        let characters = self.characters;
        let replacements = self.replacements;
        for (i, key) in characters.iter().enumerate() {
            if *key == character {
                return Some(replacements[i]);
            }
        }
        None
    }
}

/// A table of replacements, one row a line, as `table! { '<' => "&lt;", '>' => "&gt;" }`, or with none. Each row is a
/// character and the text that is written for it, both constants. A character that stands in two rows is refused by the
/// prover where the table is written.
#[macro_export]
macro_rules! table {
    ($($character:expr => $replacement:expr),* $(,)?) => {
        $crate::Table::new(&[$($character),*], &[$($replacement),*])
    };
}
